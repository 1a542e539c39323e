ghost use Rattle.std.specs.Prelude.{◌≡◌, ◌+◌, ◌<◌, ◌^◌, max, min, ◌||◌, true, false};
ghost use Rattle.formula_store.specs.Facts.{most_nodes};

/// What is known of a formula without looking at it again.
#[derive(Clone, Copy, Debug, PartialEq, Eq)]
pub struct Facts {
    /// An atom or a constant has the height 1.
    pub height: u64,
    /// The nodes of the tree, 2^64 - 1 where there are more.
    pub nodes: u64,
    /// Whether a quantifier stands in the formula.
    pub quantified: bool,
}

impl Facts {
    // The facts of no formula at all.
    pub(crate) const NONE: Facts = Facts {
        height: 0,
        nodes: 0,
        quantified: false,
    };

    // The facts of two lists of formulas together.
    pub(crate) fn joined(self, other: Facts) -> Facts
        ensures height { result.height ≡ max self.height other.height }
        ensures nodes { result.nodes ≡ min (self.nodes + other.nodes) most_nodes }
        ensures quantified { result.quantified ≡ (self.quantified || other.quantified) }
    {
        Facts {
            height: self.height.max(other.height),
            nodes: self.nodes.saturating_add(other.nodes),
            quantified: self.quantified | other.quantified,
        }
    }

    // The facts of a formula whose members have these facts together.
    pub(crate) fn above(self) -> Facts
        requires { self.height + 1 < 2 ^ 64 }
        ensures height { result.height ≡ self.height + 1 }
        ensures nodes { result.nodes ≡ min (self.nodes + 1) most_nodes }
        ensures quantified { result.quantified ≡ self.quantified }
    {
        Facts {
            height: self.height + 1,
            nodes: self.nodes.saturating_add(1),
            quantified: self.quantified,
        }
    }

    // The facts of a formula that begins with a quantifier over one with these facts.
    pub(crate) fn quantified(self) -> Facts
        ensures height { result.height ≡ self.height }
        ensures nodes { result.nodes ≡ self.nodes }
        ensures quantified { result.quantified ≡ true }
    {
        Facts {
            quantified: true,
            ..self
        }
    }
}
