ghost use Rattle.std.specs.Prelude.{◌≡◌};
ghost use Rattle.logic_meaning.specs.TurnedJunction.{turned_junction};

/// What joins the members of a list: `and`, or `or`.
#[derive(Clone, Copy, Debug, PartialEq, Eq, Hash)]
pub enum Junction {
    Conjunction,
    Disjunction,
}

impl Junction {
    /// What the junction becomes in the negation normal form of a negation. It takes no memory.
    pub fn turned(self, negated: bool) -> Junction
        ensures { result ≡ turned_junction negated self }
    {
        match (self, negated) {
            (Junction::Conjunction, false) | (Junction::Disjunction, true) => Junction::Conjunction,
            (Junction::Disjunction, false) | (Junction::Conjunction, true) => Junction::Disjunction,
        }
    }
}
