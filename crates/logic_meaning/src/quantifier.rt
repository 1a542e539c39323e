ghost use Rattle.std.specs.Prelude.{◌≡◌};
ghost use Rattle.logic_meaning.specs.Plain.{turned_quantifier};

/// For some value, or for all.
#[derive(Clone, Copy, Debug, PartialEq, Eq, Hash)]
pub enum Quantifier {
    Exists,
    ForAll,
}

impl Quantifier {
    /// What the quantifier becomes in the negation normal form of a negation. It takes no memory.
    pub fn turned(self, negated: bool) -> Quantifier
        ensures { result ≡ turned_quantifier negated self }
    {
        match (self, negated) {
            (Quantifier::Exists, false) | (Quantifier::ForAll, true) => Quantifier::Exists,
            (Quantifier::ForAll, false) | (Quantifier::Exists, true) => Quantifier::ForAll,
        }
    }
}
