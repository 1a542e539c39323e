//! Literals and clauses.

ghost use Rattle.std.specs.Prelude.{◌≡◌};
ghost use Rattle.clause_theory.specs.Turned.{turned};

/// That the formula for which a variable stands is true, or that it is not.
#[derive(Clone, Copy, Debug, PartialEq, Eq)]
pub struct Literal {
    pub variable: usize,
    pub holds: bool,
}

impl Literal {
    /// The literal of the opposite.
    pub fn turned(self) -> Literal
        ensures { result ≡ turned self }
    {
        Literal {
            variable: self.variable,
            holds: !self.holds,
        }
    }
}

/// Literals of which not all fail.
#[derive(Debug, Drop)]
pub struct Clause {
    pub literals: Vec<Literal>,
}
