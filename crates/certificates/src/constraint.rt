// Linear constraints, and which multiples of them may be added up.
ghost use Rattle.std.specs.Prelude.{IsTrue, ◌↔◌, map};
ghost use Rattle.logic_meaning.specs.Farkas.{IsAllowed, IsStrictly, AreAllowed, SomeStrict};
ghost use Rattle.certificates.specs.Constraints.{bound_of, constraint_of};

use linear_forms::Linear;

/// What the value of a form is to be: 0, at most 0, or below 0.
#[derive(Clone, Copy, Debug, PartialEq, Eq)]
pub enum Bound {
    Equal,
    AtMost,
    Below,
}

/// A linear form, and what its value is to be.
#[derive(Debug, Drop)]
pub struct Constraint {
    pub form: Linear,
    pub bound: Bound,
}

impl Constraint {
    // Whether such a multiple may be added: any of an equation, and one that isn't negative of an inequality.
    fn allows(&self, multiplier: i128) -> bool
        ensures { IsTrue result ↔ IsAllowed (bound_of self.now.bound) multiplier }
    {
        match self.bound {
            Bound::Equal => true,
            Bound::AtMost | Bound::Below => 0 <= multiplier,
        }
    }

    // Whether the sum with such a multiple is to be below 0.
    fn makes_strict(&self, multiplier: i128) -> bool
        ensures { IsTrue result ↔ IsStrictly (bound_of self.now.bound) multiplier }
    {
        match self.bound {
            Bound::Equal | Bound::AtMost => false,
            Bound::Below => 0 < multiplier,
        }
    }
}

// Whether there is one multiplier for each constraint, and each is allowed.
pub(crate) fn are_allowed(constraints: &[Constraint], multipliers: &[i128]) -> bool
    ensures { IsTrue result ↔ AreAllowed (map constraint_of constraints.now) multipliers.now }
{
    constraints.len() == multipliers.len()
        && constraints
            .iter()
            .zip(multipliers)
            .all(|(constraint, multiplier)| constraint.allows(*multiplier))
}

// Whether some strict constraint has a positive multiplier.
pub(crate) fn some_strict(constraints: &[Constraint], multipliers: &[i128]) -> bool
    ensures { IsTrue result ↔ SomeStrict (map constraint_of constraints.now) multipliers.now }
{
    let mut pairs = constraints.iter().zip(multipliers);
    pairs.any(|(constraint, multiplier)| constraint.makes_strict(*multiplier))
}
