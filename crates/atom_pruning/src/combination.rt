//! Constraints beside multipliers of them.

ghost use Rattle.std.specs.Prelude.{◌≡◌, ◌++◌, [], ◌∷◌, ℕ, IfOk, OnOk, IsTrue, map};
ghost use Rattle.logic_meaning.specs.Context.{Fields};
ghost use Rattle.logic_meaning.specs.Point.{Point, Of};
ghost use Rattle.linear_theory.specs.Meeting.{MeetsAll};
ghost use Rattle.certificates.specs.Constraints.{constraint_of};

use certificates::{CertError, Constraint, check};
use std::alloc::{AllocError, Global};

// Constraints, and a multiplier for each.
#[derive(Drop)]
pub(crate) struct Combination {
    pub(crate) constraints: Vec<Constraint>,
    multipliers: Vec<i128>,
}

impl Combination {
    // No constraints.
    pub(crate) fn new(alloc: Global) -> Combination
        ensures { result.constraints.items ≡ [] }
    {
        Combination {
            constraints: Vec::new(alloc),
            multipliers: Vec::new(alloc),
        }
    }

    // Adds a copy of a constraint behind the others.
    pub(crate) fn add(
        &mut self,
        alloc: Global,
        constraint: &Constraint,
        multiplier: i128,
    ) -> Result<(), AllocError>
        ensures { OnOk result (map constraint_of self.new.constraints.items ≡ map constraint_of self.old.constraints.items ++ constraint_of constraint.now ∷ []) }
    {
        let copy = Constraint {
            form: constraint.form.copy(alloc)?,
            bound: constraint.bound,
        };
        self.constraints.push(copy)?;
        self.multipliers.push(multiplier)?;
        Ok(())
    }

    // Whether the multipliers prove that no point meets the constraints; not where a number passes 2^127 - 1.
    pub(crate) fn refutes(&self, alloc: Global) -> Result<bool, AllocError>
        ensures { IfOk result (λ b. IsTrue b → (p : Point ℕ) → Of Fields p → ¬ (MeetsAll p (map constraint_of self.now.constraints.items))) }
    {
        match check(alloc, &self.constraints, &self.multipliers) {
            Ok(refuted) => Ok(refuted),
            Err(CertError::Memory) => Err(AllocError),
            Err(CertError::Overflow | CertError::Nodes) => Ok(false),
        }
    }
}
