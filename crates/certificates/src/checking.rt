// Whether multipliers prove that no point meets some constraints.
ghost use Rattle.std.specs.Prelude.{◌≡◌, ◌⊎◌, pos, ◌<ℤ◌, IsTrue, ◌↔◌, IfOk, IfErr, OnOk, IsErrOf, map};
ghost use Rattle.logic_meaning.specs.Sorted.{gathered};
ghost use Rattle.logic_meaning.specs.Farkas.{nothing, AreAllowed, sum_from, SomeStrict, IsFarkas, SumPasses};
ghost use Rattle.certificates.specs.Constraints.{constraint_of};
ghost use Rattle.certificates.specs.Stops.{StopsCheck};

use crate::constraint::{Constraint, are_allowed, some_strict};
use crate::error::CertError;
use linear_forms::{LinError, Linear};
use std::alloc::Global;

/// Whether the multipliers prove that no point of the ordered fields meets the constraints: there is one for each, those of
/// inequalities aren't negative, and the sum of the multiplied forms has no names and a positive constant, or 0 where a
/// strict inequality has a positive multiplier (Farkas, "Theorie der einfachen Ungleichungen", 1902).
/// `Overflow` comes exactly where there is one multiplier for each constraint, none of an inequality is negative, and a
/// product or partial sum, in the order of the constraints, passes 2^127 - 1; `Nodes` never; else `Memory`.
pub fn check(
    alloc: Global,
    constraints: &[Constraint],
    multipliers: &[i128],
) -> Result<bool, CertError>
    ensures decides { IfOk result (λ b. IsTrue b ↔ IsFarkas (map constraint_of constraints.now) multipliers.now) }
    ensures within { OnOk result (AreAllowed (map constraint_of constraints.now) multipliers.now → ¬ (SumPasses nothing (map constraint_of constraints.now) multipliers.now)) }
    ensures stopped { IfErr result (λ e. StopsCheck e (map constraint_of constraints.now) multipliers.now) }
{
    if !are_allowed(constraints, multipliers) {
        return Ok(false);
    }
    let sum = sum_of_multiples(alloc, constraints, multipliers)?;
    Ok(sum.places() == 0 && is_impossible(sum.constant_part(), constraints, multipliers))
}

// The sum of the multiplied forms, in the order of the constraints.
fn sum_of_multiples(
    alloc: Global,
    constraints: &[Constraint],
    multipliers: &[i128],
) -> Result<Linear, LinError>
    ensures sum { IfOk result (λ s. s ≡ gathered (sum_from nothing (map constraint_of constraints.now) multipliers.now)) }
    ensures within { OnOk result (¬ (SumPasses nothing (map constraint_of constraints.now) multipliers.now)) }
    ensures overflow { IsErrOf result LinError.Overflow → SumPasses nothing (map constraint_of constraints.now) multipliers.now }
{
    let mut sum = Linear::constant(alloc, 0);
    for (constraint, multiplier) in constraints.iter().zip(multipliers) {
        sum = sum.combine(alloc, 1, &constraint.form, *multiplier)?;
    }
    Ok(sum)
}

// Whether a sum of the multiples that is this number isn't as it is to be: at most 0, and below 0 where a multiple makes it strict.
fn is_impossible(constant: i128, constraints: &[Constraint], multipliers: &[i128]) -> bool
    ensures { IsTrue result ↔ ((pos 0 <ℤ constant) ⊎ ((constant ≡ pos 0) × SomeStrict (map constraint_of constraints.now) multipliers.now)) }
{
    0 < constant || constant == 0 && some_strict(constraints, multipliers)
}
