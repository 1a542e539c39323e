//! Values that are known, and their numbers over the least common denominator.

ghost use Rattle.std.specs.Prelude.{◌≡◌, ◌∷◌, [], ◌++◌, List, pos, ◌<ℤ◌, Some, IfOk, IfErr, MatchOption, IsTrue, ◌↔◌};
ghost use Rattle.exact_numbers.specs.Divides.{lcm_of};
ghost use Rattle.exact_numbers.specs.Frac.{lowest};
ghost use Rattle.exact_numbers.specs.Fraction.{frac_of};
ghost use Rattle.exact_numbers.specs.Limit.{checked, PastLimit};
ghost use Rattle.sample_reference.specs.Seen.{value_of, values_of};
ghost use Rattle.logic_meaning.specs.Values.{Value};
ghost use Rattle.plain_samples.specs.Told.{IsPointOver};
ghost use Rattle.engine_answers.specs.Points.{IsCommonPoint, IsWithNumber, known_of, HasValuePastLimit};

use crate::error::SampleError;
use exact_numbers::{Fraction, lcm, residue};
use linear_forms::Values;
use logic_meaning::VarId;
use plain_samples::point_of_values;
use std::alloc::{AllocError, Global};
use test_points::PointError;

/// The values of the names of a point, in lowest terms. `Overflow` comes only where one of them passes 2^127 - 1, else `Memory`.
pub(crate) fn known_values(
    alloc: Global,
    at: &Values,
) -> Result<Vec<(VarId, Fraction)>, SampleError>
    ensures known { IfOk result (λ v. values_of v.items ≡ known_of at.now) }
    ensures overflow { IfErr result (λ e. e ≡ SampleError.Overflow → HasValuePastLimit at.now) }
{
    let denominator = at.denominator();
    let mut known = Vec::new(alloc);
    for name in &at.names(alloc)? {
        let Some(value) = lowest_value(at.get(*name), denominator) else {
            return Err(SampleError::Overflow);
        };
        known.push((*name, value)).map_err(|_| SampleError::Memory)?;
    }
    Ok(known)
}

// The fraction in lowest terms; `None` exactly where its numerator passes 2^127 - 1, as only -2^127 over an odd number does.
fn lowest_value(number: i128, denominator: i128) -> Option<Fraction>
    requires { pos 0 <ℤ denominator }
    ensures { MatchOption result (PastLimit (lowest number denominator).numerator) (λ r. frac_of r ≡ lowest number denominator) }
{
    if number != i128::MIN {
        Some(Fraction::reduced(number, denominator))
    } else if residue(denominator, 2) == 0 {
        Some(Fraction::reduced(number / 2, denominator / 2))
    } else {
        None
    }
}

/// The numbers of the values over their least common denominator; `None` exactly where it or a number over it passes 2^127 - 1.
pub(crate) fn common_point(
    alloc: Global,
    found: &[(VarId, Fraction)],
) -> Result<Option<Values>, AllocError>
    ensures { IfOk result (IsCommonPoint (values_of found.now)) }
{
    match point_of_values(alloc, found) {
        Ok(numbers) => Ok(Some(numbers)),
        Err(PointError::Overflow) => Ok(None),
        Err(PointError::Nodes | PointError::Memory) => Err(AllocError),
    }
}

/// The same of values of which all but the last have these numbers. They are put over a new denominator only where the old one is
/// no multiple of that of the last value, which happens at most 127 times.
pub(crate) fn point_with_last(
    alloc: Global,
    numbers: Values,
    last: (VarId, Fraction),
    found: &[(VarId, Fraction)],
) -> Result<Option<Values>, AllocError>
    ensures { (before : List Value) → values_of found.now ≡ before ++ value_of last ∷ [] → IsPointOver before numbers → IfOk result (IsCommonPoint (values_of found.now)) }
{
    if is_over(&numbers, last.1) {
        with_number(numbers, last)
    } else {
        common_point(alloc, found)
    }
}

// Whether the denominator of the numbers is a multiple of that of the value.
fn is_over(numbers: &Values, value: Fraction) -> bool
    ensures { IsTrue result ↔ (checked (lcm_of numbers.now.denominator value.denominator) ≡ Some numbers.now.denominator) }
{
    lcm(numbers.denominator(), value.denominator) == Some(numbers.denominator())
}

// The numbers with that of one more value over their denominator; `None` exactly where it passes 2^127 - 1.
fn with_number(mut numbers: Values, value: (VarId, Fraction)) -> Result<Option<Values>, AllocError>
    ensures { IfOk result (IsWithNumber (value_of value) numbers) }
{
    match value.1.scaled(numbers.denominator()) {
        Some(number) => {
            numbers.put(value.0, number).map_err(|_| AllocError)?;
            Ok(Some(numbers))
        }
        None => Ok(None),
    }
}
