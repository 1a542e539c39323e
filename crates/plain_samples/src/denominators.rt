// Values of names over one denominator.
ghost use Rattle.std.specs.Prelude.{◌≡◌, pos, ◌<ℤ◌, Some, IfSome, MatchResult};
ghost use Rattle.nnf_trees.specs.Placed.{Fails};
ghost use Rattle.sample_reference.specs.Seen.{values_of};
ghost use Rattle.logic_meaning.specs.Values.{multiple_with, numerators_within, common_denominator};
ghost use Rattle.plain_samples.specs.Told.{Lacks, AreOver, IsPointOver};

use exact_numbers::{Fraction, lcm};
use linear_forms::Values;
use logic_meaning::VarId;
use std::alloc::Global;
use test_points::PointError;

// The least common multiple of the denominators, formed with one after the other. `None` exactly where one passes 2^127 - 1.
fn common_multiple(found: &[(VarId, Fraction)]) -> Option<i128>
    ensures multiple { result ≡ multiple_with (pos 1) (values_of found.now) }
    ensures positive { IfSome result (λ d. pos 0 <ℤ d) }
{
    let mut multiple = 1;
    for value in found {
        multiple = lcm(multiple, value.1.denominator)?;
    }
    Some(multiple)
}

// The numerators over a denominator; each other name is at 0. `Overflow` comes exactly where a numerator passes 2^127 - 1, else
// `Memory`.
fn values_over(
    alloc: Global,
    denominator: i128,
    found: &[(VarId, Fraction)],
) -> Result<Values, PointError>
    requires { pos 0 <ℤ denominator }
    ensures { MatchResult result (AreOver denominator (values_of found.now)) (λ e. Fails e (numerators_within denominator (values_of found.now))) }
{
    let mut values = Values::new(alloc, denominator);
    for value in found {
        let Some(number) = value.1.scaled(denominator) else {
            return Err(PointError::Overflow);
        };
        values.put(value.0, number).map_err(|_| PointError::Memory)?;
    }
    Ok(values)
}

/// The values over their least common denominator; each other name is at 0. `Overflow` comes exactly where it or a numerator over
/// it passes 2^127 - 1, else `Memory`.
pub fn point_of_values(alloc: Global, found: &[(VarId, Fraction)]) -> Result<Values, PointError>
    ensures { MatchResult result (IsPointOver (values_of found.now)) (λ e. Lacks e (common_denominator (values_of found.now))) }
{
    match common_multiple(found) {
        Some(denominator) => values_over(alloc, denominator, found),
        None => Err(PointError::Overflow),
    }
}
