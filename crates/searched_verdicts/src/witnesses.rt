// Values of the first names at a point.

ghost use Rattle.std.specs.Prelude.{◌≡◌, ◌<ℤ◌, pos, map, IfOk, IfSome};
ghost use Rattle.exact_numbers.specs.Fraction.{frac_of};
ghost use Rattle.searched_verdicts.specs.Witnesses.{lowest_from};

use exact_numbers::Fraction;
use formula_tree::Values;
use logic_meaning::VarId;
use std::alloc::{AllocError, Global};

// The values of the first so many names at the numbers, in lowest terms; `None` where one of the numbers is -2^127, which no fraction has.
pub(crate) fn witnesses_at(
    alloc: Global,
    at: &Values,
    count: usize,
) -> Result<Option<Vec<Fraction>>, AllocError>
    ensures values { IfOk result (λ found. IfSome found (λ v. map frac_of v.items ≡ lowest_from at.now 0 count)) }
    ensures positive { pos 0 <ℤ at.now.denominator }
{
    let denominator = at.denominator();
    let mut values = Vec::new(alloc);
    for number in 0..count {
        let numerator = at.get(VarId { number });
        if numerator == i128::MIN {
            return Ok(None);
        }
        values.push(Fraction::reduced(numerator, denominator))?;
    }
    Ok(Some(values))
}
