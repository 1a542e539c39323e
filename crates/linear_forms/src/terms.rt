// Sorted lists of names with coefficients: look-up, greatest common divisor, division.
ghost use Rattle.std.specs.Prelude.{◌≡◌, ℤ, pos, ◌*ℤ◌, ◌<ℤ◌, IfOk};
ghost use Rattle.std.specs.List.{AllZip};
ghost use Rattle.logic_meaning.specs.Form.{multiple};
ghost use Rattle.exact_numbers.specs.Limit.{InLimit};
ghost use Rattle.exact_numbers.specs.Divides.{content_of};
ghost use Rattle.exact_numbers.specs.Division.{DividesAll, IsContent};
ghost use Rattle.logic_meaning.specs.Sorted.{IsRising};
ghost use Rattle.logic_meaning.specs.Terms.{AllInLimit, coefficients};
ghost use Rattle.linear_forms.specs.Linear.{terms_of, IsDivided};
ghost use Rattle.logic_meaning.specs.Reduction.{residues};

use exact_numbers::{gcd, residue};
use logic_meaning::VarId;
use std::alloc::{AllocError, Global};

// The coefficient of a name, 0 where it does not stand in the list: a binary search.
pub(crate) fn coefficient(terms: &[(VarId, i128)], name: VarId) -> i128
    requires { IsRising (terms_of terms.now) }
    ensures { result ≡ multiple name.number (terms_of terms.now) }
{
    match terms.binary_search_by(|term| term.0.number.cmp(&name.number)) {
        Ok(place) => terms[place].1,
        Err(_) => 0,
    }
}

// The greatest common divisor of the coefficients.
pub(crate) fn content(terms: &[(VarId, i128)]) -> i128
    requires { AllInLimit (terms_of terms.now) }
    ensures greatest { IsContent (coefficients (terms_of terms.now)) result }
    ensures value { result ≡ content_of (coefficients (terms_of terms.now)) }
    ensures within { InLimit result }
{
    let mut divisor = 0;
    for term in terms {
        divisor = gcd(divisor, term.1);
    }
    divisor
}

// The terms with each coefficient divided by a number that divides all.
pub(crate) fn divided(
    alloc: Global,
    terms: &[(VarId, i128)],
    by: i128,
) -> Result<Vec<(VarId, i128)>, AllocError>
    requires nonzero { ¬ (by ≡ pos 0) }
    requires within { AllInLimit (terms_of terms.now) }
    requires divides { DividesAll by (coefficients (terms_of terms.now)) }
    ensures { IfOk result (λ v. AllZip (IsDivided by) terms.now v.items) }
{
    let mut quotients = Vec::with_capacity(alloc, terms.len())?;
    for term in terms {
        quotients.push((term.0, term.1 / by))?;
    }
    Ok(quotients)
}

// The terms with each coefficient modulo a positive number, without the names whose coefficient becomes 0.
pub(crate) fn residues(
    alloc: Global,
    terms: &[(VarId, i128)],
    modulus: i128,
) -> Result<Vec<(VarId, i128)>, AllocError>
    requires { pos 0 <ℤ modulus }
    ensures { IfOk result (λ v. terms_of v.items ≡ residues modulus (terms_of terms.now)) }
{
    let mut kept = Vec::new(alloc);
    for term in terms {
        let rest = residue(term.1, modulus);
        if rest != 0 {
            kept.push((term.0, rest))?;
        }
    }
    Ok(kept)
}
