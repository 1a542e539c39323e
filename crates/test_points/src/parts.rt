// Forms with a name put at a form over a number.
ghost use Rattle.std.specs.Prelude.{◌≡◌, negsuc, neg_ℤ, if◌then◌else◌, IfOk, IsErrOf};
ghost use Rattle.exact_numbers.specs.Limit.{InLimit};
ghost use Rattle.logic_meaning.specs.Form.{coefficient, others, scaled, without, scale};
ghost use Rattle.linear_forms.specs.Combinations.{IsLinear, IsCombination};
ghost use Rattle.linear_forms.specs.Linear.{terms_of};
ghost use Rattle.logic_meaning.specs.Terms.{CombinePasses};

use linear_forms::{LinError, Linear};
use logic_meaning::VarId;
use std::alloc::{AllocError, Global};

// The number, or the one with the other sign.
fn signed(number: i128, negative: bool) -> i128
    requires { InLimit number }
    ensures value { result ≡ (if negative then neg_ℤ number else number) }
    ensures within { InLimit result }
{
    if negative { -number } else { number }
}

// The terms of all names but one, or the negatives of these.
fn other_terms(
    alloc: Global,
    form: &Linear,
    x: VarId,
    negative: bool,
) -> Result<Vec<(VarId, i128)>, AllocError>
    ensures { IfOk result (λ v. terms_of v.items ≡ (if negative then scaled (negsuc 0) (others x.number form.now.terms) else others x.number form.now.terms)) }
{
    let mut kept = Vec::with_capacity(alloc, form.places().saturating_sub(1))?;
    for place in 0..form.places() {
        if let Some((name, times)) = form.term(place) {
            if name.number != x.number {
                kept.push((name, signed(times, negative)))?;
            }
        }
    }
    Ok(kept)
}

/// The form without the terms of a name, or the negative of that.
pub fn rest(alloc: Global, form: &Linear, x: VarId, negative: bool) -> Result<Linear, AllocError>
    ensures value { IfOk result (λ r. r ≡ (if negative then scale (negsuc 0) (without x.number form.now) else without x.number form.now)) }
    ensures linear { IfOk result IsLinear }
{
    let terms = other_terms(alloc, form, x, negative)?;
    Ok(Linear::of(terms, signed(form.constant_part(), negative)))
}

/// The form `a * end + over * t` that the form `a * x + t` becomes with `end` over `over` for `x`, times `over`.
/// `Overflow` comes exactly where a product or a sum of one place passes 2^127 - 1, else `Memory`.
pub fn form_at(
    alloc: Global,
    form: &Linear,
    x: VarId,
    end: &Linear,
    over: i128,
) -> Result<Linear, LinError>
    ensures combined { IfOk result (IsCombination (coefficient x.number form.now) end.now over (without x.number form.now)) }
    ensures overflow { IsErrOf result LinError.Overflow → CombinePasses (coefficient x.number form.now) end.now over (without x.number form.now) }
{
    let rest = rest(alloc, form, x, false)?;
    end.combine(alloc, form.coefficient(x), &rest, over)
}
