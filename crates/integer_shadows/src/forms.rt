//! Forms that are made of others.

ghost use Rattle.std.specs.Prelude.{◌≡◌, pos, neg_ℤ, ◌<ℤ◌, IfOk, IfSome};
ghost use Rattle.exact_numbers.specs.Limit.{InLimit};
ghost use Rattle.linear_forms.specs.Combinations.{IsCombination};
ghost use Rattle.integer_shadows.specs.Forms.{IsWithout, IsReduction, IsRaised};

use exact_numbers::sum;
use linear_forms::{LinError, Linear};
use logic_meaning::VarId;
use std::alloc::{AllocError, Global};

// The form a * form + b * other, or nothing where a number passes 2^127 - 1.
pub(crate) fn combination(
    alloc: Global,
    a: i128,
    form: &Linear,
    b: i128,
    other: &Linear,
) -> Result<Option<Linear>, AllocError>
    ensures { IfOk result (λ o. IfSome o (IsCombination a form.now b other.now)) }
{
    match form.combine(alloc, a, other, b) {
        Ok(form) => Ok(Some(form)),
        Err(LinError::Overflow) => Ok(None),
        Err(LinError::Memory) => Err(AllocError),
    }
}

// The number with the other sign.
pub(crate) fn negative(number: i128) -> i128
    requires { InLimit number }
    ensures value { result ≡ neg_ℤ number }
    ensures within { InLimit result }
{
    -number
}

// The form without the multiple of a name.
pub(crate) fn without(
    alloc: Global,
    form: &Linear,
    name: VarId,
) -> Result<Option<Linear>, AllocError>
    ensures { IfOk result (λ o. IfSome o (IsWithout name.number form.now)) }
{
    let multiple = negative(form.coefficient(name));
    match Linear::variable(alloc, name) {
        Ok(variable) => combination(alloc, 1, form, multiple, &variable),
        Err(_) => Err(AllocError),
    }
}

// The form a * form + b * other, each number modulo a positive number; or nothing where a number passes 2^127 - 1.
pub(crate) fn reduction(
    alloc: Global,
    a: i128,
    form: &Linear,
    b: i128,
    other: &Linear,
    modulus: i128,
) -> Result<Option<Linear>, AllocError>
    requires { pos 0 <ℤ modulus }
    ensures { IfOk result (λ o. IfSome o (IsReduction a form.now b other.now modulus)) }
{
    match combination(alloc, a, form, b, other)? {
        Some(form) => {
            let form = form.residues(alloc, modulus)?;
            Ok(Some(form))
        }
        None => Ok(None),
    }
}

// The form and a number, or nothing where the constant passes 2^127 - 1.
pub(crate) fn raised(form: Linear, number: i128) -> Option<Linear>
    ensures { IfSome result (IsRaised number form) }
{
    let constant = sum(form.constant_part(), number)?;
    Some(form.with_constant(constant))
}
