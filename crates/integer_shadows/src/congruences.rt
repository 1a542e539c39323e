//! Two congruences as one that has a name and one that lacks it.

ghost use Rattle.std.specs.Prelude.{pos, ◌≤ℤ◌, IfOk, IfSome};
ghost use Rattle.logic_meaning.specs.Form.{coefficient};
ghost use Rattle.integer_shadows.specs.Sides.{IsModulus, AreMerged};

use crate::forms::{negative, reduction};
use exact_numbers::{floor_div, lcm};
use linear_forms::Linear;
use logic_meaning::VarId;
use std::alloc::{AllocError, Global};

// Two congruences of one modulus: one that may have the name, and a condition that lacks it.
#[derive(Drop)]
pub(crate) struct Split {
    pub(crate) modulus: i128,
    pub(crate) class: Linear,
    pub(crate) condition: Linear,
}

// Two congruences of one modulus, by Euclid's steps on their coefficients of the name: each takes the least multiple of the one congruence
// off the other. Nothing where a number passes 2^127 - 1.
fn parted(
    alloc: Global,
    mut class: Linear,
    mut rest: Linear,
    modulus: i128,
    name: VarId,
) -> Result<Option<Split>, AllocError>
    requires modulus { IsModulus modulus }
    requires class { pos 0 ≤ℤ coefficient name.number class }
    requires rest { pos 0 ≤ℤ coefficient name.number rest }
    ensures { IfOk result (λ o. IfSome o (AreMerged name.number modulus class modulus rest)) }
{
    let _constant = rest.constant_part();
    'steps: while rest.coefficient(name) != 0 {
        let quotient = floor_div(class.coefficient(name), rest.coefficient(name));
        let multiple = negative(quotient);
        let Some(next) = reduction(alloc, 1, &class, multiple, &rest, modulus)? else {
            return Ok(None);
        };
        class = rest;
        rest = next;
    }
    Ok(Some(Split {
        modulus,
        class,
        condition: rest,
    }))
}

// Two congruences, brought to the least common multiple of their moduli. Nothing where a number passes 2^127 - 1.
pub(crate) fn merged(
    alloc: Global,
    modulus: i128,
    class: &Linear,
    other_modulus: i128,
    other: &Linear,
    name: VarId,
) -> Result<Option<Split>, AllocError>
    requires modulus { IsModulus modulus }
    requires other_modulus { IsModulus other_modulus }
    ensures { IfOk result (λ o. IfSome o (AreMerged name.number modulus class.now other_modulus other.now)) }
{
    let Some(common) = lcm(modulus, other_modulus) else {
        return Ok(None);
    };
    let Some(class) = reduction(alloc, common / modulus, class, 0, class, common)? else {
        return Ok(None);
    };
    let Some(rest) = reduction(alloc, common / other_modulus, other, 0, other, common)? else {
        return Ok(None);
    };
    parted(alloc, class, rest, common, name)
}
