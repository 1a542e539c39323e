// Comparisons in normal form.
ghost use Rattle.std.specs.Prelude.{◌≡◌, ℤ, pos, List, neg_ℤ, ◌-ℤ◌, ◌<ℤ◌, if◌then◌else◌, IfOk, IsErrOf, MatchOption};
ghost use Rattle.exact_numbers.specs.Limit.{InLimit, PastLimit};
ghost use Rattle.exact_numbers.specs.Divides.{floor_of, residue_of};
ghost use Rattle.std.specs.Ordering.{int_eq};
ghost use Rattle.logic_meaning.specs.Form.{Term};
ghost use Rattle.logic_meaning.specs.Atom.{form_of};
ghost use Rattle.logic_meaning.specs.Every.{Every};
ghost use Rattle.linear_forms.specs.Combinations.{IsLinear};
ghost use Rattle.logic_meaning.specs.NormalForm.{bound, compared_in_fields, rounded, compared_over_integers, ConstantPasses};
ghost use Rattle.normal_atoms.specs.Atoms.{relation_of, tree_of, IsWellFormedNormal};
ghost use Rattle.normal_atoms.specs.Bounds.{bounded, IsWithin};

use crate::atoms::{Atom, Normal, Rel};
use crate::error::AtomError;
use crate::parts::{constant, divided, facing, first_coefficient, holds, turned};
use exact_numbers::{floor_div, gcd, residue};
use linear_forms::Linear;
use std::alloc::{AllocError, Global};

// Over the fields all numbers are divided by their greatest common divisor, and the first coefficient becomes positive.
pub(crate) fn in_fields(alloc: Global, relation: Rel, form: Linear) -> Result<Normal, AllocError>
    ensures normal { IfOk result (λ n. tree_of n ≡ compared_in_fields (relation_of relation) form.terms form.constant) }
    ensures well_formed { IfOk result IsWellFormedNormal }
    ensures linear { IfOk result (λ n. Every (λ a. IsLinear (form_of a)) (tree_of n)) }
    ensures given { IsLinear form }
{
    let first = first_coefficient(&form);
    let number = form.constant_part();
    if first == 0 {
        return Ok(constant(holds(relation, number.cmp(&0))));
    }
    let divisor = gcd(number, form.content());
    match divided(alloc, form, turned(first, divisor)) {
        Ok(form) => Ok(Normal::One(Atom::Compare(facing(first, relation), form))),
        Err(error) => Err(error),
    }
}

// What a comparison over the integers is rounded to: always, never, or a relation with a constant.
#[derive(Clone, Copy)]
pub(crate) enum Bound {
    Always,
    Never,
    At(Rel, i128),
}

// The relation to a number rounded down, or `None` exactly where its negative passes the limit.
fn upper(relation: Rel, number: i128, content: i128) -> Option<Bound>
    requires { pos 0 <ℤ content }
    ensures { MatchOption result (PastLimit (neg_ℤ (floor_of number content))) (λ b. IsWithin b × ((v : List Term) → bounded b v ≡ bound (relation_of relation) v (neg_ℤ (floor_of number content)))) }
{
    let floor = floor_div(number, content);
    if floor == i128::MIN {
        None
    } else {
        Some(Bound::At(relation, -floor))
    }
}

// The whole number just below the negative. It is within 128 bits for each number within the limit.
fn below_negative(number: i128) -> i128
    requires { InLimit number }
    ensures { result ≡ neg_ℤ number -ℤ pos 1 }
{
    -number - 1
}

// The relation with the quotient, or `otherwise` where the number is no multiple.
fn exact(relation: Rel, number: i128, content: i128, otherwise: Bound) -> Bound
    requires positive { pos 0 <ℤ content }
    requires within { InLimit number }
    requires otherwise_within { IsWithin otherwise }
    ensures within { IsWithin result }
    ensures value { (v : List Term) → bounded result v ≡ (if int_eq (residue_of number content) (pos 0) then bound (relation_of relation) v (floor_of number content) else bounded otherwise v) }
{
    if residue(number, content) == 0 {
        Bound::At(relation, floor_div(number, content))
    } else {
        otherwise
    }
}

// Over the integers a relation of content * v + number to 0, rounded: `None` exactly where the constant passes the limit.
fn rounded(relation: Rel, content: i128, number: i128) -> Option<Bound>
    requires positive { pos 0 <ℤ content }
    requires within { InLimit number }
    ensures { MatchOption result ((v : List Term) → ConstantPasses (rounded (relation_of relation) content v number)) (λ b. IsWithin b × ((v : List Term) → bounded b v ≡ rounded (relation_of relation) content v number)) }
{
    match relation {
        Rel::Equal => Some(exact(relation, number, content, Bound::Never)),
        Rel::Differs => Some(exact(relation, number, content, Bound::Always)),
        Rel::AtMost | Rel::Greater => upper(relation, -number, content),
        Rel::Less => upper(Rel::AtMost, below_negative(number), content),
        Rel::AtLeast => upper(Rel::Greater, below_negative(number), content),
    }
}

// Over the integers the coefficients are divided by their greatest common divisor, and the first becomes positive.
pub(crate) fn over_integers(alloc: Global, relation: Rel, form: Linear) -> Result<Normal, AtomError>
    ensures normal { IfOk result (λ n. tree_of n ≡ compared_over_integers (relation_of relation) form.terms form.constant) }
    ensures well_formed { IfOk result IsWellFormedNormal }
    ensures linear { IfOk result (λ n. Every (λ a. IsLinear (form_of a)) (tree_of n)) }
    ensures given { IsLinear form }
    ensures overflow { IsErrOf result AtomError.Overflow → ConstantPasses (compared_over_integers (relation_of relation) form.terms form.constant) }
{
    let first = first_coefficient(&form);
    let number = form.constant_part();
    if first == 0 {
        return Ok(constant(holds(relation, number.cmp(&0))));
    }
    let content = form.content();
    match rounded(facing(first, relation), content, turned(first, number)) {
        None => Err(AtomError::Overflow),
        Some(Bound::Always) => Ok(Normal::True),
        Some(Bound::Never) => Ok(Normal::False),
        Some(Bound::At(relation, number)) => {
            match divided(alloc, form.with_constant(0), turned(first, content)) {
                Ok(form) => Ok(Normal::One(Atom::Compare(relation, form.with_constant(number)))),
                Err(error) => Err(AtomError::from(error)),
            }
        }
    }
}
