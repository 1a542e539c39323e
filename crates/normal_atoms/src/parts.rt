// Relations, and the first coefficient of a form with what its sign turns.
ghost use Rattle.std.specs.Prelude.{◌≡◌, ℤ, pos, ◌∷◌, neg_ℤ, IfOk};
ghost use Rattle.std.specs.Ordering.{int_cmp};
ghost use Rattle.exact_numbers.specs.Limit.{InLimit};
ghost use Rattle.exact_numbers.specs.Division.{DividesAll};
ghost use Rattle.logic_meaning.specs.Atom.{mirrored, opposite_relation};
ghost use Rattle.logic_meaning.specs.Terms.{coefficients};
ghost use Rattle.linear_forms.specs.Combinations.{IsLinear};
ghost use Rattle.logic_meaning.specs.Reduction.{quotient};
ghost use Rattle.logic_meaning.specs.NormalForm.{constant_tree, holds, first, turned, facing};
ghost use Rattle.normal_atoms.specs.Atoms.{relation_of, tree_of, IsWellFormedNormal};

use crate::atoms::{Normal, Rel};
use linear_forms::Linear;
use std::alloc::{AllocError, Global};
use std::cmp::Ordering;

/// Whether a number has the relation to another, by the order of the two.
pub fn holds(relation: Rel, order: Ordering) -> bool
    ensures { result ≡ holds (relation_of relation) order }
{
    match relation {
        Rel::Equal => order.is_eq(),
        Rel::Differs => order.is_ne(),
        Rel::Less => order.is_lt(),
        Rel::AtMost => order.is_le(),
        Rel::Greater => order.is_gt(),
        Rel::AtLeast => order.is_ge(),
    }
}

// The relation of two numbers that change places.
pub(crate) fn mirrored(relation: Rel) -> Rel
    ensures { relation_of result ≡ mirrored (relation_of relation) }
{
    match relation {
        Rel::Less => Rel::Greater,
        Rel::AtMost => Rel::AtLeast,
        Rel::Greater => Rel::Less,
        Rel::AtLeast => Rel::AtMost,
        Rel::Equal | Rel::Differs => relation,
    }
}

/// The relation that holds where the other does not.
pub fn opposite(relation: Rel) -> Rel
    ensures { relation_of result ≡ opposite_relation (relation_of relation) }
{
    match relation {
        Rel::Equal => Rel::Differs,
        Rel::Differs => Rel::Equal,
        Rel::Less => Rel::AtLeast,
        Rel::AtMost => Rel::Greater,
        Rel::Greater => Rel::AtMost,
        Rel::AtLeast => Rel::Less,
    }
}

// Always true, or always false.
pub(crate) fn constant(holds: bool) -> Normal
    ensures value { tree_of result ≡ constant_tree holds }
    ensures well_formed { IsWellFormedNormal result }
{
    if holds { Normal::True } else { Normal::False }
}

// The first coefficient, 0 where the form has no name.
pub(crate) fn first_coefficient(form: &Linear) -> i128
    ensures value { result ≡ first form.now.terms }
    ensures linear { IsLinear form.now }
    ensures within { InLimit result }
{
    match form.term(0) {
        Some((_, coefficient)) => coefficient,
        None => 0,
    }
}

// The relation, mirrored where the first coefficient is negative.
pub(crate) fn facing(first: i128, relation: Rel) -> Rel
    ensures { relation_of result ≡ facing first (relation_of relation) }
{
    if first < 0 {
        mirrored(relation)
    } else {
        relation
    }
}

// The number, with its sign changed where the first coefficient is negative.
pub(crate) fn turned(first: i128, number: i128) -> i128
    requires { InLimit number }
    ensures value { result ≡ turned first number }
    ensures within { InLimit result }
{
    if first < 0 { -number } else { number }
}

// The form with each number divided by `by`. By 1 no memory is taken.
pub(crate) fn divided(alloc: Global, form: Linear, by: i128) -> Result<Linear, AllocError>
    requires nonzero { ¬ (by ≡ pos 0) }
    requires divides { DividesAll by (form.constant ∷ coefficients form.terms) }
    ensures value { IfOk result (λ r. r ≡ quotient form by) }
    ensures linear { IfOk result IsLinear }
{
    let _number = form.constant_part();
    if by == 1 {
        return Ok(form);
    }
    match form.divide_exact(alloc, by) {
        Ok(quotient) => Ok(quotient),
        Err(_) => Err(AllocError),
    }
}
