// Two congruences of one modulus and the same terms.
ghost use Rattle.std.specs.Prelude.{◌≡◌, ℤ, pos, ◌<ℤ◌, ◌≤ℤ◌, ◌-ℤ◌, unsigned_abs, MatchBool, IfOk};
ghost use Rattle.exact_numbers.specs.Limit.{InLimit};
ghost use Rattle.logic_meaning.specs.Context.{Integers};
ghost use Rattle.logic_meaning.specs.Atom.{Congruent};
ghost use Rattle.logic_meaning.specs.NormalForm.{IsNormalCongruence};
ghost use Rattle.normal_atoms.specs.Merged.{IsMerging, IsDecision};
ghost use Rattle.normal_atoms.specs.Computed.{merged, merging_of, decided_by};
ghost use Rattle.normal_atoms.specs.Answered.{IsOne};
ghost use Rattle.normal_atoms.specs.Classes.{left_by_two, different_classes, same_class, both_classes, class};

use crate::answers::Merged;
use crate::atoms::Atom;
use crate::junction::{absorbing, is_and};
use crate::quotients;
use linear_forms::Linear;
use logic_meaning::Junction;
use std::alloc::{AllocError, Global};

// Whether two congruences have one modulus and the same terms.
pub(crate) fn is_same_part(
    modulus: i128,
    form: &Linear,
    other_modulus: i128,
    other: &Linear,
) -> bool
    ensures { MatchBool result ((modulus ≡ other_modulus) × (form.now.terms ≡ other.now.terms)) (¬ ((modulus ≡ other_modulus) × (form.now.terms ≡ other.now.terms))) }
{
    modulus == other_modulus && quotients::are_same(form, 1, other, 1)
}

// What becomes of two congruences: nothing or everything, the first or the second, modulo 3 the third class, or both stay.
#[derive(Clone, Copy)]
pub(crate) enum Class {
    Settled,
    First,
    Second,
    Third,
    Kept,
}

// Two incongruences of different classes: modulo 2 they leave none, modulo 3 the third class.
fn left_by_two(modulus: i128) -> Class
    ensures { result ≡ left_by_two modulus }
{
    match modulus {
        2 => Class::Settled,
        3 => Class::Third,
        _ => Class::Kept,
    }
}

// Two congruences of different classes joined by `and`.
fn different_classes(modulus: i128, holds: bool, other: bool) -> Class
    ensures { result ≡ different_classes modulus holds other }
{
    match (holds, other) {
        (true, true) => Class::Settled,
        (true, false) => Class::First,
        (false, true) => Class::Second,
        (false, false) => left_by_two(modulus),
    }
}

// Two congruences joined by `and`, by their constants.
fn both_classes(
    modulus: i128,
    holds: bool,
    constant: i128,
    other: bool,
    other_constant: i128,
) -> Class
    ensures { result ≡ both_classes modulus holds constant other other_constant }
{
    if constant != other_constant {
        different_classes(modulus, holds, other)
    } else if holds == other {
        Class::First
    } else {
        Class::Settled
    }
}

// Two congruences joined, by their constants. Joined by `or` their opposites are joined by `and`.
fn class_of(
    junction: Junction,
    modulus: i128,
    holds: bool,
    constant: i128,
    other: bool,
    other_constant: i128,
) -> Class
    ensures { result ≡ class junction modulus holds constant other other_constant }
{
    match junction {
        Junction::Conjunction => both_classes(modulus, holds, constant, other, other_constant),
        Junction::Disjunction => both_classes(modulus, !holds, constant, !other, other_constant),
    }
}

// Whether no number meets both.
fn is_settled(found: Class) -> bool
    ensures { MatchBool result (found ≡ Class.Settled) (¬ (found ≡ Class.Settled)) }
{
    matches!(found, Class::Settled)
}

// The number modulo 3 that is neither of two different ones.
fn third_class(number: i128, other: i128) -> i128
    requires low { pos 0 ≤ℤ number }
    requires high { number <ℤ pos 3 }
    requires other_low { pos 0 ≤ℤ other }
    requires other_high { other <ℤ pos 3 }
    ensures { result ≡ (pos 3 -ℤ number) -ℤ other }
{
    3 - number - other
}

// The congruence of the terms of a form with a constant.
fn congruence(
    alloc: Global,
    holds: bool,
    modulus: i128,
    form: &Linear,
    constant: i128,
) -> Result<Merged, AllocError>
    requires positive { pos 0 <ℤ modulus }
    requires within { InLimit modulus }
    requires constant_within { InLimit constant }
    ensures { IfOk result (IsOne (Congruent holds (unsigned_abs modulus) (record { terms = form.now.terms; constant = constant }))) }
{
    let form = form.copy(alloc)?;
    Ok(Merged::One(Atom::Congruent {
        holds,
        modulus,
        form: form.with_constant(constant),
    }))
}

// Two congruences of the same terms joined.
pub(crate) fn merged(
    alloc: Global,
    junction: Junction,
    modulus: i128,
    holds: bool,
    form: &Linear,
    other_holds: bool,
    other: &Linear,
) -> Result<Merged, AllocError>
    requires positive { pos 0 <ℤ modulus }
    requires within { InLimit modulus }
    requires same_terms { form.now.terms ≡ other.now.terms }
    requires normal { IsNormalCongruence holds (unsigned_abs modulus) form.now }
    requires other_normal { IsNormalCongruence other_holds (unsigned_abs modulus) other.now }
    ensures merged { IfOk result (IsMerging Integers junction (Congruent holds (unsigned_abs modulus) form.now) (Congruent other_holds (unsigned_abs modulus) other.now)) }
    ensures computed { IfOk result (λ m. merging_of m ≡ merged Integers junction (Congruent holds (unsigned_abs modulus) form.now) (Congruent other_holds (unsigned_abs modulus) other.now)) }
{
    let number = form.constant_part();
    let other_number = other.constant_part();
    match class_of(junction, modulus, holds, number, other_holds, other_number) {
        Class::Settled => Ok(absorbing(junction)),
        Class::First => congruence(alloc, holds, modulus, form, number),
        Class::Second => congruence(alloc, other_holds, modulus, other, other_number),
        Class::Third => {
            let third = third_class(number, other_number);
            congruence(alloc, is_and(junction), modulus, form, third)
        }
        Class::Kept => Ok(Merged::Keep),
    }
}

// Whether one congruence follows from the other of the same terms, or its negation does; `None` where neither.
pub(crate) fn decided(
    modulus: i128,
    holds: bool,
    form: &Linear,
    other_holds: bool,
    other: &Linear,
) -> Option<bool>
    requires positive { pos 0 <ℤ modulus }
    requires same_terms { form.now.terms ≡ other.now.terms }
    requires normal { IsNormalCongruence holds (unsigned_abs modulus) form.now }
    requires other_normal { IsNormalCongruence other_holds (unsigned_abs modulus) other.now }
    ensures decided { IsDecision Integers (Congruent holds (unsigned_abs modulus) form.now) (Congruent other_holds (unsigned_abs modulus) other.now) result }
    ensures computed { result ≡ decided_by Integers (Congruent holds (unsigned_abs modulus) form.now) (Congruent other_holds (unsigned_abs modulus) other.now) }
{
    let number = form.constant_part();
    let other_number = other.constant_part();
    if is_settled(both_classes(modulus, holds, number, !other_holds, other_number)) {
        Some(true)
    } else if is_settled(both_classes(modulus, holds, number, other_holds, other_number)) {
        Some(false)
    } else {
        None
    }
}
