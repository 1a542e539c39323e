// The ends of intervals over the ordered fields, as test points.
ghost use Rattle.std.specs.Prelude.{◌≡◌, ℕ, ℤ, pos, ◌/◌, ◌<ℤ◌, int_div, unsigned_abs, ◌∷◌, map, if◌then◌else◌, IfOk, IfSome};
ghost use Rattle.std.specs.Option.{option_to_list};
ghost use Rattle.exact_numbers.specs.Limit.{InLimit};
ghost use Rattle.exact_numbers.specs.Divides.{Divides};
ghost use Rattle.exact_numbers.specs.Division.{DividesAll};
ghost use Rattle.logic_meaning.specs.Form.{Form, coefficient, coefficients, without};
ghost use Rattle.logic_meaning.specs.Atom.{mirrored};
ghost use Rattle.logic_meaning.specs.Side.{turned};
ghost use Rattle.logic_meaning.specs.FieldsPoints.{divisor_of, form_over, ends_of, comparison_points, atom_points};
ghost use Rattle.normal_atoms.specs.Atoms.{atom_of, relation_of};
ghost use Rattle.test_points.specs.Points.{place_at, place_of, IsShaped, IsPointOf};

use crate::parts::rest;
use crate::points::{Place, TestPoint};
use exact_numbers::gcd;
use linear_forms::Linear;
use logic_meaning::{Side, VarId};
use normal_atoms::{Atom, Rel};
use std::alloc::{AllocError, Global};

// The relation of two numbers that change places, where they do.
fn turned(relation: Rel, turn: bool) -> Rel
    ensures { relation_of result ≡ (if turn then mirrored (relation_of relation) else relation_of relation) }
{
    match relation {
        Rel::Less if turn => Rel::Greater,
        Rel::AtMost if turn => Rel::AtLeast,
        Rel::Greater if turn => Rel::Less,
        Rel::AtLeast if turn => Rel::AtMost,
        relation => relation,
    }
}

/// The relation of a multiple of a name to a number, as the side sees that of the name; a negative multiple turns it round.
pub fn seen(side: Side, relation: Rel, negative: bool) -> Rel
    ensures { relation_of result ≡ turned side (if negative then mirrored (relation_of relation) else relation_of relation) }
{
    match side {
        Side::Lower => turned(relation, negative),
        Side::Upper => turned(turned(relation, negative), true),
    }
}

// How the end of an interval that lies to the side is taken, for the relation as the side sees it.
fn end_place(side: Side, relation: Rel) -> Option<Place>
    ensures place { (e : Form) (d : ℕ) → map (λ p. place_at p (form_over (divisor_of e d) e) (d / divisor_of e d) (pos 0)) (option_to_list result) ≡ ends_of side (relation_of relation) e d }
    ensures shaped { IfSome result (λ p. (e : Form) (d : ℤ) → IsShaped p e d (pos 0)) }
{
    match relation {
        Rel::Equal | Rel::AtLeast => Some(Place::Exact),
        Rel::Differs | Rel::Greater => match side {
            Side::Lower => Some(Place::AboveBy),
            Side::Upper => Some(Place::BelowBy),
        },
        Rel::Less | Rel::AtMost => None,
    }
}

/// The quotient of two positive numbers, of which one divides the other.
pub fn quotient(number: i128, divisor: i128) -> i128
    requires number_positive { pos 0 <ℤ number }
    requires number_within { InLimit number }
    requires divisor_positive { pos 0 <ℤ divisor }
    requires divides { Divides divisor number }
    ensures value { result ≡ int_div number divisor }
    ensures positive { pos 0 <ℤ result }
    ensures within { InLimit result }
{
    number / divisor
}

// The greatest common divisor of all numbers of a form over a positive number.
fn common_divisor(form: &Linear, over: i128) -> i128
    requires positive { pos 0 <ℤ over }
    requires within { InLimit over }
    ensures value { result ≡ pos (divisor_of form.now (unsigned_abs over)) }
    ensures positive { pos 0 <ℤ result }
    ensures within { InLimit result }
    ensures over { Divides result over }
    ensures numbers { DividesAll result (form.now.constant ∷ coefficients form.now.terms) }
{
    let number = form.constant_part();
    let shared = gcd(number, form.content());
    gcd(over, shared)
}

// The form over a positive number in lowest terms, as a test point.
fn in_lowest_terms(
    alloc: Global,
    x: VarId,
    place: Place,
    form: &Linear,
    over: i128,
) -> Result<TestPoint, AllocError>
    requires positive { pos 0 <ℤ over }
    requires within { InLimit over }
    requires shaped { (e : Form) (d : ℤ) → IsShaped place e d (pos 0) }
    ensures place { IfOk result (λ t. place_of t ≡ place_at place (form_over (divisor_of form.now (unsigned_abs over)) form.now) (unsigned_abs over / divisor_of form.now (unsigned_abs over)) (pos 0)) }
    ensures well_formed { IfOk result (IsPointOf x) }
{
    let divisor = common_divisor(form, over);
    match form.divide_exact(alloc, divisor) {
        Ok(form) => Ok(TestPoint {
            name: x,
            place,
            form,
            over: quotient(over, divisor),
            period: 0,
        }),
        Err(_) => Err(AllocError),
    }
}

// The end of a comparison's interval that lies to the side, if there is one.
fn end_of(
    alloc: Global,
    relation: Rel,
    form: &Linear,
    x: VarId,
    side: Side,
) -> Result<Option<TestPoint>, AllocError>
    ensures points { IfOk result (λ o. map place_of (option_to_list o) ≡ comparison_points side (coefficient x.number form.now) (relation_of relation) (without x.number form.now)) }
    ensures well_formed { IfOk result (λ o. IfSome o (IsPointOf x)) }
{
    let times = form.coefficient(x);
    if times == 0 {
        return Ok(None);
    }
    match end_place(side, seen(side, relation, times < 0)) {
        None => Ok(None),
        Some(place) => {
            let end = rest(alloc, form, x, 0 < times)?;
            let point = in_lowest_terms(alloc, x, place, &end, times.abs())?;
            Ok(Some(point))
        }
    }
}

// The end of an atom's interval that lies to the side, if there is one.
pub(crate) fn atom_end(
    alloc: Global,
    atom: &Atom,
    x: VarId,
    side: Side,
) -> Result<Option<TestPoint>, AllocError>
    ensures points { IfOk result (λ o. map place_of (option_to_list o) ≡ atom_points side x.number (atom_of atom.now)) }
    ensures well_formed { IfOk result (λ o. IfSome o (IsPointOf x)) }
{
    match atom {
        Atom::Compare(relation, form) => end_of(alloc, *relation, form, x, side),
        Atom::Congruent { .. } => Ok(None),
    }
}
