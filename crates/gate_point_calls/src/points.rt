//! Test points of both theories, and atoms put at them, with what they give as text.

ghost use Rattle.std.specs.Prelude.{IfSome};
ghost use Rattle.logic_meaning.specs.FieldsSubstitution.{IsFieldPlace};
ghost use Rattle.logic_meaning.specs.IntegerPlace.{IsIntegerPlace};
ghost use Rattle.test_points.specs.Points.{place_of, IsTestPoint};

use gate_texts::{atom_text, form_text, place_text, tell};
use linear_forms::Linear;
use logic_meaning::{Side, VarId};
use normal_atoms::{Atom, Normal, Rel};
use std::alloc::{AllocError, Global};
use std::io;
use test_points::{
    Place, TestPoint, field_points, guard, integer_points, period, substitute_field,
    substitute_integer,
};

pub(crate) const A: VarId = VarId { number: 0 };

pub(crate) const X: VarId = VarId { number: 1 };

/// Test points, and atoms put at them.
pub(crate) fn rows<R: Print + AllocGlobal>(rt: &R) -> io::Result<()> {
    let alloc = rt.alloc();
    tell(rt, "points over the fields", points_in_fields(alloc))?;
    tell(rt, "an atom at one of them", put_in_fields(alloc))?;
    tell(rt, "points over the integers", points_in_integers(alloc))?;
    tell(rt, "an atom at one of them", put_in_integers(alloc))
}

/// The form `times * x + other * a`.
fn form_of(alloc: Global, times: i128, other: i128) -> Option<Linear> {
    let x = Linear::variable(alloc, X).ok()?;
    let a = Linear::variable(alloc, A).ok()?;
    x.combine(alloc, times, &a, other).ok()
}

/// What an atom becomes, as text.
fn normal_text(alloc: Global, found: &Normal) -> Result<String, AllocError> {
    match found {
        Normal::True => "true".to_string(alloc),
        Normal::False => "false".to_string(alloc),
        Normal::One(atom) => atom_text(alloc, atom),
    }
}

/// The test points as text.
fn points_text(alloc: Global, points: &[TestPoint]) -> Result<String, AllocError> {
    let mut text = "points".to_string(alloc)?;
    for point in points {
        let place = place_text(point.place);
        let form = form_text(alloc, &point.form)?;
        let over = point.over;
        let period = point.period;
        text.push_str(&format!(in alloc; " {place} ({form})/{over} period {period};")?)?;
    }
    Ok(text)
}

/// The test points of `x` in `x - a > 0` over the ordered fields, the atom twice.
fn points_in_fields(alloc: Global) -> Option<String> {
    let mut atoms = Vec::new(alloc);
    atoms
        .push(Atom::Compare(Rel::Greater, form_of(alloc, 1, -1)?))
        .ok()?;
    atoms
        .push(Atom::Compare(Rel::Greater, form_of(alloc, 1, -1)?))
        .ok()?;
    let points = field_points(alloc, &atoms, X, Side::Lower).ok()?;
    points_text(alloc, &points).ok()
}

/// The test points of `x` in `2 * x = a` over the integers.
fn points_in_integers(alloc: Global) -> Option<String> {
    let mut atoms = Vec::new(alloc);
    atoms
        .push(Atom::Compare(Rel::Equal, form_of(alloc, 2, -1)?))
        .ok()?;
    let spans = period(&atoms, X).ok()?;
    let points = integer_points(alloc, &atoms, X, &spans, Side::Lower, 3).ok()?;
    points_text(alloc, &points).ok()
}

/// The point of `x` infinitesimally above `a`.
pub(crate) fn above_a(alloc: Global) -> Option<TestPoint>
    ensures well_formed { IfSome result IsTestPoint }
    ensures place { IfSome result (λ t. IsFieldPlace (place_of t)) }
{
    let form = Linear::variable(alloc, A).ok()?;
    let _constant = form.constant_part();
    Some(TestPoint {
        name: X,
        place: Place::AboveBy,
        form,
        over: 1,
        period: 0,
    })
}

/// The point of `x` at a half of `a`.
fn half_of_a(alloc: Global) -> Option<TestPoint>
    ensures well_formed { IfSome result IsTestPoint }
    ensures place { IfSome result (λ t. IsIntegerPlace (place_of t)) }
{
    let form = Linear::variable(alloc, A).ok()?;
    let _constant = form.constant_part();
    Some(TestPoint {
        name: X,
        place: Place::Exact,
        form,
        over: 2,
        period: 0,
    })
}

/// What `x < 0` becomes where `x` is infinitesimally above `a`.
fn put_in_fields(alloc: Global) -> Option<String> {
    let point = above_a(alloc)?;
    let atom = Atom::Compare(Rel::Less, Linear::variable(alloc, X).ok()?);
    let found = substitute_field(alloc, &atom, &point).ok()?;
    normal_text(alloc, &found).ok()
}

/// What `x - a >= 0` becomes where `x` is a half of `a`, and when that is a whole number.
fn put_in_integers(alloc: Global) -> Option<String> {
    let point = half_of_a(alloc)?;
    let found = half_put(alloc, &point)?;
    let condition = guard(alloc, &point).ok()?;
    let condition = normal_text(alloc, &condition).ok()?;
    format!(in alloc; "{found} where {condition}").ok()
}

/// What `x - a >= 0` becomes at the point.
fn half_put(alloc: Global, point: &TestPoint) -> Option<String>
    requires well_formed { IsTestPoint point.now }
    requires place { IsIntegerPlace (place_of point.now) }
{
    let atom = Atom::Compare(Rel::AtLeast, form_of(alloc, 1, -1)?);
    let found = substitute_integer(alloc, &atom, point).ok()?;
    normal_text(alloc, &found).ok()
}
