// The value of a name at its place.
ghost use Rattle.std.specs.Prelude.{◌≡◌, pos, ◌<ℤ◌, option_map, unsigned_abs};
ghost use Rattle.exact_numbers.specs.Fraction.{frac_of};
ghost use Rattle.linear_forms.specs.Values.{point_of};
ghost use Rattle.test_points.specs.Points.{place_of, IsTestPoint};
ghost use Rattle.logic_meaning.specs.Calculated.{form_value, beside_form, beyond_criticals, class_beyond, place_value};
ghost use Rattle.plain_samples.specs.Told.{Tells};

use crate::branch::Branch;
use crate::numbers::{below_all, class_below, just_past, seen};
use exact_numbers::Fraction;
use linear_forms::{Linear, Values};
use logic_meaning::{Side, VarId};
use std::alloc::Global;
use test_points::{Place, PointError, TestPoint};

// The number that is there; `Overflow` says that there is none.
fn formed(value: Option<Fraction>) -> Result<Fraction, PointError>
    ensures { Tells result (option_map frac_of value) }
{
    match value {
        Some(value) => Ok(value),
        None => Err(PointError::Overflow),
    }
}

// The value of a form over a number at the point. `None` exactly where a number that is formed passes 2^127 - 1.
fn form_value(form: &Linear, over: i128, at: &Values) -> Option<Fraction>
    requires { pos 0 <ℤ over }
    ensures { option_map frac_of result ≡ form_value form.now (unsigned_abs over) (point_of at.now) }
{
    let denominator = at.denominator();
    let number = form.value(at)?;
    let part = Fraction {
        numerator: 1,
        denominator: over,
    };
    Fraction::reduced(number, denominator).multiply(part)
}

// The value just past a form over a number, on the upper side just short of it. `Overflow` comes exactly where a number that is
// formed passes 2^127 - 1, else `Memory`.
fn value_beside<B: Branch>(
    alloc: Global,
    side: Side,
    point: &TestPoint,
    branch: &B,
    at: &Values,
) -> Result<Fraction, PointError>
    requires over { pos 0 <ℤ point.now.over }
    requires branch { B.is_formula branch.now }
    ensures { Tells result (beside_form (B.context branch.now) side point.now.name.number point.now.form (unsigned_abs point.now.over) (B.tree branch.now) (point_of at.now)) }
{
    let value = seen(side, formed(form_value(&point.form, point.over, at))?);
    let next = branch.next_critical(alloc, side, point.name, Some(value), at)?;
    let found = formed(just_past(value, next))?;
    Ok(seen(side, found))
}

// The value below all critical values of the branch, on the upper side above all. `Overflow` comes exactly where a number that is
// formed passes 2^127 - 1, else `Memory`.
fn value_beyond<B: Branch>(
    alloc: Global,
    side: Side,
    x: VarId,
    branch: &B,
    at: &Values,
) -> Result<Fraction, PointError>
    requires { B.is_formula branch.now }
    ensures { Tells result (beyond_criticals (B.context branch.now) side x.number (B.tree branch.now) (point_of at.now)) }
{
    let least = branch.next_critical(alloc, side, x, None, at)?;
    let found = formed(below_all(least))?;
    Ok(seen(side, found))
}

// The value of a residue class below all critical values of the branch, on the upper side above all. `Overflow` comes exactly where
// a number that is formed passes 2^127 - 1, else `Memory`.
fn value_in_class<B: Branch>(
    alloc: Global,
    side: Side,
    modulus: i128,
    point: &TestPoint,
    branch: &B,
    at: &Values,
) -> Result<Fraction, PointError>
    requires modulus { pos 0 <ℤ modulus }
    requires branch { B.is_formula branch.now }
    ensures { Tells result (class_beyond (B.context branch.now) side point.now.name.number point.now.form.constant modulus (B.tree branch.now) (point_of at.now)) }
{
    let least = branch.next_critical(alloc, side, point.name, None, at)?;
    let member = seen(side, Fraction::whole(point.form.constant_part()));
    let found = formed(class_below(member.numerator, modulus, least))?;
    Ok(seen(side, found))
}

/// The value of the point's name, from the branch into which it was put and the numbers of the names before it. `Overflow` comes
/// exactly where a number that is formed passes 2^127 - 1, else `Memory`.
pub fn place_value<B: Branch>(
    alloc: Global,
    point: &TestPoint,
    branch: &B,
    at: &Values,
) -> Result<Fraction, PointError>
    requires point { IsTestPoint point.now }
    requires branch { B.is_formula branch.now }
    ensures { Tells result (place_value (B.context branch.now) point.now.name.number (place_of point.now) (B.tree branch.now) (point_of at.now)) }
{
    let period = point.period;
    match point.place {
        Place::Exact => formed(form_value(&point.form, point.over, at)),
        Place::AboveBy => value_beside(alloc, Side::Lower, point, branch, at),
        Place::BelowBy => value_beside(alloc, Side::Upper, point, branch, at),
        Place::MinusInfinity => value_beyond(alloc, Side::Lower, point.name, branch, at),
        Place::PlusInfinity => value_beyond(alloc, Side::Upper, point.name, branch, at),
        Place::Periodic if period < 0 => {
            value_in_class(alloc, Side::Lower, -period, point, branch, at)
        }
        Place::Periodic => value_in_class(alloc, Side::Upper, period, point, branch, at),
    }
}
