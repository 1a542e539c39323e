//! The root of an equation in a name, as a test point.

ghost use Rattle.std.specs.Prelude.{◌≡◌, pos, ◌<ℤ◌, ◌∷◌, unsigned_abs, IfOk};
ghost use Rattle.exact_numbers.specs.Limit.{InLimit};
ghost use Rattle.exact_numbers.specs.Divides.{Divides};
ghost use Rattle.exact_numbers.specs.Division.{DividesAll};
ghost use Rattle.logic_meaning.specs.Form.{coefficient, coefficients};
ghost use Rattle.logic_meaning.specs.Answer as meaning;
ghost use Rattle.logic_meaning.specs.FieldsPoints.{divisor_of, exact_point};
ghost use Rattle.normal_atoms.specs.Atoms.{context_of};
ghost use Rattle.test_points.specs.Points.{place_of, IsPointOf};
ghost use Rattle.logic_meaning.specs.Roots.{root_over, IsRoot};

use exact_numbers::gcd;
use linear_forms::Linear;
use logic_meaning::VarId;
use normal_atoms::Context;
use std::alloc::{AllocError, Global};
use test_points::{Place, TestPoint, quotient, rest};

/// The root of the equation in the name, in lowest terms over the fields.
pub(crate) fn root_of(
    alloc: Global,
    context: Context,
    x: VarId,
    equation: &Linear,
) -> Result<TestPoint, AllocError>
    requires { ¬ (coefficient x.number equation.now ≡ pos 0) }
    ensures root { IfOk result (λ t. IsRoot (context_of context) x.number equation.now (place_of t)) }
    ensures well_formed { IfOk result (IsPointOf x) }
{
    let times = equation.coefficient(x);
    let end = rest(alloc, equation, x, 0 < times)?;
    root_over(alloc, context, x, end, times.abs())
}

// The form over a positive number, in lowest terms over the fields.
fn root_over(
    alloc: Global,
    context: Context,
    x: VarId,
    end: Linear,
    over: i128,
) -> Result<TestPoint, AllocError>
    requires positive { pos 0 <ℤ over }
    requires within { InLimit over }
    ensures place { IfOk result (λ t. place_of t ≡ root_over (context_of context) end (unsigned_abs over)) }
    ensures well_formed { IfOk result (IsPointOf x) }
{
    match context {
        Context::Fields => in_lowest_terms(alloc, x, &end, over),
        Context::Integers => Ok(exact_point(x, end, over)),
    }
}

// The form over a positive number, divided by all that they share.
fn in_lowest_terms(
    alloc: Global,
    x: VarId,
    form: &Linear,
    over: i128,
) -> Result<TestPoint, AllocError>
    requires positive { pos 0 <ℤ over }
    requires within { InLimit over }
    ensures place { IfOk result (λ t. place_of t ≡ exact_point form.now (unsigned_abs over)) }
    ensures well_formed { IfOk result (IsPointOf x) }
{
    let divisor = common_divisor(form, over);
    match form.divide_exact(alloc, divisor) {
        Ok(form) => Ok(exact_point(x, form, quotient(over, divisor))),
        Err(_) => Err(AllocError),
    }
}

// The greatest common divisor of all numbers of a form over a positive number.
fn common_divisor(form: &Linear, over: i128) -> i128
    requires positive { pos 0 <ℤ over }
    requires within { InLimit over }
    ensures value { result ≡ pos (divisor_of form.now (unsigned_abs over)) }
    ensures positive { pos 0 <ℤ result }
    ensures within { InLimit result }
    ensures over { Divides result over }
    ensures numbers { DividesAll result (form.now.constant ∷ coefficients form.now.terms) }
{
    let number = form.constant_part();
    let shared = gcd(number, form.content());
    gcd(over, shared)
}

// The name at the form over the number.
fn exact_point(x: VarId, form: Linear, over: i128) -> TestPoint
    requires positive { pos 0 <ℤ over }
    requires within { InLimit over }
    ensures place { place_of result ≡ meaning.Exact form (unsigned_abs over) }
    ensures well_formed { IsPointOf x result }
{
    let _constant = form.constant_part();
    TestPoint {
        name: x,
        place: Place::Exact,
        form,
        over,
        period: 0,
    }
}
