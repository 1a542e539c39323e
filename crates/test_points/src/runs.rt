// Runs of test points of the integers: residue classes, and the numbers that follow an end.
ghost use Rattle.std.specs.Prelude.{◌≡◌, ℕ, ℤ, pos, neg_ℤ, ◌+ℤ◌, ◌*ℤ◌, ◌<ℤ◌, ◌≤ℤ◌, ◌<◌, ◌++◌, All, map, unsigned_abs, OnOk, IfOk, IsErrOf, MatchOption};
ghost use Rattle.exact_numbers.specs.Limit.{InLimit, PastLimit};
ghost use Rattle.logic_meaning.specs.Form.{Form, coefficient, scale};
ghost use Rattle.logic_meaning.specs.Answer.{Exact, Periodic};
ghost use Rattle.logic_meaning.specs.IntegersPoints.{signed, class_points};
ghost use Rattle.linear_forms.specs.Combinations.{IsLinear};
ghost use Rattle.test_points.specs.Points.{place_of, IsPointOf};
ghost use Rattle.test_points.specs.Starts.{run_of};

use crate::distinct::push_point;
use crate::points::{Place, TestPoint};
use exact_numbers::sum;
use linear_forms::{LinError, Linear};
use logic_meaning::{Side, VarId};
use std::alloc::{AllocError, Global};

// The number as the side sees it.
pub(crate) fn signed(side: Side, number: i128) -> i128
    requires { InLimit number }
    ensures value { result ≡ signed side number }
    ensures within { InLimit result }
{
    match side {
        Side::Lower => number,
        Side::Upper => -number,
    }
}

// The residue class of a number with a period, beyond all numbers.
fn class(alloc: Global, x: VarId, number: i128, period: i128) -> TestPoint
    requires number_within { InLimit number }
    requires period_within { InLimit period }
    requires nonzero { ¬ (period ≡ pos 0) }
    ensures place { place_of result ≡ Periodic number period }
    ensures well_formed { IsPointOf x result }
{
    TestPoint {
        name: x,
        place: Place::Periodic,
        form: Linear::constant(alloc, number),
        over: 1,
        period,
    }
}

// Puts the residue classes of a period towards the infinity of the side last.
pub(crate) fn push_classes(
    alloc: Global,
    points: &mut Vec<TestPoint>,
    x: VarId,
    side: Side,
    period: u64,
) -> Result<(), AllocError>
    requires { All (IsPointOf x) points.old.items }
    ensures places { OnOk result (map place_of points.new.items ≡ map place_of points.old.items ++ class_points side period) }
    ensures well_formed { OnOk result (All (IsPointOf x) points.new.items) }
{
    let step = signed(side, -i128::from(period));
    for before in 0..period {
        let number = signed(side, i128::from(before) + 1);
        push_point(points, class(alloc, x, number, step))?;
    }
    Ok(())
}

// A form's terms with a constant over the scale, as a test point.
fn over_scale(
    alloc: Global,
    x: VarId,
    form: &Linear,
    constant: i128,
    scale: i128,
) -> Result<TestPoint, AllocError>
    requires within { InLimit constant }
    requires positive { pos 0 <ℤ scale }
    requires scale_within { InLimit scale }
    ensures place { IfOk result (λ t. place_of t ≡ Exact (record { terms = form.now.terms; constant = constant }) (unsigned_abs scale)) }
    ensures well_formed { IfOk result (IsPointOf x) }
{
    let form = form.copy(alloc)?;
    Ok(TestPoint {
        name: x,
        place: Place::Exact,
        form: form.with_constant(constant),
        over: scale,
        period: 0,
    })
}

// Puts a form's terms last with so many constants from the first on, as the side sees them.
pub(crate) fn push_run(
    alloc: Global,
    points: &mut Vec<TestPoint>,
    x: VarId,
    side: Side,
    form: &Linear,
    first: i128,
    count: u64,
    scale: i128,
) -> Result<(), AllocError>
    requires within { (k : ℕ) → k < count → InLimit (first +ℤ pos k) }
    requires positive { pos 0 <ℤ scale }
    requires scale_within { InLimit scale }
    requires well_formed { All (IsPointOf x) points.old.items }
    ensures places { OnOk result (map place_of points.new.items ≡ map place_of points.old.items ++ run_of side (unsigned_abs scale) form.now first count) }
    ensures well_formed { OnOk result (All (IsPointOf x) points.new.items) }
{
    for after in 0..count {
        let constant = signed(side, first + i128::from(after));
        let point = over_scale(alloc, x, form, constant, scale)?;
        push_point(points, point)?;
    }
    Ok(())
}

// A positive multiple of a form's terms, without a constant. `Overflow` comes exactly where a number passes the limit.
pub(crate) fn scaled(alloc: Global, form: Linear, factor: i128) -> Result<Linear, LinError>
    requires positive { pos 0 <ℤ factor }
    requires within { InLimit factor }
    ensures value { IfOk result (λ r. r ≡ scale factor (record { terms = form.terms; constant = pos 0 })) }
    ensures linear { IfOk result IsLinear }
    ensures overflow { IsErrOf result LinError.Overflow → (y : ℕ) × PastLimit (factor *ℤ coefficient y form) }
{
    let bare = form.with_constant(0);
    bare.combine(alloc, factor, &bare, 0)
}

// A positive multiple of a number, and 0 or 1 more: `None` exactly where this passes the limit. The multiple itself may be
// the least of 128 bits.
pub(crate) fn first_number(factor: i128, number: i128, step: i128) -> Option<i128>
    requires not_negative { pos 0 ≤ℤ step }
    requires small { step ≤ℤ pos 1 }
    ensures { MatchOption result (PastLimit (factor *ℤ number +ℤ step)) (λ n. (n ≡ factor *ℤ number +ℤ step) × InLimit n) }
{
    sum(factor.checked_mul(number)?, step)
}
