// The parts of a grid: the common denominator of axes, the axes over it, and how many points they have.
ghost use Rattle.std.specs.Prelude.{◌≡◌, ◌-◌, ◌^◌, pos, ◌<ℤ◌, map, min, IfOk, IsErrOf};
ghost use Rattle.std.specs.List.{AllByRecursion};
ghost use Rattle.exact_numbers.specs.Limit.{checked};
ghost use Rattle.logic_meaning.specs.Some.{SomeOf};
ghost use Rattle.program_meaning.specs.Scales.{size};
ghost use Rattle.point_grid.specs.ScaleWithin.{IsWithin};
ghost use Rattle.program_meaning.specs.GridPoints.{common, scale_of, AxisPasses, AxisFits};
ghost use Rattle.point_grid.specs.Steps.{HasSteps};

use crate::axis::{multiple_with, scale_over};
use crate::error::GridError;
use program_meaning::{Axis, Scale};
use std::alloc::Global;

// The least common multiple of all denominators in lowest terms, or `None` exactly where it passes 2^127 - 1.
pub(crate) fn common_denominator(axes: &[Axis]) -> Option<i128>
    ensures { result ≡ checked (common axes.now) }
{
    let mut multiple = 1;
    for axis in axes {
        multiple = multiple_with(axis, multiple)?;
    }
    Some(multiple)
}

// The axes in whole numbers over a common denominator. `Overflow` comes exactly where a numerator or the difference of the ends of
// an axis passes 2^127 - 1, else `Memory`.
pub(crate) fn scales_over(
    alloc: Global,
    denominator: i128,
    axes: &[Axis],
) -> Result<Vec<Scale>, GridError>
    requires positive { pos 0 <ℤ denominator }
    requires steps { AllByRecursion (HasSteps denominator) axes.now }
    ensures scales { IfOk result (λ scales. scales.items ≡ map (scale_of denominator) axes.now) }
    ensures within { IfOk result (λ scales. AllByRecursion IsWithin scales.items) }
    ensures fits { IfOk result (λ scales. AllByRecursion (AxisFits denominator) axes.now) }
    ensures overflow { IsErrOf result GridError.Overflow → SomeOf (AxisPasses denominator) axes.now }
    ensures points { ¬ (IsErrOf result GridError.Points) }
{
    let mut scales = Vec::new(alloc);
    for axis in axes {
        let Some(scale) = scale_over(axis, denominator) else {
            return Err(GridError::Overflow);
        };
        if let Err(_failed) = scales.push(scale) {
            return Err(GridError::Memory);
        }
    }
    Ok(scales)
}

// How many choices of a number of each scale there are, or 2^128 - 1 where there are more.
pub(crate) fn product_of_counts(scales: &[Scale]) -> u128
    ensures { result ≡ min (size scales.now) (2 ^ 128 - 1) }
{
    let mut points: u128 = 1;
    for scale in scales {
        points = points.saturating_mul(scale.count);
    }
    points
}
