// The numbers of a point.
ghost use Rattle.std.specs.Prelude.{◌≡◌, ◌<◌, OnOk};
ghost use Rattle.std.specs.List.{AllByRecursion};
ghost use Rattle.linear_forms.specs.Values.{number_at};
ghost use Rattle.program_meaning.specs.Scales.{choice, size};
ghost use Rattle.point_grid.specs.ScaleWithin.{IsWithin};

use crate::scale::number_in;
use linear_forms::Values;
use program_meaning::Scale;
use std::alloc::AllocError;

// Gives the names of the scales their numbers at the choice with this index, of so many. Its only error is want of memory.
pub(crate) fn put_numbers(
    scales: &[Scale],
    count: usize,
    index: usize,
    values: &mut Values,
) -> Result<(), AllocError>
    requires within { AllByRecursion IsWithin scales.now }
    requires count { count ≡ size scales.now }
    requires index { index < count }
    ensures put { OnOk result (number_at values.new ≡ choice (number_at values.old) scales.now index) }
    ensures denominator { values.new.denominator ≡ values.old.denominator }
{
    let mut stride = count as u128;
    let mut left = index as u128;
    for scale in scales {
        stride /= scale.count;
        if let Err(_failed) = values.put(scale.name, number_in(scale, left / stride)) {
            return Err(AllocError);
        }
        left %= stride;
    }
    Ok(())
}
