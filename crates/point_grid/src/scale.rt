// An axis in whole numbers over a denominator.
ghost use Rattle.std.specs.Prelude.{◌≡◌, ◌<◌};
ghost use Rattle.exact_numbers.specs.Limit.{InLimit};
ghost use Rattle.program_meaning.specs.Counts.{count_of};
ghost use Rattle.program_meaning.specs.Scales.{number_of};
ghost use Rattle.point_grid.specs.ScaleWithin.{IsWithin};

use logic_meaning::VarId;
use program_meaning::Scale;

// The number with this index.
pub(crate) fn number_in(scale: &Scale, index: u128) -> i128
    requires within { IsWithin scale.now }
    requires index { index < scale.now.count }
    ensures value { result ≡ number_of scale.now index }
    ensures within { InLimit result }
{
    scale.low + (index * scale.step) as i128
}

// How many multiples of the step, from 0 on, are at most the span.
pub(crate) fn count(span: i128, step: u128) -> u128
    requires span { InLimit span }
    requires step { 0 < step }
    ensures { result ≡ count_of span step }
{
    if span < 0 {
        0
    } else {
        span.unsigned_abs() / step + 1
    }
}
