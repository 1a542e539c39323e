// Axes of a grid, and their least common denominator.
ghost use Rattle.std.specs.Prelude.{◌≡◌, pos, ◌<ℤ◌, MatchOption};
ghost use Rattle.exact_numbers.specs.Limit.{checked};
ghost use Rattle.exact_numbers.specs.Frac.{lowest, scaled};
ghost use Rattle.exact_numbers.specs.Fraction.{frac_of};
ghost use Rattle.exact_numbers.specs.Divides.{Divides};
ghost use Rattle.point_grid.specs.ScaleWithin.{IsWithin};
ghost use Rattle.program_meaning.specs.GridPoints.{multiple_with, lowest_of, scale_of, AxisPasses, AxisFits};
ghost use Rattle.point_grid.specs.Steps.{IsRising};

use crate::scale::count;
use exact_numbers::{Fraction, lcm, sum};
use logic_meaning::VarId;
use program_meaning::{Axis, Scale};

// The least common multiple of a number and the denominators in lowest terms, or `None` exactly where it passes 2^127 - 1.
pub(crate) fn multiple_with(axis: &Axis, multiple: i128) -> Option<i128>
    requires { pos 0 <ℤ multiple }
    ensures { result ≡ checked (multiple_with multiple axis.now) }
{
    let with_low = lcm(multiple, lowest(axis.low).denominator)?;
    let with_high = lcm(with_low, lowest(axis.high).denominator)?;
    lcm(with_high, lowest(axis.step).denominator)
}

// The axis in whole numbers over a common denominator, or `None` exactly where a numerator or the difference of the ends
// passes 2^127 - 1.
pub(crate) fn scale_over(axis: &Axis, denominator: i128) -> Option<Scale>
    requires positive { pos 0 <ℤ denominator }
    requires common { Divides (lowest_of axis.now.step).denominator denominator }
    requires rising { IsRising axis.now }
    ensures { MatchOption result (AxisPasses denominator axis.now) (λ s. (s ≡ scale_of denominator axis.now) × AxisFits denominator axis.now × IsWithin s) }
{
    let low = over(axis.low, denominator)?;
    let high = over(axis.high, denominator)?;
    let step = over(axis.step, denominator)?.unsigned_abs();
    let span = sum(high, -low)?;
    Some(Scale {
        name: axis.name,
        low,
        step,
        count: count(span, step),
    })
}

// The fraction in lowest terms.
fn lowest(fraction: Fraction) -> Fraction
    ensures { frac_of result ≡ lowest fraction.numerator fraction.denominator }
{
    Fraction::reduced(fraction.numerator, fraction.denominator)
}

// The numerator over a multiple of the denominator in lowest terms, or `None` exactly where it passes 2^127 - 1.
fn over(fraction: Fraction, denominator: i128) -> Option<i128>
    requires { pos 0 <ℤ denominator }
    ensures { result ≡ checked (scaled (lowest fraction.numerator fraction.denominator) denominator) }
{
    lowest(fraction).scaled(denominator)
}
