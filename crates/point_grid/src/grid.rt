// Grids of points over one denominator.
ghost use Rattle.std.specs.Prelude.{◌≡◌, ◌≤◌, ◌<◌, pos, ◌<ℤ◌, map, nat_eq, IfOk, OnOk, IsErrOf, IsTrue, ◌↔◌};
ghost use Rattle.std.specs.List.{AllByRecursion, IsDistinct};
ghost use Rattle.linear_forms.specs.Values.{number_at};
ghost use Rattle.program_meaning.specs.Scales.{size, choice};

use crate::error::GridError;
use crate::parts::{common_denominator, product_of_counts, scales_over};
use crate::points::put_numbers;
use linear_forms::Values;
use program_meaning::{Axis, Scale};
use std::alloc::{AllocError, Global};
use std::marker::Model;

// So many points at most has a grid.
const MOST_POINTS: u128 = 1_000_000;

/// The points of a grid over one denominator: all choices of one value of each axis, that of the first axis changing slowest.
#[derive(Drop)]
pub struct Grid {
    denominator: i128,
    scales: Vec<Scale>,
    points: usize,
}

impl Model for Grid {
    ghost use Rattle.program_meaning.specs.Frames.{Frame};
    ghost use Rattle.point_grid.specs.FramePoints.{IsFrame};

    ghost Value = { Frame };

    ghost view = { λ g. record { denominator = g.denominator; scales = g.scales.items } };

    ghost invariant = { λ g. IsFrame (record { denominator = g.denominator; scales = g.scales.items }) g.points };
}

impl Grid {
    ghost use Rattle.program_meaning.specs.Frames.{most_points};
    ghost use Rattle.program_meaning.specs.GridPoints.{grid_of, GridPasses, GridFits, HasTooMany};
    ghost use Rattle.point_grid.specs.Steps.{name_of, IsRising};

    /// The grid of the axes, over the least common multiple of all denominators in lowest terms. `Overflow` comes exactly where
    /// that multiple, a numerator over it or the difference of the ends of an axis passes 2^127 - 1, `Points` exactly where none
    /// does and the grid has more than 1,000,000 points, else `Memory`.
    pub fn of(alloc: Global, axes: &[Axis]) -> Result<Grid, GridError>
        requires names { IsDistinct nat_eq (map name_of axes.now) }
        requires rising { AllByRecursion IsRising axes.now }
        ensures grid { IfOk result (λ g. g ≡ grid_of axes.now) }
        ensures fits { OnOk result (GridFits axes.now) }
        ensures few { IfOk result (λ g. size g.scales ≤ most_points) }
        ensures overflow { IsErrOf result GridError.Overflow → GridPasses axes.now }
        ensures points { IsErrOf result GridError.Points → HasTooMany axes.now }
    {
        let Some(denominator) = common_denominator(axes) else {
            return Err(GridError::Overflow);
        };
        let scales = scales_over(alloc, denominator, axes)?;
        let points = product_of_counts(&scales);
        if MOST_POINTS < points {
            return Err(GridError::Points);
        }
        Ok(Grid {
            denominator,
            scales,
            points: points as usize,
        })
    }

    // The denominator of the points.
    pub(crate) fn denominator(&self) -> i128
        ensures value { result ≡ self.now.denominator }
        ensures positive { pos 0 <ℤ result }
    {
        self.denominator
    }

    // Gives the names of the axes their numbers at the point with this index. Its only error is want of memory.
    pub(crate) fn put_point(&self, index: usize, values: &mut Values) -> Result<(), AllocError>
        requires { index < size self.now.scales }
        ensures put { OnOk result (number_at values.new ≡ choice (number_at values.old) self.now.scales index) }
        ensures denominator { values.new.denominator ≡ values.old.denominator }
    {
        put_numbers(&self.scales, self.points, index, values)
    }

    /// The number of points.
    pub fn len(&self) -> usize
        ensures { result ≡ size self.now.scales }
    {
        self.points
    }

    /// Whether there is no point.
    pub fn is_empty(&self) -> bool
        ensures { IsTrue result ↔ (size self.now.scales ≡ 0) }
    {
        self.points == 0
    }
}
