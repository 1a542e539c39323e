//! Grids of points over one denominator, and the truth of a formula without quantifiers at each of them.
#![tactic(auto)]

mod axis;
mod error;
mod grid;
mod laws;
mod parts;
mod points;
mod scale;
mod truths;

pub use error::GridError;
pub use grid::Grid;
pub use laws::{
    axes_have_their_values, every_division_gives_one_list, grid_fits_or_passes,
    points_stand_at_their_indices,
};
pub use truths::grid_truth;
