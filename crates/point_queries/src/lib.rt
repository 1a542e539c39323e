//! The queries about a formula: its case list, its truth and a sample of it at a point, and its truths at the points of a grid.
#![tactic(auto)]

mod cases;
mod grids;
mod holds;
mod points;
mod samples;

pub use cases::answer_cases;
pub use grids::{answer_grid, number_axes};
pub use holds::answer_holds;
pub use points::number_entries;
pub use samples::answer_sample;
