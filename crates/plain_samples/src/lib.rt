//! The sample of a formula: values for the names of the leading block, with which the matrix behind it is true.
#![tactic(auto)]

mod branch;
mod chain;
mod chosen;
mod copying;
mod critical;
mod denominators;
mod first;
mod numbers;
mod places;
mod replay;
mod roots;
mod samples;
mod step;
mod steps;

pub use branch::Branch;
pub use denominators::point_of_values;
pub use first::{first_true_steps, true_steps};
pub use places::place_value;
pub use roots::least_with_atom;
pub use samples::{sample_at, sample_plain};
pub use step::Step;
pub use steps::step_values;
