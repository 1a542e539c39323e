//! The least value of the target of a resolved problem, by the simplex method: a point that attains it, and multipliers of the
//! constraints by which no point has a smaller one. What the search finds is checked.
#![tactic(auto)]

mod checks;
mod constraint_at;
mod found;
mod least;
mod problem;
mod rows;

pub use constraint_at::tree_constraint;
pub use found::Found;
pub use least::least_found;
