//! Shorter formulas, found and licensed by questions to the elimination itself.
#![tactic(auto)]

mod answer;
mod asking;
mod atoms;
mod candidates;
mod cases;
mod constant;
mod hull;
mod negating;
mod parts;
mod shortening;
mod thinning;

pub use negating::negation;
pub use shortening::{shortened, uncovered};
