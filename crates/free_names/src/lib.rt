//! Which numbers are free in a written formula, with the bound formulas and the answers of its commands in their places.
#![tactic(auto)]

mod missing;
mod quantified;
mod valued;

pub use quantified::is_quantified;
pub use valued::is_valued;
