//! Which of two formulas has no longer text, whatever the names of its variables are.
#![tactic(auto)]

mod atoms;
mod comparing;
mod error;
mod extent;
mod formulas;

pub use comparing::is_no_larger;
