//! Clauses over variables that stand for formulas, and which of them follow from others by unit steps.
#![tactic(auto)]

mod clause;
mod failing;
mod following;

pub use clause::{Clause, Literal};
pub use following::follows;
