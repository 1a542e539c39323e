//! Formulas without quantifiers, decided by a search that learns clauses: each clause is checked, and each point that is found is tried.
#![tactic(auto)]

mod cases;
mod names;
mod nodes;
mod refuting;
mod searching;
mod solver;
mod table;
mod variables;

pub use cases::case_count;
pub use searching::{Found, search};
