//! The least value of a name under linear equations and inequalities, by an exact simplex method. What it finds is to be checked: no
//! clause says anything of it.
#![tactic(auto)]

mod line;
mod numbers;
mod outcome;
mod search;
mod system;
mod tableau;

pub use outcome::{Optimum, Ratio};
pub use system::{Sense, System};
