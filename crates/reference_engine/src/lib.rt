//! The reference elimination as a program: quantifiers are eliminated from the inside, branch by branch, and nodes are counted.
#![tactic(auto)]

mod branch;
pub mod branches;
mod cases;
mod chain;
mod eliminate;
mod forms;
mod formulas;
mod measured;
mod parts;
mod points;
mod shared_elimination_eliminate;
mod sharing;
mod step;
mod steps;
mod truth;
mod truths;
mod unfolding;

pub use branch::{Leaf, without_points};
pub use cases::{PrintedCase, case_leaves, cases_plain, is_asked};
pub use eliminate::{eliminate_form, eliminate_plain};
pub use forms::atom_put;
pub use formulas::{formula_put, put_in};
pub use measured::{Measured, Setting, pay};
pub use parts::{before, is_ex, stands_in};
pub use points::{paid_points, stopped};
pub use shared_elimination_eliminate::{eliminate_shared, unfolded_form};
pub use sharing::share;
pub use step::case_steps;
pub use truth::truth_by_elimination;
pub use truths::truth_plain;
pub use unfolding::unfolded;
