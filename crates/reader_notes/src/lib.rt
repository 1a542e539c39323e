//! Says of a refused statement where what is wrong stands, and what could stand there.
#![tactic(auto)]

mod bad;
mod commands;
mod fronts;
mod hints;
mod meaning;
mod note;
mod spelled;

pub use note::add_note;
