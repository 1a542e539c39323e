//! What is put for a name of a branch, which then has the name no more: the choice of the name and of its test points.
#![tactic(auto)]

mod absent;
mod atoms;
mod choice;
mod choosing;
mod counts;
mod ends;
mod equations;
mod error;
mod fields;
mod roots;

pub use absent::absent_names;
pub use choice::Chosen;
pub use choosing::chosen;
pub use error::ChoiceError;
