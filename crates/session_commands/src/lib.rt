//! Answers one statement of a script with one line, or with the word of its refusal.
#![tactic(auto)]

mod assumptions;
mod formulas;
mod inner;
mod laws;
mod session;

pub use laws::truth_is_never_refused;
pub use session::Session;
