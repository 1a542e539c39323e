//! What formulas mean, what an answer is and what it costs, as definitions: every crate of the engine and of the language stands on it. No function works here.
#![tactic(auto)]

mod form;
mod junction;
mod name;
mod output;
mod quantifier;
mod side;

pub use form::VarId;
pub use junction::Junction;
pub use name::Name;
pub use output::TEXT_LIMIT;
pub use quantifier::Quantifier;
pub use side::Side;
