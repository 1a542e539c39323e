//! Walks over the tokens of a statement, and says with which of them no statement goes on, and what could have come in its place.
#![tactic(auto)]

mod brackets;
mod continuations;
mod facts;
mod next;
mod operand;
mod walk;

pub use brackets::{Open, Side};
pub use continuations::expected;
pub use facts::Facts;
pub use next::Next;
pub use walk::{Walk, walk_over};
