//! Reads one command of a script in SMT-LIB 2.6: from bytes to a tree.
#![tactic(auto)]

mod binding;
mod command;
mod expression;
mod grouping;
mod head;
mod read;
mod refusal;
mod sexpr;

pub use read::{one_command, read_command};
