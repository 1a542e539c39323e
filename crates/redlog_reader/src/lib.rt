//! Reads one statement of a script: from tokens to a tree.
#![tactic(auto)]

mod argument;
mod call;
mod constraints;
mod ending;
mod grid;
mod machine;
mod operand;
mod peek;
mod pending;
mod point;
mod read;
mod setting;
mod statement;

pub use read::{one_statement, read_statement};
