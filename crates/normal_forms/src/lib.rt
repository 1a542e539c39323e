//! Disjunctive and conjunctive normal forms of shared formulas.
#![tactic(auto)]

mod absorption;
mod clean;
mod inner;
mod insertion;
mod lines;
mod merging;
mod normal;
mod paths;
mod sieve;
mod sizes;

pub use normal::{cnf, dnf};
