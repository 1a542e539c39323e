//! A graph of bounds on differences, which come and go, and potentials that meet them or a cycle that cannot be met. What it finds is to be
//! checked: no clause says anything of it.
#![tactic(auto)]

mod graph;

pub use graph::{Added, Edge, Graph};
