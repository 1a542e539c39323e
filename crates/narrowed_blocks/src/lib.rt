//! Blocks of `ex` with fewer names: names of a conjunction that go without a test point.
#![tactic(auto)]

mod conjunction;
mod growth;
mod narrowing;
mod open_block;
mod setting;

pub use narrowing::{NarrowedBlock, narrowed};
