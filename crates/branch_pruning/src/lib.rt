//! Formulas of a store pruned by certificates: what no point meets goes, what others imply, and what others cover.
#![tactic(auto)]

mod comparing;
mod conjunction;
mod covering;
mod cutting;
mod deciding;
mod doubts;
mod impossible;
mod members;
mod numbered;
mod pruning;
mod rows;

pub use covering::uncovered;
pub use cutting::Reach;
pub use impossible::is_impossible;
pub use pruning::pruned;
