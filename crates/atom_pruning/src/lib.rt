//! Conjunctions of atoms: whether some point meets them, and which of them the others imply, by Farkas multipliers.
#![tactic(auto)]

mod combination;
mod directions;
mod implied;
mod names;
mod outlook;
mod pruning;
mod question;
mod row_list;
mod rows;
mod sample;
mod sides;
mod signs;
mod table;

pub use directions::Directions;
pub use implied::are_implied;
pub use outlook::may_be_pruned;
pub use pruning::{Pruned, are_impossible, kept, kept_in_turn};
pub use rows::AtomRows;
pub use sample::Sample;
pub use signs::may_be_decided;
pub use table::Table;
