//! Written formulas become resolved ones, or are refused for the first cause.
#![tactic(auto)]

mod causes;
mod numbering;
mod order;
mod parts;
mod plain;
mod reading;
mod resolving;
mod steps;
mod text;

pub use numbering::{bound_formula, number_formula};
pub use order::{Step, commands_inside};
pub use parts::{Members, Pair, Part};
pub use plain::{PlainId, PlainMaker};
pub use resolving::linearise;
pub use steps::{
    compared_part, congruent_part, constant_part, joined_part, negated_part, paired_part,
    quantified_part,
};
pub use text::number_text;
