//! What a conjunction of atoms over the integers says of the other names where one name goes: its shadow there.
#![tactic(auto)]

mod congruences;
mod forms;
mod pairs;
mod shadow;
mod sides;
mod solving;
mod telling;

pub use shadow::integer_shadow;
