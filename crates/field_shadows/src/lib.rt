//! The shadow of a conjunction of atoms over the ordered fields: what they say of the other names where one name may have any value.
#![tactic(auto)]

mod conjunction;
mod crossing;
mod equation;
mod hold;
mod normalising;
mod signed;

pub use conjunction::field_shadow;
