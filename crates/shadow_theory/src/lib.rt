//! What a conjunction of atoms says of the other names where one name may have any value: its shadow.
#![tactic(auto)]

mod shadow;

pub use shadow::Shadow;
