//! The least value of a name at which a formula of a store is true, over the ordered fields.
#![tactic(auto)]

mod atoms;
mod least;
mod truths;

pub use least::{Least, OptError, least_value};
