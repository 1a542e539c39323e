//! Simplification of shared formulas under assumptions.
#![tactic(auto)]

mod closing;
mod error;
mod free;
mod joined;
mod known;
mod part;
mod parts;
mod pass;
mod places;
mod repeat;
mod unchanged;

pub use error::SimplError;
pub use repeat::simplify;
