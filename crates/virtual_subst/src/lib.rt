//! Virtual substitution over shared formulas: a test point put into a formula of a store, beside the store.
#![tactic(auto)]

mod atoms;
mod error;
mod folding;
mod guards;
mod nodes;
mod putting;
mod results;
mod sharing;
mod substitution;
mod table;
mod taking;
mod truths;

pub use error::SubstError;
pub use folding::{fold, normal_made};
pub use guards::with_guard;
pub use results::result_shared;
pub use sharing::substitute_all;
pub use substitution::{substitute_listed, substitute_shared};
pub use taking::put_at_all;
