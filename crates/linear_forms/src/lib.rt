// Linear forms over numbered names, exact at the limit 2^127 - 1.
#![tactic(auto)]

mod error;
mod form;
mod laws;
mod merge;
mod terms;
mod values;

pub use error::LinError;
pub use form::Linear;
pub use laws::{form_is_determined, form_splits, terms_have_coefficients};
pub use values::Values;
