//! What the statements of a script share: the theory, the names of variables, what is bound, what is assumed, and the store of formulas.
#![tactic(auto)]

mod assumption;
mod standing;
mod state;

pub use assumption::Assumption;
pub use prenex_forms::pnf;
pub use redlog_printer::{PrintError, stored_text};
pub use standing::Standing;
pub use state::SessionState;
