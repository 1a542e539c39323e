//! The text of resolved formulas.
#![tactic(auto)]

mod answers;
mod cases;
mod error;
mod forms;
mod formulas;
mod laws;
mod output;
mod points;
mod text;

pub use cases::cases_text;
pub use error::PrintError;
pub use forms::{put_atom, put_form};
pub use formulas::{formula_text, put_tree};
pub use laws::nodes_bound_text;
pub use output::Output;
pub use points::{point_text, put_fraction};
pub use text::stored_text;
