//! What the programs of the gate share: formulas of statements, read on their own, and forms, atoms, trees, test points and
//! samples as texts in which names are numbers: `v0`, `v1`.
#![tactic(auto)]

mod forms;
mod reading;
mod telling;
mod writing;

pub use forms::{atom_text, form_text};
pub use reading::{LIMIT, form_of, formula_of, normal_id, numbered_id, tidy_id};
pub use telling::tell;
pub use writing::{answers_text, place_text, sample_text, tree_text, unfolded_text};
