//! The forms of a formula that commands ask for, from an id of a store to an id of it, and its case list, under atoms and a limit of
//! nodes.
#![tactic(auto)]

mod assumptions;
mod cases;
mod conditions;
mod error;
mod forms;
mod guards;
mod lines;
mod lowest;
mod reading;
mod references;
mod refusals;
mod theories;
mod way;
mod workshop;

pub use assumptions::{number_all, number_part, number_parts, read_all, read_parts};
pub use cases::wanted_cases;
pub use engine_answers::{Limits, guards_together};
pub use error::FormsError;
pub use forms::{ClauseForm, Form, Premised, formed};
pub use lines::{printed_line, text_of, text_of_truth};
pub use reading::{holds_quantifier, resolved};
pub use refusals::{forms_refusal, measured_refusal, print_refusal, static_refusal};
pub use theories::check_fields;
pub use way::Way;
pub use workshop::Workshop;
