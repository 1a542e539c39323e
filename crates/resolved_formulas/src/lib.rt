//! What a written formula is resolved to, and that resolving keeps its truth.
#![tactic(auto)]

mod laws;

pub use laws::{forms_have_values, fractions_go_by_the_rule, resolving_keeps_truth};
