//! What is printed is read back: the text of a resolved formula spells one statement, and its formula is resolved to the
//! printed one.
#![tactic(auto)]

mod laws;
mod lines_read_back_laws;

pub use laws::{
    deep_text_is_nesting, height_bounds_level, printed_text_is_read_back, printed_text_spells,
    written_formula_is_resolved,
};
pub use lines_read_back_laws::{
    echo_is_answered, names_stay_writable, printed_is_formula, text_is_answered,
};
