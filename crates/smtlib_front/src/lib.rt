//! A script in SMT-LIB 2.6 that is answered command by command.
#![tactic(auto)]

mod assertions;
mod checks;
mod command;
mod declarations;
mod kept;
mod laws;
mod reading;
mod script;
mod sentences;
mod smt;
mod smt_texts_values;
mod symbols;
mod values;

pub use engine_answers::Limits;
pub use kept::Kept;
pub use laws::unrefused_smt_scripts_have_no_refusal;
pub use script::answer_smt;
pub use smt::Smt;
pub use smt_texts_values::values_text;
