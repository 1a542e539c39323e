//! From a script to the lines that answer it, and to the status that the process ends with.
#![tactic(auto)]

mod answer;
mod command_words_laws;
mod count;
mod laws;
mod lines;
mod notes;
mod number;
mod options;
mod process;
mod program;
mod prompt;
mod reading;
mod script;
mod smt;
mod stream;
mod team;
mod value;
mod words;
mod write;

pub use command_words_laws::words_spell_once;
pub use count::tally;
pub use laws::{
    never_refused_is_unrefused, scripts_without_formulas, unrefused_scripts_have_no_refusal,
};
pub use process::{WordsError, finish, run_process};
pub use program::{run, run_gated, run_told};
pub use prompt::Origin;
pub use reading::options_of;
pub use script::generated;
pub use team::Team;
pub use words::are_valid;
