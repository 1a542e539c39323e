//! Reads the bytes of an SMT-LIB 2.6 script as tokens, and cuts the script into its commands.
#![tactic(auto)]

mod command;
mod commands;
mod expression;
mod fault;
mod laws;
mod lexer;
mod names;
mod number;
mod scan;
mod step;
mod text;
mod word;

pub use command::SmtCommand;
pub use commands::smt_cuts;
pub use expression::{
    Expression, Expressions, LocalValue, LocalValues, divisible, local, quantified,
};
pub use fault::{has_bad, is_deep};
pub use laws::{longest_tokens, one_list_of_commands, one_list_of_tokens};
pub use lexer::next_lexeme;
pub use names::{Names, SortedNames};
pub use scan::lexemes;
pub use word::{logic_of, word_of};
