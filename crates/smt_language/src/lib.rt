//! What a script in SMT-LIB spells: tokens, commands, terms, and the formulas that they stand for.
#![tactic(auto)]

mod command;
mod expression;
mod head;
mod lexer;
mod limit;
mod names;
mod read_error;
mod sexpr;
mod token;
mod word;

pub use command::Sort;
pub use expression::Operator;
pub use head::Head;
pub use lexer::Front;
pub use limit::DEPTH_LIMIT;
pub use names::SortedName;
pub use read_error::ReadError;
pub use sexpr::Leaf;
pub use token::{SmtCut, SmtLexeme, SmtToken};
pub use word::Word;
