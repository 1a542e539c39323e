//! What a script spells: tokens, statements, terms and formulas as they are written, and the formulas that they stand for.
#![tactic(auto)]

mod entries;
mod grid;
mod inner_word;
mod level;
mod lexer;
mod limit;
mod statement;
mod static_error;
mod terminal;
mod token;
mod tree;

pub use entries::PointEntry;
pub use grid::{GridAxis, Ratio};
pub use inner_word::InnerWord;
pub use level::{Change, Group, LEVEL_LIMIT};
pub use lexer::{Front, Lexeme};
pub use limit::BYTE_LIMIT;
pub use statement::Setting;
pub use static_error::StaticError;
pub use terminal::{Mark, Terminal, Word};
pub use token::{ReadError, TokenKind};
pub use tree::{Literal, Relation};
