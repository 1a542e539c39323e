//! Reads the bytes of a script as tokens: what they spell, how they are cut into pieces, and how deeply each is nested.
#![tactic(auto)]

mod ahead;
mod laws;
mod level;
mod lexer;
mod piece;
mod scan;
mod span;
mod splitter;
mod terminal;
mod token;
mod words;

pub use ahead::terminals;
pub use laws::{longest_tokens, one_piece};
pub use level::is_deep;
pub use lexer::{
    LITERAL_LIMIT, digits, is_blank, is_digit, is_letter, line, literal, literal_after,
};
pub use piece::{Piece, next_piece};
pub use scan::tokens;
pub use splitter::{Cut, PIECE_LIMIT, Splitter};
pub use token::{Token, Tokens};
