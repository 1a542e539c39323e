ghost use Rattle.language_meaning.specs.declared.lexer.Lexeme.{Lexeme};

use crate::token::TokenKind;

/// What stands at the front of a text, with the number of its bytes: a blank or a comment, or a token. A bad
/// token has no kind.
#[derive(Clone, Copy)]
pub enum Front {
    Space(usize),
    Token(Option<TokenKind>, usize),
}

/// A token with its place, from `start` up to `end`. A bad one has no kind.
#[derive(Clone, Copy)]
pub struct Lexeme {
    pub kind: Option<TokenKind>,
    pub start: usize,
    pub end: usize,
}
