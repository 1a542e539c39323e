use crate::token::SmtToken;

/// What stands at the front of a text, with the number of its bytes: a blank or a comment, or a token.
#[derive(Clone, Copy)]
pub enum Front {
    Space(usize),
    Token(SmtToken, usize),
}
