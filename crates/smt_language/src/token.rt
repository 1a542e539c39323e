use language_meaning::Literal;
use logic_meaning::Name;

/// What a token is. A decimal stands for the first number over the second, which is a power of 10.
#[derive(Clone, Copy)]
pub enum SmtToken {
    Open,
    Close,
    Numeral(Literal),
    Decimal(Literal, Literal),
    /// A symbol, without its bars.
    Symbol(Name),
    /// A symbol of no byte or of more than 64.
    Unfit,
    /// A string.
    Text,
    Keyword,
    Bad,
}

/// A token with its place: its text is the bytes from `start` up to `end`.
#[derive(Clone, Copy)]
pub struct SmtLexeme {
    pub token: SmtToken,
    pub start: usize,
    pub end: usize,
}

/// The place of a command of a script, from `start` up to `end`.
#[derive(Clone, Copy, Debug)]
pub struct SmtCut {
    pub start: usize,
    pub end: usize,
}
