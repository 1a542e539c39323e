ghost use Rattle.std.specs.Prelude.{◌≡◌};
ghost use Rattle.language_meaning.specs.declared.token.ReadError.TheVariants.{Memory};

use language_meaning::{Literal, ReadError, TokenKind};
use logic_meaning::Name;
use std::alloc::{AllocError, AllocFailed};
use std::marker::Model;
use thiserror::Error;

/// A token: its text is the bytes from `start` up to `end`.
#[derive(Clone, Copy)]
pub struct Token {
    pub kind: TokenKind,
    pub start: usize,
    pub end: usize,
}

/// Tokens in their order.
#[derive(Drop)]
pub struct Tokens {
    list: Vec<Token>,
}

impl Model for Tokens {
    ghost use Rattle.std.specs.Prelude.{List};
    ghost use Rattle.redlog_tokens.specs.declared.token.Token.{Token};

    ghost Value = { List Token };

    ghost view = { λ t. t.list.items };
}

impl Tokens {
    /// These tokens. It takes no memory.
    pub fn of(list: Vec<Token>) -> Tokens
        ensures { result ≡ list.items }
    {
        Tokens { list }
    }

    /// The tokens, in their order. It takes no memory.
    pub fn items(&self) -> &[Token]
        ensures { result.now ≡ self.now }
    {
        &self.list
    }
}
