ghost use Rattle.std.specs.Prelude.{◌≡◌};
ghost use Rattle.language_meaning.specs.declared.token.ReadError.TheVariants.{Memory};

use crate::tree::Literal;
use logic_meaning::Name;
use std::alloc::{AllocError, AllocFailed};
use thiserror::Error;

/// Why bytes are read as no statement.
#[derive(Clone, Copy, Debug, PartialEq, Eq, Error)]
pub enum ReadError {
    #[error("long")]
    Long,
    #[error("lexical")]
    Lexical,
    #[error("nesting")]
    Nesting,
    #[error("syntax")]
    Syntax,
    #[error("out of memory")]
    Memory,
}

impl From<AllocError> for ReadError {
    ghost from_gives = { λ _ e. e ≡ Memory };

    fn from(_error: AllocError) -> ReadError {
        ReadError::Memory
    }
}

impl<T: Drop> From<AllocFailed<T>> for ReadError {
    ghost from_gives = { λ _ e. e ≡ Memory };

    fn from(_error: AllocFailed<T>) -> ReadError {
        ReadError::Memory
    }
}

/// What a token is. A word or a sign is kept by its bytes.
#[derive(Clone, Copy)]
pub enum TokenKind {
    Number(Literal),
    Name(Name),
    Word(Name),
    Sign(Name),
}
