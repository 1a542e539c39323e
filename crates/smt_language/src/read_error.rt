ghost use Rattle.std.specs.Prelude.{◌≡◌};
ghost use Rattle.smt_language.specs.declared.read_error.ReadError.TheVariants.{Memory};

use std::alloc::AllocError;
use thiserror::Error;

/// Why bytes are read as no command.
#[derive(Clone, Copy, Debug, PartialEq, Eq, Error)]
pub enum ReadError {
    #[error("lexical")]
    Lexical,
    #[error("nesting")]
    Nesting,
    #[error("syntax")]
    Syntax,
    #[error("out of memory")]
    Memory,
}

impl From<AllocError> for ReadError {
    ghost from_gives = { λ _ e. e ≡ Memory };

    fn from(_error: AllocError) -> ReadError {
        ReadError::Memory
    }
}
