ghost use Rattle.std.specs.Prelude.{◌≡◌};
ghost use Rattle.program_meaning.specs.SmtWords.{of_reading, word_of};
ghost use Rattle.program_meaning.specs.declared.smt_error.SmtError.TheVariants as error;

use smt_language::ReadError;
use std::alloc::AllocError;
use thiserror::Error;

/// Why a command is refused, or that memory ran out. The causes are ordered as they are looked for, and each is told by its word.
#[derive(Clone, Copy, Debug, PartialEq, Eq, PartialOrd, Ord, Error)]
pub enum SmtError {
    /// A token is bad.
    #[error("lexical")]
    Lexical,
    /// A token stands deeper than 512 parentheses.
    #[error("nesting")]
    Nesting,
    /// The tokens are no command.
    #[error("syntax")]
    Syntax,
    /// The command does not stand where it may.
    #[error("mode")]
    Mode,
    /// The name is declared already.
    #[error("declared")]
    Declared,
    /// A symbol is neither declared nor bound.
    #[error("undeclared")]
    Undeclared,
    /// A term stands for a formula or the reverse, or what stands is not of the logic.
    #[error("sort")]
    Sort,
    /// The formula with each `let` written out has more nodes than the limit.
    #[error("nodes")]
    Nodes,
    /// A product of what is not constant.
    #[error("nonlinear")]
    Nonlinear,
    /// A quotient by what is no constant other than 0.
    #[error("division")]
    Division,
    /// A formula is higher than 512.
    #[error("depth")]
    Depth,
    /// A number passes 2^127 - 1.
    #[error("overflow")]
    Overflow,
    /// The line is longer than 32 MiB.
    #[error("text")]
    Text,
    /// There is no memory left.
    #[error("out of memory")]
    Memory,
}

impl SmtError {
    /// The word of the refusal, as its line has it. It takes no memory.
    pub fn word(self) -> &'static str
        ensures { result.now ≡ word_of self }
    {
        match self {
            SmtError::Lexical => "lexical",
            SmtError::Nesting => "nesting",
            SmtError::Syntax => "syntax",
            SmtError::Mode => "mode",
            SmtError::Declared => "declared",
            SmtError::Undeclared => "undeclared",
            SmtError::Sort => "sort",
            SmtError::Nodes => "nodes",
            SmtError::Nonlinear => "nonlinear",
            SmtError::Division => "division",
            SmtError::Depth => "depth",
            SmtError::Overflow => "overflow",
            SmtError::Text => "text",
            SmtError::Memory => "memory",
        }
    }
}

impl From<AllocError> for SmtError {
    ghost from_gives = { λ _ e. e ≡ error.Memory };

    fn from(_error: AllocError) -> SmtError {
        SmtError::Memory
    }
}

impl From<ReadError> for SmtError {
    ghost from_gives = { λ r e. e ≡ of_reading r };

    fn from(error: ReadError) -> SmtError {
        match error {
            ReadError::Lexical => SmtError::Lexical,
            ReadError::Nesting => SmtError::Nesting,
            ReadError::Syntax => SmtError::Syntax,
            ReadError::Memory => SmtError::Memory,
        }
    }
}
