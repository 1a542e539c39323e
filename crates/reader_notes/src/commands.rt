//! What is said of a command of SMT-LIB.

use crate::note::Said;
use program_meaning::SmtError;
use smt_language::SmtToken;
use smt_tokens::{is_deep, lexemes};
use std::alloc::{AllocError, Global};

/// What is said of a command that is refused so.
pub fn said_of_command(alloc: Global, error: SmtError, bytes: &[u8]) -> Result<Said, AllocError> {
    Ok(Said {
        offset: offset_of(alloc, error, bytes)?,
        text: String::from_str(alloc, explained(error))?,
    })
}

/// The offset of the token that the command is refused for, as far as it is known.
fn offset_of(alloc: Global, error: SmtError, bytes: &[u8]) -> Result<usize, AllocError> {
    let tokens = lexemes(alloc, bytes)?;
    let number = match error {
        SmtError::Lexical => tokens.iter().position(|lexeme| matches!(
            lexeme.token,
            SmtToken::Bad | SmtToken::Unfit
        )),
        SmtError::Declared => Some(2),
        _ => None,
    };
    Ok(match number {
        Some(number) => tokens.get(number).map_or(0, |lexeme| lexeme.start),
        None => 0,
    })
}

/// What a word says of a command.
fn explained(error: SmtError) -> &'static str {
    match error {
        SmtError::Lexical => "a token is bad here",
        SmtError::Nesting => "more than 512 parentheses are open",
        SmtError::Syntax => "this is no command that is known",
        SmtError::Mode =>
            "the command does not stand where it may (set-logic comes first, and once)",
        SmtError::Declared => "this name is declared already",
        SmtError::Undeclared => "a symbol is neither declared nor bound",
        SmtError::Sort => "a term stands for a formula or the reverse, or is not of the logic",
        SmtError::Nodes => "with each let written out the formula has more nodes than --nodes says",
        SmtError::Nonlinear => "of two factors one has to be constant",
        SmtError::Division => "a divisor is a constant other than 0",
        SmtError::Depth => "a formula is higher than 512",
        SmtError::Overflow => {
            "a number passes 170141183460469231731687303715884105727, here or on the way"
        }
        SmtError::Text => "the line is longer than 33554432 bytes",
        SmtError::Memory => "memory ran out",
    }
}
