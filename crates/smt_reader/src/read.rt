ghost use Rattle.std.specs.Prelude.{◌≡◌, ℕ, List, IfOk, IfErr};
ghost use Rattle.smt_language.specs.Trees.{CommandTree};
ghost use Rattle.smt_tokens.specs.CodeTrees.{command_tree};
ghost use Rattle.smt_language.specs.Faults.{kinds};
ghost use Rattle.smt_language.specs.Spells.{Spells, Says, IsUnread};
ghost use Rattle.smt_reader.specs.Refuses.{Refuses, cause_of};
ghost use Rattle.smt_language.specs.declared.read_error.ReadError.TheVariants.{Memory};

use crate::command::command;
use crate::grouping::members;
use crate::refusal::Refusal;
use smt_language::{ReadError, SmtLexeme};
use smt_tokens::{SmtCommand, has_bad, is_deep, lexemes};
use std::alloc::{AllocError, Global};
use thiserror::Error;

impl From<Refusal> for ReadError {
    ghost from_gives = { λ r e. e ≡ cause_of r };

    fn from(refusal: Refusal) -> ReadError {
        match refusal {
            Refusal::Syntax => ReadError::Syntax,
            Refusal::Memory => ReadError::Memory,
        }
    }
}

/// The command that the bytes of one command spell. Why they spell none is the first of: `Lexical`, a token is bad; `Nesting`, a token
/// stands deeper than 512 parentheses; `Syntax`, the tokens are no command.
pub fn read_command(alloc: Global, bytes: &[u8]) -> Result<SmtCommand, ReadError>
    ensures read { IfOk result (λ c. Spells bytes.now (command_tree c)) }
    ensures unread { IfErr result (IsUnread bytes.now) }
{
    let list = lexemes(alloc, bytes)?;
    let tokens = list.as_slice();
    if has_bad(tokens) {
        return Err(ReadError::Lexical);
    }
    if is_deep(tokens) {
        return Err(ReadError::Nesting);
    }
    let command = said(alloc, tokens)?;
    Ok(command)
}

/// The command that the tokens are.
fn said(alloc: Global, tokens: &[SmtLexeme]) -> Result<SmtCommand, Refusal>
    ensures read { IfOk result (λ c. Says (kinds tokens.now) (command_tree c)) }
    ensures refused { IfErr result (λ e. Refuses e ((c : CommandTree) → Says (kinds tokens.now) c → ⊥)) }
{
    let parts = members(alloc, tokens)?;
    command(alloc, &parts)
}

/// No bytes spell two commands.
pub fn one_command()
    ensures { (bytes : List ℕ) (c d : CommandTree) → Spells bytes c → Spells bytes d → c ≡ d }
{}
