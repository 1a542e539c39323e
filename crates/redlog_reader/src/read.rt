ghost use Rattle.std.specs.Prelude.{◌≡◌, ℕ, List, IfOk, IfErr};
ghost use Rattle.written_syntax.specs.StatementSyntaxWritable.{IsWritable};
ghost use Rattle.language_meaning.specs.Statements.{StatementTree};
ghost use Rattle.written_syntax.specs.StatementSyntaxCodeTrees.{statement_tree};
ghost use Rattle.language_meaning.specs.Statement.{Spells, Unread};

use crate::statement::statement;
use language_meaning::{BYTE_LIMIT, ReadError};
use redlog_tokens::{is_deep, terminals};
use std::alloc::Global;
use written_syntax::Statement;

/// The statement that the bytes of one piece spell, with its end mark. Why they spell none is the first of: `Long`, they
/// are more than 4 MiB; `Lexical`, a token is bad; `Nesting`, the level of a token passes 512; `Syntax`, the tokens
/// spell no statement.
pub fn read_statement(alloc: Global, bytes: &[u8]) -> Result<Statement, ReadError>
    ensures spelled { IfOk result (λ s. Spells bytes.now (statement_tree s)) }
    ensures writable { IfOk result (λ s. IsWritable (statement_tree s)) }
    ensures refused { IfErr result (Unread bytes.now) }
{
    if bytes.len() > BYTE_LIMIT {
        return Err(ReadError::Long);
    }
    let terminals = terminals(alloc, bytes)?;
    let deep = is_deep(alloc, &terminals)?;
    if deep {
        return Err(ReadError::Nesting);
    }
    let statement = statement(alloc, &terminals)?;
    Ok(statement)
}

/// No bytes spell two statements.
pub fn one_statement()
    ensures { (bytes : List ℕ) (s t : StatementTree) → Spells bytes s → Spells bytes t → s ≡ t }
{}
