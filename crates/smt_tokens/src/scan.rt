ghost use Rattle.std.specs.Prelude.{IfOk};
ghost use Rattle.smt_language.specs.Lexing.{Lexes};

use crate::lexer::next_lexeme;
use smt_language::SmtLexeme;
use std::alloc::{AllocError, Global};

/// The tokens of the bytes, in order, bad ones among them.
pub fn lexemes(alloc: Global, bytes: &[u8]) -> Result<Vec<SmtLexeme>, AllocError>
    ensures { IfOk result (λ ts. Lexes bytes.now 0 ts.items) }
{
    let mut list = Vec::new(alloc);
    let mut from = 0;
    'tokens: while let Some(SmtLexeme { token, start, end }) = next_lexeme(bytes, from) {
        list.push(SmtLexeme { token, start, end })?;
        from = end;
    }
    Ok(list)
}
