ghost use Rattle.std.specs.Prelude.{IfOk, IfErr};
ghost use Rattle.language_meaning.specs.Lexing.{IsLexical};
ghost use Rattle.redlog_tokens.specs.Longest.{AreTokens, LexicalWhere};

use crate::lexer::next_lexeme;
use crate::token::{Token, Tokens};
use language_meaning::ReadError;
use std::alloc::Global;

/// The tokens of the bytes, in order. `Lexical` says that a token is bad.
pub fn tokens(alloc: Global, bytes: &[u8]) -> Result<Tokens, ReadError>
    ensures tokens { IfOk result (λ ts. AreTokens bytes.now ts) }
    ensures lexical { IfErr result (λ e. LexicalWhere e (IsLexical bytes.now)) }
{
    let mut list = Vec::new(alloc);
    let mut from = 0;
    'tokens: while let Some(lexeme) = next_lexeme(bytes, from) {
        let start = lexeme.start;
        let end = lexeme.end;
        let Some(kind) = lexeme.kind else {
            return Err(ReadError::Lexical);
        };
        list.push(Token { kind, start, end })?;
        from = end;
    }
    Ok(Tokens::of(list))
}
