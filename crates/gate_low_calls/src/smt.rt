//! Commands and tokens of SMT-LIB scripts, as text.

use smt_language::{SmtCut, SmtLexeme, SmtToken};
use smt_tokens::{lexemes, smt_cuts};
use std::alloc::Global;

/// Parentheses in a string, in bars and in a comment, tokens outside all parentheses, and a parenthesis that nothing closes.
const SCRIPT: &[u8] = b"(f \")\" |(|) x y;(\n() (z";

/// The places of the commands. The comment is what stands from 15 up to 17.
pub(crate) fn places(alloc: Global) -> Option<String> {
    let mut text = String::new(alloc);
    let cuts = smt_cuts(alloc, SCRIPT).ok()?;
    for cut in &cuts {
        let SmtCut { start, end } = *cut;
        text.push_str(&format!(in alloc; "{start}-{end} ").ok()?)
            .ok()?;
    }
    Some(text)
}

/// The places of the symbols among the tokens, and how many tokens there are.
pub(crate) fn symbols(alloc: Global) -> Option<String> {
    let mut text = String::new(alloc);
    let tokens = lexemes(alloc, SCRIPT).ok()?;
    for lexeme in &tokens {
        let SmtLexeme { token, start, .. } = *lexeme;
        if matches!(token, SmtToken::Symbol(_)) {
            text.push_str(&format!(in alloc; "{start} ").ok()?).ok()?;
        }
    }
    let count = tokens.len();
    text.push_str(&format!(in alloc; "of {count}").ok()?).ok()?;
    Some(text)
}
