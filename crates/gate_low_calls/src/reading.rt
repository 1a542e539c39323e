//! Tokens and pieces of bytes, as text.

use language_meaning::{ReadError, TokenKind};
use redlog_tokens::{Piece, next_piece, tokens};
use std::alloc::Global;

/// A statement of eight tokens.
const STATEMENT: &[u8] = b"x2>=3/4 and not y$";

/// Three pieces: one with a blank before it, and one that no end mark ends.
const SCRIPT: &[u8] = b" x>0; y<1$ z";

/// What a token is.
fn kind_text(kind: TokenKind) -> &'static str {
    match kind {
        TokenKind::Number(_) => "number",
        TokenKind::Name(_) => "name",
        TokenKind::Word(_) => "word",
        TokenKind::Sign(_) => "sign",
    }
}

/// The tokens of the statement and their places.
pub(crate) fn places(alloc: Global) -> Option<String> {
    let mut text = String::new(alloc);
    let found = tokens(alloc, STATEMENT).ok()?;
    for token in found.items() {
        let kind = kind_text(token.kind);
        let start = token.start;
        let end = token.end;
        text.push_str(&format!(in alloc; "{kind} {start}-{end} ").ok()?)
            .ok()?;
    }
    Some(text)
}

/// What is said of bytes in which a sign is no token.
pub(crate) fn bad(alloc: Global) -> Option<String> {
    match tokens(alloc, b"x # 1;") {
        Err(ReadError::Lexical) => "lexical".to_string(alloc).ok(),
        _ => None,
    }
}

/// The places of the pieces of the script.
pub(crate) fn pieces(alloc: Global) -> Option<String> {
    pieces_of(alloc, SCRIPT)
}

/// The places of the pieces of a script.
fn pieces_of(alloc: Global, script: &[u8]) -> Option<String> {
    let mut text = String::new(alloc);
    let mut from = 0;
    'pieces: for _ in 0..script.len() {
        let Some(piece) = next_piece(script, from) else {
            return Some(text);
        };
        let Piece { start, end } = piece;
        text.push_str(&format!(in alloc; "{start}-{end} ").ok()?)
            .ok()?;
        from = end;
    }
    Some(text)
}
