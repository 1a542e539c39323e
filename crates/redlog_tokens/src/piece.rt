ghost use Rattle.std.specs.Prelude.{◌≡◌, ◌<◌, ◌≤◌, ◌||◌, length, codes, bytes_eq, IfNone, IfSome};
ghost use Rattle.language_meaning.specs.Pieces.{is_end, HasNoTokenFrom, IsPiece};
ghost use Rattle.redlog_tokens.specs.OnePiece.{EndsFrom};

use crate::lexer::next_lexeme;
use language_meaning::TokenKind;

/// A piece of a script: its first token stands at `start`, and it ends before the byte `end`.
#[derive(Clone, Copy, Debug)]
pub struct Piece {
    pub start: usize,
    pub end: usize,
}

/// The next piece at or after `from`, which is 0 or the end of an earlier piece: from its first token through its
/// first `;` or `$`, or through the end of the bytes. None where no token stands there. A bad token counts as one.
/// It takes no memory.
pub fn next_piece(bytes: &[u8], from: usize) -> Option<Piece>
    requires inside { from ≤ length bytes.now }
    ensures none { IfNone result (HasNoTokenFrom bytes.now from) }
    ensures found { IfSome result (λ p. IsPiece bytes.now from p.start p.end) }
    ensures begins { IfSome result (λ p. from ≤ p.start) }
    ensures some { IfSome result (λ p. p.start < p.end) }
    ensures within { IfSome result (λ p. p.end ≤ length bytes.now) }
{
    let first = next_lexeme(bytes, from)?;
    let start = first.start;
    let end = if is_end(&first.kind) {
        first.end
    } else {
        piece_end(bytes, first.end)
    };
    Some(Piece { start, end })
}

/// The end of the piece that goes on at `from`.
fn piece_end(bytes: &[u8], from: usize) -> usize
    requires inside { from ≤ length bytes.now }
    ensures later { from ≤ result }
    ensures within { result ≤ length bytes.now }
    ensures end { EndsFrom bytes.now from result }
{
    let mut at = from;
    'tokens: while let Some(lexeme) = next_lexeme(bytes, at) {
        if is_end(&lexeme.kind) {
            return lexeme.end;
        }
        at = lexeme.end;
    }
    bytes.len()
}

/// Whether the token ends a piece.
fn is_end(kind: &Option<TokenKind>) -> bool
    ensures { result ≡ is_end kind.now }
{
    match kind {
        Some(TokenKind::Sign(text)) => is_end_mark(text.bytes()),
        _ => false,
    }
}

fn is_end_mark(text: &[u8]) -> bool
    ensures { result ≡ (bytes_eq text.now (codes ";") || bytes_eq text.now (codes "$")) }
{
    matches!(text, [b';' | b'$'])
}
