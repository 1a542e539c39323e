ghost use Rattle.std.specs.Prelude.{◌≡◌, ◌+◌, ◌<◌, ◌≤◌, List, [], ◌∷◌, length, IfSome, MatchOption};
ghost use Rattle.smt_language.specs.declared.token.SmtLexeme.{SmtLexeme};
ghost use Rattle.smt_language.specs.Lexing.{front};
ghost use Rattle.smt_tokens.specs.Fronts.{size, IsFront, LexesFrom};

use crate::number::numbered;
use crate::text::{barred, keyword, quoted, simple};
use redlog_tokens::{is_blank, is_digit, line};
use smt_language::{Front, SmtLexeme, SmtToken};

/// The first token from `from` on. It takes no memory.
pub fn next_lexeme(bytes: &[u8], from: usize) -> Option<SmtLexeme>
    requires { from ≤ length bytes.now }
    ensures { MatchOption result
        (LexesFrom bytes.now from [])
        (λ t. (from ≤ t.start) × (t.start < t.end) × (t.end ≤ length bytes.now) × ((ts : List SmtLexeme) → LexesFrom bytes.now t.end ts → LexesFrom bytes.now from (t ∷ ts))) }
{
    let mut start = from;
    'spaces: while let Some(found) = front_of(&bytes[start..]) {
        match found {
            Front::Space(length) => start += length,
            Front::Token(token, length) => {
                let end = start + length;
                return Some(SmtLexeme { token, start, end });
            }
        }
    }
    None
}

/// What stands at the front of the bytes, if there are any.
fn front_of(bytes: &[u8]) -> Option<Front>
    ensures some { IfSome result (λ f. 0 < size f) }
    ensures within { IfSome result (λ f. size f ≤ length bytes.now) }
    ensures front { MatchOption result (bytes.now ≡ []) (λ f. IsFront bytes.now f) }
{
    let Some((first, rest)) = bytes.split_first() else {
        return None;
    };
    Some(front_at(bytes, *first, rest))
}

/// What stands at the front of the bytes, which are `first` and `rest`.
#[tactic(auto, unfolding(smt_language::specs::Lexing::front))]
fn front_at(bytes: &[u8], first: u8, rest: &[u8]) -> Front
    requires { bytes.now ≡ first ∷ rest.now }
    ensures some { 0 < size result }
    ensures within { size result ≤ length bytes.now }
    ensures front { front first rest.now ≡ result }
{
    if is_blank(first) {
        return Front::Space(1);
    }
    if is_digit(first) {
        return numbered(bytes);
    }
    match first {
        b';' => Front::Space(1 + line(rest)),
        b'(' => Front::Token(SmtToken::Open, 1),
        b')' => Front::Token(SmtToken::Close, 1),
        b'"' => quoted(rest),
        b'|' => barred(rest),
        b':' => keyword(rest),
        _ => simple(bytes),
    }
}
