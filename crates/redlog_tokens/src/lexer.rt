ghost use Rattle.std.specs.Prelude.{◌≡◌, ◌+◌, ◌<◌, ◌≤◌, List, [], ◌∷◌, length, IfSome, MatchOption};
ghost use Rattle.std.specs.List.{prefix_len, list_all};
ghost use Rattle.language_meaning.specs.declared.lexer.Lexeme.{Lexeme};
ghost use Rattle.language_meaning.specs.Lexing.{is_blank, is_in_line, long_signs, short_signs, value_after, as_literal, literal_of, worded, signed, front, LexesFrom};
ghost use Rattle.redlog_tokens.specs.Longest.{IsFront, size};
ghost use Rattle.language_meaning.specs.Names.{is_digit, is_letter, is_name_part, is_one_of, is_numbered, is_word};

use crate::words::{is, is_keyword};
use language_meaning::{Front, Lexeme, Literal, TokenKind};
use logic_meaning::Name;

/// The greatest number that a literal keeps.
pub const LITERAL_LIMIT: u128 = (1 << 127) - 1;

/// The first token from `from` on.
pub fn next_lexeme(bytes: &[u8], from: usize) -> Option<Lexeme>
    requires { from ≤ length bytes.now }
    ensures { MatchOption result
        (LexesFrom bytes.now from [])
        (λ t. (from ≤ t.start) × (t.start < t.end) × (t.end ≤ length bytes.now) × ((ts : List Lexeme) → LexesFrom bytes.now t.end ts → LexesFrom bytes.now from (t ∷ ts))) }
{
    let mut start = from;
    'spaces: while let Some(found) = front_of(&bytes[start..]) {
        match found {
            Front::Space(length) => start += length,
            Front::Token(kind, length) => {
                let end = start + length;
                return Some(Lexeme { kind, start, end });
            }
        }
    }
    None
}

/// What stands at the front of the bytes, if there are any.
fn front_of(bytes: &[u8]) -> Option<Front>
    ensures some { IfSome result (λ f. 0 < size f) }
    ensures within { IfSome result (λ f. size f ≤ length bytes.now) }
    ensures front { MatchOption result (bytes.now ≡ []) (λ f. IsFront bytes.now f) }
{
    let Some((first, rest)) = bytes.split_first() else {
        return None;
    };
    Some(front_at(bytes, *first, rest))
}

/// What stands at the front of the bytes, which are `first` and `rest`.
#[tactic(auto, unfolding(language_meaning::specs::Lexing::front))]
fn front_at(bytes: &[u8], first: u8, rest: &[u8]) -> Front
    requires { bytes.now ≡ first ∷ rest.now }
    ensures some { 0 < size result }
    ensures within { size result ≤ length bytes.now }
    ensures front { front first rest.now ≡ result }
{
    if is_blank(first) {
        return Front::Space(1);
    }
    if first == b'%' {
        return Front::Space(1 + line(rest));
    }
    if is_digit(first) {
        let length = 1 + digits(rest);
        let number = literal(&bytes[..length]);
        return Front::Token(Some(TokenKind::Number(number)), length);
    }
    if is_letter(first) {
        let length = 1 + name_parts(rest);
        return Front::Token(worded(&bytes[..length]), length);
    }
    signed(bytes)
}

/// How many bytes at the front are of a comment that has begun.
pub fn line(bytes: &[u8]) -> usize
    ensures length { result ≡ prefix_len is_in_line bytes.now }
    ensures within { result ≤ length bytes.now }
{
    bytes.iter().take_while(|b| **b != b'\n').count()
}

/// How many bytes at the front are digits.
pub fn digits(bytes: &[u8]) -> usize
    ensures length { result ≡ prefix_len is_digit bytes.now }
    ensures within { result ≤ length bytes.now }
{
    bytes.iter().take_while(|b| is_digit(**b)).count()
}

/// How many bytes at the front may go on a name.
pub(crate) fn name_parts(bytes: &[u8]) -> usize
    ensures length { result ≡ prefix_len is_name_part bytes.now }
    ensures within { result ≤ length bytes.now }
{
    bytes.iter().take_while(|b| is_name_part(**b)).count()
}

/// The number that decimal digits say.
#[tactic(auto, unfolding(language_meaning::specs::Lexing::literal_of))]
pub fn literal(digits: &[u8]) -> Literal
    ensures { result ≡ literal_of digits.now }
{
    literal_after(0, digits)
}

/// The number that decimal digits say behind digits that say `before`.
pub fn literal_after(before: u128, digits: &[u8]) -> Literal
    ensures { result ≡ as_literal (value_after before digits.now) }
{
    let mut value = before;
    'digits: for digit in digits {
        if value > LITERAL_LIMIT / 10 {
            return Literal::Past;
        }
        value = value * 10 + digit.saturating_sub(b'0') as u128;
    }
    if value > LITERAL_LIMIT {
        return Literal::Past;
    }
    Literal::Fits(value as i128)
}

/// A name or a word; none where it has more than 64 bytes.
#[tactic(auto, unfolding(language_meaning::specs::Lexing::worded))]
fn worded(text: &[u8]) -> Option<TokenKind>
    requires { 0 < length text.now }
    ensures { result ≡ worded text.now }
{
    if text.len() > 64 {
        return None;
    }
    let name = Name::of(text);
    if is_word(text) {
        Some(TokenKind::Word(name))
    } else {
        Some(TokenKind::Name(name))
    }
}

/// Whether a name stands for no variable.
#[tactic(auto, unfolding(language_meaning::specs::Names::is_word))]
pub(crate) fn is_word(text: &[u8]) -> bool
    ensures { result ≡ is_word text.now }
{
    if is_keyword(text) || is_numbered(text, "infinity") {
        return true;
    }
    is_numbered(text, "epsilon")
}

/// Whether the text is this beginning and then one digit or more.
fn is_numbered(text: &[u8], beginning: &str) -> bool
    ensures { result ≡ is_numbered text.now beginning.now }
{
    let length = beginning.len();
    if length < text.len() && is(&text[..length], beginning) {
        return are_digits(&text[length..]);
    }
    false
}

fn are_digits(text: &[u8]) -> bool
    ensures { result ≡ list_all is_digit text.now }
{
    text.iter().all(|b| is_digit(*b))
}

/// Whether the text is a sign of two bytes.
pub(crate) fn is_long_sign(text: &[u8]) -> bool
    ensures { result ≡ is_one_of text.now long_signs }
{
    matches!(
        text,
        [b'*', b'*'] | [b':', b'='] | [b'<', b'>' | b'='] | [b'>', b'=']
    )
}

/// Whether the text is a sign of one byte.
pub(crate) fn is_short_sign(text: &[u8]) -> bool
    ensures { result ≡ is_one_of text.now short_signs }
{
    matches!(
        text,
        [b'+' | b'-' | b'*' | b'/' | b'^']
            | [b'(' | b')' | b'{' | b'}']
            | [b',' | b';' | b'$']
            | [b'=' | b'<' | b'>']
    )
}

/// The sign at the front, the longer one first; any other byte is bad.
#[tactic(auto, unfolding(language_meaning::specs::Lexing::signed))]
fn signed(bytes: &[u8]) -> Front
    requires { 0 < length bytes.now }
    ensures some { 0 < size result }
    ensures within { size result ≤ length bytes.now }
    ensures signed { result ≡ signed bytes.now }
{
    if bytes.len() >= 2 && is_long_sign(&bytes[..2]) {
        return Front::Token(Some(TokenKind::Sign(Name::of(&bytes[..2]))), 2);
    }
    let text = &bytes[..1];
    if is_short_sign(text) {
        Front::Token(Some(TokenKind::Sign(Name::of(text))), 1)
    } else {
        Front::Token(None, 1)
    }
}

/// Tab, line feed, carriage return and space.
pub fn is_blank(b: u8) -> bool
    ensures { result ≡ is_blank b }
{
    b == b'\t' || b == b'\n' || b == b'\r' || b == b' '
}

/// An ASCII digit.
pub fn is_digit(b: u8) -> bool
    ensures { result ≡ is_digit b }
{
    b'0' <= b && b <= b'9'
}

/// An ASCII letter.
pub fn is_letter(b: u8) -> bool
    ensures { result ≡ is_letter b }
{
    (b'A' <= b && b <= b'Z') || (b'a' <= b && b <= b'z')
}

/// What a name may go on with.
fn is_name_part(b: u8) -> bool
    ensures { result ≡ is_name_part b }
{
    is_letter(b) || is_digit(b) || b == b'_'
}
