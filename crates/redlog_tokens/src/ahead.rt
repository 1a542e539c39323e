//! The tokens of bytes as the grammar names them.

ghost use Rattle.std.specs.Prelude.{◌≡◌, ◌<◌, ◌≤◌, [], ◌∷◌, length, IfOk, IfErr, IfSome, MatchOption};
ghost use Rattle.language_meaning.specs.Lexing.{worded, signed, front, IsLexical};
ghost use Rattle.redlog_tokens.specs.Longest.{LexicalWhere};
ghost use Rattle.redlog_tokens.specs.Ahead.{named, seen, size_ahead, IsAhead, AreTerminals};

use crate::lexer::{
    digits, is_blank, is_digit, is_letter, is_long_sign, is_short_sign, is_word, line, literal,
    name_parts,
};
use crate::terminal::{sign_of, word_of};
use language_meaning::{ReadError, Terminal};
use logic_meaning::Name;
use std::alloc::Global;

/// What stands at the front of a text, with the number of its bytes: a blank or a comment, or a token as the grammar names it. A bad
/// token is none.
#[derive(Clone, Copy)]
pub enum Ahead {
    Space(usize),
    Terminal(Option<Terminal>, usize),
}

/// The tokens of the bytes as the grammar names them, in order. `Lexical` says that a token is bad.
pub fn terminals(alloc: Global, bytes: &[u8]) -> Result<Vec<Terminal>, ReadError>
    ensures terminals { IfOk result (λ ts. AreTerminals bytes.now ts.items) }
    ensures lexical { IfErr result (λ e. LexicalWhere e (IsLexical bytes.now)) }
{
    let mut list = Vec::new(alloc);
    let mut from = 0;
    'fronts: while let Some(ahead) = ahead_of(&bytes[from..]) {
        match ahead {
            Ahead::Space(length) => from += length,
            Ahead::Terminal(Some(terminal), length) => {
                list.push(terminal)?;
                from += length;
            }
            Ahead::Terminal(None, _) => return Err(ReadError::Lexical),
        }
    }
    Ok(list)
}

/// What stands at the front of the bytes, if there are any.
fn ahead_of(bytes: &[u8]) -> Option<Ahead>
    ensures some { IfSome result (λ a. 0 < size_ahead a) }
    ensures within { IfSome result (λ a. size_ahead a ≤ length bytes.now) }
    ensures ahead { MatchOption result (bytes.now ≡ []) (λ a. IsAhead bytes.now a) }
{
    let Some((first, rest)) = bytes.split_first() else {
        return None;
    };
    Some(ahead_at(bytes, *first, rest))
}

/// What stands at the front of the bytes, which are `first` and `rest`.
#[tactic(auto, unfolding(language_meaning::specs::Lexing::front))]
fn ahead_at(bytes: &[u8], first: u8, rest: &[u8]) -> Ahead
    requires { bytes.now ≡ first ∷ rest.now }
    ensures some { 0 < size_ahead result }
    ensures within { size_ahead result ≤ length bytes.now }
    ensures ahead { seen (front first rest.now) ≡ result }
{
    if is_blank(first) {
        return Ahead::Space(1);
    }
    if first == b'%' {
        return Ahead::Space(1 + line(rest));
    }
    if is_digit(first) {
        let length = 1 + digits(rest);
        let number = literal(&bytes[..length]);
        return Ahead::Terminal(Some(Terminal::Number(number)), length);
    }
    if is_letter(first) {
        let length = 1 + name_parts(rest);
        return Ahead::Terminal(word_or_name(&bytes[..length]), length);
    }
    sign_ahead(bytes)
}

/// A name or a word; none where it has more than 64 bytes.
#[tactic(auto, unfolding(language_meaning::specs::Lexing::worded))]
fn word_or_name(text: &[u8]) -> Option<Terminal>
    requires { 0 < length text.now }
    ensures { result ≡ named (worded text.now) }
{
    if text.len() > 64 {
        return None;
    }
    if is_word(text) {
        Some(Terminal::Word(word_of(text)))
    } else {
        Some(Terminal::Name(Name::of(text)))
    }
}

/// The sign at the front, the longer one first; any other byte is bad.
#[tactic(auto, unfolding(language_meaning::specs::Lexing::signed))]
fn sign_ahead(bytes: &[u8]) -> Ahead
    requires { 0 < length bytes.now }
    ensures some { 0 < size_ahead result }
    ensures within { size_ahead result ≤ length bytes.now }
    ensures signed { result ≡ seen (signed bytes.now) }
{
    if bytes.len() >= 2 && is_long_sign(&bytes[..2]) {
        return Ahead::Terminal(Some(sign_of(&bytes[..2])), 2);
    }
    let text = &bytes[..1];
    if is_short_sign(text) {
        Ahead::Terminal(Some(sign_of(text)), 1)
    } else {
        Ahead::Terminal(None, 1)
    }
}
