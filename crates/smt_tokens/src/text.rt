//! Strings, symbols and keywords.

ghost use Rattle.std.specs.Prelude.{◌≡◌, ◌+◌, ◌<◌, ◌≤◌, ◌==◌, [], length, codes, IfSome};
ghost use Rattle.std.specs.List.{prefix_len, list_any};
ghost use Rattle.smt_language.specs.Lexing.{is_symbol_part, is_in_bars, begins_with_digit, symbol_length, closing_quote, symbol, in_bars, simple, keyword, barred, quoted};
ghost use Rattle.smt_tokens.specs.Fronts.{size};

use logic_meaning::Name;
use redlog_tokens::{is_digit, is_letter};
use smt_language::{Front, SmtToken};

/// A string that has begun.
#[tactic(auto, unfolding(smt_language::specs::Lexing::quoted))]
pub(crate) fn quoted(bytes: &[u8]) -> Front
    ensures some { 0 < size result }
    ensures within { size result ≤ 1 + length bytes.now }
    ensures quoted { result ≡ quoted bytes.now }
{
    match closing_quote(bytes) {
        Some(length) => Front::Token(SmtToken::Text, 2 + length),
        None => Front::Token(SmtToken::Bad, 1 + bytes.len()),
    }
}

/// How many bytes stand before the quote that closes a string, the first that is not doubled.
fn closing_quote(bytes: &[u8]) -> Option<usize>
    ensures within { IfSome result (λ n. n < length bytes.now) }
    ensures place { result ≡ closing_quote 0 bytes.now }
{
    let mut at = 0;
    'bytes: while at < bytes.len() {
        if bytes[at] != b'"' {
            at += 1;
        } else if at + 1 < bytes.len() && bytes[at + 1] == b'"' {
            at += 2;
        } else {
            return Some(at);
        }
    }
    None
}

/// A symbol in bars that has begun.
#[tactic(auto, unfolding(smt_language::specs::Lexing::barred))]
pub(crate) fn barred(bytes: &[u8]) -> Front
    ensures some { 0 < size result }
    ensures within { size result ≤ 1 + length bytes.now }
    ensures barred { result ≡ barred bytes.now }
{
    let length = before_bar(bytes);
    if length == bytes.len() {
        return Front::Token(SmtToken::Bad, 1 + length);
    }
    Front::Token(in_bars(&bytes[..length]), 2 + length)
}

/// How many bytes stand before the next bar.
fn before_bar(bytes: &[u8]) -> usize
    ensures length { result ≡ prefix_len is_in_bars bytes.now }
    ensures within { result ≤ length bytes.now }
{
    bytes.iter().take_while(|b| **b != b'|').count()
}

/// What these bytes are between bars.
#[tactic(auto, unfolding(smt_language::specs::Lexing::in_bars))]
fn in_bars(text: &[u8]) -> SmtToken
    ensures { result ≡ in_bars text.now }
{
    if has_backslash(text) {
        return SmtToken::Bad;
    }
    symbol(text)
}

fn has_backslash(text: &[u8]) -> bool
    ensures { result ≡ list_any (λ b. b == 92) text.now }
{
    text.iter().any(|b| *b == b'\\')
}

/// A keyword whose colon stands before these bytes.
#[tactic(auto, unfolding(smt_language::specs::Lexing::keyword))]
pub(crate) fn keyword(bytes: &[u8]) -> Front
    ensures some { 0 < size result }
    ensures within { size result ≤ 1 + length bytes.now }
    ensures keyword { result ≡ keyword bytes.now }
{
    let length = symbol_length(bytes);
    if length == 0 {
        return Front::Token(SmtToken::Bad, 1);
    }
    Front::Token(SmtToken::Keyword, 1 + length)
}

/// A simple symbol; any other byte is bad.
#[tactic(auto, unfolding(smt_language::specs::Lexing::simple))]
pub(crate) fn simple(bytes: &[u8]) -> Front
    requires { 0 < length bytes.now }
    ensures some { 0 < size result }
    ensures within { size result ≤ length bytes.now }
    ensures simple { result ≡ simple bytes.now }
{
    let length = symbol_length(bytes);
    if length == 0 {
        return Front::Token(SmtToken::Bad, 1);
    }
    Front::Token(symbol(&bytes[..length]), length)
}

/// The symbol of these bytes.
#[tactic(auto, unfolding(smt_language::specs::Lexing::symbol))]
fn symbol(text: &[u8]) -> SmtToken
    ensures { result ≡ symbol text.now }
{
    if text.is_empty() || text.len() > 64 {
        return SmtToken::Unfit;
    }
    SmtToken::Symbol(Name::of(text))
}

/// How many bytes at the front are of a simple symbol.
fn symbol_length(bytes: &[u8]) -> usize
    ensures length { result ≡ symbol_length bytes.now }
    ensures within { result ≤ length bytes.now }
{
    if begins_with_digit(bytes) {
        return 0;
    }
    symbol_parts(bytes)
}

/// How many bytes at the front may be of a simple symbol.
fn symbol_parts(bytes: &[u8]) -> usize
    ensures length { result ≡ prefix_len is_symbol_part bytes.now }
    ensures within { result ≤ length bytes.now }
{
    bytes.iter().take_while(|b| is_symbol_part(**b)).count()
}

fn begins_with_digit(bytes: &[u8]) -> bool
    ensures { result ≡ begins_with_digit bytes.now }
{
    match bytes.first() {
        Some(first) => is_digit(*first),
        None => false,
    }
}

/// What a simple symbol consists of.
fn is_symbol_part(b: u8) -> bool
    ensures { result ≡ is_symbol_part b }
{
    is_letter(b) || is_digit(b) || is_symbol_sign(b)
}

fn is_symbol_sign(b: u8) -> bool
    ensures { result ≡ list_any (λ c. b == c) (codes "~!@$%^&*_-+=<>.?/") }
{
    b"~!@$%^&*_-+=<>.?/".contains(&b)
}
