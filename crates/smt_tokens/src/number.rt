//! Numerals and decimals.

ghost use Rattle.std.specs.Prelude.{◌≡◌, ◌+◌, ◌-◌, ◌^◌, ◌<◌, ◌≤◌, ◌++◌, [], length};
ghost use Rattle.std.specs.List.{prefix_len};
ghost use Rattle.language_meaning.specs.Names.{is_digit};
ghost use Rattle.language_meaning.specs.Lexing.{as_literal, literal_of};
ghost use Rattle.smt_language.specs.Lexing.{fraction_length, is_padded, number, numbered};
ghost use Rattle.smt_tokens.specs.Fronts.{size};

use language_meaning::Literal;
use redlog_tokens::{LITERAL_LIMIT, digits, literal, literal_after};
use smt_language::{Front, SmtToken};

/// The numeral or decimal at the front of the bytes, which begin with a digit.
#[tactic(auto, unfolding(smt_language::specs::Lexing::numbered))]
pub(crate) fn numbered(bytes: &[u8]) -> Front
    requires { 0 < prefix_len is_digit bytes.now }
    ensures some { 0 < size result }
    ensures within { size result ≤ length bytes.now }
    ensures numbered { result ≡ numbered bytes.now }
{
    let whole = digits(bytes);
    let fraction = fraction_length(&bytes[whole..]);
    if fraction == 0 {
        return Front::Token(number(&bytes[..whole], &[]), whole);
    }
    let end = whole + 1 + fraction;
    Front::Token(number(&bytes[..whole], &bytes[whole + 1..end]), end)
}

/// How many digits stand behind a point at the front.
fn fraction_length(bytes: &[u8]) -> usize
    ensures length { result ≡ fraction_length bytes.now }
    ensures within { 0 < result → 1 + result ≤ length bytes.now }
{
    match bytes.split_first() {
        Some((b'.', rest)) => digits(rest),
        _ => 0,
    }
}

/// The number of these digits before a point and behind it, if there are any.
#[tactic(auto, unfolding(smt_language::specs::Lexing::number))]
fn number(whole: &[u8], fraction: &[u8]) -> SmtToken
    ensures { result ≡ number whole.now fraction.now }
{
    if is_padded(whole) {
        return SmtToken::Bad;
    }
    if fraction.is_empty() {
        return SmtToken::Numeral(literal(whole));
    }
    SmtToken::Decimal(all_digits(whole, fraction), power_of_ten(fraction.len()))
}

/// Whether the digits are more than one and begin with 0.
fn is_padded(digits: &[u8]) -> bool
    ensures { result ≡ is_padded digits.now }
{
    matches!(digits, [b'0', _, ..])
}

/// The number that the digits of both parts say.
fn all_digits(whole: &[u8], fraction: &[u8]) -> Literal
    ensures { result ≡ literal_of (whole.now ++ fraction.now) }
{
    match literal(whole) {
        Literal::Fits(value) => literal_after(value.unsigned_abs(), fraction),
        Literal::Past => Literal::Past,
    }
}

/// The number 10^count.
fn power_of_ten(count: usize) -> Literal
    ensures { result ≡ as_literal (10 ^ count) }
{
    let mut power: u128 = 1;
    'places: for _place in 0..count {
        if power > LITERAL_LIMIT / 10 {
            return Literal::Past;
        }
        power *= 10;
    }
    Literal::Fits(power as i128)
}
