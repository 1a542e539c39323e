ghost use Rattle.std.specs.Prelude.{◌≡◌, ◌^◌, ◌<◌, [], ◌∷◌};
ghost use Rattle.std.specs.List.{list_any};
ghost use Rattle.smt_language.specs.Faults.{kinds, begins_unfit, takes_unfit, is_bad, has_bad, open_after, is_deep};

use crate::word::word_of;
use smt_language::{DEPTH_LIMIT, SmtLexeme, SmtToken, Word};

/// Whether a token of the command is bad. In a command without effect a symbol may have any length.
pub fn has_bad(tokens: &[SmtLexeme]) -> bool
    ensures { result ≡ has_bad (kinds tokens.now) }
{
    any_bad(begins_unfit(tokens), tokens)
}

/// Whether one of the tokens is bad, where symbols of any length are taken or not.
fn any_bad(unfit: bool, tokens: &[SmtLexeme]) -> bool
    ensures { result ≡ list_any (λ t. is_bad unfit t.token) tokens.now }
{
    tokens.iter().any(|t| is_bad(unfit, &t.token))
}

/// Whether the tokens begin a command without effect.
fn begins_unfit(tokens: &[SmtLexeme]) -> bool
    ensures { result ≡ begins_unfit (kinds tokens.now) }
{
    match tokens {
        [first, second, ..] => opens_unfit(&first.token, &second.token),
        _ => false,
    }
}

/// Whether a command that begins with these two tokens has no effect.
fn opens_unfit(first: &SmtToken, second: &SmtToken) -> bool
    ensures { result ≡ begins_unfit (first.now ∷ second.now ∷ []) }
{
    match (first, second) {
        (SmtToken::Open, SmtToken::Symbol(name)) => {
            matches!(word_of(name.bytes()), Some(Word::SetInfo | Word::SetOption))
        }
        _ => false,
    }
}

/// Whether the token is bad, where symbols of any length are taken or not.
fn is_bad(unfit: bool, token: &SmtToken) -> bool
    ensures { result ≡ is_bad unfit token.now }
{
    match token {
        SmtToken::Bad => true,
        SmtToken::Unfit => !unfit,
        _ => false,
    }
}

/// Whether more than 512 parentheses are open at once.
pub fn is_deep(tokens: &[SmtLexeme]) -> bool
    ensures { result ≡ is_deep (kinds tokens.now) }
{
    let mut depth = 0;
    'tokens: for lexeme in tokens {
        depth = open_after(depth, &lexeme.token);
        if depth > DEPTH_LIMIT {
            return true;
        }
    }
    false
}

/// How many parentheses are open after the token, where so many are before it.
fn open_after(depth: usize, token: &SmtToken) -> usize
    requires { depth < 2 ^ 63 }
    ensures { result ≡ open_after depth token.now }
{
    match token {
        SmtToken::Open => depth + 1,
        SmtToken::Close => depth.saturating_sub(1),
        _ => depth,
    }
}
