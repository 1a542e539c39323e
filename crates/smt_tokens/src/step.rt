//! What one more token makes of a command that has begun.

ghost use Rattle.std.specs.Prelude.{◌≡◌, ℕ, ◌+◌, ◌^◌, ◌<◌, ◌≤◌, List, [], ◌∷◌, ◌++◌};
ghost use Rattle.smt_language.specs.declared.token.SmtLexeme.{SmtLexeme};
ghost use Rattle.smt_language.specs.declared.token.SmtCut.{SmtCut};
ghost use Rattle.smt_tokens.specs.declared.step.Begun.TheVariants.{Loose, Group};
ghost use Rattle.smt_language.specs.Commands.{Cuts, is_open, is_close};
ghost use Rattle.smt_tokens.specs.Begun.{GoesOn, listed, open_inside};

use smt_language::{SmtCut, SmtLexeme, SmtToken};

/// The command that has begun at a place of a script and has not ended.
#[derive(Clone, Copy)]
pub enum Begun {
    Nothing,
    /// Tokens outside all parentheses, so far.
    Loose(SmtCut),
    /// What a parenthesis at `start` opens, in which so many further ones are open.
    Group { start: usize, depth: usize },
}

/// The command that a token ends, if it ends one, and what has begun behind the token.
#[derive(Clone, Copy)]
pub struct Step {
    pub ended: Option<SmtCut>,
    pub begun: Begun,
}

impl Begun {
    /// Takes one more token.
    pub(crate) fn take(self, lexeme: &SmtLexeme) -> Step
        requires room { lexeme.now.end < 2 ^ 64 }
        requires depth { open_inside self < lexeme.now.end }
        ensures depth { open_inside result.begun ≤ lexeme.now.end }
        ensures goes { (total : ℕ) (ts : List SmtLexeme) (cs : List SmtCut) → GoesOn total result.begun ts cs → GoesOn total self (lexeme.now ∷ ts) (listed result.ended ++ cs) }
    {
        match self {
            Begun::Nothing => Step {
                ended: None,
                begun: beginning(lexeme),
            },
            Begun::Loose(cut) => loose(cut, lexeme),
            Begun::Group { start, depth } => grouped(start, depth, lexeme),
        }
    }

    /// The command that the end of a script of so many bytes ends, if one has begun.
    pub(crate) fn end(self, total: usize) -> Option<SmtCut>
        ensures { GoesOn total self [] (listed result) }
    {
        match self {
            Begun::Nothing => None,
            Begun::Loose(cut) => Some(cut),
            Begun::Group { start, .. } => Some(SmtCut { start, end: total }),
        }
    }
}

/// The command that begins with the token.
fn beginning(lexeme: &SmtLexeme) -> Begun
    ensures depth { open_inside result ≡ 0 }
    ensures goes { (total : ℕ) (ts : List SmtLexeme) (cs : List SmtCut) → GoesOn total result ts cs → Cuts total (lexeme.now ∷ ts) cs }
{
    let start = lexeme.start;
    if is_open(&lexeme.token) {
        Begun::Group { start, depth: 0 }
    } else {
        Begun::Loose(SmtCut {
            start,
            end: lexeme.end,
        })
    }
}

/// One more token after tokens outside all parentheses.
fn loose(cut: SmtCut, lexeme: &SmtLexeme) -> Step
    ensures depth { open_inside result.begun ≡ 0 }
    ensures goes { (total : ℕ) (ts : List SmtLexeme) (cs : List SmtCut) → GoesOn total result.begun ts cs → GoesOn total (Loose cut) (lexeme.now ∷ ts) (listed result.ended ++ cs) }
{
    if is_open(&lexeme.token) {
        return Step {
            ended: Some(cut),
            begun: beginning(lexeme),
        };
    }
    Step {
        ended: None,
        begun: Begun::Loose(SmtCut {
            start: cut.start,
            end: lexeme.end,
        }),
    }
}

/// One more token after a parenthesis at `start` that is not closed, in which so many further ones are open.
fn grouped(start: usize, depth: usize, lexeme: &SmtLexeme) -> Step
    requires room { lexeme.now.end < 2 ^ 64 }
    requires depth { depth < lexeme.now.end }
    ensures depth { open_inside result.begun ≤ lexeme.now.end }
    ensures goes { (total : ℕ) (ts : List SmtLexeme) (cs : List SmtCut) → GoesOn total result.begun ts cs → GoesOn total (Group start depth) (lexeme.now ∷ ts) (listed result.ended ++ cs) }
{
    if is_open(&lexeme.token) {
        return going(start, depth + 1);
    }
    if !is_close(&lexeme.token) {
        return going(start, depth);
    }
    if depth > 0 {
        return going(start, depth - 1);
    }
    Step {
        ended: Some(SmtCut {
            start,
            end: lexeme.end,
        }),
        begun: Begun::Nothing,
    }
}

/// The parenthesis at `start` is still open, and so many inside it.
fn going(start: usize, depth: usize) -> Step
    ensures ended { result.ended ≡ None }
    ensures begun { result.begun ≡ Group start depth }
{
    Step {
        ended: None,
        begun: Begun::Group { start, depth },
    }
}

fn is_open(token: &SmtToken) -> bool
    ensures { result ≡ is_open token.now }
{
    matches!(token, SmtToken::Open)
}

fn is_close(token: &SmtToken) -> bool
    ensures { result ≡ is_close token.now }
{
    matches!(token, SmtToken::Close)
}
