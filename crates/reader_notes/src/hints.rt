//! Spellings that people bring from elsewhere, and how they are written here.

use crate::spelled::Spelled;
use grammar_walk::{Next, Side, Walk};
use language_meaning::{Mark, Relation, Terminal, Word};

/// Names of functions that other languages have, and what is written for them.
const FUNCTIONS: [(&str, &str); 8] = [
    ("max", "max(x,y) <= z is written x <= z and y <= z"),
    ("min", "min(x,y) >= z is written x >= z and y >= z"),
    ("abs", "abs(x) <= y is written x <= y and -x <= y"),
    ("forall", "a quantifier is written all(x,..)"),
    ("exists", "a quantifier is written ex(x,..)"),
    ("mod", "x mod 3 = 1 is written cong(x,1,3)"),
    ("implies", "an implication is written a impl b"),
    ("iff", "an equivalence is written a equiv b"),
];

/// Names that stand between formulas or terms elsewhere.
const BETWEEN: [(&str, &str); 9] = [
    ("mod", "x mod 3 = 1 is written cong(x,1,3)"),
    ("div", "a quotient is written x/2, over the ordered fields"),
    ("implies", "an implication is written a impl b"),
    ("iff", "an equivalence is written a equiv b"),
    ("xor", "a xor b is written not (a equiv b)"),
    ("in", "x in [a,b] is written x >= a and x <= b"),
    ("AND", "words are written in small letters"),
    ("OR", "words are written in small letters"),
    ("then", "an implication is written a impl b"),
];

/// Signs of several bytes elsewhere, the longer first.
const ARROWS: [(&str, &str); 9] = [
    ("<=>", "an equivalence is written a equiv b"),
    ("<->", "an equivalence is written a equiv b"),
    ("==>", "an implication is written a impl b"),
    ("-->", "an implication is written a impl b"),
    ("===", "an equation is written x = y"),
    ("==", "an equation is written x = y"),
    (
        "=>",
        "an implication is written a impl b, at least is written >=",
    ),
    ("->", "an implication is written a impl b"),
    ("=<", "at most is written <="),
];

/// What is said of the token of this number, at which the walk stopped.
pub fn hint(spelled: &Spelled<'_>, walk: &Walk, number: usize) -> Option<&'static str> {
    let terminal = spelled.terminal(number)?;
    let last = match number.checked_sub(1) {
        Some(last) => spelled.terminal(last)?,
        None => return begins(terminal),
    };
    if misses_end(spelled, number) {
        return Some("is a \";\" missing before it?");
    }
    let before = number.saturating_sub(1);
    named(&FUNCTIONS, spelled.bytes(before))
        .or_else(|| named(&BETWEEN, spelled.bytes(number)))
        .or_else(|| arrow(spelled.rest(number)))
        .or_else(|| arrow(spelled.rest(before)))
        .or_else(|| of_pair(last, terminal, walk.next))
        .or_else(|| of_argument(spelled, walk, number))
        .or_else(|| of_chain(walk, terminal))
}

/// What is said of a token that begins no statement.
fn begins(terminal: &Terminal) -> Option<&'static str> {
    match terminal {
        Terminal::Mark(Mark::Open | Mark::Plus | Mark::Minus) => None,
        Terminal::Word(Word::And | Word::Or | Word::Impl | Word::Repl | Word::Equiv) => {
            Some("does the statement before end too early?")
        }
        _ => None,
    }
}

/// Whether a statement seems to begin with this token: it stands in a new line, and it is a command or a name that is bound.
fn misses_end(spelled: &Spelled<'_>, number: usize) -> bool {
    if !spelled.before(number).contains(&b'\n') {
        return false;
    }
    match (
        spelled.terminal(number),
        spelled.terminal(number.saturating_add(1)),
    ) {
        (Some(Terminal::Name(_)), Some(Terminal::Mark(Mark::Assign))) => true,
        (Some(Terminal::Word(word)), _) => is_command(*word),
        _ => false,
    }
}

/// Whether a word begins a statement.
fn is_command(word: Word) -> bool {
    matches!(
        word,
        Word::Set
            | Word::Nnf
            | Word::Pnf
            | Word::Dnf
            | Word::Cnf
            | Word::Simpl
            | Word::Qe
            | Word::Qea
            | Word::Holds
            | Word::Witness
            | Word::Assume
            | Word::Retract
            | Word::Grid
            | Word::Cert
            | Word::Check
            | Word::Opt
            | Word::Load
            | Word::On
            | Word::Off
            | Word::End
            | Word::Bye
            | Word::Quit
    )
}

/// What is written for a name, where it is one of these.
fn named(names: &[(&str, &'static str)], name: &[u8]) -> Option<&'static str> {
    for (other, hint) in names {
        if name == other.as_bytes() {
            return Some(*hint);
        }
    }
    None
}

/// What is written for the sign with which a text begins, where it is one of the signs above.
fn arrow(text: &[u8]) -> Option<&'static str> {
    for (sign, hint) in &ARROWS {
        if text.starts_with(sign.as_bytes()) {
            return Some(*hint);
        }
    }
    None
}

/// What is said of a sign behind the argument of a command that is no formula in parentheses.
fn of_argument(spelled: &Spelled<'_>, walk: &Walk, number: usize) -> Option<&'static str> {
    let command = spelled.terminal(number.checked_sub(2)?)?;
    match command {
        Terminal::Word(word) if is_command(*word) && walk.next == Next::Behind => {
            Some("the formula of a command stands in parentheses, rlqe(x>0)")
        }
        _ => None,
    }
}

/// What is said of two tokens side by side, of which the second is not what was to come.
fn of_pair(last: &Terminal, terminal: &Terminal, next: Next) -> Option<&'static str> {
    match (last, terminal) {
        (Terminal::Mark(Mark::Plus | Mark::Minus), Terminal::Mark(Mark::Plus | Mark::Minus))
        | (Terminal::Mark(Mark::Times | Mark::Slash), Terminal::Mark(Mark::Plus | Mark::Minus)) => {
            Some("two signs side by side are written with parentheses, x-(-1)")
        }
        (_, Terminal::Mark(Mark::Assign)) => Some("only a name by itself is bound by :="),
        _ if next == Next::Behind && ends_term(last) && begins_term(terminal) => Some(
            "a product is written 2*x",
        ),
        _ => None,
    }
}

/// Whether a term may end with this token.
fn ends_term(terminal: &Terminal) -> bool {
    matches!(
        terminal,
        Terminal::Number(_) | Terminal::Name(_) | Terminal::Mark(Mark::Close)
    )
}

/// Whether a term may begin with this token.
fn begins_term(terminal: &Terminal) -> bool {
    matches!(
        terminal,
        Terminal::Number(_) | Terminal::Name(_) | Terminal::Mark(Mark::Open)
    )
}

/// What is said of a relation behind a comparison.
fn of_chain(walk: &Walk, terminal: &Terminal) -> Option<&'static str> {
    match terminal {
        Terminal::Relation(_) | Terminal::Word(Word::Neq)
            if walk.next == Next::Behind && walk.open.side == Side::Right => {
            Some("a chain is written a <= x and x <= b")
        }
        _ => None,
    }
}
