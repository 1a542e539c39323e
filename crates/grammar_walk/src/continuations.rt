//! What could stand at the token at which a walk stopped, in words.

use crate::brackets::{Atoms, Bracket, Open, Part, Side, Wants};
use crate::next::{Next, Slot, Then};
use crate::operand::{Kind, Operand};
use crate::walk::Walk;
use std::alloc::{AllocError, Global};

/// What could have come next, as words that are told one after the other.
pub fn expected(alloc: Global, walk: &Walk) -> Result<Vec<&'static str>, AllocError> {
    let words = match walk.next {
        Next::Behind => return behind(alloc, &walk.open, &walk.operand),
        Next::Operand(_) => operand(&walk.open),
        next => words_of(next),
    };
    words.to_vec(alloc)
}

/// What may begin an operand.
fn operand(open: &Open) -> &'static [&'static str] {
    match (open.wants, open.side) {
        _ if open.is_term => &["a term"],
        (_, Side::Right) | (Wants::Term, _) => &["a term"],
        (Wants::Either, _) => &["a formula", "a term"],
        (Wants::Formula | Wants::Query, _) => &["a formula"],
        (Wants::Atom, _) => &["an atom"],
        (Wants::Comparison, _) => &["a comparison"],
    }
}

/// What may stand behind an operand.
fn behind(alloc: Global, open: &Open, operand: &Operand) -> Result<Vec<&'static str>, AllocError> {
    let mut words = Vec::new(alloc);
    let is_side = operand.may_be_term() && !(open.wants == Wants::Query);
    if is_side {
        words.push("an operator")?;
    }
    if is_side && open.may_compare() {
        words.extend_from_slice(relations(open.bracket))?;
    }
    let is_whole = is_whole(open, operand);
    let is_term = open.side == Side::Left && operand.may_be_term();
    if is_whole && open.may_join() {
        words.push("\"and\"")?;
        words.push("\"or\"")?;
    }
    let closes = match open.wants {
        Wants::Term => is_term,
        Wants::Either => is_whole || is_term,
        _ => is_whole,
    };
    if closes {
        words.extend_from_slice(closing(open.bracket))?;
    }
    Ok(words)
}

/// Whether the operand may end a formula, or the atom that is wanted.
fn is_whole(open: &Open, operand: &Operand) -> bool {
    match (open.side, open.wants) {
        (Side::Right, _) => operand.may_be_term(),
        (Side::Left, Wants::Atom | Wants::Comparison) => operand.kind == Kind::Formula,
        (Side::Left, _) => !open.is_term && operand.may_be_formula(),
    }
}

/// The relations that may stand in a bracket.
fn relations(bracket: Bracket) -> &'static [&'static str] {
    match bracket {
        Bracket::Atoms(Atoms::Certified | Atoms::Checked) => {
            &["\"=\"", "\"<\"", "\"<=\"", "\">\"", "\">=\""]
        }
        Bracket::Atoms(Atoms::Weak) => &["\"=\"", "\"<=\"", "\">=\""],
        _ => &["a relation"],
    }
}

/// What may stand behind all that stands in a bracket.
fn closing(bracket: Bracket) -> &'static [&'static str] {
    match bracket {
        Bracket::Statement => &["\";\""],
        Bracket::Argument => &["\",\"", "\")\""],
        Bracket::Congruence(Part::First | Part::Second) | Bracket::Pointed | Bracket::Grid => {
            &["\",\""]
        }
        Bracket::Atoms(_) => &["\",\"", "\"}\""],
        _ => &["\")\""],
    }
}

/// What may come next where no operand was read.
fn words_of(next: Next) -> &'static [&'static str] {
    match next {
        Next::Statement => &["a statement"],
        Next::FirstAtom(Atoms::Given | Atoms::Assumed) => &["an atom", "\"}\""],
        Next::FirstAtom(_) => &["a comparison", "\"}\""],
        Next::Prime(_) => &["a name", "a formula in parentheses"],
        Next::Exponent | Next::ValueNumber(_) | Next::Denominator(_) | Next::Value(_) => {
            &["a number"]
        }
        Next::Open(_) => &["\"(\""],
        Next::Brace(_) | Next::PointBrace | Next::AxisBrace | Next::MultiplierBrace => &["\"{\""],
        Next::Binding => &["a name", "\"{\""],
        Next::Bound | Next::Entry | Next::AxisName => &["a name"],
        Next::FirstEntry => &["a name", "\"}\""],
        Next::FirstMultiplier => &["a number", "\"}\""],
        Next::BoundBehind => &["\",\"", "\"}\""],
        Next::ScopeComma | Next::AxisComma | Next::Comma(Then::Multipliers | Then::Target) => {
            &["\",\""]
        }
        Next::Close => &["\")\""],
        Next::EntryEqual => &["\"=\""],
        Next::AxisBehind => &["\",\"", "\")\""],
        Next::ValueBehind(slot) => behind_number(slot),
        Next::ValueEnd(slot) => behind_value(slot),
        Next::Context => &["ofsf", "r", "reals", "pasf", "z", "integers"],
        Next::Any => &["a name", "a word"],
        Next::AnyBehind => &["\",\"", "\";\""],
        Next::End => &["\";\""],
        Next::Operand(_) | Next::Behind | Next::Nothing => &["nothing more"],
    }
}

/// What may stand behind the number of a value.
fn behind_number(slot: Slot) -> &'static [&'static str] {
    match slot {
        Slot::Entry => &["\"/\"", "\",\"", "\"}\""],
        Slot::Axis(Part::First | Part::Second) => &["\"/\"", "\",\""],
        Slot::Axis(Part::Last) => &["\"/\"", "\"}\""],
        Slot::Multiplier => &["\",\"", "\"}\""],
    }
}

/// What may stand behind a value.
fn behind_value(slot: Slot) -> &'static [&'static str] {
    match slot {
        Slot::Entry | Slot::Multiplier => &["\",\"", "\"}\""],
        Slot::Axis(Part::First | Part::Second) => &["\",\""],
        Slot::Axis(Part::Last) => &["\"}\""],
    }
}
