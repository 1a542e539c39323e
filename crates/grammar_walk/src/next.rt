//! What may come next in a statement.

use crate::brackets::{Atoms, Bracket, Part};
use language_meaning::{Mark, Relation, Terminal};

/// Whether a sign may stand in front of an operand.
#[derive(Clone, Copy, PartialEq)]
pub enum Sign {
    May,
    Taken,
}

/// Whether assumptions may follow the formula of a command.
#[derive(Clone, Copy, PartialEq)]
pub enum Argument {
    Alone,
    Given,
}

/// Whose value a number is: of an entry of a point, of this part of an axis, or of none, since it is a multiplier.
#[derive(Clone, Copy, PartialEq)]
pub enum Slot {
    Entry,
    Axis(Part),
    Multiplier,
}

/// What follows constraints behind a comma.
#[derive(Clone, Copy, PartialEq)]
pub enum Then {
    Multipliers,
    Target,
}

/// What may come next.
#[derive(Clone, Copy, PartialEq)]
pub enum Next {
    /// The first token of a statement.
    Statement,
    /// The first token of an operand.
    Operand(Sign),
    /// The first token of an atom, or the brace that closes these.
    FirstAtom(Atoms),
    /// The first token of a command's argument.
    Prime(Argument),
    /// What stands behind an operand.
    Behind,
    Exponent,
    /// The parenthesis that opens this.
    Open(Bracket),
    /// The brace that opens these.
    Brace(Atoms),
    /// The name of a quantifier, or the brace round its names.
    Binding,
    /// A name among several of a quantifier.
    Bound,
    /// What stands behind it.
    BoundBehind,
    /// The comma before the formula of a quantifier.
    ScopeComma,
    /// The comma behind constraints.
    Comma(Then),
    /// A closing parenthesis.
    Close,
    PointBrace,
    FirstEntry,
    Entry,
    EntryEqual,
    AxisBrace,
    AxisName,
    AxisComma,
    AxisBehind,
    MultiplierBrace,
    FirstMultiplier,
    /// A value, with or without a sign.
    Value(Slot),
    /// The number behind the sign of a value.
    ValueNumber(Slot),
    /// What stands behind the number of a value.
    ValueBehind(Slot),
    Denominator(Slot),
    /// What stands behind a value.
    ValueEnd(Slot),
    Context,
    /// A name or a word.
    Any,
    AnyBehind,
    /// The end mark.
    End,
    /// No token.
    Nothing,
}

impl Next {
    /// What comes next behind this token, where it needs no more than what was to come; none where it cannot stand here.
    pub fn behind(self, terminal: &Terminal) -> Option<Next> {
        match (self, terminal) {
            (_, Terminal::Number(_)) => self.behind_number(),
            (_, Terminal::Mark(mark)) => self.behind_mark(*mark),
            (Next::EntryEqual, Terminal::Relation(Relation::Equal)) => {
                Some(Next::Value(Slot::Entry))
            }
            (Next::Context, Terminal::Name(name)) if is_context(name.bytes()) => Some(Next::End),
            (Next::Any, Terminal::Name(_) | Terminal::Word(_)) => Some(Next::AnyBehind),
            _ => None,
        }
    }

    /// What comes next behind a number.
    fn behind_number(self) -> Option<Next> {
        match self {
            Next::Value(slot) | Next::ValueNumber(slot) => Some(Next::ValueBehind(slot)),
            Next::FirstMultiplier => Some(Next::ValueBehind(Slot::Multiplier)),
            Next::Denominator(slot) => Some(Next::ValueEnd(slot)),
            _ => None,
        }
    }

    /// What comes next behind a sign.
    fn behind_mark(self, mark: Mark) -> Option<Next> {
        match (self, mark) {
            (Next::Value(slot), Mark::Minus) => Some(Next::ValueNumber(slot)),
            (Next::FirstMultiplier, Mark::Minus) => Some(Next::ValueNumber(Slot::Multiplier)),
            (Next::ValueBehind(Slot::Entry), Mark::Slash) => Some(Next::Denominator(Slot::Entry)),
            (Next::ValueBehind(Slot::Axis(part)), Mark::Slash) => {
                Some(Next::Denominator(Slot::Axis(part)))
            }
            (Next::ValueBehind(slot) | Next::ValueEnd(slot), _) => slot.behind_mark(mark),
            (Next::FirstMultiplier | Next::FirstEntry, Mark::CloseBrace) => Some(Next::Close),
            (Next::Comma(Then::Multipliers), Mark::Comma) => Some(Next::MultiplierBrace),
            (Next::MultiplierBrace, Mark::OpenBrace) => Some(Next::FirstMultiplier),
            (Next::PointBrace, Mark::OpenBrace) => Some(Next::FirstEntry),
            (Next::AxisBrace, Mark::OpenBrace) => Some(Next::AxisName),
            (Next::AxisComma, Mark::Comma) => Some(Next::Value(Slot::Axis(Part::First))),
            (Next::AxisBehind, Mark::Comma) => Some(Next::AxisBrace),
            (Next::AxisBehind, Mark::Close) => Some(Next::End),
            (Next::AnyBehind, Mark::Comma) => Some(Next::Any),
            (Next::AnyBehind | Next::End, Mark::Semicolon | Mark::Dollar) => Some(Next::Nothing),
            _ => None,
        }
    }
}

impl Slot {
    /// What comes next behind a sign that stands behind the value.
    fn behind_mark(self, mark: Mark) -> Option<Next> {
        match (self, mark) {
            (Slot::Entry, Mark::Comma) => Some(Next::Entry),
            (Slot::Entry | Slot::Multiplier, Mark::CloseBrace) => Some(Next::Close),
            (Slot::Axis(part), Mark::Comma) => Some(Next::Value(Slot::Axis(part.next()?))),
            (Slot::Axis(Part::Last), Mark::CloseBrace) => Some(Next::AxisBehind),
            (Slot::Multiplier, Mark::Comma) => Some(Next::Value(Slot::Multiplier)),
            _ => None,
        }
    }
}

/// The words for the theories, in small letters.
const CONTEXTS: [&str; 6] = ["ofsf", "r", "reals", "pasf", "z", "integers"];

/// Whether a name chooses a theory.
fn is_context(name: &[u8]) -> bool {
    CONTEXTS
        .iter()
        .any(|word| name.eq_ignore_ascii_case(word.as_bytes()))
}
