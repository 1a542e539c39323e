//! What was read of an operand.

use crate::brackets::{Open, Side, Wants};

/// What an operand is: a term, a formula, or a name, which may stand for either.
#[derive(Clone, Copy, PartialEq)]
pub enum Kind {
    Term,
    Formula,
    Name(usize),
}

/// An operand: what it is, the number of its first token, whether a name stands in it, whether it is the number 0, and whether a power may be put
/// to it.
#[derive(Clone, Copy)]
pub struct Operand {
    pub kind: Kind,
    pub first: usize,
    pub has_name: bool,
    pub is_zero: bool,
    pub may_be_raised: bool,
}

impl Operand {
    /// A formula that begins with this token.
    pub fn formula(first: usize) -> Operand {
        Operand {
            kind: Kind::Formula,
            first,
            has_name: false,
            is_zero: false,
            may_be_raised: false,
        }
    }

    /// The name that is this token.
    pub fn name(first: usize) -> Operand {
        Operand {
            kind: Kind::Name(first),
            first,
            has_name: true,
            is_zero: false,
            may_be_raised: true,
        }
    }

    /// The number that is this token.
    pub fn number(first: usize, is_zero: bool) -> Operand {
        Operand {
            kind: Kind::Term,
            first,
            has_name: false,
            is_zero,
            may_be_raised: true,
        }
    }

    /// What stands in parentheses that open with this token, of which the last operand was this one.
    pub fn group(first: usize, open: &Open, last: &Operand) -> Operand {
        let kind = if open.wants == Wants::Formula || open.side == Side::Right {
            Kind::Formula
        } else if open.is_term {
            Kind::Term
        } else {
            last.kind
        };
        Operand {
            kind,
            first,
            has_name: open.has_name || last.has_name,
            is_zero: last.is_zero && !open.is_term,
            may_be_raised: true,
        }
    }

    /// Whether it may be a term.
    pub fn may_be_term(&self) -> bool {
        self.kind != Kind::Formula
    }

    /// Whether it may be a formula.
    pub fn may_be_formula(&self) -> bool {
        self.kind != Kind::Term
    }
}
