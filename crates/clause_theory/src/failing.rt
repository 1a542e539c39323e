//! Which literals are known to fail.

ghost use Rattle.std.specs.Prelude.{◌≡◌, ◌++◌, [], ◌∷◌, Bool, List, Option, IsTrue, IfOk, Some, slice_set};
ghost use Rattle.clause_theory.specs.Marks.{IsMarked, HasNone, Leaves};

use crate::clause::Literal;
use std::alloc::{AllocError, Global};

// What is left of a clause without the literals that are known to fail.
#[derive(Clone, Copy)]
pub(crate) enum Left {
    Nothing,
    One(Literal),
    Several,
}

impl Left {
    // What is left with one literal more that is not known to fail.
    fn with(self, literal: Literal) -> Left
        ensures { (signs : List (Option Bool)) (ls : List Literal) → Leaves signs self ls → Leaves signs result (ls ++ literal ∷ []) }
    {
        match self {
            Left::Nothing => Left::One(literal),
            Left::One(other) if other == literal => self,
            Left::One(_) | Left::Several => Left::Several,
        }
    }
}

// The sign of the literal of each variable that is known to fail.
#[derive(Drop)]
pub(crate) struct Failing {
    signs: Vec<Option<bool>>,
}

impl Failing {
    // None is known to fail.
    pub(crate) fn none(alloc: Global, variables: usize) -> Result<Failing, AllocError>
        ensures { IfOk result (λ failing. HasNone failing.signs.items) }
    {
        Ok(Failing {
            signs: vec![in alloc; None; variables]?,
        })
    }

    // Marks a literal as one that fails, in place of a mark of its variable; not where there is no such variable.
    pub(crate) fn mark(&mut self, literal: Literal)
        ensures { self.new.signs.items ≡ slice_set self.old.signs.items literal.variable (Some literal.holds) }
    {
        if literal.variable < self.signs.len() {
            self.signs[literal.variable] = Some(literal.holds);
        }
    }

    // Whether a literal is known to fail.
    fn has(&self, literal: Literal) -> bool
        ensures { IsTrue result → IsMarked self.now.signs.items literal }
    {
        match self.signs.get(literal.variable) {
            Some(Some(sign)) => *sign == literal.holds,
            Some(None) | None => false,
        }
    }

    // What is left of these literals.
    pub(crate) fn left(&self, literals: &[Literal]) -> Left
        ensures { Leaves self.now.signs.items result literals.now }
    {
        let mut left = Left::Nothing;
        for literal in literals {
            if !self.has(*literal) {
                left = left.with(*literal);
            }
        }
        left
    }
}
