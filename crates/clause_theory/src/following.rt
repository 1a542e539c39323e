//! Clauses that follow from others.

ghost use Rattle.std.specs.Prelude.{List, IfOk, IsTrue};
ghost use Rattle.clause_theory.specs.Clauses.{Implies};
ghost use Rattle.clause_theory.specs.Marks.{AreSound};

use crate::clause::{Clause, Literal};
use crate::failing::{Failing, Left};
use std::alloc::{AllocError, Global};

/// Whether literals, over so many variables, follow as a clause from others by unit steps along the hints, which are places of these:
/// where all literals fail, each hinted clause has one literal left that does not, until one has none (reverse unit propagation;
/// Goldberg and Novikov, "Verification of Proofs of Unsatisfiability for CNF Formulas", 2003). Its time is that of the hinted
/// clauses and of the variables, and its only error is want of memory.
pub fn follows(
    alloc: Global,
    clauses: &[Clause],
    variables: usize,
    hints: &[usize],
    literals: &[Literal],
) -> Result<bool, AllocError>
    ensures { IfOk result (λ b. IsTrue b → Implies clauses.now literals.now) }
{
    let mut failing = Failing::none(alloc, variables)?;
    for literal in literals {
        failing.mark(*literal);
    }
    Ok(has_conflict(clauses, failing, hints))
}

// Whether a hinted clause has no literal left, where each before it has one left, whose opposite fails from there on.
fn has_conflict(clauses: &[Clause], mut failing: Failing, hints: &[usize]) -> bool
    ensures { IsTrue result → (ls : List Literal) → AreSound clauses.now ls failing.signs.items → Implies clauses.now ls }
{
    for hint in hints {
        let Some(clause) = clauses.get(*hint) else {
            return false;
        };
        match failing.left(&clause.literals) {
            Left::Nothing => return true,
            Left::One(literal) => failing.mark(literal.turned()),
            Left::Several => return false,
        }
    }
    false
}
