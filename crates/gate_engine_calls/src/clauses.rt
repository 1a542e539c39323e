//! Clauses that follow from others by unit steps along hints.

use clause_theory::{Clause, Literal, follows};
use gate_texts::tell;
use std::alloc::{AllocError, Global};
use std::io;

/// The clause `b` from `a or b` and `not a or b`, where `a` is the variable 0 and `b` the variable 1.
pub(crate) fn rows<R: Print + AllocGlobal>(rt: &R) -> io::Result<()> {
    let alloc = rt.alloc();
    // b fails, so a holds by the first clause, and of the second nothing is left
    let title = "whether a clause follows along both clauses";
    tell(rt, title, told(alloc, &[0, 1]))?;
    // a is left of the first clause
    let title = "whether it follows along the first";
    tell(rt, title, told(alloc, &[0]))?;
    // the empty clause: nothing fails, so two literals are left of the first clause
    let title = "whether the empty clause follows";
    tell(rt, title, told_of(alloc, &[0, 1], &[]))
}

/// Whether the clause follows along the hints.
fn told(alloc: Global, hints: &[usize]) -> Option<String> {
    told_of(alloc, hints, &[literal(1, true)])
}

/// Whether the literals follow along the hints.
fn told_of(alloc: Global, hints: &[usize], literals: &[Literal]) -> Option<String> {
    let clauses = clauses(alloc).ok()?;
    let truth = follows(alloc, &clauses, 2, hints, literals).ok()?;
    truth.to_string(alloc).ok()
}

/// The two clauses.
fn clauses(alloc: Global) -> Result<Vec<Clause>, AllocError> {
    let mut clauses = Vec::new(alloc);
    for holds in [true, false] {
        let literals = vec![in alloc; literal(0, holds), literal(1, true)]?;
        clauses.push(Clause { literals })?;
    }
    Ok(clauses)
}

/// That the formula of a variable is true, or that it is not.
fn literal(variable: usize, holds: bool) -> Literal {
    Literal { variable, holds }
}
