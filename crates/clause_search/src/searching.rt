//! Whether a formula without quantifiers is true at some point.

ghost use Rattle.std.specs.Prelude.{pos, ◌<ℤ◌, unsigned_abs, IfOk, IsTrue};
ghost use Rattle.logic_meaning.specs.Context.{IsDenominator};
ghost use Rattle.logic_meaning.specs.Shape.{IsQuantifierFree};
ghost use Rattle.normal_atoms.specs.Atoms.{context_of};
ghost use Rattle.formula_store.specs.Nodes.{tree, IsId};
ghost use Rattle.clause_search.specs.Found.{IsFound};
ghost use Rattle.clause_search.specs.Whole.{IsWholeInTheory};

use crate::solver::{Solver, Turn};
use crate::table::Table;
use formula_store::{EvalStop, FormulaId, Store};
use formula_tree::Values;
use normal_atoms::Context;
use std::alloc::{AllocError, Global};

/// What is found of a formula.
#[derive(Drop)]
pub enum Found {
    /// It is true at this point.
    Point(Values),
    /// It is true at no point.
    Nowhere,
    /// Nothing was found.
    Unknown,
}

/// Looks for a point of the theory where the formula is true, by a search that learns clauses from conflicts, of so many rounds at most.
/// It finds most where the formula is in negation normal form, and nothing of congruences but what a point that it tries meets by chance.
/// The search takes its steps off the effort; no clause says how many. Its only error is want of memory.
pub fn search(
    alloc: Global,
    context: Context,
    store: &Store,
    root: FormulaId,
    rounds: u32,
    effort: &mut u64,
) -> Result<Found, AllocError>
    requires id { IsId store.now root }
    requires free { IsQuantifierFree (tree store.now root) }
    requires whole { IsWholeInTheory (context_of context) (tree store.now root) }
    ensures { IfOk result (IsFound (context_of context) (tree store.now root)) }
{
    let Some(table) = Table::of(alloc, context, store, root)? else {
        return Ok(Found::Unknown);
    };
    let mut solver = Solver::new(alloc, context, table)?;
    for _ in 0..rounds {
        match solver.turn(effort)? {
            Turn::Further => (),
            Turn::Nowhere => return Ok(Found::Nowhere),
            Turn::Candidate(values) => return tried(context, store, root, values),
            Turn::Nothing => return Ok(Found::Unknown),
        }
    }
    Ok(Found::Unknown)
}

// The point, if the formula is true there.
fn tried(
    context: Context,
    store: &Store,
    root: FormulaId,
    values: Values,
) -> Result<Found, AllocError>
    requires id { IsId store.now root }
    requires free { IsQuantifierFree (tree store.now root) }
    requires whole { IsWholeInTheory (context_of context) (tree store.now root) }
    ensures { IfOk result (IsFound (context_of context) (tree store.now root)) }
{
    if !is_denominator(context, values.denominator()) {
        return Ok(Found::Unknown);
    }
    match store.truth(root, &values) {
        Ok(true) => Ok(Found::Point(values)),
        Ok(false) | Err(EvalStop::Overflow) => Ok(Found::Unknown),
        Err(EvalStop::Memory) => Err(AllocError),
    }
}

// Whether points of the theory have the denominator.
fn is_denominator(context: Context, denominator: i128) -> bool
    requires { pos 0 <ℤ denominator }
    ensures { IsTrue result → IsDenominator (context_of context) (unsigned_abs denominator) }
{
    match context {
        Context::Fields => true,
        Context::Integers => denominator == 1,
    }
}
