//! A verdict by the shorter of two ways.

ghost use Rattle.std.specs.Prelude.{◌≡◌, ◌≤◌, ℕ, IfOk};
ghost use Rattle.logic_meaning.specs.Every.{Every};
ghost use Rattle.logic_meaning.specs.Tree.{Tree, IsFree};
ghost use Rattle.normal_atoms.specs.Atoms.{context_of};
ghost use Rattle.logic_meaning.specs.NormalForm.{IsNormal};
ghost use Rattle.formula_tree.specs.Makers.{Keeps};
ghost use Rattle.formula_store.specs.Nodes.{tree, IsId};
ghost use Rattle.sample_reference.specs.Leading.{under_names};
ghost use Rattle.engine_answers.specs.Decided.{Decides};

use crate::search_verdict::search_verdict;
use engine_answers::{Engine, Verdict, decided};
use formula_store::{FormulaId, Store};
use qe_parallel::Gate;
use std::alloc::AllocError;
use std::thread::Threads;

/// Whether the formula is true, and values of the first `count` names with which it is: in lowest terms, and over the integers whole.
/// The formula has no free names, and begins with `ex` of these names. `TrueAlone` comes only where the reference sample stops within
/// the limit of nodes, and `Unknown` only where the reference elimination does.
///
/// Where nothing but these names is quantified and there are many cases, a point is searched by learning clauses. Where that settles
/// nothing, and elsewhere, the names are eliminated by cases.
///
/// Its only error is want of memory. The formulas of the store stay.
pub fn verdict_of<R: Threads + Sync, G: Gate + Sync>(
    engine: &Engine<'_, R, G>,
    store: &mut Store,
    id: FormulaId,
    count: usize,
) -> Result<Verdict, AllocError>
    requires id { IsId store.old id }
    requires normal { Every (IsNormal (context_of engine.now.context)) (tree store.old id) }
    requires closed { (y : ℕ) → ¬ (IsFree (tree store.old id) y) }
    requires workers { 1 ≤ engine.now.limits.workers }
    requires leading { (body : Tree) × (tree store.old id ≡ under_names 0 count body) }
    ensures verdict { IfOk result (λ v. (body : Tree) → tree store.old id ≡ under_names 0 count body → Decides (context_of engine.now.context) engine.now.limits.nodes count body v) }
    ensures kept { Keeps (IsId store.old) (tree store.old) (IsId store.new) (tree store.new) }
{
    match search_verdict(engine.alloc, engine.context, store, id, count)? {
        Some(verdict) => Ok(verdict),
        None => decided(engine, store, id, count),
    }
}
