//! What is found of a formula without free names.

ghost use Rattle.std.specs.Prelude.{◌≡◌, ◌≤◌, ℕ, map, IfOk};
ghost use Rattle.logic_meaning.specs.Every.{Every};
ghost use Rattle.logic_meaning.specs.Tree.{Tree, IsFree};
ghost use Rattle.normal_atoms.specs.Atoms.{context_of};
ghost use Rattle.logic_meaning.specs.NormalForm.{IsNormal};
ghost use Rattle.formula_tree.specs.Makers.{Keeps};
ghost use Rattle.formula_store.specs.Nodes.{tree, IsId};
ghost use Rattle.sample_reference.specs.Leading.{under_names};
ghost use Rattle.engine_answers.specs.Decided.{Decides};

use crate::cases::some_true;
use crate::engine::Engine;
use exact_numbers::Fraction;
use formula_store::{FormulaId, Store};
use linear_forms::Values;
use logic_meaning::VarId;
use qe_parallel::Gate;
use reference_engine::Measured;
use std::alloc::{AllocError, Global};
use std::thread::Threads;

/// What is found of a formula without free names that begins with `ex` of so many names.
#[derive(Drop)]
pub enum Verdict {
    /// It is false.
    False,
    /// It is true with these values of the names, in their order.
    True(Vec<Fraction>),
    /// It is true, and the sample stops at a limit.
    TrueAlone,
    /// The elimination stops at a limit.
    Unknown,
}

/// Whether the formula is true, and values of the first `count` names with which it is: in lowest terms, and over the integers whole.
/// The formula has no free names, and begins with `ex` of these names. `TrueAlone` comes only where the reference sample stops within
/// the limit of nodes, and `Unknown` only where the reference elimination does.
///
/// Its only error is want of memory. The formulas of the store stay.
pub fn decided<R: Threads + Sync, G: Gate + Sync>(
    engine: &Engine<'_, R, G>,
    store: &mut Store,
    id: FormulaId,
    count: usize,
) -> Result<Verdict, AllocError>
    requires id { IsId store.old id }
    requires normal { Every (IsNormal (context_of engine.now.context)) (tree store.old id) }
    requires closed { (y : ℕ) → ¬ (IsFree (tree store.old id) y) }
    requires workers { 1 ≤ engine.now.limits.workers }
    requires leading { (body : Tree) × (tree store.old id ≡ under_names 0 count body) }
    ensures verdict { IfOk result (λ v. (body : Tree) → tree store.old id ≡ under_names 0 count body → Decides (context_of engine.now.context) engine.now.limits.nodes count body v) }
    ensures kept { Keeps (IsId store.old) (tree store.old) (IsId store.new) (tree store.new) }
{
    let cases = match engine.cases(store, id, &[]) {
        Ok(cases) => cases,
        Err(Measured::Overflow | Measured::Nodes) => return Ok(Verdict::Unknown),
        Err(Measured::Memory) => return Err(AllocError),
    };
    let is_true = some_true(store, &cases.cases) != cases.universal;
    if count == 0 {
        if is_true {
            return Ok(Verdict::True(Vec::new(engine.alloc)));
        }
        return Ok(Verdict::False);
    }
    match engine.sample_in(store, id, &cases, &Values::new(engine.alloc, 1)) {
        Ok(Some(values)) => Ok(Verdict::True(fractions_of(engine.alloc, &values[..count])?)),
        Ok(None) => Ok(Verdict::False),
        Err(Measured::Overflow | Measured::Nodes) => {
            if is_true {
                Ok(Verdict::TrueAlone)
            } else {
                Ok(Verdict::False)
            }
        }
        Err(Measured::Memory) => Err(AllocError),
    }
}

// The values without their names, in their order.
fn fractions_of(alloc: Global, values: &[(VarId, Fraction)]) -> Result<Vec<Fraction>, AllocError>
    ensures { IfOk result (λ v. v.items ≡ map (λ w. w.1) values.now) }
{
    values.iter().map(|value| value.1).collect(alloc)
}
