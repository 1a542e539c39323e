//! The cases of a formula, in the one way or in the other.

ghost use Rattle.std.specs.Prelude.{◌≡◌, ◌≤◌, ℕ, IfOk, IfErr, MatchResult, map};
ghost use Rattle.logic_meaning.specs.Answer.{Place};
ghost use Rattle.std.specs.List.{AllByRecursion};
ghost use Rattle.logic_meaning.specs.Every.{Every};
ghost use Rattle.logic_meaning.specs.Some.{EachOf};
ghost use Rattle.logic_meaning.specs.Tree.{Trees};
ghost use Rattle.normal_atoms.specs.Atoms.{context_of, atom_of, IsWellFormed};
ghost use Rattle.logic_meaning.specs.NormalForm.{IsNormal};
ghost use Rattle.logic_meaning.specs.Reference.{normal_tree, reference};
ghost use Rattle.logic_meaning.specs.Direct.{IsDirect};
ghost use Rattle.formula_tree.specs.Makers.{Keeps};
ghost use Rattle.formula_store.specs.Nodes.{tree, IsId};
ghost use Rattle.reference_engine.specs.Told.{StopsWith};
ghost use Rattle.engine_answers.specs.CaseTrees.{IsCaseTreeOf};
ghost use Rattle.engine_answers.specs.Direct.{IsDirectTree};

use crate::case_tree::CaseTree;
use crate::limits::Limits;
use crate::task::Task;
use branch_rounds::RoundError;
use formula_store::{FormulaId, Store};
use normal_atoms::{Atom, Context};
use qe_parallel::Gate;
use reference_engine::Measured;
use std::alloc::Global;
use std::thread::Threads;

/// The cases of the leading block of a formula under a theory (Loos and Weispfenning 1993, Cooper 1972), of which the members
/// without a name of the block are used. Blocks inside the matrix are eliminated in the same way, from the innermost out.
///
/// Where the engine's own way would pass a limit the reference elimination answers: so `Overflow` and `Nodes` come only where it
/// stops with that word within the limit of nodes, else `Memory`. Over the fields a formula whose negation normal form is direct
/// (`IsDirect`) is stopped by `Memory` alone, and has at most one case, whose guard is no larger than the direct answer in nodes and
/// in text. The formulas of the store stay.
pub fn eliminate<R: Threads + Sync, G: Gate + Sync>(
    rt: &R,
    alloc: Global,
    store: &mut Store,
    context: Context,
    id: FormulaId,
    theory: &[Atom],
    limits: Limits,
    gate: &G,
) -> Result<CaseTree, Measured>
    requires id { IsId store.old id }
    requires normal { Every (IsNormal (context_of context)) (tree store.old id) }
    requires well_formed { AllByRecursion IsWellFormed theory.now }
    requires theory { EachOf (IsNormal (context_of context)) (map atom_of theory.now) }
    requires workers { 1 ≤ limits.workers }
    ensures cases { IfOk result (IsCaseTreeOf (context_of context) (map atom_of theory.now) (tree store.old id) store.new) }
    ensures direct { (x : ℕ) (fs : Trees) (s : Place) → context ≡ Context.Fields → IsDirect limits.nodes (normal_tree (tree store.old id)) x fs s →
        MatchResult result (IsDirectTree x fs s store.new) (λ e. e ≡ Measured.Memory) }
    ensures stops { IfErr result (λ e. StopsWith e (reference (context_of context) limits.nodes (tree store.old id))) }
    ensures kept { Keeps (IsId store.old) (tree store.old) (IsId store.new) (tree store.new) }
{
    let task = Task {
        alloc,
        context,
        theory,
        limits,
    };
    match task.by_branches(rt, store, id, gate) {
        Ok(case_tree) => Ok(case_tree),
        Err(error) => match error {
            RoundError::Memory => Err(Measured::Memory),
            RoundError::Overflow | RoundError::Nodes => task.by_reference(store, id),
        },
    }
}
