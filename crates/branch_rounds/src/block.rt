//! All names of a block put, one after the other.

ghost use Rattle.std.specs.Prelude.{◌≡◌, ◌∷◌, [], IfOk, IfErr, MatchResult, map};
ghost use Rattle.logic_meaning.specs.Answer.{Place};
ghost use Rattle.logic_meaning.specs.Some.{EachOf};
ghost use Rattle.formula_laws.specs.StandsOnce.{StandsOnce};
ghost use Rattle.elimination_theory.specs.Theorems.{IsTidy};
ghost use Rattle.normal_atoms.specs.Atoms.{context_of, atom_of};
ghost use Rattle.case_theory.specs.Under.{Lack};
ghost use Rattle.formula_tree.specs.Makers.{Keeps};
ghost use Rattle.formula_store.specs.Nodes.{tree, IsId};
ghost use Rattle.branch_rounds.specs.Worked.{IsWork};
ghost use Rattle.logic_meaning.specs.declared.form.VarId.{VarId};
ghost use Rattle.branch_rounds.specs.Branches.{AreBranchesOf, numbers};
ghost use Rattle.branch_rounds.specs.Rounds.{PassesAt, IsDirectAt, IsLeftAlone};

use crate::branch::Branch;
use crate::budget::Budget;
use crate::error::RoundError;
use crate::own_names::is_over;
use crate::rounds::all_of;
use crate::work::Work;
use branch_pruning::is_impossible;
use formula_store::{FormulaId, Store};
use logic_meaning::VarId;
use qe_parallel::Gate;
use std::alloc::{AllocError, Global};
use std::thread::Threads;

/// The branches of a block of `ex` over the matrix, with no name left (Loos and Weispfenning 1993, Cooper 1972): where the
/// assumptions are true, the block is true exactly where some branch is, and each branch exactly where its points make the matrix
/// true; none where the matrix is seen to be true nowhere. In each round every branch loses a name: one that stands nowhere at 0, else
/// one at the root of the first conjoined equation that has a name left, else the name and side with the fewest points. A branch that
/// implies another goes at the end.
///
/// Where the block has two names or more, and the matrix no other, only one true branch is asked for: so the branches are worked on one
/// after the other to their end, those with the fewest nodes first, and one with the formula and the names left of an earlier one is
/// passed over.
///
/// What the steps cost is taken off the budget before anything is put in; `Nodes` comes where it does not suffice, `Overflow` only
/// where a number passes 2^127 - 1, else `Memory`. Of a block of one name `Overflow` comes only where its points have to be counted,
/// or where a number that is formed for an atom at the root of an equation or at 0 passes. Where one point is enough for it and is
/// paid (`IsDirectAt`), there is at most one branch, no larger than the matrix at that point, and the only error is `Memory`.
///
/// The points of the first step, and of each that is large enough, are put in by as many threads as `Work` has. The formulas of the
/// store stay.
pub fn block_branches<R: Threads + Sync, G: Gate + Sync>(
    rt: &R,
    work: &Work<'_>,
    budget: &mut Budget,
    store: &mut Store,
    matrix: FormulaId,
    block: &[VarId],
    gate: &G,
) -> Result<Vec<Branch>, RoundError>
    requires work { IsWork work.now }
    requires id { IsId store.old matrix }
    requires tidy { IsTidy (context_of work.now.context) (tree store.old matrix) }
    requires lack { EachOf (Lack (map atom_of work.now.assumed.now)) (numbers block.now) }
    requires once { StandsOnce (numbers block.now) }
    ensures branches { IfOk result (λ v. AreBranchesOf work.now (tree store.old matrix) (numbers block.now) store.new v.items) }
    ensures one_name { (x : VarId) → block.now ≡ x ∷ [] → IfErr result (λ e. e ≡ RoundError.Overflow → PassesAt work.now.context (tree store.old matrix) block.now) }
    ensures direct { (x : VarId) (s : Place) → IsDirectAt (context_of work.now.context) budget.old.nodes (tree store.old matrix) block.now x s →
        MatchResult result (λ v. IsLeftAlone (context_of work.now.context) x.number s (tree store.old matrix) store.new v.items) (λ e. e ≡ RoundError.Memory) }
    ensures kept { Keeps (IsId store.old) (tree store.old) (IsId store.new) (tree store.new) }
{
    if is_impossible(
        work.alloc,
        store,
        work.context,
        work.assumed,
        matrix,
        &mut budget.effort,
    )? {
        return Ok(Vec::new(work.alloc));
    }
    if block.len() > 1 && is_over(store, matrix, block)? {
        return work.one_by_one(rt, budget, store, matrix, block, gate);
    }
    let mut branches = begun(work.alloc, matrix, block)?;
    for _name in block {
        branches = match work.round(rt, budget, store, branches, gate) {
            Ok(branches) => branches,
            Err(error) => return Err(error),
        };
    }
    Ok(work.thinned(store, branches, &mut budget.effort)?)
}

/// The matrix as the only branch, with every name of the block left. Its only error is want of memory.
pub(crate) fn begun(
    alloc: Global,
    matrix: FormulaId,
    block: &[VarId],
) -> Result<Vec<Branch>, AllocError>
    ensures { IfOk result (λ v. v.items ≡ record { formula = matrix; points = []; left = block.now } ∷ []) }
{
    let left = all_of(alloc, block)?;
    let mut branches = Vec::new(alloc);
    branches.push(Branch::of(matrix, Vec::new(alloc), left))?;
    Ok(branches)
}
