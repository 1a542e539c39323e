//! One branch after the other, to its end.

ghost use Rattle.std.specs.Prelude.{◌≡◌, ◌≤◌, ◌<◌, ◌+◌, IfOk, IsTrue, length, map};
ghost use Rattle.logic_meaning.specs.Some.{EachOf};
ghost use Rattle.formula_laws.specs.StandsOnce.{StandsOnce};
ghost use Rattle.elimination_theory.specs.Theorems.{IsTidy};
ghost use Rattle.normal_atoms.specs.Atoms.{context_of, atom_of};
ghost use Rattle.case_theory.specs.Under.{Lack};
ghost use Rattle.formula_tree.specs.Makers.{Keeps};
ghost use Rattle.formula_store.specs.Nodes.{tree, IsId};
ghost use Rattle.branch_rounds.specs.Worked.{IsWork};
ghost use Rattle.branch_rounds.specs.Branches.{AreBranchesOf, IsOpen, numbers};
ghost use Rattle.branch_rounds.specs.Turns.{IsPassedOver, IsTurn};

use crate::block::begun;
use crate::branch::Branch;
use crate::budget::Budget;
use crate::error::RoundError;
use crate::ordering::put_on_top;
use crate::past::Past;
use crate::rounds::settles;
use crate::work::Work;
use branch_pruning::is_impossible;
use formula_store::{FormulaId, Store};
use logic_meaning::VarId;
use qe_parallel::Gate;
use std::alloc::AllocError;
use std::thread::Threads;

impl Work<'_> {
    /// The branches of a block of `ex` over the matrix, with no name left, worked on one after the other to their end, those with the
    /// fewest nodes first; where one is `true`, it is worked on alone. A branch is passed over where one with its formula and its names
    /// left was worked on before, or where it stood beside others and certificates show that no point meets it. The errors are those of
    /// `block_branches`. The formulas of the store stay.
    pub(crate) fn one_by_one<R: Threads + Sync, G: Gate + Sync>(
        &self,
        rt: &R,
        budget: &mut Budget,
        store: &mut Store,
        matrix: FormulaId,
        block: &[VarId],
        gate: &G,
    ) -> Result<Vec<Branch>, RoundError>
        requires work { IsWork self.now }
        requires id { IsId store.old matrix }
        requires tidy { IsTidy (context_of self.now.context) (tree store.old matrix) }
        requires lack { EachOf (Lack (map atom_of self.now.assumed.now)) (numbers block.now) }
        requires once { StandsOnce (numbers block.now) }
        ensures branches { IfOk result (λ v. AreBranchesOf self.now (tree store.old matrix) (numbers block.now) store.new v.items) }
        ensures kept { Keeps (IsId store.old) (tree store.old) (IsId store.new) (tree store.new) }
    {
        let mut open = begun(self.alloc, matrix, block)?;
        let mut past = Past::new(self.alloc);
        let mut ended = Vec::new(self.alloc);
        let mut beside_others = false;
        while let Some(branch) = open.pop() {
            if branch.left().is_empty() {
                let Ok(()) = ended.push(branch) else {
                    return Err(RoundError::Memory);
                };
                continue;
            }
            let next = match self.next_of(
                rt,
                budget,
                store,
                &mut past,
                branch,
                beside_others,
                gate,
            ) {
                Ok(next) => next,
                Err(error) => return Err(error),
            };
            if settles(store, &next) {
                open = next;
                past = Past::new(self.alloc);
                ended = Vec::new(self.alloc);
                continue;
            }
            if !next.is_empty() {
                beside_others = next.len() > 1;
            }
            put_on_top(self.alloc, store, &mut open, next)?;
        }
        Ok(ended)
    }

    // The branches at the points of a name that is left in the branch, which is remembered; none where it is passed over.
    fn next_of<R: Threads + Sync, G: Gate + Sync>(
        &self,
        rt: &R,
        budget: &mut Budget,
        store: &mut Store,
        past: &mut Past,
        branch: Branch,
        beside_others: bool,
        gate: &G,
    ) -> Result<Vec<Branch>, RoundError>
        requires work { IsWork self.now }
        requires are_open { IsOpen self.now store.old branch }
        requires some { 0 < length branch.left }
        ensures turn { IfOk result (λ v. IsTurn self.now store.old past.old branch store.new past.new v.items) }
        ensures paid { IfOk result (λ v. budget.new.nodes + length v.items ≤ budget.old.nodes) }
        ensures kept { Keeps (IsId store.old) (tree store.old) (IsId store.new) (tree store.new) }
    {
        if self.is_passed_over(store, past, &branch, beside_others, &mut budget.effort)? {
            return Ok(Vec::new(self.alloc));
        }
        past.add(self.alloc, &branch)?;
        self.step(rt, budget, store, branch, gate)
    }

    // Whether one like the branch was worked on before or, of one that stood beside others, certificates show that no point meets it.
    fn is_passed_over(
        &self,
        store: &Store,
        past: &Past,
        branch: &Branch,
        beside_others: bool,
        effort: &mut u64,
    ) -> Result<bool, AllocError>
        requires work { IsWork self.now }
        requires id { IsId store.now branch.now.formula }
        ensures { IfOk result (λ b. IsTrue b → IsPassedOver self.now store.now past.now branch.now) }
    {
        if past.has(branch) {
            return Ok(true);
        }
        if !beside_others {
            return Ok(false);
        }
        is_impossible(
            self.alloc,
            store,
            self.context,
            self.assumed,
            branch.formula(),
            effort,
        )
    }
}
