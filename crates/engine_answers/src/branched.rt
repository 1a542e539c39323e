//! The engine's own way: the branches of the leading block.

ghost use Rattle.std.specs.Prelude.{◌≡◌, ◌≤◌, ◌<◌, ◌+◌, ℕ, IfOk, IfErr, IsTrue, MatchResult, length, map};
ghost use Rattle.logic_meaning.specs.Answer.{Place};
ghost use Rattle.logic_meaning.specs.Every.{Every};
ghost use Rattle.logic_meaning.specs.Fold.{folded};
ghost use Rattle.logic_meaning.specs.Shape.{IsQuantifierFree};
ghost use Rattle.logic_meaning.specs.Plain.{IsNegationNormal};
ghost use Rattle.logic_meaning.specs.Sizes.{nodes};
ghost use Rattle.logic_meaning.specs.Tree.{Tree, Trees};
ghost use Rattle.normal_atoms.specs.Atoms.{context_of, atom_of};
ghost use Rattle.logic_meaning.specs.NormalForm.{IsNormal};
ghost use Rattle.logic_meaning.specs.Reference.{normal_tree};
ghost use Rattle.logic_meaning.specs.Direct.{IsDirect};
ghost use Rattle.formula_tree.specs.Makers.{Keeps};
ghost use Rattle.formula_store.specs.Nodes.{tree, IsId};
ghost use Rattle.branch_rounds.specs.Worked.{IsWork, IsWorkedTo};
ghost use Rattle.engine_answers.specs.CaseTrees.{IsCaseTreeOf};
ghost use Rattle.engine_answers.specs.Direct.{IsDirectTree};
ghost use Rattle.engine_answers.specs.Tasks.{IsTask};
ghost use Rattle.engine_answers.specs.Begun.{IsBegun, IsUnpaid};

use crate::assumed::without_names;
use crate::block::{LeadingBlock, leading_block};
use crate::case_tree::CaseTree;
use crate::listed::{case_tree, of_branches};
use crate::task::Task;
use crate::working::worked;
use branch_rounds::{Budget, RoundError, Work, block_branches};
use formula_store::{FormulaId, Store};
use normal_atoms::{Atom, Context};
use qe_parallel::Gate;
use std::thread::Threads;

/// The leading block of a formula, with what it is worked on under: the assumptions without its names, the matrix without quantifiers,
/// and what may still be done.
#[derive(Drop)]
pub(crate) struct Begun {
    pub(crate) block: LeadingBlock,
    pub(crate) assumed: Vec<Atom>,
    pub(crate) matrix: FormulaId,
    pub(crate) budget: Budget,
}

impl Task<'_> {
    /// The cases of the leading block by its branches, whatever stops them; blocks inside the matrix are eliminated in the same way,
    /// and paid from one budget. A direct formula is stopped by want of memory alone. The formulas of the store stay.
    pub(crate) fn by_branches<R: Threads + Sync, G: Gate + Sync>(
        &self,
        rt: &R,
        store: &mut Store,
        id: FormulaId,
        gate: &G,
    ) -> Result<CaseTree, RoundError>
        requires task { IsTask self.now }
        requires id { IsId store.old id }
        requires normal { Every (IsNormal (context_of self.now.context)) (tree store.old id) }
        ensures cases { IfOk result (IsCaseTreeOf (context_of self.now.context) (map atom_of self.now.theory.now) (tree store.old id) store.new) }
        ensures direct { (x : ℕ) (fs : Trees) (s : Place) → self.now.context ≡ Context.Fields → IsDirect self.now.limits.nodes (normal_tree (tree store.old id)) x fs s →
            MatchResult result (IsDirectTree x fs s store.new) (λ e. e ≡ RoundError.Memory) }
        ensures kept { Keeps (IsId store.old) (tree store.old) (IsId store.new) (tree store.new) }
    {
        match self.begun(rt, store, id, gate) {
            Ok(begun) => self.cases_of(rt, store, begun, gate),
            Err(error) => Err(error),
        }
    }

    /// The leading block begun: its matrix worked on, under the assumptions without its names. A direct formula is stopped by want of
    /// memory alone. The formulas of the store stay.
    pub(crate) fn begun<R: Threads + Sync, G: Gate + Sync>(
        &self,
        rt: &R,
        store: &mut Store,
        id: FormulaId,
        gate: &G,
    ) -> Result<Begun, RoundError>
        requires task { IsTask self.now }
        requires id { IsId store.old id }
        requires normal { Every (IsNormal (context_of self.now.context)) (tree store.old id) }
        ensures begun { IfOk result (IsBegun self.now (tree store.old id) store.new) }
        ensures unpaid { IfOk result (IsUnpaid self.now store.new) }
        ensures direct { (x : ℕ) (fs : Trees) (s : Place) → self.now.context ≡ Context.Fields → IsDirect self.now.limits.nodes (normal_tree (tree store.old id)) x fs s →
            IfErr result (λ e. e ≡ RoundError.Memory) }
        ensures kept { Keeps (IsId store.old) (tree store.old) (IsId store.new) (tree store.new) }
    {
        let block = leading_block(self.alloc, store, id)?;
        let assumed = without_names(self.alloc, self.theory, &block.names)?;
        let work = self.work(&assumed);
        let mut budget = Budget::of_limit(self.limits.nodes);
        let matrix = match self.matrix_worked(rt, &work, &mut budget, store, &block, gate) {
            Ok(matrix) => matrix,
            Err(error) => return Err(error),
        };
        Ok(Begun {
            block,
            assumed,
            matrix,
            budget,
        })
    }

    /// The cases of the block that is begun, by its branches. A direct formula for which nothing was paid is stopped by want of memory
    /// alone. The formulas of the store stay.
    pub(crate) fn cases_of<R: Threads + Sync, G: Gate + Sync>(
        &self,
        rt: &R,
        store: &mut Store,
        mut begun: Begun,
        gate: &G,
    ) -> Result<CaseTree, RoundError>
        requires task { IsTask self.now }
        requires begun { (f : Tree) × IsBegun self.now f store.old begun }
        ensures cases { IfOk result (λ t. (f : Tree) → IsBegun self.now f store.old begun → IsCaseTreeOf (context_of self.now.context) (map atom_of self.now.theory.now) f store.new t) }
        ensures direct { (f : Tree) (x : ℕ) (fs : Trees) (s : Place) → IsBegun self.now f store.old begun → IsUnpaid self.now store.old begun → self.now.context ≡ Context.Fields → IsDirect self.now.limits.nodes (normal_tree f) x fs s →
            MatchResult result (IsDirectTree x fs s store.new) (λ e. e ≡ RoundError.Memory) }
        ensures kept { Keeps (IsId store.old) (tree store.old) (IsId store.new) (tree store.new) }
    {
        let work = self.work(&begun.assumed);
        let branches = match block_branches(
            rt,
            &work,
            &mut begun.budget,
            store,
            begun.matrix,
            &begun.block.names,
            gate,
        ) {
            Ok(branches) => branches,
            Err(error) => return Err(error),
        };
        let cases = of_branches(self.alloc, branches)?;
        Ok(case_tree(begun.block, begun.matrix, cases))
    }

    /// What all steps share, under these assumptions.
    pub(crate) fn work<'a>(&self, assumed: &'a [Atom]) -> Work<'a>
        ensures context { result.context ≡ self.now.context }
        ensures assumed { result.assumed.now ≡ assumed.now }
        ensures workers { result.workers ≡ self.now.limits.workers }
    {
        Work {
            alloc: self.alloc,
            context: self.context,
            assumed,
            workers: self.limits.workers,
        }
    }

    /// The matrix without its quantifiers, under the assumptions: one without quantifiers is folded only. `Nodes` comes at once where
    /// the negation normal form of the whole formula has more nodes than the limit. The formulas of the store stay.
    pub(crate) fn matrix_worked<R: Threads + Sync, G: Gate + Sync>(
        &self,
        rt: &R,
        work: &Work<'_>,
        budget: &mut Budget,
        store: &mut Store,
        block: &LeadingBlock,
        gate: &G,
    ) -> Result<FormulaId, RoundError>
        requires work { IsWork work.now }
        requires id { IsId store.old block.now.matrix }
        requires normal { Every (IsNormal (context_of work.now.context)) (tree store.old block.now.matrix) }
        requires form { IsNegationNormal (tree store.old block.now.matrix) }
        ensures worked { IfOk result (IsWorkedTo (context_of work.now.context) (map atom_of work.now.assumed.now) (tree store.old block.now.matrix) store.new) }
        ensures plain { nodes (tree store.old block.now.matrix) + length block.now.names.items ≤ self.now.limits.nodes → IsQuantifierFree (tree store.old block.now.matrix) →
            MatchResult result (λ r. tree store.new r ≡ folded (tree store.old block.now.matrix)) (λ e. e ≡ RoundError.Memory) }
        ensures unpaid { IsQuantifierFree (tree store.old block.now.matrix) → budget.new ≡ budget.old }
        ensures kept { Keeps (IsId store.old) (tree store.old) (IsId store.new) (tree store.new) }
    {
        if passes(store, block, self.limits.nodes) {
            return Err(RoundError::Nodes);
        }
        worked(rt, work, budget, store, block.matrix, gate)
    }
}

// Whether the matrix and the quantifiers of the block have more nodes than the limit.
fn passes(store: &Store, block: &LeadingBlock, limit: u64) -> bool
    requires { IsId store.now block.now.matrix }
    ensures { IsTrue result → limit < nodes (tree store.now block.now.matrix) + length block.now.names.items }
{
    let nodes = store.facts(block.matrix).nodes;
    limit < nodes.saturating_add(block.names.len() as u64)
}
