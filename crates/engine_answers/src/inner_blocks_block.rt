//! One block inside a formula.

ghost use Rattle.std.specs.Prelude.{◌≡◌, IfOk, map};
ghost use Rattle.logic_meaning.specs.Fold.{fold_list};
ghost use Rattle.logic_meaning.specs.Some.{EachOf};
ghost use Rattle.logic_meaning.specs.Tree.{Tree};
ghost use Rattle.normal_atoms.specs.Atoms.{context_of, atom_of};
ghost use Rattle.elimination_theory.specs.Theorems.{IsTidy};
ghost use Rattle.formula_tree.specs.Makers.{IsMade, Keeps};
ghost use Rattle.formula_tree.specs.Trees.{members};
ghost use Rattle.formula_store.specs.Nodes.{tree, IsId};
ghost use Rattle.branch_rounds.specs.Worked.{IsWork, IsWorkedTo};
ghost use Rattle.engine_answers.specs.InnerBlocksBlocks.{IsBlock, ClosesBlock, IsLeftOf, IsShortOver};

use crate::block::asked;
use branch_pruning::is_impossible;
use branch_rounds::{
    Branch, Budget, Reach, RoundError, Work, block_branches, fold, formulas_of, is_over, pruned,
};
use formula_store::{FormulaId, Store};
use logic_meaning::{Junction, Quantifier, VarId};
use narrowed_blocks::{NarrowedBlock, narrowed};
use qe_parallel::Gate;
use short_answers::shortened;
use std::alloc::{AllocError, Global};
use std::thread::Threads;

/// A block of one quantifier inside a formula, with what is worked on outside of it and under it: there the assumptions without the
/// names of the block are used.
#[derive(Clone, Copy)]
pub(crate) struct Block<'a> {
    pub(crate) work: &'a Work<'a>,
    pub(crate) under: &'a Work<'a>,
    pub(crate) quantifier: Quantifier,
    pub(crate) names: &'a [VarId],
}

impl Block<'_> {
    /// The block over the formula inside, of which this was made: the disjunction of its branches, pruned under the assumptions.
    /// A block of `all` is the negation of one of `ex` over the negated formula. What the branches cost is taken off the budget:
    /// `Nodes` comes where it does not suffice, `Overflow` only where a number passes 2^127 - 1, else `Memory`. The formulas of
    /// the store stay.
    pub(crate) fn closed<R: Threads + Sync, G: Gate + Sync>(
        &self,
        rt: &R,
        budget: &mut Budget,
        store: &mut Store,
        inner: FormulaId,
        gate: &G,
    ) -> Result<FormulaId, RoundError>
        requires block { IsBlock self.now }
        requires id { IsId store.old inner }
        requires tidy { IsTidy (context_of self.now.work.now.context) (tree store.old inner) }
        ensures closes { IfOk result (ClosesBlock self.now (tree store.old inner) store.new) }
        ensures kept { Keeps (IsId store.old) (tree store.old) (IsId store.new) (tree store.new) }
    {
        let matrix = asked(self.work.alloc, store, self.quantifier, inner)?;
        let left = self.narrowed(budget, store, matrix)?;
        let short = match self.short_over(rt, budget, store, left, gate) {
            Ok(short) => short,
            Err(error) => return Err(error),
        };
        Ok(asked(self.work.alloc, store, self.quantifier, short)?)
    }

    /// The block over the matrix, in which names that go without a test point are gone: where other names stand in it. Its only error is
    /// want of memory; the formulas of the store stay.
    pub(crate) fn narrowed(
        &self,
        budget: &mut Budget,
        store: &mut Store,
        matrix: FormulaId,
    ) -> Result<NarrowedBlock, AllocError>
        requires block { IsBlock self.now }
        requires id { IsId store.old matrix }
        requires tidy { IsTidy (context_of self.now.work.now.context) (tree store.old matrix) }
        ensures left { IfOk result (IsLeftOf self.now (tree store.old matrix) store.new) }
        ensures kept { Keeps (IsId store.old) (tree store.old) (IsId store.new) (tree store.new) }
    {
        if self.is_left_to_points(budget, store, matrix)? {
            let names = copied(self.work.alloc, self.names)?;
            return Ok(NarrowedBlock { matrix, names });
        }
        narrowed(
            self.work.alloc,
            store,
            self.under.context,
            self.under.assumed,
            matrix,
            self.names,
            budget.effort(),
        )
    }

    // Whether no name is to go before points are put in: where the matrix has no other names, or is seen to be true nowhere.
    fn is_left_to_points(
        &self,
        budget: &mut Budget,
        store: &Store,
        matrix: FormulaId,
    ) -> Result<bool, AllocError>
        requires block { IsBlock self.now }
        requires id { IsId store.now matrix }
    {
        if is_over(store, matrix, self.names)? {
            return Ok(true);
        }
        let work = self.under;
        is_impossible(
            work.alloc,
            store,
            work.context,
            work.assumed,
            matrix,
            budget.effort(),
        )
    }

    /// The block of `ex`, of which this is left: the disjunction of its branches, pruned and shortened under the assumptions outside of it.
    /// What the branches cost is taken off the budget; the errors are those of `closed`. The formulas of the store stay.
    pub(crate) fn short_over<R: Threads + Sync, G: Gate + Sync>(
        &self,
        rt: &R,
        budget: &mut Budget,
        store: &mut Store,
        left: NarrowedBlock,
        gate: &G,
    ) -> Result<FormulaId, RoundError>
        requires block { IsBlock self.now }
        requires left { (m : Tree) × IsLeftOf self.now m store.old left }
        ensures made { IfOk result (IsId store.new) }
        ensures short { IfOk result (IsShortOver self.now store.old left store.new) }
        ensures kept { Keeps (IsId store.old) (tree store.old) (IsId store.new) (tree store.new) }
    {
        let alloc = self.work.alloc;
        let branches = match block_branches(
            rt,
            self.under,
            budget,
            store,
            left.matrix,
            &left.names,
            gate,
        ) {
            Ok(branches) => branches,
            Err(error) => return Err(error),
        };
        let together = disjunction(alloc, store, &branches)?;
        let small = pruned(
            alloc,
            store,
            self.work.context,
            self.work.assumed,
            together,
            Reach::Whole,
            budget.effort(),
        )?;
        Ok(shortened(rt, self.work, budget, store, small, gate)?)
    }
}

// The disjunction of what is left of the branches, folded.
fn disjunction(
    alloc: Global,
    store: &mut Store,
    branches: &[Branch],
) -> Result<FormulaId, AllocError>
    requires { EachOf (λ b. IsId store.old b.formula) branches.now }
    ensures made { IfOk result (λ r. IsMade (IsId store.new) (tree store.new) r (fold_list Junction.Disjunction (members (map (λ b. tree store.old b.formula) branches.now)))) }
    ensures kept { Keeps (IsId store.old) (tree store.old) (IsId store.new) (tree store.new) }
{
    let formulas = formulas_of(alloc, branches)?;
    fold(alloc, store, Junction::Disjunction, &formulas)
}

// These names, held apart.
fn copied(alloc: Global, names: &[VarId]) -> Result<Vec<VarId>, AllocError>
    ensures { IfOk result (λ v. v.items ≡ names.now) }
{
    let mut list = Vec::new(alloc);
    list.extend_from_slice(names)?;
    Ok(list)
}
