//! Questions to the elimination.

ghost use Rattle.std.specs.Prelude.{◌∷◌, [], IfOk, IsTrue, map};
ghost use Rattle.normal_atoms.specs.Atoms.{context_of, atom_of};
ghost use Rattle.shape_theory.specs.Simplifiable.{EquivalentUnder};
ghost use Rattle.formula_tree.specs.Makers.{Keeps};
ghost use Rattle.formula_store.specs.Nodes.{tree, IsId};
ghost use Rattle.short_answers.specs.Asking.{AreTidyIds, FollowsUnder, IsAnswerTo, IsAsking, IsTidyId, NeverTogether};

use crate::answer::{Answer, answer_of};
use crate::atoms::are_atoms;
use crate::negating::negation;
use crate::parts::joined;
use branch_rounds::{Budget, Reach, RoundError, Work, block_branches, fold, pruned};
use formula_store::{FormulaId, Store};
use logic_meaning::{Junction, VarId};
use qe_parallel::Gate;
use std::alloc::AllocError;
use std::thread::Threads;

/// What asks whether formulas are true together somewhere where the assumptions of the work are true: by a block of these names,
/// among which are all that stand in them. The formulas of the assumptions have these ids.
#[derive(Drop)]
pub(crate) struct Asker<'a, R, G> {
    pub rt: &'a R,
    pub gate: &'a G,
    pub work: &'a Work<'a>,
    pub assumed: &'a [FormulaId],
    pub names: &'a [VarId],
}

impl<R: Threads + Sync, G: Gate + Sync> Asker<'_, R, G> {
    /// Where the formulas are true together. Its only error is want of memory; the formulas of the store stay.
    pub(crate) fn ask(
        &self,
        store: &mut Store,
        budget: &mut Budget,
        members: &[FormulaId],
    ) -> Result<Answer, AllocError>
        requires asking { IsAsking self.now.work.now self.now.assumed.now self.now.names.now store.old }
        requires members { AreTidyIds (context_of self.now.work.now.context) store.old members.now }
        ensures answer { IfOk result (IsAnswerTo self.now.work.now (map (tree store.old) members.now)) }
        ensures kept { Keeps (IsId store.old) (tree store.old) (IsId store.new) (tree store.new) }
    {
        let Some(mut own) = budget.question() else {
            return Ok(Answer::Unknown);
        };
        let answer = self.eliminated(store, &mut own, members)?;
        budget.pay_question(&own);
        Ok(answer)
    }

    // Where the formulas are true together, by the branches of a block of all names under no assumptions: those that are in force are
    // members of its matrix.
    pub(crate) fn eliminated(
        &self,
        store: &mut Store,
        budget: &mut Budget,
        members: &[FormulaId],
    ) -> Result<Answer, AllocError>
        requires asking { IsAsking self.now.work.now self.now.assumed.now self.now.names.now store.old }
        requires members { AreTidyIds (context_of self.now.work.now.context) store.old members.now }
        ensures answer { IfOk result (IsAnswerTo self.now.work.now (map (tree store.old) members.now)) }
        ensures kept { Keeps (IsId store.old) (tree store.old) (IsId store.new) (tree store.new) }
    {
        let alloc = self.work.alloc;
        let all = joined(alloc, self.assumed, members)?;
        let whole = fold(alloc, store, Junction::Conjunction, &all)?;
        let matrix = self.without_what_is_impossible(store, budget, whole)?;
        let work = Work {
            alloc,
            context: self.work.context,
            assumed: &[],
            workers: self.work.workers,
        };
        match block_branches(self.rt, &work, budget, store, matrix, self.names, self.gate) {
            Ok(branches) => Ok(answer_of(store, branches)),
            Err(RoundError::Memory) => Err(AllocError),
            Err(RoundError::Overflow | RoundError::Nodes) => Ok(Answer::Unknown),
        }
    }

    // The formula pruned, unless it is a conjunction of atoms.
    fn without_what_is_impossible(
        &self,
        store: &mut Store,
        budget: &mut Budget,
        id: FormulaId,
    ) -> Result<FormulaId, AllocError>
        requires id { IsTidyId (context_of self.now.work.now.context) store.old id }
        ensures tidy { IfOk result (IsTidyId (context_of self.now.work.now.context) store.new) }
        ensures same { IfOk result (λ r. EquivalentUnder (context_of self.now.work.now.context) [] (tree store.old id) (tree store.new r)) }
        ensures kept { Keeps (IsId store.old) (tree store.old) (IsId store.new) (tree store.new) }
    {
        if are_atoms(store, id) {
            return Ok(id);
        }
        pruned(
            self.work.alloc,
            store,
            self.work.context,
            &[],
            id,
            Reach::Whole,
            budget.effort(),
        )
    }

    /// Whether the formula is seen to be false wherever the others are true. Its only error is want of memory; the formulas of the
    /// store stay.
    pub(crate) fn is_never(
        &self,
        store: &mut Store,
        budget: &mut Budget,
        id: FormulaId,
        others: &[FormulaId],
    ) -> Result<bool, AllocError>
        requires asking { IsAsking self.now.work.now self.now.assumed.now self.now.names.now store.old }
        requires id { IsTidyId (context_of self.now.work.now.context) store.old id }
        requires others { AreTidyIds (context_of self.now.work.now.context) store.old others.now }
        ensures never { IfOk result (λ b. IsTrue b → NeverTogether (context_of self.now.work.now.context) (map atom_of self.now.work.now.assumed.now) (tree store.old id ∷ map (tree store.old) others.now)) }
        ensures kept { Keeps (IsId store.old) (tree store.old) (IsId store.new) (tree store.new) }
    {
        let members = joined(self.work.alloc, &[id], others)?;
        match self.ask(store, budget, &members)? {
            Answer::Nowhere => Ok(true),
            Answer::At(_) | Answer::Unknown => Ok(false),
        }
    }

    /// Whether the second formula is seen to be true wherever the first is. Its only error is want of memory; the formulas of the
    /// store stay.
    pub(crate) fn follows(
        &self,
        store: &mut Store,
        budget: &mut Budget,
        given: FormulaId,
        other: FormulaId,
    ) -> Result<bool, AllocError>
        requires asking { IsAsking self.now.work.now self.now.assumed.now self.now.names.now store.old }
        requires given { IsTidyId (context_of self.now.work.now.context) store.old given }
        requires other { IsTidyId (context_of self.now.work.now.context) store.old other }
        ensures follows { IfOk result (λ b. IsTrue b → FollowsUnder (context_of self.now.work.now.context) (map atom_of self.now.work.now.assumed.now) (tree store.old given) (tree store.old other)) }
        ensures kept { Keeps (IsId store.old) (tree store.old) (IsId store.new) (tree store.new) }
    {
        let not = negation(self.work.alloc, store, other)?;
        self.is_never(store, budget, given, &[not])
    }
}
