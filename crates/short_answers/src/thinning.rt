//! Formulas that others cover together.

ghost use Rattle.std.specs.Prelude.{◌≡◌, ◌∷◌, IfOk, IsTrue, OnOk, length, map};
ghost use Rattle.normal_atoms.specs.Atoms.{context_of, atom_of};
ghost use Rattle.formula_tree.specs.Makers.{Keeps};
ghost use Rattle.formula_store.specs.Nodes.{tree, IsId};
ghost use Rattle.branch_pruning.specs.FromAtomPruning.{marked as marked_of};
ghost use Rattle.branch_pruning.specs.Pruned.{AreCovering};
ghost use Rattle.short_answers.specs.Asking.{AreTidyIds, IsAsking, IsTidyId, NeverTogether};
ghost use Rattle.short_answers.specs.Opposites.{StayTrueWithout};
ghost use Rattle.short_answers.specs.Shorter.{IsSame};

use crate::asking::Asker;
use crate::cases::members_of;
use crate::negating::negation;
use branch_rounds::{Budget, fold};
use formula_store::{FormulaId, Store};
use logic_meaning::Junction;
use qe_parallel::Gate;
use std::alloc::{AllocError, Global};
use std::thread::Threads;

/// With how many formulas before it one is compared at most.
const MOST_BEFORE: usize = 40;

impl<R: Threads + Sync, G: Gate + Sync> Asker<'_, R, G> {
    /// The disjunction without the members that are seen to be covered by those before them; another formula stays. Its only error is
    /// want of memory; the formulas of the store stay.
    pub(crate) fn thinned(
        &self,
        store: &mut Store,
        budget: &mut Budget,
        id: FormulaId,
    ) -> Result<FormulaId, AllocError>
        requires asking { IsAsking self.now.work.now self.now.assumed.now self.now.names.now store.old }
        requires id { IsTidyId (context_of self.now.work.now.context) store.old id }
        ensures same { IfOk result (IsSame self.now.work.now (tree store.old id) store.new) }
        ensures kept { Keeps (IsId store.old) (tree store.old) (IsId store.new) (tree store.new) }
    {
        let alloc = self.work.alloc;
        let members = members_of(alloc, store, id)?;
        if members.len() < 2 {
            return Ok(id);
        }
        let marks = self.uncovered(store, budget, &members)?;
        let left = marked(alloc, &members, &marks)?;
        fold(alloc, store, Junction::Disjunction, &left)
    }

    /// A mark for each of the formulas: wherever the assumptions and some of the formulas are true, some is that is marked. One that is
    /// seen to be true only where one of at most 40 marked before it is has no mark. Its only error is want of memory; the formulas of the
    /// store stay.
    pub(crate) fn uncovered(
        &self,
        store: &mut Store,
        budget: &mut Budget,
        formulas: &[FormulaId],
    ) -> Result<Vec<bool>, AllocError>
        requires asking { IsAsking self.now.work.now self.now.assumed.now self.now.names.now store.old }
        requires formulas { AreTidyIds (context_of self.now.work.now.context) store.old formulas.now }
        ensures covering { IfOk result (λ v. AreCovering (context_of self.now.work.now.context) (map atom_of self.now.work.now.assumed.now) (map (tree store.old) formulas.now) v.items) }
        ensures kept { Keeps (IsId store.old) (tree store.old) (IsId store.new) (tree store.new) }
    {
        let mut marks = Vec::new(self.work.alloc);
        let mut opposites = Vec::new(self.work.alloc);
        for id in formulas {
            let covered = self.is_covered(store, budget, *id, &mut opposites)?;
            marks.push(!covered)?;
        }
        Ok(marks)
    }

    // Whether the formula is seen to be true only where one of those before it is, of which there are the opposites; if not, its own is put
    // behind them, unless there are enough.
    fn is_covered(
        &self,
        store: &mut Store,
        budget: &mut Budget,
        id: FormulaId,
        opposites: &mut Vec<FormulaId>,
    ) -> Result<bool, AllocError>
        requires asking { IsAsking self.now.work.now self.now.assumed.now self.now.names.now store.old }
        requires id { IsTidyId (context_of self.now.work.now.context) store.old id }
        requires opposites { AreTidyIds (context_of self.now.work.now.context) store.old opposites.old.items }
        ensures covered { IfOk result (λ b. IsTrue b → NeverTogether (context_of self.now.work.now.context) (map atom_of self.now.work.now.assumed.now) (tree store.old id ∷ map (tree store.old) opposites.old.items)) }
        ensures tidy { OnOk result (AreTidyIds (context_of self.now.work.now.context) store.new opposites.new.items) }
        ensures stay { OnOk result (StayTrueWithout (context_of self.now.work.now.context) (tree store.old id) (map (tree store.old) opposites.old.items) (map (tree store.new) opposites.new.items)) }
        ensures kept { Keeps (IsId store.old) (tree store.old) (IsId store.new) (tree store.new) }
    {
        if self.is_never(store, budget, id, opposites)? {
            return Ok(true);
        }
        if opposites.len() < MOST_BEFORE {
            let opposite = negation(self.work.alloc, store, id)?;
            opposites.push(opposite)?;
        }
        Ok(false)
    }
}

// The formulas that are marked.
fn marked(alloc: Global, ids: &[FormulaId], marks: &[bool]) -> Result<Vec<FormulaId>, AllocError>
    requires { length marks.now ≡ length ids.now }
    ensures { IfOk result (λ v. v.items ≡ marked_of marks.now ids.now) }
{
    let mut left = Vec::new(alloc);
    for (place, id) in ids.iter().enumerate() {
        if marks[place] {
            left.push(*id)?;
        }
    }
    Ok(left)
}
