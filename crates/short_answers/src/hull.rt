//! The atoms that follow from a formula.

ghost use Rattle.std.specs.Prelude.{◌≡◌, ◌≤◌, ◌∷◌, [], List, IfOk, IsTrue, OnOk, map, vec_len};
ghost use Rattle.logic_meaning.specs.Atom.{Atom};
ghost use Rattle.logic_meaning.specs.Context.{Context};
ghost use Rattle.logic_meaning.specs.Some.{EachOf};
ghost use Rattle.normal_atoms.specs.Atoms.{context_of, atom_of};
ghost use Rattle.logic_meaning.specs.Tree.{Tree};
ghost use Rattle.formula_tree.specs.Makers.{Keeps};
ghost use Rattle.formula_store.specs.Nodes.{tree, IsId};
ghost use Rattle.short_answers.specs.Asking.{AreFollowing, AreTidyIds, FollowsUnder, IsAsking, IsFollowing, IsTidyId, NeverTogether};
ghost use Rattle.short_answers.specs.Candidates.{AreCandidates};
ghost use Rattle.short_answers.specs.Cases.{AreCasesOf};

use crate::answer::Answer;
use crate::asking::Asker;
use crate::atoms::{atoms_in, formula_of};
use crate::candidates::Candidates;
use crate::cases::cases_of;
use crate::negating::negation;
use crate::parts::joined;
use branch_rounds::{Budget, fold};
use formula_store::{FormulaId, Store};
use formula_tree::{Maker, Shape};
use logic_meaning::Junction;
use qe_parallel::Gate;
use std::alloc::AllocError;
use std::thread::Threads;

impl<R: Threads + Sync, G: Gate + Sync> Asker<'_, R, G> {
    /// The conjunction of the candidates that are seen to follow from the formula, without those that the others imply: `false` where
    /// the formula is seen to be true nowhere. It follows from the formula; no clause says how much it says. Its only error is want of
    /// memory; the formulas of the store stay.
    pub(crate) fn hull(
        &self,
        store: &mut Store,
        budget: &mut Budget,
        id: FormulaId,
    ) -> Result<FormulaId, AllocError>
        requires asking { IsAsking self.now.work.now self.now.assumed.now self.now.names.now store.old }
        requires id { IsTidyId (context_of self.now.work.now.context) store.old id }
        ensures follows { IfOk result (IsFollowing self.now.work.now (tree store.old id) store.new) }
        ensures kept { Keeps (IsId store.old) (tree store.old) (IsId store.new) (tree store.new) }
    {
        let cases = cases_of(self.work.alloc, store, id)?;
        let mut candidates = self.candidates(store, id, &cases)?;
        if self.keep_met(store, budget, &cases, &mut candidates)? {
            return Ok(store.make(Shape::False)?);
        }
        let following = self.following(store, budget, &cases, candidates)?;
        let lean = self.lean(store, budget, following)?;
        fold(self.work.alloc, store, Junction::Conjunction, &lean)
    }

    // The atoms that are tried: those that the atoms of the formula give, and those that the atoms of its first case give together.
    fn candidates(
        &self,
        store: &Store,
        id: FormulaId,
        cases: &[FormulaId],
    ) -> Result<Candidates, AllocError>
        requires id { IsId store.now id }
        requires cases { EachOf (IsId store.now) cases.now }
        ensures context { IfOk result (λ k. k.context ≡ self.now.work.now.context) }
        ensures candidates { IfOk result (λ k. AreCandidates k.context k.atoms.items) }
    {
        let alloc = self.work.alloc;
        let atoms = atoms_in(alloc, store, id)?;
        let mut candidates = Candidates::of(alloc, self.work.context, &atoms)?;
        if let Some(first) = cases.first() {
            let together = atoms_in(alloc, store, *first)?;
            candidates.add_sums(&together)?;
        }
        Ok(candidates)
    }

    // Leaves the candidates that are true at a point of each case; whether each case is seen to be true nowhere.
    fn keep_met(
        &self,
        store: &mut Store,
        budget: &mut Budget,
        cases: &[FormulaId],
        candidates: &mut Candidates,
    ) -> Result<bool, AllocError>
        requires asking { IsAsking self.now.work.now self.now.assumed.now self.now.names.now store.old }
        requires cases { AreTidyIds (context_of self.now.work.now.context) store.old cases.now }
        requires context { candidates.old.context ≡ self.now.work.now.context }
        requires candidates { AreCandidates candidates.old.context candidates.old.atoms.items }
        ensures nowhere { IfOk result (λ b. IsTrue b → EachOf (λ id. NeverTogether (context_of self.now.work.now.context) (map atom_of self.now.work.now.assumed.now) (tree store.old id ∷ [])) cases.now) }
        ensures context { OnOk result (candidates.new.context ≡ candidates.old.context) }
        ensures candidates { OnOk result (AreCandidates candidates.new.context candidates.new.atoms.items) }
        ensures few { OnOk result (vec_len candidates.new.atoms ≤ vec_len candidates.old.atoms) }
        ensures kept { Keeps (IsId store.old) (tree store.old) (IsId store.new) (tree store.new) }
    {
        let mut nowhere = true;
        for case in cases {
            if self.is_met(store, budget, *case, candidates)? {
                nowhere = false;
            }
        }
        Ok(nowhere)
    }

    // Whether the case is not seen to be true nowhere; where a point of it is found, the candidates that are true there are left. It is not
    // asked where there is no candidate.
    fn is_met(
        &self,
        store: &mut Store,
        budget: &mut Budget,
        case: FormulaId,
        candidates: &mut Candidates,
    ) -> Result<bool, AllocError>
        requires asking { IsAsking self.now.work.now self.now.assumed.now self.now.names.now store.old }
        requires case { IsTidyId (context_of self.now.work.now.context) store.old case }
        requires context { candidates.old.context ≡ self.now.work.now.context }
        requires candidates { AreCandidates candidates.old.context candidates.old.atoms.items }
        ensures nowhere { IfOk result (λ b. ¬ (IsTrue b) → NeverTogether (context_of self.now.work.now.context) (map atom_of self.now.work.now.assumed.now) (tree store.old case ∷ [])) }
        ensures context { OnOk result (candidates.new.context ≡ candidates.old.context) }
        ensures candidates { OnOk result (AreCandidates candidates.new.context candidates.new.atoms.items) }
        ensures few { OnOk result (vec_len candidates.new.atoms ≤ vec_len candidates.old.atoms) }
        ensures kept { Keeps (IsId store.old) (tree store.old) (IsId store.new) (tree store.new) }
    {
        if candidates.atoms.is_empty() {
            return Ok(true);
        }
        match self.ask(store, budget, &[case])? {
            Answer::Nowhere => Ok(false),
            Answer::At(points) => {
                candidates.keep_true(&points)?;
                Ok(true)
            }
            Answer::Unknown => Ok(true),
        }
    }

    // The formulas of the candidates that are seen to follow from each of the cases. Each point at which one does not leaves those that are
    // true there.
    fn following(
        &self,
        store: &mut Store,
        budget: &mut Budget,
        cases: &[FormulaId],
        mut candidates: Candidates,
    ) -> Result<Vec<FormulaId>, AllocError>
        requires asking { IsAsking self.now.work.now self.now.assumed.now self.now.names.now store.old }
        requires cases { AreTidyIds (context_of self.now.work.now.context) store.old cases.now }
        requires context { candidates.context ≡ self.now.work.now.context }
        requires candidates { AreCandidates candidates.context candidates.atoms.items }
        ensures following { IfOk result (λ v. (f : Tree) → AreCasesOf f store.old cases.now → AreFollowing self.now.work.now f store.new v.items) }
        ensures kept { Keeps (IsId store.old) (tree store.old) (IsId store.new) (tree store.new) }
    {
        let mut following = Vec::new(self.work.alloc);
        while let Some(atom) = candidates.atoms.pop() {
            let formula = formula_of(self.work.alloc, store, &atom)?;
            if self.follows_from_each(store, budget, cases, formula, &mut candidates)? {
                following.push(formula)?;
            }
        }
        Ok(following)
    }

    // Whether the formula is seen to follow from each of the cases; where a point is found at which it does not, the
    // candidates that are true there are left.
    fn follows_from_each(
        &self,
        store: &mut Store,
        budget: &mut Budget,
        cases: &[FormulaId],
        formula: FormulaId,
        candidates: &mut Candidates,
    ) -> Result<bool, AllocError>
        requires asking { IsAsking self.now.work.now self.now.assumed.now self.now.names.now store.old }
        requires cases { AreTidyIds (context_of self.now.work.now.context) store.old cases.now }
        requires formula { IsTidyId (context_of self.now.work.now.context) store.old formula }
        requires context { candidates.old.context ≡ self.now.work.now.context }
        requires candidates { AreCandidates candidates.old.context candidates.old.atoms.items }
        ensures follows { IfOk result (λ b. IsTrue b → EachOf (λ id. FollowsUnder (context_of self.now.work.now.context) (map atom_of self.now.work.now.assumed.now) (tree store.old id) (tree store.old formula)) cases.now) }
        ensures context { OnOk result (candidates.new.context ≡ candidates.old.context) }
        ensures candidates { OnOk result (AreCandidates candidates.new.context candidates.new.atoms.items) }
        ensures few { OnOk result (vec_len candidates.new.atoms ≤ vec_len candidates.old.atoms) }
        ensures kept { Keeps (IsId store.old) (tree store.old) (IsId store.new) (tree store.new) }
    {
        let not = negation(self.work.alloc, store, formula)?;
        for case in cases {
            if has_member(store, *case, formula) {
                continue;
            }
            match self.ask(store, budget, &[*case, not])? {
                Answer::Nowhere => {}
                Answer::At(points) => {
                    candidates.keep_true(&points)?;
                    return Ok(false);
                }
                Answer::Unknown => return Ok(false),
            }
        }
        Ok(true)
    }

    // The formulas without those that are seen to follow from the others.
    fn lean(
        &self,
        store: &mut Store,
        budget: &mut Budget,
        mut left: Vec<FormulaId>,
    ) -> Result<Vec<FormulaId>, AllocError>
        requires asking { IsAsking self.now.work.now self.now.assumed.now self.now.names.now store.old }
        requires left { AreTidyIds (context_of self.now.work.now.context) store.old left.items }
        ensures following { IfOk result (λ v. (f : Tree) → AreFollowing self.now.work.now f store.old left.items → AreFollowing self.now.work.now f store.new v.items) }
        ensures kept { Keeps (IsId store.old) (tree store.old) (IsId store.new) (tree store.new) }
    {
        left.reverse();
        let mut lean = Vec::new(self.work.alloc);
        while let Some(id) = left.pop() {
            self.add_unless_implied(store, budget, id, &left, &mut lean)?;
        }
        lean.reverse();
        Ok(lean)
    }

    // Adds the formula to the second list, unless it is seen to follow from those of the two lists.
    fn add_unless_implied(
        &self,
        store: &mut Store,
        budget: &mut Budget,
        id: FormulaId,
        left: &[FormulaId],
        lean: &mut Vec<FormulaId>,
    ) -> Result<(), AllocError>
        requires asking { IsAsking self.now.work.now self.now.assumed.now self.now.names.now store.old }
        requires id { IsTidyId (context_of self.now.work.now.context) store.old id }
        requires left { AreTidyIds (context_of self.now.work.now.context) store.old left.now }
        requires lean { AreTidyIds (context_of self.now.work.now.context) store.old lean.old.items }
        ensures tidy { OnOk result (AreTidyIds (context_of self.now.work.now.context) store.new lean.new.items) }
        ensures following { OnOk result ((f : Tree) → IsFollowing self.now.work.now f store.old id → AreFollowing self.now.work.now f store.old lean.old.items → AreFollowing self.now.work.now f store.new lean.new.items) }
        ensures kept { Keeps (IsId store.old) (tree store.old) (IsId store.new) (tree store.new) }
    {
        let alloc = self.work.alloc;
        let others = joined(alloc, left, lean)?;
        let not = negation(alloc, store, id)?;
        if self.is_never(store, budget, not, &others)? {
            return Ok(());
        }
        lean.push(id)?;
        Ok(())
    }
}

// Whether the second formula is the first or a member of it.
fn has_member(store: &Store, id: FormulaId, member: FormulaId) -> bool
    requires { IsId store.now id }
    ensures { IsTrue result → (c : Context) (ks : List Atom) → FollowsUnder c ks (tree store.now id) (tree store.now member) }
{
    match store.shape(id) {
        Shape::And(ids) => ids.items().contains(&member),
        _ => id == member,
    }
}
