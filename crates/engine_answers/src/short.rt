//! Answers that are made short.

ghost use Rattle.std.specs.Prelude.{◌≡◌, ◌≤◌, IfOk, IfErr, map};
ghost use Rattle.std.specs.List.{AllByRecursion};
ghost use Rattle.logic_meaning.specs.Every.{Every};
ghost use Rattle.logic_meaning.specs.Some.{EachOf};
ghost use Rattle.normal_atoms.specs.Atoms.{context_of, atom_of, IsWellFormed};
ghost use Rattle.logic_meaning.specs.NormalForm.{IsNormal};
ghost use Rattle.logic_meaning.specs.Reference.{reference};
ghost use Rattle.formula_tree.specs.Makers.{Keeps};
ghost use Rattle.formula_store.specs.Nodes.{tree, IsId};
ghost use Rattle.reference_engine.specs.Told.{StopsWith};
ghost use Rattle.branch_pruning.specs.FromAtomPruning.{marked as marked_of};
ghost use Rattle.branch_pruning.specs.Pruned.{AreCovering};
ghost use Rattle.branch_rounds.specs.Worked.{IsWork};
ghost use Rattle.short_answers.specs.Asking.{IsTidyId};
ghost use Rattle.short_answers.specs.Shorter.{IsConstant, IsShort};
ghost use Rattle.engine_answers.specs.Assumed.{lacking};
ghost use Rattle.engine_answers.specs.CaseTrees.{IsCaseTreeOf};
ghost use Rattle.engine_answers.specs.Thinned.{IsThinnedTree};

use crate::assumed::without_names;
use crate::case_tree::{Case, CaseTree};
use crate::engine::Engine;
use crate::guards::guards_of;
use branch_rounds::{Budget, Work};
use formula_store::{FormulaId, Store};
use normal_atoms::Atom;
use qe_parallel::Gate;
use reference_engine::Measured;
use short_answers::{shortened, uncovered};
use std::alloc::{AllocError, Global};
use std::thread::Threads;

impl<R: Threads + Sync, G: Gate + Sync> Engine<'_, R, G> {
    /// The formula, or a shorter one that has its truth wherever the atoms are true. It has no other free names, no more nodes and no
    /// longer text, and is Reduced under the atoms where the formula is. A constant stays. Its only error is want of memory. The
    /// formulas of the store stay.
    pub fn shortened(
        &self,
        store: &mut Store,
        id: FormulaId,
        atoms: &[Atom],
    ) -> Result<FormulaId, AllocError>
        requires id { IsTidyId (context_of self.now.context) store.old id }
        requires atoms { EachOf (IsNormal (context_of self.now.context)) (map atom_of atoms.now) }
        requires well_formed { AllByRecursion IsWellFormed atoms.now }
        requires workers { 1 ≤ self.now.limits.workers }
        ensures shortened { IfOk result (IsShort (context_of self.now.context) (map atom_of atoms.now) (tree store.old id) store.new) }
        ensures constant { IfOk result (λ r. IsConstant (tree store.old id) → tree store.new r ≡ tree store.old id) }
        ensures kept { Keeps (IsId store.old) (tree store.old) (IsId store.new) (tree store.new) }
    {
        let work = self.work(atoms);
        let mut budget = Budget::of_limit(self.limits.nodes);
        shortened(self.rt, &work, &mut budget, store, id, self.gate)
    }

    /// The cases as `cases` gives them, without those whose guards are seen to be true only where guards of others are.
    pub fn short_cases(
        &self,
        store: &mut Store,
        id: FormulaId,
        atoms: &[Atom],
    ) -> Result<CaseTree, Measured>
        requires id { IsId store.old id }
        requires normal { Every (IsNormal (context_of self.now.context)) (tree store.old id) }
        requires atoms { EachOf (IsNormal (context_of self.now.context)) (map atom_of atoms.now) }
        requires well_formed { AllByRecursion IsWellFormed atoms.now }
        requires workers { 1 ≤ self.now.limits.workers }
        ensures cases { IfOk result (IsCaseTreeOf (context_of self.now.context) (map atom_of atoms.now) (tree store.old id) store.new) }
        ensures stops { IfErr result (λ e. StopsWith e (reference (context_of self.now.context) self.now.limits.nodes (tree store.old id))) }
        ensures kept { Keeps (IsId store.old) (tree store.old) (IsId store.new) (tree store.new) }
    {
        let case_tree = match self.cases(store, id, atoms) {
            Ok(case_tree) => case_tree,
            Err(error) => return Err(error),
        };
        match self.thinned(store, case_tree, atoms) {
            Ok(case_tree) => Ok(case_tree),
            Err(_) => Err(Measured::Memory),
        }
    }

    // The case tree without the cases that others cover.
    fn thinned(
        &self,
        store: &mut Store,
        case_tree: CaseTree,
        atoms: &[Atom],
    ) -> Result<CaseTree, AllocError>
        requires guards { EachOf (λ k. IsTidyId (context_of self.now.context) store.old k.guard) case_tree.cases.items }
        requires atoms { EachOf (IsNormal (context_of self.now.context)) (map atom_of atoms.now) }
        requires well_formed { AllByRecursion IsWellFormed atoms.now }
        requires workers { 1 ≤ self.now.limits.workers }
        ensures thinned { IfOk result (IsThinnedTree (context_of self.now.context) (map atom_of (lacking case_tree.block.items atoms.now)) store.old case_tree) }
        ensures kept { Keeps (IsId store.old) (tree store.old) (IsId store.new) (tree store.new) }
    {
        let marks = self.marks(store, &case_tree, atoms)?;
        let cases = marked(self.alloc, case_tree.cases, &marks)?;
        Ok(CaseTree {
            universal: case_tree.universal,
            block: case_tree.block,
            matrix: case_tree.matrix,
            cases,
        })
    }

    // A mark for each case: the guards of the marked ones cover the others under the atoms without names of the block.
    fn marks(
        &self,
        store: &mut Store,
        case_tree: &CaseTree,
        atoms: &[Atom],
    ) -> Result<Vec<bool>, AllocError>
        requires guards { EachOf (λ k. IsTidyId (context_of self.now.context) store.old k.guard) case_tree.now.cases.items }
        requires atoms { EachOf (IsNormal (context_of self.now.context)) (map atom_of atoms.now) }
        requires well_formed { AllByRecursion IsWellFormed atoms.now }
        requires workers { 1 ≤ self.now.limits.workers }
        ensures covering { IfOk result (λ v. AreCovering (context_of self.now.context) (map atom_of (lacking case_tree.now.block.items atoms.now)) (map (λ k. tree store.old k.guard) case_tree.now.cases.items) v.items) }
        ensures kept { Keeps (IsId store.old) (tree store.old) (IsId store.new) (tree store.new) }
    {
        let assumed = without_names(self.alloc, atoms, &case_tree.block)?;
        let guards = guards_of(self.alloc, &case_tree.cases)?;
        let work = self.work(&assumed);
        let mut budget = Budget::of_limit(self.limits.nodes);
        uncovered(self.rt, &work, &mut budget, store, &guards, self.gate)
    }

    // What all steps share, under these assumptions.
    fn work<'a>(&self, assumed: &'a [Atom]) -> Work<'a>
        requires assumed { EachOf (IsNormal (context_of self.now.context)) (map atom_of assumed.now) }
        requires well_formed { AllByRecursion IsWellFormed assumed.now }
        requires workers { 1 ≤ self.now.limits.workers }
        ensures work { IsWork result }
        ensures context { result.context ≡ self.now.context }
        ensures assumed { result.assumed.now ≡ assumed.now }
    {
        Work {
            alloc: self.alloc,
            context: self.context,
            assumed,
            workers: self.limits.workers,
        }
    }
}

// The cases that are marked, in their order.
fn marked(alloc: Global, cases: Vec<Case>, marks: &[bool]) -> Result<Vec<Case>, AllocError>
    ensures { IfOk result (λ v. v.items ≡ marked_of marks.now cases.items) }
{
    let mut kept = Vec::new(alloc);
    let mut marks = marks.iter();
    for case in cases {
        if let Some(true) = marks.next() {
            kept.push(case)?;
        }
    }
    Ok(kept)
}
