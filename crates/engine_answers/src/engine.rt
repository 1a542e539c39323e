//! Elimination by cases, as commands ask it.

ghost use Rattle.std.specs.Prelude.{◌≡◌, ◌≤◌, ℕ, IfOk, IfErr, MatchResult, map};
ghost use Rattle.std.specs.List.{AllByRecursion};
ghost use Rattle.logic_meaning.specs.Answer.{Place};
ghost use Rattle.logic_meaning.specs.Every.{Every};
ghost use Rattle.logic_meaning.specs.Some.{EachOf};
ghost use Rattle.logic_meaning.specs.Tree.{Trees};
ghost use Rattle.normal_atoms.specs.Atoms.{context_of, atom_of, IsWellFormed};
ghost use Rattle.logic_meaning.specs.NormalForm.{IsNormal};
ghost use Rattle.logic_meaning.specs.Reference.{reference, normal_tree};
ghost use Rattle.formula_tree.specs.Makers.{Keeps};
ghost use Rattle.formula_store.specs.Nodes.{tree, IsId};
ghost use Rattle.reference_engine.specs.Told.{StopsWith};
ghost use Rattle.logic_meaning.specs.Direct.{IsDirect};
ghost use Rattle.engine_answers.specs.CaseTrees.{IsCaseTreeOf};
ghost use Rattle.engine_answers.specs.Direct.{IsDirectTree};

use crate::case_tree::CaseTree;
use crate::eliminating::eliminate;
use crate::limits::Limits;
use formula_store::{FormulaId, Store};
use normal_atoms::{Atom, Context};
use qe_parallel::Gate;
use reference_engine::Measured;
use std::alloc::Global;
use std::thread::Threads;

/// What an elimination is worked with: the theory of the numbers, the limits, and a runtime whose threads a gate lets through.
#[derive(Drop)]
pub struct Engine<'a, R, G> {
    pub rt: &'a R,
    pub alloc: Global,
    pub context: Context,
    pub limits: Limits,
    pub gate: &'a G,
}

impl<R: Threads + Sync, G: Gate + Sync> Engine<'_, R, G> {
    /// The cases of the leading block of the formula under the atoms, as `crate::eliminate` gives them.
    pub fn cases(
        &self,
        store: &mut Store,
        id: FormulaId,
        atoms: &[Atom],
    ) -> Result<CaseTree, Measured>
        requires id { IsId store.old id }
        requires normal { Every (IsNormal (context_of self.now.context)) (tree store.old id) }
        requires atoms { EachOf (IsNormal (context_of self.now.context)) (map atom_of atoms.now) }
        requires well_formed { AllByRecursion IsWellFormed atoms.now }
        requires workers { 1 ≤ self.now.limits.workers }
        ensures cases { IfOk result (IsCaseTreeOf (context_of self.now.context) (map atom_of atoms.now) (tree store.old id) store.new) }
        ensures direct { (x : ℕ) (fs : Trees) (s : Place) → self.now.context ≡ Context.Fields → IsDirect self.now.limits.nodes (normal_tree (tree store.old id)) x fs s →
            MatchResult result (IsDirectTree x fs s store.new) (λ e. e ≡ Measured.Memory) }
        ensures stops { IfErr result (λ e. StopsWith e (reference (context_of self.now.context) self.now.limits.nodes (tree store.old id))) }
        ensures kept { Keeps (IsId store.old) (tree store.old) (IsId store.new) (tree store.new) }
    {
        eliminate(
            self.rt,
            self.alloc,
            store,
            self.context,
            id,
            atoms,
            self.limits,
            self.gate,
        )
    }
}
