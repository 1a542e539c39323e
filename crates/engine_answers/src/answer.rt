//! A condition for a formula, or the cases of its leading block.

ghost use Rattle.std.specs.Prelude.{◌≡◌, ◌≤◌, ◌↔◌, ℕ, IfOk, IfErr, IfSome, IsTrue, MatchResult, map};
ghost use Rattle.std.specs.List.{AllByRecursion};
ghost use Rattle.logic_meaning.specs.Answer.{Place};
ghost use Rattle.logic_meaning.specs.Direct.{IsDirect};
ghost use Rattle.logic_meaning.specs.Every.{Every};
ghost use Rattle.logic_meaning.specs.NormalForm.{IsNormal};
ghost use Rattle.logic_meaning.specs.Reference.{reference, normal_tree};
ghost use Rattle.logic_meaning.specs.Some.{EachOf, SomeOf};
ghost use Rattle.logic_meaning.specs.Tree.{Tree, Trees};
ghost use Rattle.logic_meaning.specs.declared.form.VarId.{VarId};
ghost use Rattle.normal_atoms.specs.Atoms.{context_of, atom_of, IsWellFormed};
ghost use Rattle.formula_tree.specs.Makers.{Keeps};
ghost use Rattle.formula_store.specs.Nodes.{tree, IsId};
ghost use Rattle.reference_engine.specs.Told.{StopsWith};
ghost use Rattle.branch_rounds.specs.FromBranchPoints.{conjuncts};
ghost use Rattle.branch_rounds.specs.Rounds.{IsDirectAt};
ghost use Rattle.engine_answers.specs.Tasks.{IsTask};
ghost use Rattle.engine_answers.specs.Begun.{IsBegun, IsUnpaid};
ghost use Rattle.engine_answers.specs.Equations.{IsEquation, HasEquation};
ghost use Rattle.engine_answers.specs.Found.{IsFound, IsFoundDirect, IsConditionOf};

use crate::block::asked;
use crate::branched::Begun;
use crate::case_tree::CaseTree;
use crate::engine::Engine;
use crate::inner_blocks_block::Block;
use crate::task::Task;
use branch_rounds::RoundError;
use formula_store::{FormulaId, Store};
use formula_tree::Shape;
use normal_atoms::{Atom, Context, Rel};
use qe_parallel::Gate;
use reference_engine::Measured;
use std::thread::Threads;

/// What an elimination finds of a formula: a condition for it, or the cases of its leading block.
#[derive(Drop)]
pub enum Answer {
    Condition(FormulaId),
    Cases(CaseTree),
}

impl<R: Threads + Sync, G: Gate + Sync> Engine<'_, R, G> {
    /// A condition for the formula under the atoms where names of its leading block go without a test point, else its cases as
    /// `Engine::cases` gives them; a direct formula has its cases. The formulas of the store stay.
    pub fn answer(
        &self,
        store: &mut Store,
        id: FormulaId,
        atoms: &[Atom],
    ) -> Result<Answer, Measured>
        requires id { IsId store.old id }
        requires normal { Every (IsNormal (context_of self.now.context)) (tree store.old id) }
        requires atoms { EachOf (IsNormal (context_of self.now.context)) (map atom_of atoms.now) }
        requires well_formed { AllByRecursion IsWellFormed atoms.now }
        requires workers { 1 ≤ self.now.limits.workers }
        ensures found { IfOk result (IsFound (context_of self.now.context) (map atom_of atoms.now) (tree store.old id) store.new) }
        ensures direct { (x : ℕ) (fs : Trees) (s : Place) → self.now.context ≡ Context.Fields → IsDirect self.now.limits.nodes (normal_tree (tree store.old id)) x fs s →
            MatchResult result (IsFoundDirect x fs s store.new) (λ e. e ≡ Measured.Memory) }
        ensures stops { IfErr result (λ e. StopsWith e (reference (context_of self.now.context) self.now.limits.nodes (tree store.old id))) }
        ensures kept { Keeps (IsId store.old) (tree store.old) (IsId store.new) (tree store.new) }
    {
        let task = Task {
            alloc: self.alloc,
            context: self.context,
            theory: atoms,
            limits: self.limits,
        };
        match task.answer(self.rt, store, id, self.gate) {
            Ok(answer) => Ok(answer),
            Err(error) => match error {
                RoundError::Memory => Err(Measured::Memory),
                RoundError::Overflow | RoundError::Nodes => {
                    match task.by_reference(store, id) {
                        Ok(cases) => Ok(Answer::Cases(cases)),
                        Err(error) => Err(error),
                    }
                }
            },
        }
    }
}

impl Task<'_> {
    // The same, whatever stops it: a direct formula is stopped by want of memory alone.
    fn answer<R: Threads + Sync, G: Gate + Sync>(
        &self,
        rt: &R,
        store: &mut Store,
        id: FormulaId,
        gate: &G,
    ) -> Result<Answer, RoundError>
        requires task { IsTask self.now }
        requires id { IsId store.old id }
        requires normal { Every (IsNormal (context_of self.now.context)) (tree store.old id) }
        ensures found { IfOk result (IsFound (context_of self.now.context) (map atom_of self.now.theory.now) (tree store.old id) store.new) }
        ensures direct { (x : ℕ) (fs : Trees) (s : Place) → self.now.context ≡ Context.Fields → IsDirect self.now.limits.nodes (normal_tree (tree store.old id)) x fs s →
            MatchResult result (IsFoundDirect x fs s store.new) (λ e. e ≡ RoundError.Memory) }
        ensures kept { Keeps (IsId store.old) (tree store.old) (IsId store.new) (tree store.new) }
    {
        let mut begun = match self.begun(rt, store, id, gate) {
            Ok(begun) => begun,
            Err(error) => return Err(error),
        };
        if self.is_by_root(store, &begun) {
            return self.cases_found(rt, store, begun, gate);
        }
        match self.condition(rt, store, &mut begun, gate) {
            Ok(Some(id)) => Ok(Answer::Condition(id)),
            Ok(None) => self.cases_found(rt, store, begun, gate),
            Err(error) => Err(error),
        }
    }

    // The cases of the block that is begun, as an answer.
    fn cases_found<R: Threads + Sync, G: Gate + Sync>(
        &self,
        rt: &R,
        store: &mut Store,
        begun: Begun,
        gate: &G,
    ) -> Result<Answer, RoundError>
        requires task { IsTask self.now }
        requires begun { (f : Tree) × IsBegun self.now f store.old begun }
        ensures found { IfOk result (λ a. (f : Tree) → IsBegun self.now f store.old begun → IsFound (context_of self.now.context) (map atom_of self.now.theory.now) f store.new a) }
        ensures direct { (f : Tree) (x : ℕ) (fs : Trees) (s : Place) → IsBegun self.now f store.old begun → IsUnpaid self.now store.old begun → self.now.context ≡ Context.Fields → IsDirect self.now.limits.nodes (normal_tree f) x fs s →
            MatchResult result (IsFoundDirect x fs s store.new) (λ e. e ≡ RoundError.Memory) }
        ensures kept { Keeps (IsId store.old) (tree store.old) (IsId store.new) (tree store.new) }
    {
        match self.cases_of(rt, store, begun, gate) {
            Ok(cases) => Ok(Answer::Cases(cases)),
            Err(error) => Err(error),
        }
    }

    // A condition for the formula whose leading block is begun, where names of the block go without a test point.
    fn condition<R: Threads + Sync, G: Gate + Sync>(
        &self,
        rt: &R,
        store: &mut Store,
        begun: &mut Begun,
        gate: &G,
    ) -> Result<Option<FormulaId>, RoundError>
        requires task { IsTask self.now }
        requires begun { (f : Tree) × IsBegun self.now f store.old begun.old }
        ensures condition { IfOk result (λ o. IfSome o (IsConditionOf self.now store.old begun.old store.new)) }
        ensures block { begun.new.block ≡ begun.old.block }
        ensures assumed { begun.new.assumed ≡ begun.old.assumed }
        ensures matrix { begun.new.matrix ≡ begun.old.matrix }
        ensures kept { Keeps (IsId store.old) (tree store.old) (IsId store.new) (tree store.new) }
    {
        let work = self.work(self.theory);
        let under = self.work(&begun.assumed);
        let block = Block {
            work: &work,
            under: &under,
            quantifier: begun.block.quantifier,
            names: &begun.block.names,
        };
        let left = block.narrowed(&mut begun.budget, store, begun.matrix)?;
        if left.names.len() == begun.block.names.len() {
            return Ok(None);
        }
        let short = match block.short_over(rt, &mut begun.budget, store, left, gate) {
            Ok(short) => short,
            Err(error) => return Err(error),
        };
        let condition = asked(self.alloc, store, begun.block.quantifier, short)?;
        Ok(Some(condition))
    }

    // Whether the block has one name over the ordered fields, and the matrix an equation among its conjuncts: its root is then the one point
    // of the name.
    fn is_by_root(&self, store: &Store, begun: &Begun) -> bool
        requires { IsId store.now begun.now.matrix }
        ensures { (left : ℕ) (x : VarId) (s : Place) → self.now.context ≡ Context.Fields → IsDirectAt (context_of self.now.context) left (tree store.now begun.now.matrix) begun.now.block.names.items x s → IsTrue result }
    {
        match self.context {
            Context::Fields => begun.block.names.len() < 2 && has_equation(store, begun.matrix),
            Context::Integers => false,
        }
    }
}

// Whether an equation is a conjunct of the formula.
fn has_equation(store: &Store, id: FormulaId) -> bool
    requires { IsId store.now id }
    ensures { IsTrue result ↔ HasEquation (conjuncts (tree store.now id)) }
{
    match store.shape(id) {
        Shape::And(ids) => some_equation(store, ids.items()),
        _ => is_equation(store, id),
    }
}

// Whether one of the formulas is an equation.
fn some_equation(store: &Store, ids: &[FormulaId]) -> bool
    requires { AllByRecursion (IsId store.now) ids.now }
    ensures { IsTrue result ↔ SomeOf (λ id. IsEquation (tree store.now id)) ids.now }
{
    for id in ids {
        if is_equation(store, *id) {
            return true;
        }
    }
    false
}

// Whether the formula is an equation.
fn is_equation(store: &Store, id: FormulaId) -> bool
    requires { IsId store.now id }
    ensures { IsTrue result ↔ IsEquation (tree store.now id) }
{
    matches!(store.shape(id), Shape::One(Atom::Compare(Rel::Equal, _)))
}
