//! The truth of a formula at a point, by cases.

ghost use Rattle.std.specs.Prelude.{◌≡◌, ◌≤◌, ◌↔◌, ◌<ℤ◌, pos, false, true, IsTrue, IfOk, IfErr, MatchOption};
ghost use Rattle.logic_meaning.specs.Every.{Every};
ghost use Rattle.logic_meaning.specs.Point.{Of};
ghost use Rattle.logic_meaning.specs.Some.{Among, EachOf};
ghost use Rattle.logic_meaning.specs.Tree.{TrueAt};
ghost use Rattle.normal_atoms.specs.Atoms.{context_of};
ghost use Rattle.logic_meaning.specs.NormalForm.{IsNormal};
ghost use Rattle.linear_forms.specs.Values.{point_of};
ghost use Rattle.logic_meaning.specs.Sample.{reference_at};
ghost use Rattle.reference_engine.specs.Told.{StopsWith};
ghost use Rattle.formula_tree.specs.Makers.{Keeps};
ghost use Rattle.formula_store.specs.Nodes.{tree, IsId};
ghost use Rattle.formula_store.specs.Truths.{Tells};
ghost use Rattle.engine_answers.specs.Truths.{CanBeTold};

use crate::case_tree::Case;
use crate::engine::Engine;
use formula_store::{EvalStop, FormulaId, Store};
use linear_forms::Values;
use qe_parallel::Gate;
use reference_engine::{Measured, truth_by_elimination};
use std::thread::Threads;

impl<R: Threads + Sync, G: Gate + Sync> Engine<'_, R, G> {
    /// Whether the formula is true at the point, by the cases of its leading block: whether some guard is true there, or for a block of
    /// `all` none.
    ///
    /// Where the cases do not tell it the reference elimination with the point put in answers: so `Overflow` and `Nodes` come only
    /// where it stops with that word within the limit of nodes, else `Memory`. The formulas of the store stay.
    pub fn truth(&self, store: &mut Store, id: FormulaId, at: &Values) -> Result<bool, Measured>
        requires id { IsId store.old id }
        requires normal { Every (IsNormal (context_of self.now.context)) (tree store.old id) }
        requires workers { 1 ≤ self.now.limits.workers }
        requires positive { pos 0 <ℤ at.now.denominator }
        requires point { Of (context_of self.now.context) (point_of at.now) }
        ensures truth { IfOk result (λ b. IsTrue b ↔ TrueAt (context_of self.now.context) (tree store.old id) (point_of at.now)) }
        ensures stops { IfErr result (λ e. StopsWith e (reference_at (context_of self.now.context) self.now.limits.nodes (point_of at.now) (tree store.old id))) }
        ensures kept { Keeps (IsId store.old) (tree store.old) (IsId store.new) (tree store.new) }
    {
        match self.told(store, id, at) {
            Ok(truth) => Ok(truth),
            Err(Measured::Memory) => Err(Measured::Memory),
            Err(Measured::Overflow | Measured::Nodes) => {
                let (alloc, context, limit) = (self.alloc, self.context, self.limits.nodes);
                truth_by_elimination(alloc, store, context, id, at, limit)
            }
        }
    }

    // The truth of the formula as its cases tell it, whatever stops them.
    fn told(&self, store: &mut Store, id: FormulaId, at: &Values) -> Result<bool, Measured>
        requires id { IsId store.old id }
        requires normal { Every (IsNormal (context_of self.now.context)) (tree store.old id) }
        requires workers { 1 ≤ self.now.limits.workers }
        requires positive { pos 0 <ℤ at.now.denominator }
        requires point { Of (context_of self.now.context) (point_of at.now) }
        ensures truth { IfOk result (λ b. IsTrue b ↔ TrueAt (context_of self.now.context) (tree store.old id) (point_of at.now)) }
        ensures kept { Keeps (IsId store.old) (tree store.old) (IsId store.new) (tree store.new) }
    {
        let cases = match self.cases(store, id, &[]) {
            Ok(cases) => cases,
            Err(error) => return Err(error),
        };
        match true_case(store, &cases.cases, at) {
            Ok(Some(_)) => Ok(!cases.universal),
            Ok(None) => Ok(cases.universal),
            Err(EvalStop::Overflow) => Err(Measured::Overflow),
            Err(EvalStop::Memory) => Err(Measured::Memory),
        }
    }
}

/// The first case whose guard is seen to be true at the point, or `None` where no guard is true there. `Overflow` comes only where no
/// guard is seen to be true and a number formed for another passes 2^127 - 1, else `Memory`.
pub(crate) fn true_case<'a>(
    store: &Store,
    cases: &'a [Case],
    at: &Values,
) -> Result<Option<&'a Case>, EvalStop>
    requires { EachOf (CanBeTold store.now at.now.denominator) cases.now }
    ensures { IfOk result (λ o. MatchOption o (EachOf (λ k. Tells false (tree store.now k.guard) (point_of at.now)) cases.now) (λ k. Among cases.now k.now × Tells true (tree store.now k.now.guard) (point_of at.now))) }
{
    let mut passed = false;
    for case in cases {
        match store.truth(case.guard, at) {
            Ok(true) => return Ok(Some(case)),
            Ok(false) => {}
            Err(EvalStop::Overflow) => passed = true,
            Err(EvalStop::Memory) => return Err(EvalStop::Memory),
        }
    }
    if passed {
        return Err(EvalStop::Overflow);
    }
    Ok(None)
}
