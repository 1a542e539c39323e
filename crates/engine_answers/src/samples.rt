//! The sample of a formula at a point, by cases.

ghost use Rattle.std.specs.Prelude.{◌≡◌, ◌≤◌, ◌<ℤ◌, ℕ, pos, map, IfOk, IfErr, MatchOption, []};
ghost use Rattle.logic_meaning.specs.Every.{Every};
ghost use Rattle.logic_meaning.specs.Point.{Of};
ghost use Rattle.logic_meaning.specs.Some.{Among};
ghost use Rattle.normal_atoms.specs.Atoms.{context_of};
ghost use Rattle.logic_meaning.specs.NormalForm.{IsNormal};
ghost use Rattle.linear_forms.specs.Values.{point_of, number_of};
ghost use Rattle.reference_engine.specs.Told.{StopsWith};
ghost use Rattle.formula_tree.specs.Makers.{Keeps};
ghost use Rattle.formula_store.specs.Nodes.{tree, IsId};
ghost use Rattle.logic_meaning.specs.ReferenceSample.{reference_sample};
ghost use Rattle.sample_reference.specs.TrueSample.{IsTrueSample};
ghost use Rattle.sample_reference.specs.Seen.{sample_of, values_of};
ghost use Rattle.logic_meaning.specs.Values.{value_names};
ghost use Rattle.engine_answers.specs.CaseTrees.{IsCaseTreeOf};
ghost use Rattle.engine_answers.specs.Samples.{AreInOrder, IsValueAmong};

use crate::case_tree::CaseTree;
use crate::engine::Engine;
use crate::error::SampleError;
use crate::reference_samples::plain_sample;
use crate::sampling::concrete;
use crate::truths::true_case;
use exact_numbers::Fraction;
use formula_store::{EvalStop, FormulaId, Store};
use linear_forms::Values;
use logic_meaning::VarId;
use qe_parallel::Gate;
use reference_engine::Measured;
use std::alloc::{AllocError, Global};
use std::thread::Threads;

impl<R: Threads + Sync, G: Gate + Sync> Engine<'_, R, G> {
    /// Values for the names of the leading block, in its order, with which what stands behind the block is true at the point, or for a
    /// block of `all` its negation: a number for each answer of the first case whose guard is seen to be true there, in lowest terms and
    /// over the integers whole. There are none where no guard is true.
    ///
    /// Where the cases do not give them the reference sample answers: so `Overflow` and `Nodes` come only where it stops with that word
    /// within the limit of nodes, else `Memory`. The formulas of the store stay.
    pub fn sample(
        &self,
        store: &mut Store,
        id: FormulaId,
        at: &Values,
    ) -> Result<Option<Vec<(VarId, Fraction)>>, Measured>
        requires id { IsId store.old id }
        requires normal { Every (IsNormal (context_of self.now.context)) (tree store.old id) }
        requires workers { 1 ≤ self.now.limits.workers }
        requires positive { pos 0 <ℤ at.now.denominator }
        requires point { Of (context_of self.now.context) (point_of at.now) }
        ensures truth { IfOk result (λ o. IsTrueSample (context_of self.now.context) (tree store.old id) (point_of at.now) (sample_of o)) }
        ensures stops { IfErr result (λ e. StopsWith e (reference_sample (context_of self.now.context) self.now.limits.nodes (point_of at.now) (tree store.old id))) }
        ensures kept { Keeps (IsId store.old) (tree store.old) (IsId store.new) (tree store.new) }
    {
        match self.cases(store, id, &[]) {
            Ok(cases) => self.sample_in(store, id, &cases, at),
            Err(Measured::Memory) => Err(Measured::Memory),
            Err(Measured::Overflow | Measured::Nodes) => {
                let (alloc, context, limit) = (self.alloc, self.context, self.limits.nodes);
                plain_sample(alloc, store, context, id, at, limit)
            }
        }
    }

    /// The sample as `sample` gives it, where the cases of the formula are at hand.
    pub(crate) fn sample_in(
        &self,
        store: &mut Store,
        id: FormulaId,
        cases: &CaseTree,
        at: &Values,
    ) -> Result<Option<Vec<(VarId, Fraction)>>, Measured>
        requires id { IsId store.old id }
        requires normal { Every (IsNormal (context_of self.now.context)) (tree store.old id) }
        requires cases { IsCaseTreeOf (context_of self.now.context) [] (tree store.old id) store.old cases.now }
        requires positive { pos 0 <ℤ at.now.denominator }
        requires point { Of (context_of self.now.context) (point_of at.now) }
        ensures truth { IfOk result (λ o. IsTrueSample (context_of self.now.context) (tree store.old id) (point_of at.now) (sample_of o)) }
        ensures stops { IfErr result (λ e. StopsWith e (reference_sample (context_of self.now.context) self.now.limits.nodes (point_of at.now) (tree store.old id))) }
        ensures kept { Keeps (IsId store.old) (tree store.old) (IsId store.new) (tree store.new) }
    {
        match self.found(store, id, cases, at) {
            Ok(sample) => Ok(sample),
            Err(Measured::Memory) => Err(Measured::Memory),
            Err(Measured::Overflow | Measured::Nodes) => {
                let (alloc, context, limit) = (self.alloc, self.context, self.limits.nodes);
                plain_sample(alloc, store, context, id, at, limit)
            }
        }
    }

    // The sample as the cases of the formula give it, whatever stops them.
    fn found(
        &self,
        store: &mut Store,
        id: FormulaId,
        cases: &CaseTree,
        at: &Values,
    ) -> Result<Option<Vec<(VarId, Fraction)>>, Measured>
        requires id { IsId store.old id }
        requires normal { Every (IsNormal (context_of self.now.context)) (tree store.old id) }
        requires cases { IsCaseTreeOf (context_of self.now.context) [] (tree store.old id) store.old cases.now }
        requires positive { pos 0 <ℤ at.now.denominator }
        requires point { Of (context_of self.now.context) (point_of at.now) }
        ensures truth { IfOk result (λ o. IsTrueSample (context_of self.now.context) (tree store.old id) (point_of at.now) (sample_of o)) }
        ensures kept { Keeps (IsId store.old) (tree store.old) (IsId store.new) (tree store.new) }
    {
        let case = match true_case(store, &cases.cases, at) {
            Ok(Some(case)) => case,
            Ok(None) => return Ok(None),
            Err(EvalStop::Overflow) => return Err(Measured::Overflow),
            Err(EvalStop::Memory) => return Err(Measured::Memory),
        };
        let values = match concrete(self.alloc, store, self.context, case, cases.matrix, at) {
            Ok(values) => values,
            Err(SampleError::Overflow) => return Err(Measured::Overflow),
            Err(SampleError::Memory) => return Err(Measured::Memory),
        };
        match in_order(self.alloc, &cases.block, &values) {
            Ok(ordered) => Ok(Some(ordered)),
            Err(_) => Err(Measured::Memory),
        }
    }
}

// The values in the order of these names, each of which has one.
fn in_order(
    alloc: Global,
    names: &[VarId],
    values: &[(VarId, Fraction)],
) -> Result<Vec<(VarId, Fraction)>, AllocError>
    requires { (y : ℕ) → Among (map number_of names.now) y → Among (value_names (values_of values.now)) y }
    ensures { IfOk result (λ v. AreInOrder (map number_of names.now) (values_of values.now) (values_of v.items)) }
{
    let mut ordered = Vec::new(alloc);
    for name in names {
        let Some(value) = value_of(values, *name) else {
            unreachable!()
        };
        ordered.push(value)?;
    }
    Ok(ordered)
}

// The first of the values that is one of the name, with it.
fn value_of(values: &[(VarId, Fraction)], name: VarId) -> Option<(VarId, Fraction)>
    ensures { MatchOption result (¬ (Among (value_names (values_of values.now)) name.number)) (IsValueAmong (values_of values.now) name.number) }
{
    for value in values {
        if value.0.number == name.number {
            return Some(*value);
        }
    }
    None
}
