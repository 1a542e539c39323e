//! The branch of each answer: the matrix with the answers after it put in.

ghost use Rattle.std.specs.Prelude.{◌≡◌, IfOk, IfErr, All, map};
ghost use Rattle.logic_meaning.specs.Answer.{Answer};
ghost use Rattle.logic_meaning.specs.Some.{SomeOf, EachOf};
ghost use Rattle.logic_meaning.specs.BothTheories.{IsPlaceIn};
ghost use Rattle.normal_atoms.specs.Atoms.{context_of};
ghost use Rattle.formula_store.specs.Nodes.{tree, IsId};
ghost use Rattle.formula_tree.specs.Makers.{Keeps};
ghost use Rattle.test_points.specs.Points.{answer_of, IsTestPoint};
ghost use Rattle.case_theory.specs.Samples.{answer_steps};
ghost use Rattle.engine_answers.specs.Searches.{IsSharedTree};
ghost use Rattle.engine_answers.specs.Branches.{AreBranches};
ghost use Rattle.engine_answers.specs.Calculation.{SubstitutionPasses, after_first};

use crate::error::SampleError;
use branch_rounds::{SubstError, result_shared};
use formula_store::{FormulaId, Store};
use normal_atoms::Context;
use std::alloc::Global;
use test_points::TestPoint;

/// The matrix with the answers after each one put in, the last one first. `Overflow` comes only where a number that is formed for
/// an atom passes 2^127 - 1 where an answer after the first one is put in, else `Memory`. The formulas of the store stay.
pub(crate) fn branches_of(
    alloc: Global,
    store: &mut Store,
    context: Context,
    answers: &[TestPoint],
    matrix: FormulaId,
) -> Result<Vec<FormulaId>, SampleError>
    requires matrix { IsSharedTree (context_of context) store.old matrix }
    requires points { All IsTestPoint answers.now }
    requires places { EachOf (λ (a : Answer). IsPlaceIn (context_of context) a.place) (map answer_of answers.now) }
    ensures branches { IfOk result (λ ids. AreBranches (context_of context) store.new answers.now (tree store.old matrix) ids.items) }
    ensures overflow { IfErr result (λ e. e ≡ SampleError.Overflow → SomeOf (SubstitutionPasses (context_of context)) (after_first (answer_steps (context_of context) (map answer_of answers.now) (tree store.old matrix)))) }
    ensures kept { Keeps (IsId store.old) (tree store.old) (IsId store.new) (tree store.new) }
{
    let mut ids = Vec::new(alloc);
    if answers.is_empty() {
        return Ok(ids);
    }
    ids.push(matrix).map_err(|_| SampleError::Memory)?;
    let mut branch = matrix;
    let mut place = answers.len() - 1;
    while place > 0 {
        match result_shared(alloc, store, context, branch, &answers[place]) {
            Ok(put) => branch = put,
            Err(SubstError::Overflow) => return Err(SampleError::Overflow),
            Err(SubstError::Memory) => return Err(SampleError::Memory),
        }
        ids.push(branch).map_err(|_| SampleError::Memory)?;
        place -= 1;
    }
    ids.reverse();
    Ok(ids)
}
