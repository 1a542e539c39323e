//! The values of answers, one after the other.

ghost use Rattle.std.specs.Prelude.{◌≡◌, ◌++◌, Some, None, IfOk, IfErr, All, length};
ghost use Rattle.std.specs.List.{AllByRecursion};
ghost use Rattle.normal_atoms.specs.Atoms.{context_of};
ghost use Rattle.linear_forms.specs.Values.{point_of};
ghost use Rattle.test_points.specs.Points.{IsTestPoint};
ghost use Rattle.logic_meaning.specs.Calculated.{values_from};
ghost use Rattle.sample_reference.specs.Seen.{values_of};
ghost use Rattle.engine_answers.specs.Searches.{IsSharedTree};
ghost use Rattle.engine_answers.specs.Branches.{shared_steps};

use crate::error::SampleError;
use crate::known::{common_point, point_with_last};
use crate::search::SharedBranch;
use exact_numbers::Fraction;
use formula_store::{FormulaId, Store};
use logic_meaning::VarId;
use normal_atoms::Context;
use plain_samples::place_value;
use std::alloc::Global;
use test_points::{PointError, TestPoint};

/// The values of the answers, in order, each from its branch and the values before it, of which some are given. `Overflow` comes
/// only where a number that is formed passes 2^127 - 1, else `Memory`.
pub(crate) fn answer_values(
    alloc: Global,
    store: &Store,
    context: Context,
    answers: &[TestPoint],
    branches: &[FormulaId],
    given: Vec<(VarId, Fraction)>,
) -> Result<Vec<(VarId, Fraction)>, SampleError>
    requires points { All IsTestPoint answers.now }
    requires branches { AllByRecursion (IsSharedTree (context_of context) store.now) branches.now }
    requires count { length branches.now ≡ length answers.now }
    ensures values { IfOk result (λ v. values_from (context_of context) (shared_steps store.now answers.now branches.now) (values_of given.items) ≡ Some (values_of given.items ++ values_of v.items)) }
    ensures overflow { IfErr result (λ e. e ≡ SampleError.Overflow → values_from (context_of context) (shared_steps store.now answers.now branches.now) (values_of given.items) ≡ None) }
{
    let count = given.len();
    let mut found = given;
    let mut point = common_point(alloc, &found)?;
    for place in 0..answers.len() {
        let Some(numbers) = point else {
            return Err(SampleError::Overflow);
        };
        let answer = &answers[place];
        let branch = SharedBranch {
            context,
            store,
            root: branches[place],
        };
        let value = match place_value(alloc, answer, &branch, &numbers) {
            Ok(value) => value,
            Err(PointError::Overflow) => return Err(SampleError::Overflow),
            Err(PointError::Nodes | PointError::Memory) => return Err(SampleError::Memory),
        };
        let last = (answer.name, value);
        found.push(last).map_err(|_| SampleError::Memory)?;
        point = point_with_last(alloc, numbers, last, &found)?;
    }
    Ok(found.split_off(count)?)
}
