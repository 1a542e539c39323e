// The values of the steps of a sample, one after the other.
ghost use Rattle.std.specs.Prelude.{◌≡◌, [], All, IfOk};
ghost use Rattle.normal_atoms.specs.Atoms.{context_of};
ghost use Rattle.sample_reference.specs.Seen.{values_of, sample_of};
ghost use Rattle.logic_meaning.specs.Calculated.{step_value, values_from};
ghost use Rattle.plain_samples.specs.Told.{Tells};
ghost use Rattle.plain_samples.specs.Steps.{step_of, steps_of, IsStep};

use crate::critical::PlainBranch;
use crate::denominators::point_of_values;
use crate::places::place_value;
use crate::step::Step;
use exact_numbers::Fraction;
use logic_meaning::VarId;
use normal_atoms::Context;
use std::alloc::{AllocError, Global};
use test_points::PointError;

// The value of a step, from those found before it. `Overflow` comes exactly where a number that is formed passes 2^127 - 1, else
// `Memory`.
fn step_value(
    alloc: Global,
    context: Context,
    step: &Step,
    found: &[(VarId, Fraction)],
) -> Result<Fraction, PointError>
    requires { IsStep (context_of context) step.now }
    ensures { Tells result (step_value (context_of context) (step_of step.now) (values_of found.now)) }
{
    let at = point_of_values(alloc, found)?;
    let branch = PlainBranch {
        context,
        formula: &step.branch,
    };
    place_value(alloc, &step.point, &branch, &at)
}

/// The values of the names of the steps, the first step first: each is calculated from its branch and the values before it.
/// `None` comes exactly where a number that is formed passes 2^127 - 1.
///
/// The recursion is as deep as a branch is high.
pub fn step_values(
    alloc: Global,
    context: Context,
    steps: &[Step],
) -> Result<Option<Vec<(VarId, Fraction)>>, AllocError>
    requires { All (IsStep (context_of context)) steps.now }
    ensures made { IfOk result (λ o. values_from (context_of context) (steps_of steps.now) [] ≡ sample_of o) }
{
    let mut found = Vec::new(alloc);
    for step in steps {
        match step_value(alloc, context, step, &found) {
            Ok(value) => found.push((step.point.name, value))?,
            Err(PointError::Overflow) => return Ok(None),
            Err(PointError::Nodes | PointError::Memory) => return Err(AllocError),
        }
    }
    Ok(Some(found))
}
