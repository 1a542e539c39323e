// Steps taken again.
ghost use Rattle.std.specs.Prelude.{◌≡◌, true, All, reverse, IfOk};
ghost use Rattle.formula_laws.specs.Equivalence.{InContext};
ghost use Rattle.logic_meaning.specs.BothTheories.{IsPlaceIn};
ghost use Rattle.logic_meaning.specs.Steps.{result_at};
ghost use Rattle.normal_atoms.specs.Atoms.{context_of};
ghost use Rattle.logic_meaning.specs.NormalForm.{normal_atom};
ghost use Rattle.sample_reference.specs.Traced.{after_step};
ghost use Rattle.nnf_trees.specs.Nnfs.{nnf_of, IsProper};
ghost use Rattle.nnf_trees.specs.Placed.{point_within};
ghost use Rattle.test_points.specs.Points.{place_of, IsTestPoint};
ghost use Rattle.plain_samples.specs.Steps.{steps_of, IsStep};
ghost use Rattle.plain_samples.specs.Replay.{taken, taken_from, IsTakable, AreTakable};

use crate::copying::copied;
use crate::step::Step;
use nnf_trees::{Nnf, distinct_atoms, formula_at, stands_in_some};
use normal_atoms::Context;
use std::alloc::{AllocError, Global};
use test_points::TestPoint;

// What a step of elimination leaves of the formula at the point, where no number passes the limit.
fn put(alloc: Global, context: Context, f: &Nnf, point: &TestPoint) -> Result<Nnf, AllocError>
    requires proper { IsProper f.now }
    requires in_context { InContext (context_of context) (nnf_of f.now) }
    requires test_point { IsTestPoint point.now }
    requires place { IsPlaceIn (context_of context) (place_of point.now) }
    requires within { point_within (context_of context) point.now.name.number (nnf_of f.now) (place_of point.now) ≡ true }
    ensures formula { IfOk result (λ g. nnf_of g ≡ result_at (context_of context) (normal_atom (context_of context)) point.now.name.number (place_of point.now) (nnf_of f.now)) }
    ensures proper { IfOk result IsProper }
{
    formula_at(alloc, context, f, point).map_err(|_| AllocError)
}

// What the step leaves of the formula; where the point's name stands in no atom it stays.
fn after(alloc: Global, context: Context, f: &Nnf, point: &TestPoint) -> Result<Nnf, AllocError>
    requires proper { IsProper f.now }
    requires takable { IsTakable (context_of context) (nnf_of f.now) point.now }
    ensures formula { IfOk result (λ g. nnf_of g ≡ after_step (context_of context) (taken (nnf_of f.now) point.now)) }
    ensures proper { IfOk result IsProper }
{
    let atoms = distinct_atoms(alloc, f)?;
    if stands_in_some(&atoms, point.name) {
        put(alloc, context, f, point)
    } else {
        copied(alloc, f)
    }
}

// The steps that the points take from the formula, the first one first.
fn steps_along(
    alloc: Global,
    context: Context,
    root: Nnf,
    points: Vec<TestPoint>,
) -> Result<Vec<Step>, AllocError>
    requires proper { IsProper root }
    requires takable { AreTakable (context_of context) (nnf_of root) points.items }
    ensures steps { IfOk result (λ v. steps_of v.items ≡ taken_from (context_of context) (nnf_of root) points.items) }
    ensures sound { IfOk result (λ v. All (IsStep (context_of context)) v.items) }
{
    let mut steps = Vec::new(alloc);
    let mut formula = root;
    for point in points {
        let left = after(alloc, context, &formula, &point)?;
        let step = Step {
            point,
            branch: formula,
        };
        steps.push(step)?;
        formula = left;
    }
    Ok(steps)
}

/// The steps that the points take from the formula, the last one first, as the points stand.
pub(crate) fn steps_back(
    alloc: Global,
    context: Context,
    root: Nnf,
    points: Vec<TestPoint>,
) -> Result<Vec<Step>, AllocError>
    requires proper { IsProper root }
    requires takable { AreTakable (context_of context) (nnf_of root) (reverse points.items) }
    ensures steps { IfOk result (λ v. steps_of v.items ≡ reverse (taken_from (context_of context) (nnf_of root) (reverse points.items))) }
    ensures sound { IfOk result (λ v. All (IsStep (context_of context)) v.items) }
{
    let mut points = points;
    points.reverse();
    let mut steps = steps_along(alloc, context, root, points)?;
    steps.reverse();
    Ok(steps)
}
