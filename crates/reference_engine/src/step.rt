// One step of elimination for each branch, with the points that led there.
ghost use Rattle.std.specs.Prelude.{◌≡◌, List, true, [], ◌∷◌, All, map, IfOk, IfErr, MatchResult};
ghost use Rattle.formula_laws.specs.Equivalence.{InContext};
ghost use Rattle.logic_meaning.specs.Atoms.{atoms_of};
ghost use Rattle.logic_meaning.specs.BothTheories.{IsPlaceIn};
ghost use Rattle.logic_meaning.specs.Limits.{each};
ghost use Rattle.logic_meaning.specs.Reference.{Branch, kept_at_zero, full_step, one_step, steps};
ghost use Rattle.normal_atoms.specs.Atoms.{atom_of, context_of, IsWellFormed};
ghost use Rattle.nnf_trees.specs.Nnfs.{nnf_of};
ghost use Rattle.nnf_trees.specs.Placed.{Fails, point_within};
ghost use Rattle.test_points.specs.Points.{place_of, IsPointOf};
ghost use Rattle.reference_engine.specs.Stand.{StandsFor, StandFor, IsSound, AreSound, AreInside, Tells, results_at};

use crate::branch::{Leaf, with_point, zero_point};
use crate::measured::{Measured, Setting};
use crate::points::{paid_points, stopped};
use logic_meaning::VarId;
use nnf_trees::{distinct_atoms, formula_at, is_false, stands_in_some};
use normal_atoms::Atom;
use std::alloc::{AllocError, Global};
use test_points::{PointError, TestPoint};

/// One step for `x` of each leaf, in their order.
pub fn case_steps(
    setting: Setting,
    cost: &mut u64,
    x: VarId,
    leaves: Vec<Leaf>,
) -> Result<Vec<Leaf>, Measured>
    requires sound { AreSound leaves.items }
    requires inside { AreInside (context_of setting.context) leaves.items }
    ensures told { (bs : List Branch) → StandFor leaves.items bs → Tells result cost.new (steps (context_of setting.context) setting.limit x.number bs cost.old) }
    ensures sound { IfOk result (λ v. AreSound v.items) }
{
    let mut left = Vec::new(setting.alloc);
    for leaf in leaves {
        let mut made = one_step(setting, cost, x, leaf)?;
        left.append(&mut made)?;
    }
    Ok(left)
}

// One step for `x` of a leaf; where `x` stands in no atom it stays, with `x` at 0.
fn one_step(setting: Setting, cost: &mut u64, x: VarId, leaf: Leaf) -> Result<Vec<Leaf>, Measured>
    requires sound { IsSound leaf }
    requires inside { InContext (context_of setting.context) (nnf_of leaf.formula) }
    ensures told { (b : Branch) → StandsFor leaf b → Tells result cost.new (one_step (context_of setting.context) setting.limit x.number b cost.old) }
    ensures sound { IfOk result (λ v. AreSound v.items) }
{
    let atoms = distinct_atoms(setting.alloc, &leaf.formula)?;
    if stands_in_some(&atoms, x) {
        full_step(setting, cost, x, &atoms, &leaf)
    } else {
        Ok(at_zero(setting.alloc, x, leaf)?)
    }
}

// The leaf with a name at 0 that stands in no atom.
fn at_zero(alloc: Global, x: VarId, leaf: Leaf) -> Result<Vec<Leaf>, AllocError>
    requires sound { IsSound leaf }
    ensures stand { IfOk result (λ v. (b : Branch) → StandsFor leaf b → StandFor v.items (kept_at_zero x.number b ∷ [])) }
    ensures sound { IfOk result (λ v. AreSound v.items) }
{
    let Leaf { formula, points } = leaf;
    let zero = zero_point(alloc, x);
    let points = with_point(alloc, &zero, &points)?;
    Ok(vec![in alloc; Leaf { formula, points }]?)
}

// One step for `x` of a leaf in which it stands, once its test points are paid for.
fn full_step(
    setting: Setting,
    cost: &mut u64,
    x: VarId,
    atoms: &[Atom],
    leaf: &Leaf,
) -> Result<Vec<Leaf>, Measured>
    requires sound { IsSound leaf.now }
    requires inside { InContext (context_of setting.context) (nnf_of leaf.now.formula) }
    requires atoms { map atom_of atoms.now ≡ atoms_of (nnf_of leaf.now.formula) }
    requires well_formed { All IsWellFormed atoms.now }
    ensures told { (b : Branch) → StandsFor leaf.now b → Tells result cost.new (full_step (context_of setting.context) setting.limit x.number b cost.old) }
    ensures sound { IfOk result (λ v. AreSound v.items) }
{
    let points = paid_points(setting, cost, x, atoms, &leaf.formula)?;
    match leaves_at(setting, x, leaf, &points) {
        Ok(left) => Ok(left),
        Err(error) => Err(stopped(error)),
    }
}

// What is left of a leaf at each of the points, in their order, without what is false.
fn leaves_at(
    setting: Setting,
    x: VarId,
    leaf: &Leaf,
    points: &[TestPoint],
) -> Result<Vec<Leaf>, PointError>
    requires sound { IsSound leaf.now }
    requires inside { InContext (context_of setting.context) (nnf_of leaf.now.formula) }
    requires points { All (IsPointOf x) points.now }
    requires places { All (λ t. IsPlaceIn (context_of setting.context) (place_of t)) points.now }
    ensures left { MatchResult result (λ v. (b : Branch) → StandsFor leaf.now b → StandFor v.items (results_at (context_of setting.context) x.number b (map place_of points.now))) (λ e. Fails e (each (point_within (context_of setting.context) x.number (nnf_of leaf.now.formula)) (map place_of points.now))) }
    ensures within { IfOk result (λ v. each (point_within (context_of setting.context) x.number (nnf_of leaf.now.formula)) (map place_of points.now) ≡ true) }
    ensures sound { IfOk result (λ v. AreSound v.items) }
{
    let mut left = Vec::new(setting.alloc);
    for point in points {
        let formula = formula_at(setting.alloc, setting.context, &leaf.formula, point)?;
        if !is_false(&formula) {
            let points = with_point(setting.alloc, point, &leaf.points).map_err(
                |_| PointError::Memory,
            )?;
            let next = Leaf { formula, points };
            left.push(next).map_err(|_| PointError::Memory)?;
        }
    }
    Ok(left)
}
