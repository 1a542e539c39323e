// The test points of a branch, paid for before a branch is formed at them.
ghost use Rattle.std.specs.Prelude.{◌≡◌, All, map, IfOk, IfErr};
ghost use Rattle.logic_meaning.specs.Context.{Fields, Integers};
ghost use Rattle.formula_laws.specs.Equivalence.{InContext};
ghost use Rattle.logic_meaning.specs.Atoms.{atoms_of};
ghost use Rattle.logic_meaning.specs.Reference.{full_step};
ghost use Rattle.normal_atoms.specs.Atoms.{atom_of, context_of, IsWellFormed};
ghost use Rattle.nnf_trees.specs.Nnfs.{nnf_of};
ghost use Rattle.reference_engine.specs.Told.{StopsWith, seen, bare};
ghost use Rattle.reference_engine.specs.Paid.{ArePaid, charge_of, measured_of};

use crate::measured::{Measured, Setting, pay};
use logic_meaning::{Side, VarId};
use nnf_trees::{Nnf, nodes};
use normal_atoms::{Atom, Context};
use test_points::{PointError, TestPoint, field_points, integer_points, period, points_count};

/// What stops the engine where a test point, or a formula at it, could not be made.
pub fn stopped(error: PointError) -> Measured
    ensures { result ≡ measured_of error }
{
    match error {
        PointError::Overflow => Measured::Overflow,
        PointError::Nodes => Measured::Nodes,
        PointError::Memory => Measured::Memory,
    }
}

// What so many test points of a branch of so many nodes cost; without points it is nothing.
fn charge(count: Option<u64>, nodes: Option<u64>) -> Option<u64>
    ensures { result ≡ charge_of count nodes }
{
    let count = count?;
    if count == 0 {
        return Some(0);
    }
    count.checked_mul(nodes?.checked_add(2)?)
}

// The test points of `x` over the ordered fields, paid for.
fn paid_in_fields(
    setting: Setting,
    cost: &mut u64,
    x: VarId,
    atoms: &[Atom],
    branch: &Nnf,
) -> Result<Vec<TestPoint>, Measured>
    requires atoms { map atom_of atoms.now ≡ atoms_of (nnf_of branch.now) }
    ensures points { IfOk result (λ v. ArePaid Fields setting.limit x (nnf_of branch.now) cost.old cost.new v.items) }
    ensures stops { IfErr result (λ e. StopsWith e (seen (full_step Fields setting.limit x.number (bare (nnf_of branch.now)) cost.old))) }
{
    let points = field_points(setting.alloc, atoms, x, Side::Lower).map_err(|_| Measured::Memory)?;
    let count = Some(points.len() as u64);
    pay(setting.limit, cost, charge(count, nodes(branch)))?;
    Ok(points)
}

// The test points of `x` over the integers, paid for before they are formed.
fn paid_in_integers(
    setting: Setting,
    cost: &mut u64,
    x: VarId,
    atoms: &[Atom],
    branch: &Nnf,
) -> Result<Vec<TestPoint>, Measured>
    requires atoms { map atom_of atoms.now ≡ atoms_of (nnf_of branch.now) }
    requires well_formed { All IsWellFormed atoms.now }
    ensures points { IfOk result (λ v. ArePaid Integers setting.limit x (nnf_of branch.now) cost.old cost.new v.items) }
    ensures stops { IfErr result (λ e. StopsWith e (seen (full_step Integers setting.limit x.number (bare (nnf_of branch.now)) cost.old))) }
{
    let period = match period(atoms, x) {
        Ok(period) => period,
        Err(error) => return Err(stopped(error)),
    };
    let count = points_count(atoms, x, &period, Side::Lower);
    pay(setting.limit, cost, charge(count, nodes(branch)))?;
    match integer_points(setting.alloc, atoms, x, &period, Side::Lower, setting.limit) {
        Ok(points) => Ok(points),
        Err(error) => Err(stopped(error)),
    }
}

/// The test points of `x` in a branch, paid for: `Overflow` and `Nodes` come exactly where they stop the whole step.
pub fn paid_points(
    setting: Setting,
    cost: &mut u64,
    x: VarId,
    atoms: &[Atom],
    branch: &Nnf,
) -> Result<Vec<TestPoint>, Measured>
    requires atoms { map atom_of atoms.now ≡ atoms_of (nnf_of branch.now) }
    requires well_formed { All IsWellFormed atoms.now }
    ensures points { IfOk result (λ v. ArePaid (context_of setting.context) setting.limit x (nnf_of branch.now) cost.old cost.new v.items) }
    ensures stops { IfErr result (λ e. StopsWith e (seen (full_step (context_of setting.context) setting.limit x.number (bare (nnf_of branch.now)) cost.old))) }
{
    match setting.context {
        Context::Fields => paid_in_fields(setting, cost, x, atoms, branch),
        Context::Integers => paid_in_integers(setting, cost, x, atoms, branch),
    }
}
