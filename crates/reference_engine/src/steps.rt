ghost use Rattle.std.specs.Prelude.{◌≡◌, All, map, IfOk};
ghost use Rattle.logic_meaning.specs.Every.{EveryOf};
ghost use Rattle.formula_laws.specs.TheoryAtoms.{AtomIn};
ghost use Rattle.formula_laws.specs.Equivalence.{InContext};
ghost use Rattle.logic_meaning.specs.Atoms.{atoms_of};
ghost use Rattle.normal_atoms.specs.Atoms.{atom_of, context_of, IsWellFormed};
ghost use Rattle.logic_meaning.specs.Reference.{full_step, one_step, steps};
ghost use Rattle.nnf_trees.specs.Nnfs.{nnf_of, IsProper, AreProper};
ghost use Rattle.reference_engine.specs.Told.{Told, seen, bare, all_bare, formulas_of};

use crate::measured::{Measured, Setting};
use crate::parts::alone;
use crate::points::{paid_points, stopped};
use logic_meaning::VarId;
use nnf_trees::{Nnf, distinct_atoms, formulas_at, stands_in_some};
use normal_atoms::Atom;

/// One step for `x` of each branch, in their order.
pub(crate) fn steps(
    setting: Setting,
    cost: &mut u64,
    x: VarId,
    branches: Vec<Nnf>,
) -> Result<Vec<Nnf>, Measured>
    requires proper { AreProper branches.items }
    requires in_context { EveryOf (AtomIn (context_of setting.context)) (formulas_of branches.items) }
    ensures told { Told (λ v. formulas_of v.items) result cost.new (seen (steps (context_of setting.context) setting.limit x.number (all_bare (formulas_of branches.items)) cost.old)) }
    ensures proper { IfOk result (λ v. AreProper v.items) }
{
    let mut left = Vec::new(setting.alloc);
    for branch in branches {
        let mut made = one_step(setting, cost, x, branch)?;
        left.append(&mut made)?;
    }
    Ok(left)
}

// One step for `x` of a branch; it stays where `x` stands in no atom.
fn one_step(setting: Setting, cost: &mut u64, x: VarId, branch: Nnf) -> Result<Vec<Nnf>, Measured>
    requires proper { IsProper branch }
    requires in_context { InContext (context_of setting.context) (nnf_of branch) }
    ensures told { Told (λ v. formulas_of v.items) result cost.new (seen (one_step (context_of setting.context) setting.limit x.number (bare (nnf_of branch)) cost.old)) }
    ensures proper { IfOk result (λ v. AreProper v.items) }
{
    let atoms = distinct_atoms(setting.alloc, &branch)?;
    if stands_in_some(&atoms, x) {
        full_step(setting, cost, x, &atoms, &branch)
    } else {
        Ok(alone(setting.alloc, branch)?)
    }
}

// One step for `x` of a branch in which it stands: what is left at each test point, once these are paid for.
fn full_step(
    setting: Setting,
    cost: &mut u64,
    x: VarId,
    atoms: &[Atom],
    branch: &Nnf,
) -> Result<Vec<Nnf>, Measured>
    requires proper { IsProper branch.now }
    requires in_context { InContext (context_of setting.context) (nnf_of branch.now) }
    requires atoms { map atom_of atoms.now ≡ atoms_of (nnf_of branch.now) }
    requires well_formed { All IsWellFormed atoms.now }
    ensures told { Told (λ v. formulas_of v.items) result cost.new (seen (full_step (context_of setting.context) setting.limit x.number (bare (nnf_of branch.now)) cost.old)) }
    ensures proper { IfOk result (λ v. AreProper v.items) }
{
    let points = paid_points(setting, cost, x, atoms, branch)?;
    match formulas_at(setting.alloc, setting.context, x, branch, &points) {
        Ok(left) => Ok(left),
        Err(error) => Err(stopped(error)),
    }
}
