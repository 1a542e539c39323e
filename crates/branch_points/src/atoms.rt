//! The atoms of a shared formula.

ghost use Rattle.std.specs.Prelude.{◌≡◌, ◌++◌, IfOk, OnOk};
ghost use Rattle.std.specs.List.{AllByRecursion};
ghost use Rattle.formula_store.specs.Nodes.{tree, IsId};
ghost use Rattle.branch_points.specs.Chosen.{AreAtomsOf, shape_atoms, listed_atoms};

use formula_store::{FormulaId, Store, StoreError};
use formula_tree::Shape;
use normal_atoms::Atom;
use std::alloc::{AllocError, Global};

/// The distinct subformulas of the formula: among them each of its atoms stands once.
pub(crate) fn distinct_subformulas(
    store: &Store,
    id: FormulaId,
) -> Result<Vec<FormulaId>, AllocError>
    requires { IsId store.now id }
    ensures ids { IfOk result (λ v. AllByRecursion (IsId store.now) v.items) }
    ensures atoms { IfOk result (λ v. AreAtomsOf (tree store.now id) (listed_atoms store.now v.items)) }
{
    match store.subformulas(id) {
        Ok(ids) => Ok(ids),
        Err(StoreError::Memory) => Err(AllocError),
    }
}

/// Copies of the atoms among the formulas, in their order.
pub(crate) fn atoms_among(
    alloc: Global,
    store: &Store,
    ids: &[FormulaId],
) -> Result<Vec<Atom>, AllocError>
    requires { AllByRecursion (IsId store.now) ids.now }
    ensures { IfOk result (λ v. v.items ≡ listed_atoms store.now ids.now) }
{
    let mut atoms = Vec::new(alloc);
    for id in ids {
        push_atom(alloc, &mut atoms, store.shape(*id))?;
    }
    Ok(atoms)
}

// Puts the atom of the shape last, if it is one.
fn push_atom(
    alloc: Global,
    atoms: &mut Vec<Atom>,
    shape: &Shape<FormulaId>,
) -> Result<(), AllocError>
    ensures { OnOk result (atoms.new.items ≡ atoms.old.items ++ shape_atoms shape.now) }
{
    if let Shape::One(atom) = shape {
        let copy = atom.copy(alloc).map_err(|_| AllocError)?;
        atoms.push(copy)?;
    }
    Ok(())
}
