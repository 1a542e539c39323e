//! Rows of atoms, and of the members of a list.

ghost use Rattle.std.specs.Prelude.{IfOk, map};
ghost use Rattle.std.specs.List.{AllByRecursion};
ghost use Rattle.normal_atoms.specs.Atoms.{context_of, atom_of, IsWellFormed};
ghost use Rattle.formula_store.specs.Nodes.{tree, IsId};
ghost use Rattle.atom_pruning.specs.Rows.{AreRows, AreRowsOf};
ghost use Rattle.branch_pruning.specs.Cuts.{said};

use atom_pruning::AtomRows;
use formula_store::{FormulaId, Store};
use formula_tree::Shape;
use normal_atoms::{Atom, Context};
use std::alloc::{AllocError, Global};

/// The rows of each atom. Its only error is want of memory.
pub(crate) fn rows_of_atoms(
    alloc: Global,
    context: Context,
    atoms: &[Atom],
) -> Result<Vec<AtomRows>, AllocError>
    requires { AllByRecursion IsWellFormed atoms.now }
    ensures { IfOk result (λ v. AreRows (context_of context) (map atom_of atoms.now) v.items) }
{
    let mut each = Vec::new(alloc);
    for atom in atoms {
        let rows = AtomRows::of(alloc, context, atom)?;
        each.push(rows)?;
    }
    Ok(each)
}

/// The rows of each member: of an atom its own, of another none. Its only error is want of memory.
pub(crate) fn rows_of_each(
    alloc: Global,
    context: Context,
    store: &Store,
    ids: &[FormulaId],
) -> Result<Vec<AtomRows>, AllocError>
    requires { AllByRecursion (IsId store.now) ids.now }
    ensures { IfOk result (λ v. AreRows (context_of context) (map said (map (tree store.now) ids.now)) v.items) }
{
    let mut each = Vec::new(alloc);
    for id in ids {
        let rows = rows_of(alloc, context, store, *id)?;
        each.push(rows)?;
    }
    Ok(each)
}

// The rows of a member.
fn rows_of(
    alloc: Global,
    context: Context,
    store: &Store,
    id: FormulaId,
) -> Result<AtomRows, AllocError>
    requires { IsId store.now id }
    ensures { IfOk result (AreRowsOf (context_of context) (said (tree store.now id))) }
{
    match store.shape(id) {
        Shape::One(atom) => AtomRows::of(alloc, context, atom),
        _ => Ok(AtomRows {
            holds: None,
            fails: None,
        }),
    }
}
