//! Atoms put into an inner list, in which no two merge.

ghost use Rattle.std.specs.Prelude.{◌≡◌, Some, IfOk, IfErr};
ghost use Rattle.std.specs.List.{AllByRecursion};
ghost use Rattle.logic_meaning.specs.Formula.{One};
ghost use Rattle.normal_atoms.specs.Atoms.{context_of, atom_of, IsWellFormed};
ghost use Rattle.formula_tree.specs.Makers.{IsMade, Keeps};
ghost use Rattle.formula_store.specs.Nodes.{tree, IsId};
ghost use Rattle.shape_theory.specs.AtomKit.{atom_kit};
ghost use Rattle.shape_theory.specs.Lines.{insert_into, insert_all};
ghost use Rattle.normal_forms.specs.Atoms.{atom_at, atoms, IsAtomId, IsLineIf};

use crate::merging::{Met, partner};
use formula_store::{FormulaId, Store};
use formula_tree::{Ids, Maker, Shape};
use logic_meaning::Junction;
use normal_atoms::{Atom, Context};
use std::alloc::{AllocError, Global};

// The id of an atom.
fn put(store: &mut Store, atom: Atom) -> Result<FormulaId, AllocError>
    requires { IsWellFormed atom }
    ensures made { IfOk result (λ id. IsMade (IsId store.new) (tree store.new) id (One (atom_of atom))) }
    ensures kept { Keeps (IsId store.old) (tree store.old) (IsId store.new) (tree store.new) }
{
    store.make(Shape::One(atom)).map_err(|_| AllocError)
}

/// An inner list with an atom more, or nothing where the list is settled. An atom that merges with one of the list is taken
/// out with it, and the atom that they make goes in.
pub(crate) fn insert(
    alloc: Global,
    store: &mut Store,
    context: Context,
    inner: Junction,
    line: Ids<FormulaId>,
    atom: FormulaId,
) -> Result<Option<Ids<FormulaId>>, AllocError>
    requires line { AllByRecursion (IsAtomId (context_of context) store.old) line }
    requires atom { IsAtomId (context_of context) store.old atom }
    ensures inserted { IfOk result (IsLineIf (context_of context) store.new (insert_into (atom_kit (context_of context)) inner (atom_at store.old atom) (Some (atoms store.old line)))) }
    ensures kept { Keeps (IsId store.old) (tree store.old) (IsId store.new) (tree store.new) }
{
    let mut line = line.into_items();
    let mut atom = atom;
    loop {
        match partner(alloc, store, context, inner, atom, &line)? {
            Met::Alone => {
                line.push(atom)?;
                return Ok(Some(Ids::of(line)));
            }
            Met::Void => return Ok(None),
            Met::Meets(merged, place) => {
                line.remove(place);
                atom = put(store, merged)?;
            }
        }
    }
}

/// An inner list with more atoms, or nothing where the list is settled.
pub(crate) fn insert_all(
    alloc: Global,
    store: &mut Store,
    context: Context,
    inner: Junction,
    line: Ids<FormulaId>,
    others: &[FormulaId],
) -> Result<Option<Ids<FormulaId>>, AllocError>
    requires line { AllByRecursion (IsAtomId (context_of context) store.old) line }
    requires others { AllByRecursion (IsAtomId (context_of context) store.old) others.now }
    ensures inserted { IfOk result (IsLineIf (context_of context) store.new (insert_all (atom_kit (context_of context)) inner (Some (atoms store.old line)) (atoms store.old others.now))) }
    ensures kept { Keeps (IsId store.old) (tree store.old) (IsId store.new) (tree store.new) }
{
    let mut longer = line;
    for atom in others {
        match insert(alloc, store, context, inner, longer, *atom)? {
            Some(line) => longer = line,
            None => return Ok(None),
        }
    }
    Ok(Some(longer))
}

/// A copy of a list.
pub(crate) fn copied(alloc: Global, line: &[FormulaId]) -> Result<Ids<FormulaId>, AllocError>
    ensures copy { IfOk result (λ copy. copy ≡ line.now) }
{
    let copy = Vec::from_slice(alloc, line)?;
    Ok(Ids::of(copy))
}

/// The atoms of two inner lists in one, or nothing where it is settled.
pub(crate) fn product(
    alloc: Global,
    store: &mut Store,
    context: Context,
    inner: Junction,
    line: &[FormulaId],
    others: &[FormulaId],
) -> Result<Option<Ids<FormulaId>>, AllocError>
    requires line { AllByRecursion (IsAtomId (context_of context) store.old) line.now }
    requires others { AllByRecursion (IsAtomId (context_of context) store.old) others.now }
    ensures inserted { IfOk result (IsLineIf (context_of context) store.new (insert_all (atom_kit (context_of context)) inner (Some (atoms store.old line.now)) (atoms store.old others.now))) }
    ensures kept { Keeps (IsId store.old) (tree store.old) (IsId store.new) (tree store.new) }
{
    let copy = copied(alloc, line)?;
    insert_all(alloc, store, context, inner, copy, others)
}
