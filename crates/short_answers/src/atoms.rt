//! The atoms of a formula, and the names in atoms.

ghost use Rattle.std.specs.Prelude.{IfOk, OnOk, map};
ghost use Rattle.std.specs.List.{AllByRecursion};
ghost use Rattle.logic_meaning.specs.Formula.{One};
ghost use Rattle.logic_meaning.specs.Some.{EachOf};
ghost use Rattle.formula_laws.specs.StandsOnce.{StandsOnce};
ghost use Rattle.normal_atoms.specs.Atoms.{atom_of, IsWellFormed};
ghost use Rattle.formula_tree.specs.Makers.{AreMade, IsMade, Keeps};
ghost use Rattle.formula_store.specs.Nodes.{tree, IsId};
ghost use Rattle.branch_rounds.specs.Branches.{numbers};

use formula_store::{FormulaId, Store};
use formula_tree::{Maker, Shape};
use linear_forms::Linear;
use logic_meaning::VarId;
use normal_atoms::Atom;
use std::alloc::{AllocError, Global};

/// The atoms that stand in the formula, each once. Its only error is want of memory.
pub(crate) fn atoms_in(alloc: Global, store: &Store, id: FormulaId) -> Result<Vec<Atom>, AllocError>
    requires { IsId store.now id }
    ensures { IfOk result (λ v. EachOf IsWellFormed v.items) }
{
    let mut atoms = Vec::new(alloc);
    add_atoms(alloc, store, id, &mut atoms)?;
    Ok(atoms)
}

/// The atoms that stand in the formulas. Its only error is want of memory.
pub(crate) fn atoms_in_all(
    alloc: Global,
    store: &Store,
    formulas: &[FormulaId],
) -> Result<Vec<Atom>, AllocError>
    requires { EachOf (IsId store.now) formulas.now }
    ensures { IfOk result (λ v. EachOf IsWellFormed v.items) }
{
    let mut atoms = Vec::new(alloc);
    for id in formulas {
        add_atoms(alloc, store, *id, &mut atoms)?;
    }
    Ok(atoms)
}

// Adds the atoms that stand in the formula, each once.
fn add_atoms(
    alloc: Global,
    store: &Store,
    id: FormulaId,
    atoms: &mut Vec<Atom>,
) -> Result<(), AllocError>
    requires id { IsId store.now id }
    requires well_formed { EachOf IsWellFormed atoms.old.items }
    ensures { OnOk result (EachOf IsWellFormed atoms.new.items) }
{
    let Ok(ids) = store.subformulas(id) else {
        return Err(AllocError);
    };
    for id in &ids {
        if let Shape::One(atom) = store.shape(*id) {
            let atom = atom.copy(alloc).map_err(|_| AllocError)?;
            atoms.push(atom)?;
        }
    }
    Ok(())
}

/// The names that stand in the atoms of the two lists, each once. Its only error is want of memory.
pub(crate) fn names_in(
    alloc: Global,
    atoms: &[Atom],
    more: &[Atom],
) -> Result<Vec<VarId>, AllocError>
    ensures { IfOk result (λ v. StandsOnce (numbers v.items)) }
{
    let mut names = Vec::new(alloc);
    for atom in atoms {
        add_names(&mut names, atom)?;
    }
    for atom in more {
        add_names(&mut names, atom)?;
    }
    Ok(names)
}

// Adds the names of the atom that are not there.
fn add_names(names: &mut Vec<VarId>, atom: &Atom) -> Result<(), AllocError>
    requires { StandsOnce (numbers names.old.items) }
    ensures { OnOk result (StandsOnce (numbers names.new.items)) }
{
    let form = form_of(atom);
    for place in 0..form.places() {
        if let Some((name, _)) = form.term(place) {
            add_name(names, name)?;
        }
    }
    Ok(())
}

// The form of the atom.
fn form_of(atom: &Atom) -> &Linear {
    match atom {
        Atom::Compare(_, form) | Atom::Congruent { form, .. } => form,
    }
}

// Adds the name unless it is there.
fn add_name(names: &mut Vec<VarId>, name: VarId) -> Result<(), AllocError>
    requires { StandsOnce (numbers names.old.items) }
    ensures { OnOk result (StandsOnce (numbers names.new.items)) }
{
    if !names.contains(&name) {
        names.push(name)?;
    }
    Ok(())
}

/// The formula of an atom. Its only error is want of memory; the formulas of the store stay.
pub(crate) fn formula_of(
    alloc: Global,
    store: &mut Store,
    atom: &Atom,
) -> Result<FormulaId, AllocError>
    requires { IsWellFormed atom.now }
    ensures made { IfOk result (λ id. IsMade (IsId store.new) (tree store.new) id (One (atom_of atom.now))) }
    ensures kept { Keeps (IsId store.old) (tree store.old) (IsId store.new) (tree store.new) }
{
    let atom = atom.copy(alloc).map_err(|_| AllocError)?;
    Ok(store.make(Shape::One(atom))?)
}

/// The formulas of the atoms. Its only error is want of memory; the formulas of the store stay.
pub(crate) fn formulas_of(
    alloc: Global,
    store: &mut Store,
    atoms: &[Atom],
) -> Result<Vec<FormulaId>, AllocError>
    requires { EachOf IsWellFormed atoms.now }
    ensures made { IfOk result (λ v. AreMade (IsId store.new) (tree store.new) v.items (map (λ a. One (atom_of a)) atoms.now)) }
    ensures kept { Keeps (IsId store.old) (tree store.old) (IsId store.new) (tree store.new) }
{
    let mut ids = Vec::new(alloc);
    for atom in atoms {
        let id = formula_of(alloc, store, atom)?;
        ids.push(id)?;
    }
    Ok(ids)
}

/// Whether the formula is an atom or a conjunction of atoms.
pub(crate) fn are_atoms(store: &Store, id: FormulaId) -> bool
    requires { IsId store.now id }
{
    match store.shape(id) {
        Shape::And(ids) => are_all_atoms(store, ids.items()),
        _ => is_atom(store, id),
    }
}

// Whether each of the formulas is an atom.
fn are_all_atoms(store: &Store, ids: &[FormulaId]) -> bool
    requires { AllByRecursion (IsId store.now) ids.now }
{
    for id in ids {
        if !is_atom(store, *id) {
            return false;
        }
    }
    true
}

// Whether the formula is an atom.
fn is_atom(store: &Store, id: FormulaId) -> bool
    requires { IsId store.now id }
{
    matches!(store.shape(id), Shape::One(_))
}
