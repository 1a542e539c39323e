//! An atom beside the atoms of an inner list.

ghost use Rattle.std.specs.Prelude.{◌≡◌, IfOk, IfErr};
ghost use Rattle.std.specs.List.{AllByRecursion};
ghost use Rattle.normal_atoms.specs.Atoms.{context_of, atom_of, IsWellFormed};
ghost use Rattle.logic_meaning.specs.Formula.{One};
ghost use Rattle.logic_meaning.specs.Atom.{form_of};
ghost use Rattle.formula_store.specs.Nodes.{tree, IsId};
ghost use Rattle.normal_atoms.specs.Computed.{merged, merging_of};
ghost use Rattle.normal_forms.specs.Atoms.{atom_at, IsAtomId};
ghost use Rattle.normal_forms.specs.Merging.{IsWellMerged, MeetsAs, first_name};

use formula_store::{FormulaId, Store};
use formula_tree::Shape;
use logic_meaning::Junction;
use normal_atoms::{Atom, Context, Merged, merge_and, merge_or};
use std::alloc::{AllocError, Global};

/// What becomes of an atom beside others: it merges with none; with the first with which it merges it settles the list; or
/// with the one at a place it makes one atom.
#[derive(Drop)]
pub(crate) enum Met {
    Alone,
    Void,
    Meets(Atom, usize),
}

// The atom of an id.
fn atom(store: &Store, id: FormulaId) -> &Atom
    requires { (tree store.now id ≡ One (atom_at store.now id)) × IsId store.now id }
    ensures atom { atom_of result.now ≡ atom_at store.now id }
    ensures well_formed { IsWellFormed result.now }
{
    match store.shape(id) {
        Shape::One(atom) => atom,
        _ => unreachable!(),
    }
}

// The first name of an atom.
fn first_name(atom: &Atom) -> Option<usize>
    ensures { result ≡ first_name (form_of (atom_of atom.now)).terms }
{
    let form = match atom {
        Atom::Compare(_, form) => form,
        Atom::Congruent { form, .. } => form,
    };
    match form.term(0) {
        Some((name, _)) => Some(name.number),
        None => None,
    }
}

// What two atoms become in an inner list. Atoms that merge have the same names, so most are told apart by their first one.
fn merged(
    alloc: Global,
    store: &Store,
    context: Context,
    inner: Junction,
    first: FormulaId,
    second: FormulaId,
) -> Result<Merged, AllocError>
    requires first { IsAtomId (context_of context) store.now first }
    requires second { IsAtomId (context_of context) store.now second }
    ensures merged { IfOk result (λ m. merging_of m ≡ merged (context_of context) inner (atom_at store.now first) (atom_at store.now second)) }
    ensures well_formed { IfOk result IsWellMerged }
{
    let first = atom(store, first);
    let second = atom(store, second);
    if first_name(first) != first_name(second) {
        return Ok(Merged::Keep);
    }
    let merged = match inner {
        Junction::Conjunction => merge_and(alloc, context, first, second),
        Junction::Disjunction => merge_or(alloc, context, first, second),
    };
    merged.map_err(|_| AllocError)
}

/// What becomes of an atom beside the atoms of an inner list.
pub(crate) fn partner(
    alloc: Global,
    store: &Store,
    context: Context,
    inner: Junction,
    atom: FormulaId,
    line: &[FormulaId],
) -> Result<Met, AllocError>
    requires atom { IsAtomId (context_of context) store.now atom }
    requires line { AllByRecursion (IsAtomId (context_of context) store.now) line.now }
    ensures met { IfOk result (MeetsAs (context_of context) inner store.now atom line.now) }
{
    for (place, other) in line.iter().enumerate() {
        match merged(alloc, store, context, inner, *other, atom)? {
            Merged::True => return Ok(Met::Void),
            Merged::False => return Ok(Met::Void),
            Merged::One(atom) => return Ok(Met::Meets(atom, place)),
            Merged::Keep => (),
        }
    }
    Ok(Met::Alone)
}
