//! The formula that a list on the way becomes.

ghost use Rattle.std.specs.Prelude.{◌≡◌, ◌++◌, ◌∷◌, [], Some, map, IfOk, IfSome, IsTrue, length};
ghost use Rattle.std.specs.List.{AllByRecursion};
ghost use Rattle.normal_atoms.specs.Atoms.{atom_of, IsWellFormed};
ghost use Rattle.logic_meaning.specs.Fold.{from_pieces};
ghost use Rattle.logic_meaning.specs.Formula.{One};
ghost use Rattle.logic_meaning.specs.Tree.{Tree};
ghost use Rattle.shape_theory.specs.Pass.{constant, close};
ghost use Rattle.formula_tree.specs.Makers.{IsMade, Keeps};
ghost use Rattle.formula_tree.specs.Shapes.{AllIds, IsProperShape, tree_over};
ghost use Rattle.formula_tree.specs.Trees.{members};
ghost use Rattle.formula_store.specs.Nodes.{IsId, tree};
ghost use Rattle.theory_simplifier.specs.Listed.{entry_atom, IsEntry};
ghost use Rattle.theory_simplifier.specs.Parts.{parts_of, one_tree, HasIds, joined_shape, quantified_shape};

use crate::joined::Joined;
use crate::parts::{Parts, settles};
use formula_store::{FormulaId, Store};
use formula_tree::{Ids, Maker, Shape};
use logic_meaning::{Junction, Quantifier, VarId};
use normal_atoms::Atom;
use std::alloc::{AllocError, Global};

/// The formula of this shape.
pub(crate) fn made(store: &mut Store, shape: Shape<FormulaId>) -> Result<FormulaId, AllocError>
    requires ids { AllIds (IsId store.old) shape }
    requires proper { IsProperShape shape }
    ensures made { IfOk result (λ id. IsMade (IsId store.new) (tree store.new) id (tree_over (tree store.old) shape)) }
    ensures kept { Keeps (IsId store.old) (tree store.old) (IsId store.new) (tree store.new) }
{
    store.make(shape).map_err(|_| AllocError)
}

/// The constant of this truth.
pub(crate) fn constant(store: &mut Store, truth: bool) -> Result<FormulaId, AllocError>
    ensures made { IfOk result (λ id. IsMade (IsId store.new) (tree store.new) id (constant truth)) }
    ensures kept { Keeps (IsId store.old) (tree store.old) (IsId store.new) (tree store.new) }
{
    if truth {
        made(store, Shape::True)
    } else {
        made(store, Shape::False)
    }
}

/// The shape of a quantified formula. It takes no memory.
pub(crate) fn quantified_over(quantifier: Quantifier, x: VarId, id: FormulaId) -> Shape<FormulaId>
    ensures { result ≡ quantified_shape quantifier x id }
{
    match quantifier {
        Quantifier::Exists => Shape::Ex(x, id),
        Quantifier::ForAll => Shape::All(x, id),
    }
}

/// The list joined; one member stands for the whole. The formula with this id and its members serve again where they are the same.
pub(crate) fn closed(
    alloc: Global,
    store: &mut Store,
    junction: Junction,
    parts: Parts,
    before: FormulaId,
) -> Result<FormulaId, AllocError>
    requires ids { HasIds store.old parts }
    requires before { IsId store.old before }
    ensures made { IfOk result (λ id. IsMade (IsId store.new) (tree store.new) id (close junction (parts_of (tree store.old) parts))) }
    ensures kept { Keeps (IsId store.old) (tree store.old) (IsId store.new) (tree store.new) }
{
    let Parts::Open(atoms, others) = parts else {
        return constant(store, settles(junction, true));
    };
    let mut ids = atoms_made(alloc, store, &atoms, before)?;
    ids.extend_from_slice(others.items())?;
    whole(store, junction, ids, before)
}

// The atoms as formulas.
fn atoms_made(
    alloc: Global,
    store: &mut Store,
    atoms: &Joined,
    before: FormulaId,
) -> Result<Vec<FormulaId>, AllocError>
    requires { IsId store.old before }
    ensures are { IfOk result (λ ids. AllByRecursion (IsId store.new) ids.items) }
    ensures made { IfOk result (λ ids. map (tree store.new) ids.items ≡ map one_tree atoms.now.atoms) }
    ensures kept { Keeps (IsId store.old) (tree store.old) (IsId store.new) (tree store.new) }
{
    let mut ids = Vec::new(alloc);
    for entry in atoms.entries() {
        let same = member_at(store, before, ids.len());
        let id = atom_made(alloc, store, &entry.atom, same)?;
        ids.push(id)?;
    }
    Ok(ids)
}

// The member of a list at this place.
fn member_at(store: &Store, id: FormulaId, place: usize) -> Option<FormulaId>
    requires { IsId store.now id }
    ensures { IfSome result (IsId store.now) }
{
    match store.shape(id) {
        Shape::And(ids) | Shape::Or(ids) => ids.items().get(place).copied(),
        _ => None,
    }
}

// The atom as a formula, which may be this one.
fn atom_made(
    alloc: Global,
    store: &mut Store,
    atom: &Atom,
    same: Option<FormulaId>,
) -> Result<FormulaId, AllocError>
    requires well_formed { IsWellFormed atom.now }
    requires same { IfSome same (IsId store.old) }
    ensures made { IfOk result (λ id. IsMade (IsId store.new) (tree store.new) id (One (atom_of atom.now))) }
    ensures kept { Keeps (IsId store.old) (tree store.old) (IsId store.new) (tree store.new) }
{
    match same {
        Some(id) if is_of(store, id, atom) => Ok(id),
        _ => {
            let copy = atom.copy(alloc).map_err(|_| AllocError)?;
            made(store, Shape::One(copy))
        }
    }
}

// Whether the formula is this atom. It takes no memory.
fn is_of(store: &Store, id: FormulaId, atom: &Atom) -> bool
    requires { IsId store.now id }
    ensures { IsTrue result → tree store.now id ≡ One (atom_of atom.now) }
{
    match store.shape(id) {
        Shape::One(other) => other == atom,
        _ => false,
    }
}

// The formulas joined, where one stands for the whole. They may be the members of this formula.
fn whole(
    store: &mut Store,
    junction: Junction,
    ids: Vec<FormulaId>,
    before: FormulaId,
) -> Result<FormulaId, AllocError>
    requires ids { AllByRecursion (IsId store.old) ids.items }
    requires before { IsId store.old before }
    ensures made { IfOk result (λ id. IsMade (IsId store.new) (tree store.new) id (from_pieces junction (Some (members (map (tree store.old) ids.items))))) }
    ensures kept { Keeps (IsId store.old) (tree store.old) (IsId store.new) (tree store.new) }
{
    if ids.len() > 1 {
        if has_members(store, before, junction, &ids) {
            return Ok(before);
        }
        return made(store, joined(junction, Ids::of(ids)));
    }
    if ids.is_empty() {
        constant(store, settles(junction, false))
    } else {
        Ok(ids[0])
    }
}

// Whether the formula is the list of these members. It takes no memory.
fn has_members(store: &Store, id: FormulaId, junction: Junction, ids: &[FormulaId]) -> bool
    requires { IsId store.now id }
    ensures { IsTrue result → tree store.now id ≡ tree_over (tree store.now) (joined_shape junction ids.now) }
{
    match (store.shape(id), junction) {
        (Shape::And(members), Junction::Conjunction) => members.items() == ids,
        (Shape::Or(members), Junction::Disjunction) => members.items() == ids,
        _ => false,
    }
}

// The shape of a list. It takes no memory.
fn joined(junction: Junction, ids: Ids<FormulaId>) -> Shape<FormulaId>
    ensures { result ≡ joined_shape junction ids }
{
    match junction {
        Junction::Conjunction => Shape::And(ids),
        Junction::Disjunction => Shape::Or(ids),
    }
}
