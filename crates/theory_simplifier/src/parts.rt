//! A list on the way: its atoms, and its other members, each once.

ghost use Rattle.std.specs.Prelude.{◌≡◌, List, [], map, IfOk, OnOk, if◌then◌else◌};
ghost use Rattle.std.specs.List.{AllByRecursion};
ghost use Rattle.indexmap.specs.IndexSet.{insert_key};
ghost use Rattle.logic_meaning.specs.Context.{Context as Theory};
ghost use Rattle.logic_meaning.specs.Formula.{none};
ghost use Rattle.logic_meaning.specs.Fold.{pieces_of};
ghost use Rattle.logic_meaning.specs.declared.junction.Junction.{Junction as Joint};
ghost use Rattle.logic_meaning.specs.Tree.{Tree};
ghost use Rattle.normal_atoms.specs.Atoms.{context_of, atom_of, IsWellFormed};
ghost use Rattle.normal_atoms.specs.Computed.{IsNormalWithin};
ghost use Rattle.shape_theory.specs.AtomKit.{atom_kit};
ghost use Rattle.shape_theory.specs.Pass.{Open, settles, with_atom, with_other, with_piece, with_pieces, with_member, with_atom_first, with_atoms};
ghost use Rattle.shape_theory.specs.Orderly.{AreOrderly};
ghost use Rattle.shape_theory.specs.Simplifiable.{IsSimplifiable};
ghost use Rattle.formula_tree.specs.declared.shape.Shape.{Shape};
ghost use Rattle.formula_tree.specs.Trees.{members};
ghost use Rattle.formula_store.specs.declared.id.FormulaId.{FormulaId};
ghost use Rattle.formula_store.specs.Nodes.{IsId, tree, AreNodes};
ghost use Rattle.theory_simplifier.specs.Known.{known_atoms, AreNormalFrames};
ghost use Rattle.theory_simplifier.specs.Parts.{same_id, parts_of, IsListOf, HasIds};

use crate::joined::Joined;
use crate::known::Known;
use crate::part::part_number;
use formula_store::{FormulaId, Store};
use formula_tree::Shape;
use indexmap::IndexSet;
use logic_meaning::Junction;
use normal_atoms::{Atom, Context};
use std::alloc::{AllocError, Global};
use std::marker::Model;

/// Formulas of a store, each once, in the order in which they came.
#[derive(Drop)]
pub(crate) struct Others {
    ids: IndexSet<FormulaId>,
}

impl Model for Others {
    ghost use Rattle.std.specs.Prelude.{List};
    ghost use Rattle.formula_store.specs.declared.id.FormulaId.{FormulaId as Id};

    ghost Value = { List Id };

    ghost view = { λ o. o.ids.keys };
}

impl Others {
    /// No formulas.
    pub(crate) fn new(alloc: Global) -> Others
        ensures { result ≡ [] }
    {
        Others {
            ids: IndexSet::new(alloc),
        }
    }

    /// The formula last, unless it is there.
    pub(crate) fn add(&mut self, id: FormulaId) -> Result<(), AllocError>
        ensures { OnOk result (self.new ≡ insert_key same_id self.old id) }
    {
        self.ids.insert(id)?;
        Ok(())
    }

    /// The formulas. It takes no memory.
    pub(crate) fn items(&self) -> &[FormulaId]
        ensures { result.now ≡ self.now }
    {
        self.ids.as_slice()
    }
}

/// A list on the way: settled, or its atoms and its other members.
#[derive(Drop)]
pub(crate) enum Parts {
    Closed,
    Open(Joined, Others),
}

/// Whether a member of this truth settles the list.
pub(crate) fn settles(junction: Junction, truth: bool) -> bool
    ensures { result ≡ settles junction truth }
{
    match junction {
        Junction::Conjunction => !truth,
        Junction::Disjunction => truth,
    }
}

/// The list with an atom more, which the known ones may decide.
pub(crate) fn with_atom(
    alloc: Global,
    context: Context,
    junction: Junction,
    known: &Known,
    parts: Parts,
    atom: &Atom,
) -> Result<Parts, AllocError>
    requires well_formed { IsWellFormed atom.now }
    requires normal { IsNormalWithin (context_of context) (atom_of atom.now) }
    requires known { AreNormalFrames (context_of context) known.now }
    requires list { IsListOf (context_of context) junction parts }
    ensures with { IfOk result (λ r. (t : FormulaId → Tree) → parts_of t r ≡ with_atom (atom_kit (context_of context)) junction (known_atoms known.now) (atom_of atom.now) (parts_of t parts)) }
    ensures list { IfOk result (IsListOf (context_of context) junction) }
    ensures ids { IfOk result (λ r. (nodes : List (Shape FormulaId)) → HasIds nodes parts → HasIds nodes r) }
{
    let Parts::Open(atoms, others) = parts else {
        return Ok(Parts::Closed);
    };
    let part = part_number(alloc, atom)?;
    if let Some(truth) = known.decided(context, atom, part) {
        if settles(junction, truth) {
            return Ok(Parts::Closed);
        }
        return Ok(Parts::Open(atoms, others));
    }
    match atoms.with(alloc, context, atom, part)? {
        Some(atoms) => Ok(Parts::Open(atoms, others)),
        None => Ok(Parts::Closed),
    }
}

// The list with a member more that is no atom, unless it is there.
fn with_other(store: &Store, parts: Parts, id: FormulaId) -> Result<Parts, AllocError>
    requires id { IsId store.now id }
    requires ids { HasIds store.now parts }
    ensures with { IfOk result (λ r. (c : Theory) → parts_of (tree store.now) r ≡ with_other (atom_kit c) (tree store.now id) (parts_of (tree store.now) parts)) }
    ensures list { IfOk result (λ r. (c : Theory) (j : Joint) → IsListOf c j parts → IsListOf c j r) }
    ensures ids { IfOk result (HasIds store.now) }
{
    match parts {
        Parts::Closed => Ok(Parts::Closed),
        Parts::Open(atoms, mut others) => {
            others.add(id)?;
            Ok(Parts::Open(atoms, others))
        }
    }
}

// The list with a formula that is no list of its junction and no constant.
fn with_piece(
    alloc: Global,
    store: &Store,
    context: Context,
    junction: Junction,
    known: &Known,
    parts: Parts,
    id: FormulaId,
) -> Result<Parts, AllocError>
    requires id { IsId store.now id }
    requires formula { IsSimplifiable (context_of context) (tree store.now id) }
    requires known { AreNormalFrames (context_of context) known.now }
    requires list { IsListOf (context_of context) junction parts }
    requires ids { HasIds store.now parts }
    ensures with { IfOk result (λ r. parts_of (tree store.now) r ≡ with_piece (atom_kit (context_of context)) junction (known_atoms known.now) (tree store.now id) (parts_of (tree store.now) parts)) }
    ensures list { IfOk result (IsListOf (context_of context) junction) }
    ensures ids { IfOk result (HasIds store.now) }
{
    match store.shape(id) {
        Shape::One(atom) => with_atom(alloc, context, junction, known, parts, atom),
        _ => with_other(store, parts, id),
    }
}

// The list with the members of another of its junction.
fn with_pieces(
    alloc: Global,
    store: &Store,
    context: Context,
    junction: Junction,
    known: &Known,
    mut parts: Parts,
    ids: &[FormulaId],
) -> Result<Parts, AllocError>
    requires pieces { AllByRecursion (IsId store.now) ids.now }
    requires formulas { AreOrderly (IsNormalWithin (context_of context)) (members (map (tree store.now) ids.now)) }
    requires known { AreNormalFrames (context_of context) known.now }
    requires list { IsListOf (context_of context) junction parts }
    requires ids { HasIds store.now parts }
    ensures with { IfOk result (λ r. parts_of (tree store.now) r ≡ with_pieces (atom_kit (context_of context)) junction (known_atoms known.now) (members (map (tree store.now) ids.now)) (parts_of (tree store.now) parts)) }
    ensures list { IfOk result (IsListOf (context_of context) junction) }
    ensures ids { IfOk result (HasIds store.now) }
{
    for id in ids {
        parts = with_piece(alloc, store, context, junction, known, parts, *id)?;
    }
    Ok(parts)
}

/// The list with what a member gives: a constant goes or settles the list, a list of the same junction gives its members.
pub(crate) fn with_member(
    alloc: Global,
    store: &Store,
    context: Context,
    junction: Junction,
    known: &Known,
    parts: Parts,
    id: FormulaId,
) -> Result<Parts, AllocError>
    requires id { IsId store.now id }
    requires formula { IsSimplifiable (context_of context) (tree store.now id) }
    requires known { AreNormalFrames (context_of context) known.now }
    requires list { IsListOf (context_of context) junction parts }
    requires ids { HasIds store.now parts }
    ensures with { IfOk result (λ r. parts_of (tree store.now) r ≡ with_member (atom_kit (context_of context)) junction (known_atoms known.now) (pieces_of junction (tree store.now id)) (parts_of (tree store.now) parts)) }
    ensures list { IfOk result (IsListOf (context_of context) junction) }
    ensures ids { IfOk result (HasIds store.now) }
{
    match (junction, store.shape(id)) {
        (Junction::Conjunction, Shape::True) | (Junction::Disjunction, Shape::False) => Ok(parts),
        (Junction::Conjunction, Shape::False) | (Junction::Disjunction, Shape::True) => Ok(
            Parts::Closed,
        ),
        (Junction::Conjunction, Shape::And(ids)) | (Junction::Disjunction, Shape::Or(ids)) => {
            with_pieces(alloc, store, context, junction, known, parts, ids.items())
        }
        _ => with_piece(alloc, store, context, junction, known, parts, id),
    }
}

/// The list with the atoms among its members.
pub(crate) fn with_atoms(
    alloc: Global,
    store: &Store,
    context: Context,
    junction: Junction,
    known: &Known,
    ids: &[FormulaId],
) -> Result<Parts, AllocError>
    requires members { AllByRecursion (IsId store.now) ids.now }
    requires formulas { AreOrderly (IsNormalWithin (context_of context)) (members (map (tree store.now) ids.now)) }
    requires known { AreNormalFrames (context_of context) known.now }
    ensures with { IfOk result (λ r. parts_of (tree store.now) r ≡ with_atoms (atom_kit (context_of context)) junction (known_atoms known.now) (members (map (tree store.now) ids.now)) (Open [] none)) }
    ensures list { IfOk result (IsListOf (context_of context) junction) }
    ensures ids { IfOk result (HasIds store.now) }
{
    let mut parts = Parts::Open(Joined::new(alloc, junction), Others::new(alloc));
    for id in ids {
        parts = with_atom_first(alloc, store, context, junction, known, parts, *id)?;
    }
    Ok(parts)
}

// The list with the member, if that is an atom.
fn with_atom_first(
    alloc: Global,
    store: &Store,
    context: Context,
    junction: Junction,
    known: &Known,
    parts: Parts,
    id: FormulaId,
) -> Result<Parts, AllocError>
    requires id { IsId store.now id }
    requires formula { IsSimplifiable (context_of context) (tree store.now id) }
    requires known { AreNormalFrames (context_of context) known.now }
    requires list { IsListOf (context_of context) junction parts }
    requires ids { HasIds store.now parts }
    ensures with { IfOk result (λ r. parts_of (tree store.now) r ≡ with_atom_first (atom_kit (context_of context)) junction (known_atoms known.now) (tree store.now id) (parts_of (tree store.now) parts)) }
    ensures list { IfOk result (IsListOf (context_of context) junction) }
    ensures ids { IfOk result (HasIds store.now) }
{
    match store.shape(id) {
        Shape::One(atom) => with_atom(alloc, context, junction, known, parts, atom),
        _ => Ok(parts),
    }
}
