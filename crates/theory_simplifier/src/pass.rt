//! One pass down a shared formula, under the atoms that are known.

ghost use Rattle.std.specs.Prelude.{◌≡◌, ◌++◌, ◌∷◌, [], map, IfOk, OnOk};
ghost use Rattle.std.specs.List.{AllByRecursion};
ghost use Rattle.logic_meaning.specs.Fold.{from_pieces};
ghost use Rattle.normal_atoms.specs.Atoms.{context_of, atom_of, IsWellFormed};
ghost use Rattle.normal_atoms.specs.Computed.{IsNormalWithin};
ghost use Rattle.shape_theory.specs.AtomKit.{atom_kit};
ghost use Rattle.shape_theory.specs.Orderly.{AreOrderly};
ghost use Rattle.shape_theory.specs.Pass.{pass, others, with_passed, known as known_beside};
ghost use Rattle.shape_theory.specs.Simplifiable.{IsSimplifiable};
ghost use Rattle.formula_tree.specs.Makers.{IsMade, Keeps};
ghost use Rattle.formula_tree.specs.Trees.{members};
ghost use Rattle.formula_store.specs.Nodes.{IsId, tree};
ghost use Rattle.logic_meaning.specs.Shape.{quantified};
ghost use Rattle.theory_simplifier.specs.Known.{known_atoms, AreNormalFrames};
ghost use Rattle.theory_simplifier.specs.Parts.{parts_of, is_one, IsListOf, HasIds, pass_list};

use crate::closing::{closed, constant, made, quantified_over};
use crate::free::is_free;
use crate::known::{Frame, Known};
use crate::part::part_number;
use crate::parts::{Parts, with_atoms, with_member};
use crate::unchanged::is_unchanged;
use formula_store::{FormulaId, Store};
use formula_tree::Shape;
use logic_meaning::{Junction, Quantifier, VarId};
use normal_atoms::Context;
use std::alloc::{AllocError, Global};

/// The formula after one pass under the known atoms, which stay. The recursion is as deep as the formula is high.
#[cycle(passed)]
pub(crate) fn passed(
    alloc: Global,
    store: &mut Store,
    context: Context,
    id: FormulaId,
    known: &mut Known,
) -> Result<FormulaId, AllocError>
    requires id { IsId store.old id }
    requires formula { IsSimplifiable (context_of context) (tree store.old id) }
    requires known { AreNormalFrames (context_of context) known.old }
    ensures made { IfOk result (λ r. IsMade (IsId store.new) (tree store.new) r (pass (atom_kit (context_of context)) (tree store.old id) (known_atoms known.old))) }
    ensures known { OnOk result (known.new ≡ known.old) }
    ensures kept { Keeps (IsId store.old) (tree store.old) (IsId store.new) (tree store.new) }
{
    if is_unchanged(alloc, store, context, known, id)? {
        return Ok(id);
    }
    match store.shape(id) {
        Shape::One(atom) => {
            let part = part_number(alloc, atom)?;
            match known.decided(context, atom, part) {
                Some(truth) => constant(store, truth),
                None => Ok(id),
            }
        }
        Shape::And(ids) => {
            let ids = listed(alloc, ids.items())?;
            list_passed(
                alloc,
                store,
                context,
                Junction::Conjunction,
                id,
                &ids,
                known,
            )
        }
        Shape::Or(ids) => {
            let ids = listed(alloc, ids.items())?;
            list_passed(
                alloc,
                store,
                context,
                Junction::Disjunction,
                id,
                &ids,
                known,
            )
        }
        Shape::Ex(x, f) => {
            let (x, f) = (*x, *f);
            quantified_passed(alloc, store, context, Quantifier::Exists, x, f, known)
        }
        Shape::All(x, f) => {
            let (x, f) = (*x, *f);
            quantified_passed(alloc, store, context, Quantifier::ForAll, x, f, known)
        }
        _ => Ok(id),
    }
}

// These ids, held apart from the store.
fn listed(alloc: Global, ids: &[FormulaId]) -> Result<Vec<FormulaId>, AllocError>
    ensures { IfOk result (λ v. v.items ≡ ids.now) }
{
    let mut list = Vec::new(alloc);
    list.extend_from_slice(ids)?;
    Ok(list)
}

// The quantified formula, or the one inside where the name is not free in it.
#[cycle(passed)]
fn quantified_passed(
    alloc: Global,
    store: &mut Store,
    context: Context,
    quantifier: Quantifier,
    x: VarId,
    id: FormulaId,
    known: &mut Known,
) -> Result<FormulaId, AllocError>
    requires id { IsId store.old id }
    requires formula { IsSimplifiable (context_of context) (tree store.old id) }
    requires known { AreNormalFrames (context_of context) known.old }
    ensures made { IfOk result (λ r. IsMade (IsId store.new) (tree store.new) r (pass (atom_kit (context_of context)) (quantified quantifier x.number (tree store.old id)) (known_atoms known.old))) }
    ensures known { OnOk result (known.new ≡ known.old) }
    ensures kept { Keeps (IsId store.old) (tree store.old) (IsId store.new) (tree store.new) }
{
    known.enter(Frame::Under(x))?;
    let inner = passed(alloc, store, context, id, known)?;
    known.leave();
    if is_free(store, x, inner) {
        made(store, quantified_over(quantifier, x, inner))
    } else {
        Ok(inner)
    }
}

// The list of these members after one pass: its atoms come first, and the other members are passed under what they tell. It may be
// the formula with this id again.
#[cycle(passed)]
fn list_passed(
    alloc: Global,
    store: &mut Store,
    context: Context,
    junction: Junction,
    before: FormulaId,
    ids: &[FormulaId],
    known: &mut Known,
) -> Result<FormulaId, AllocError>
    requires before { IsId store.old before }
    requires ids { AllByRecursion (IsId store.old) ids.now }
    requires formulas { AreOrderly (IsNormalWithin (context_of context)) (members (map (tree store.old) ids.now)) }
    requires known { AreNormalFrames (context_of context) known.old }
    ensures made { IfOk result (λ r. IsMade (IsId store.new) (tree store.new) r (pass_list (context_of context) junction (members (map (tree store.old) ids.now)) (known_atoms known.old))) }
    ensures known { OnOk result (known.new ≡ known.old) }
    ensures kept { Keeps (IsId store.old) (tree store.old) (IsId store.new) (tree store.new) }
{
    let parts = with_atoms(alloc, store, context, junction, known, ids)?;
    let parts = others_passed(alloc, store, context, junction, ids, known, parts)?;
    closed(alloc, store, junction, parts, before)
}

// The list with its other members, each passed under what is known by then.
#[cycle(passed)]
fn others_passed(
    alloc: Global,
    store: &mut Store,
    context: Context,
    junction: Junction,
    ids: &[FormulaId],
    known: &mut Known,
    mut parts: Parts,
) -> Result<Parts, AllocError>
    requires members { AllByRecursion (IsId store.old) ids.now }
    requires formulas { AreOrderly (IsNormalWithin (context_of context)) (members (map (tree store.old) ids.now)) }
    requires known { AreNormalFrames (context_of context) known.old }
    requires list { IsListOf (context_of context) junction parts }
    requires ids { HasIds store.old parts }
    ensures with { IfOk result (λ r. parts_of (tree store.new) r ≡ others (atom_kit (context_of context)) (members (map (tree store.old) ids.now)) junction (known_atoms known.old) (parts_of (tree store.old) parts)) }
    ensures list { IfOk result (IsListOf (context_of context) junction) }
    ensures ids { IfOk result (HasIds store.new) }
    ensures known { OnOk result (known.new ≡ known.old) }
    ensures kept { Keeps (IsId store.old) (tree store.old) (IsId store.new) (tree store.new) }
{
    for id in ids {
        parts = member_passed(alloc, store, context, junction, *id, known, parts)?;
    }
    Ok(parts)
}

// The list with the member, passed under what is known. An atom is in the list already.
#[cycle(passed)]
fn member_passed(
    alloc: Global,
    store: &mut Store,
    context: Context,
    junction: Junction,
    id: FormulaId,
    known: &mut Known,
    parts: Parts,
) -> Result<Parts, AllocError>
    requires id { IsId store.old id }
    requires formula { IsSimplifiable (context_of context) (tree store.old id) }
    requires known { AreNormalFrames (context_of context) known.old }
    requires list { IsListOf (context_of context) junction parts }
    requires ids { HasIds store.old parts }
    ensures with { IfOk result (λ r. parts_of (tree store.new) r ≡ with_passed (atom_kit (context_of context)) junction (known_atoms known.old) (tree store.old id)
        (pass (atom_kit (context_of context)) (tree store.old id) (known_beside (atom_kit (context_of context)) junction (parts_of (tree store.old) parts) (known_atoms known.old))) (parts_of (tree store.old) parts)) }
    ensures list { IfOk result (IsListOf (context_of context) junction) }
    ensures ids { IfOk result (HasIds store.new) }
    ensures known { OnOk result (known.new ≡ known.old) }
    ensures kept { Keeps (IsId store.old) (tree store.old) (IsId store.new) (tree store.new) }
{
    let Parts::Open(atoms, others) = parts else {
        return Ok(Parts::Closed);
    };
    if is_atom(store, id) {
        return Ok(Parts::Open(atoms, others));
    }
    known.enter(Frame::Beside(atoms))?;
    let passed = passed(alloc, store, context, id, known)?;
    let Some(Frame::Beside(atoms)) = known.leave() else {
        unreachable!()
    };
    let parts = Parts::Open(atoms, others);
    with_member(alloc, store, context, junction, known, parts, passed)
}

// Whether the formula is an atom.
fn is_atom(store: &Store, id: FormulaId) -> bool
    requires { IsId store.now id }
    ensures { result ≡ is_one (tree store.now id) }
{
    matches!(store.shape(id), Shape::One(_))
}
