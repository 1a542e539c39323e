//! The cases of a formula.

ghost use Rattle.std.specs.Prelude.{◌≡◌, ◌<◌, IfOk, IfSome, length, map};
ghost use Rattle.logic_meaning.specs.Some.{EachOf};
ghost use Rattle.formula_tree.specs.Makers.{AreMade, Keeps};
ghost use Rattle.formula_store.specs.Nodes.{tree, IsId};
ghost use Rattle.short_answers.specs.Cases.{AreCasesOf, AreMembersOf, ArePartsOf, each_joined};

use crate::parts::joined;
use branch_rounds::fold;
use formula_store::{FormulaId, Store};
use formula_tree::Shape;
use logic_meaning::Junction;
use std::alloc::{AllocError, Global};

/// Formulas of which some is true where the formula is: the members of a disjunction; of a conjunction that has a disjunction
/// among its members, the members of the first one, each with the others; else the formula alone. Its only error is want of memory;
/// the formulas of the store stay.
pub(crate) fn cases_of(
    alloc: Global,
    store: &mut Store,
    id: FormulaId,
) -> Result<Vec<FormulaId>, AllocError>
    requires { IsId store.old id }
    ensures cases { IfOk result (λ v. AreCasesOf (tree store.old id) store.new v.items) }
    ensures kept { Keeps (IsId store.old) (tree store.old) (IsId store.new) (tree store.new) }
{
    let mut rest = parts_of(alloc, store, id)?;
    match disjunction_in(store, &rest) {
        Some(place) => {
            let disjunction = rest.remove(place);
            let members = members_of(alloc, store, disjunction)?;
            each_with(alloc, store, &members, &rest)
        }
        None => Ok(vec![in alloc; id]?),
    }
}

// Each of the formulas, joined with the others.
fn each_with(
    alloc: Global,
    store: &mut Store,
    ids: &[FormulaId],
    others: &[FormulaId],
) -> Result<Vec<FormulaId>, AllocError>
    requires ids { EachOf (IsId store.old) ids.now }
    requires others { EachOf (IsId store.old) others.now }
    ensures made { IfOk result (λ v. AreMade (IsId store.new) (tree store.new) v.items (each_joined (map (tree store.old) ids.now) (map (tree store.old) others.now))) }
    ensures kept { Keeps (IsId store.old) (tree store.old) (IsId store.new) (tree store.new) }
{
    let mut each = Vec::new(alloc);
    for id in ids {
        let all = joined(alloc, &[*id], others)?;
        let together = fold(alloc, store, Junction::Conjunction, &all)?;
        each.push(together)?;
    }
    Ok(each)
}

// The members of a conjunction, or the formula alone.
fn parts_of(alloc: Global, store: &Store, id: FormulaId) -> Result<Vec<FormulaId>, AllocError>
    requires { IsId store.now id }
    ensures { IfOk result (λ v. ArePartsOf (tree store.now id) store.now v.items) }
{
    match store.shape(id) {
        Shape::And(ids) => copied(alloc, ids.items()),
        _ => Ok(vec![in alloc; id]?),
    }
}

// Where the first disjunction stands.
fn disjunction_in(store: &Store, ids: &[FormulaId]) -> Option<usize>
    requires { EachOf (IsId store.now) ids.now }
    ensures { IfSome result (λ place. place < length ids.now) }
{
    for (place, id) in ids.iter().enumerate() {
        if is_disjunction(store, *id) {
            return Some(place);
        }
    }
    None
}

// Whether the formula is a disjunction.
fn is_disjunction(store: &Store, id: FormulaId) -> bool
    requires { IsId store.now id }
{
    matches!(store.shape(id), Shape::Or(_))
}

// These ids, held apart from the store.
fn copied(alloc: Global, ids: &[FormulaId]) -> Result<Vec<FormulaId>, AllocError>
    ensures { IfOk result (λ v. v.items ≡ ids.now) }
{
    let mut list = Vec::new(alloc);
    list.extend_from_slice(ids)?;
    Ok(list)
}

/// The members of a disjunction, or the formula alone. Its only error is want of memory.
pub(crate) fn members_of(
    alloc: Global,
    store: &Store,
    id: FormulaId,
) -> Result<Vec<FormulaId>, AllocError>
    requires { IsId store.now id }
    ensures { IfOk result (λ v. AreMembersOf (tree store.now id) store.now v.items) }
{
    match store.shape(id) {
        Shape::Or(ids) => copied(alloc, ids.items()),
        _ => Ok(vec![in alloc; id]?),
    }
}
