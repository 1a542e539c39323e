//! The negation normal form of a formula, made over those of its distinct subformulas.

ghost use Rattle.std.specs.List.{AllByRecursion};
ghost use Rattle.std.specs.Prelude.{◌≡◌, ◌≤◌, ◌<◌, ◌+◌, ◌*◌, ◌⊎◌, ℕ, Some, IfOk, IfErr, OnOk, IsErrOf, length, nat_eq, slice_get, true, false, IsTrue, ◌↔◌, [], ◌∷◌};
ghost use Rattle.logic_meaning.specs.Same.{same_atom};
ghost use Rattle.logic_meaning.specs.Sizes.{distinct_count};
ghost use Rattle.logic_meaning.specs.NegationNormal.{normal_form};
ghost use Rattle.logic_meaning.specs.NormalForm.{negated_normal};
ghost use Rattle.formula_tree.specs.Makers.{IsMade, Keeps};
ghost use Rattle.formula_tree.specs.Shapes.{AllIds};
ghost use Rattle.formula_store.specs.declared.id.FormulaId.{FormulaId};
ghost use Rattle.formula_store.specs.Nodes.{IsId, tree, AreNodes, Front};
ghost use Rattle.formula_store.specs.Order.{IsOrder};
ghost use Rattle.formula_store.specs.Forms.{form, Known};
ghost use Rattle.formula_store.specs.Normal.{is_normal_shape, BeginsNormal};

use crate::forms::{Forms, Table, are_their_own, form};
use crate::id::FormulaId;
use crate::plan::{performed, planned};
use crate::store::Store;
use formula_tree::{FormError, Shape};
use std::alloc::{AllocError, Global};
use std::collections::HashMap;

/// The negation normal form of a formula, whose atoms are negated in normal form. It makes at most 6 formulas for each
/// distinct subformula. `Nodes` comes exactly where a limit is given and 6 times the distinct subformulas are above it, else
/// `Memory`; the formulas of the store stay.
pub fn nnf(
    alloc: Global,
    store: &mut Store,
    id: FormulaId,
    limit: Option<u64>,
) -> Result<FormulaId, FormError>
    requires { IsId store.old id }
    ensures made { IfOk result (λ r. IsMade (IsId store.new) (tree store.new) r (normal_form negated_normal (tree store.old id))) }
    ensures kept { Keeps (IsId store.old) (tree store.old) (IsId store.new) (tree store.new) }
    ensures few { length store.new ≤ length store.old + 6 * distinct_count same_atom nat_eq (tree store.old id) }
    ensures nodes { IsErrOf result FormError.Nodes → (l : ℕ) × (limit ≡ Some l) × (l < 6 * distinct_count same_atom nat_eq (tree store.old id)) }
    ensures limited { OnOk result ((l : ℕ) → limit ≡ Some l → 6 * distinct_count same_atom nat_eq (tree store.old id) ≤ l) }
    ensures unmade { IsErrOf result FormError.Nodes → store.new ≡ store.old }
    ensures errors { IfErr result (λ e. (e ≡ FormError.Nodes) ⊎ (e ≡ FormError.Memory)) }
{
    let ids = subformulas(store, id)?;
    if passes(ids.len(), limit) {
        return Err(FormError::Nodes);
    }
    if are_normal(store, &ids) {
        return Ok(id);
    }
    let mut table = HashMap::with_capacity(alloc, ids.len())?;
    for id in &ids {
        let forms = node_forms(alloc, store, *id, &table)?;
        table.insert(*id, forms).map_err(|_| FormError::Memory)?;
    }
    Ok(form(&table, id, false))
}

// The distinct subformulas, members first.
fn subformulas(store: &Store, id: FormulaId) -> Result<Vec<FormulaId>, AllocError>
    requires { IsId store.now id }
    ensures order { IfOk result (λ ids. IsOrder store.now (id ∷ []) ids.items) }
    ensures count { IfOk result (λ ids. length ids.items ≡ distinct_count same_atom nat_eq (tree store.now id)) }
    ensures nodes { AreNodes store.now }
{
    match store.subformulas(id) {
        Ok(ids) => Ok(ids),
        Err(_) => Err(AllocError),
    }
}

// Whether 6 times the count is above the limit, if there is one.
fn passes(count: usize, limit: Option<u64>) -> bool
    ensures { IsTrue result ↔ ((l : ℕ) × (limit ≡ Some l) × (l < 6 * count)) }
{
    match limit {
        None => false,
        Some(limit) => limit / 6 < count as u64,
    }
}

// Whether each of the formulas begins as one in negation normal form does. It takes no memory.
fn are_normal(store: &Store, ids: &[FormulaId]) -> bool
    requires { AllByRecursion (IsId store.now) ids.now }
    ensures { IsTrue result → AllByRecursion (BeginsNormal store.now) ids.now }
{
    for id in ids {
        if !is_normal(store.shape(*id)) {
            return false;
        }
    }
    true
}

// Whether a formula of this shape begins as one in negation normal form does.
fn is_normal(shape: &Shape<FormulaId>) -> bool
    ensures { result ≡ is_normal_shape shape.now }
{
    !matches!(
        shape,
        Shape::Not(_) | Shape::Impl(..) | Shape::Repl(..) | Shape::Equiv(..)
    )
}

// Makes the forms of one formula over those of its members, with at most six new formulas.
fn node_forms(
    alloc: Global,
    store: &mut Store,
    id: FormulaId,
    table: &Table,
) -> Result<Forms, AllocError>
    requires id { IsId store.old id }
    requires members { (n : Shape FormulaId) → slice_get store.old id.number ≡ Some n → AllIds (Known store.old table.now) n }
    ensures plain { IfOk result (λ forms. IsMade (IsId store.new) (tree store.new) forms.plain (form false (tree store.old id))) }
    ensures negated { IfOk result (λ forms. IsMade (IsId store.new) (tree store.new) forms.negated (form true (tree store.old id))) }
    ensures kept { Keeps (IsId store.old) (tree store.old) (IsId store.new) (tree store.new) }
    ensures front { Front store.old store.new }
    ensures few { length store.new ≤ length store.old + 6 }
{
    let plain = plain_form(alloc, store, id, table)?;
    let negated = node_form(alloc, store, id, table, true)?;
    Ok(Forms { plain, negated })
}

// The form of one formula, which is the formula itself where that begins as a form does and its members are their own forms.
fn plain_form(
    alloc: Global,
    store: &mut Store,
    id: FormulaId,
    table: &Table,
) -> Result<FormulaId, AllocError>
    requires id { IsId store.old id }
    requires members { (n : Shape FormulaId) → slice_get store.old id.number ≡ Some n → AllIds (Known store.old table.now) n }
    ensures made { IfOk result (λ r. IsMade (IsId store.new) (tree store.new) r (form false (tree store.old id))) }
    ensures kept { Keeps (IsId store.old) (tree store.old) (IsId store.new) (tree store.new) }
    ensures front { Front store.old store.new }
    ensures few { length store.new ≤ length store.old + 3 }
{
    if stays(store, id, table) {
        return Ok(id);
    }
    node_form(alloc, store, id, table, false)
}

// Whether the formula begins as a negation normal form does and its members are their own forms.
fn stays(store: &Store, id: FormulaId, table: &Table) -> bool
    requires id { IsId store.now id }
    requires members { (n : Shape FormulaId) → slice_get store.now id.number ≡ Some n → AllIds (Known store.now table.now) n }
    ensures { IsTrue result → tree store.now id ≡ form false (tree store.now id) }
{
    match store.shape(id) {
        Shape::True | Shape::False | Shape::One(_) => true,
        Shape::And(ids) => are_their_own(table, ids.items()),
        Shape::Or(ids) => are_their_own(table, ids.items()),
        Shape::Ex(_, member) => form(table, *member, false) == *member,
        Shape::All(_, member) => form(table, *member, false) == *member,
        Shape::Not(_) | Shape::Impl(..) | Shape::Repl(..) | Shape::Equiv(..) => false,
    }
}

// Makes the form of one formula, or of its negation.
fn node_form(
    alloc: Global,
    store: &mut Store,
    id: FormulaId,
    table: &Table,
    negated: bool,
) -> Result<FormulaId, AllocError>
    requires id { IsId store.old id }
    requires members { (n : Shape FormulaId) → slice_get store.old id.number ≡ Some n → AllIds (Known store.old table.now) n }
    ensures made { IfOk result (λ r. IsMade (IsId store.new) (tree store.new) r (form negated (tree store.old id))) }
    ensures kept { Keeps (IsId store.old) (tree store.old) (IsId store.new) (tree store.new) }
    ensures front { Front store.old store.new }
    ensures few { length store.new ≤ length store.old + 3 }
{
    let plan = planned(alloc, store, id, table, negated)?;
    performed(alloc, store, plan)
}
