//! The sizes of plain forms, counted before anything is multiplied out.

ghost use Rattle.std.specs.Prelude.{◌≡◌, Some, IfOk, IfErr, map, slice_get, [], ◌∷◌};
ghost use Rattle.std.specs.List.{AllByRecursion};
ghost use Rattle.logic_meaning.specs.declared.junction.Junction.TheVariants.{Conjunction, Disjunction};
ghost use Rattle.formula_tree.specs.declared.shape.Shape.{Shape};
ghost use Rattle.formula_tree.specs.Shapes.{AllIds};
ghost use Rattle.formula_store.specs.declared.id.FormulaId.{FormulaId};
ghost use Rattle.formula_store.specs.Nodes.{IsId, tree, AreNodes};
ghost use Rattle.formula_store.specs.Order.{IsOrder};
ghost use Rattle.logic_meaning.specs.Ways.{is_same};
ghost use Rattle.shape_theory.specs.Counts.{nothing_sizes, is_bare, product_sizes, sum_sizes, joined_sizes, sizes};
ghost use Rattle.normal_forms.specs.Sizes.{capped, counted, all_joined, sizes_at, IsThere, IsTold};

use crate::inner::is_inner;
use formula_store::{FormulaId, Store};
use formula_tree::Shape;
use logic_meaning::Junction;
use std::alloc::{AllocError, Global};
use std::collections::HashMap;

/// The inner lists and the places of atoms of a plain form, 2^64 - 1 where there are more.
#[derive(Clone, Copy)]
pub(crate) struct Sizes {
    pub(crate) lines: u64,
    pub(crate) places: u64,
}

/// Sizes by the ids of formulas.
pub(crate) type Table = HashMap<FormulaId, Sizes>;

// Those of a list without members.
fn nothing(each_with_each: bool) -> Sizes
    ensures { result ≡ capped (nothing_sizes each_with_each) }
{
    if each_with_each {
        Sizes {
            lines: 1,
            places: 0,
        }
    } else {
        Sizes {
            lines: 0,
            places: 0,
        }
    }
}

// Whether there is an inner list, and none has an atom.
fn is_bare(sizes: Sizes) -> bool
    ensures { result ≡ is_bare (counted sizes) }
{
    sizes.places == 0 && sizes.lines != 0
}

// Those of two members, each list with each.
fn product(a: Sizes, b: Sizes) -> Sizes
    ensures { result ≡ capped (product_sizes (counted a) (counted b)) }
{
    let places = a.places.saturating_mul(b.lines);
    let other_places = a.lines.saturating_mul(b.places);
    Sizes {
        lines: a.lines.saturating_mul(b.lines),
        places: places.saturating_add(other_places),
    }
}

// Those of two members side by side.
fn sum(a: Sizes, b: Sizes) -> Sizes
    ensures { result ≡ capped (sum_sizes (counted a) (counted b)) }
{
    Sizes {
        lines: a.lines.saturating_add(b.lines),
        places: a.places.saturating_add(b.places),
    }
}

// Those of two members together.
fn joined(each_with_each: bool, a: Sizes, b: Sizes) -> Sizes
    ensures { result ≡ capped (joined_sizes each_with_each (counted a) (counted b)) }
{
    if each_with_each {
        return product(a, b);
    }
    if is_bare(a) || is_bare(b) {
        return nothing(true);
    }
    sum(a, b)
}

// What a table has for a formula.
pub(crate) fn table_sizes(table: &Table, id: FormulaId) -> Sizes
    requires { IsThere table.now id }
    ensures { result ≡ sizes_at table.now id }
{
    *table.get(&id).unwrap()
}

// The sizes of some members together.
fn together(table: &Table, each_with_each: bool, ids: &[FormulaId]) -> Sizes
    requires { AllByRecursion (IsThere table.now) ids.now }
    ensures { result ≡ all_joined each_with_each (capped (nothing_sizes each_with_each)) (map (sizes_at table.now) ids.now) }
{
    let mut all = nothing(each_with_each);
    for id in ids {
        all = joined(each_with_each, all, table_sizes(table, *id));
    }
    all
}

// The sizes of one formula, from those of its members.
fn node_sizes(store: &Store, inner: Junction, id: FormulaId, table: &Table) -> Sizes
    requires id { IsId store.now id }
    requires told { IsTold inner store.now table.now }
    requires members { (n : Shape FormulaId) → slice_get store.now id.number ≡ Some n → AllIds (IsThere table.now) n }
    ensures { result ≡ capped (sizes inner (tree store.now id)) }
{
    match store.shape(id) {
        Shape::True => nothing(is_inner(inner, Junction::Conjunction)),
        Shape::False => nothing(is_inner(inner, Junction::Disjunction)),
        Shape::One(_) => Sizes {
            lines: 1,
            places: 1,
        },
        Shape::And(ids) => together(table, is_inner(inner, Junction::Conjunction), ids.items()),
        Shape::Or(ids) => together(table, is_inner(inner, Junction::Disjunction), ids.items()),
        _ => nothing(false),
    }
}

// The distinct subformulas, members first.
fn subformulas(store: &Store, id: FormulaId) -> Result<Vec<FormulaId>, AllocError>
    requires { IsId store.now id }
    ensures order { IfOk result (λ ids. IsOrder store.now (id ∷ []) ids.items) }
    ensures nodes { AreNodes store.now }
{
    match store.subformulas(id) {
        Ok(ids) => Ok(ids),
        Err(_) => Err(AllocError),
    }
}

/// The sizes of the plain forms of a formula and of all that stand in it.
pub(crate) fn all_sizes(
    alloc: Global,
    store: &Store,
    inner: Junction,
    id: FormulaId,
) -> Result<Table, AllocError>
    requires { IsId store.now id }
    ensures told { IfOk result (IsTold inner store.now) }
    ensures there { IfOk result (λ table. IsThere table id) }
{
    let ids = subformulas(store, id)?;
    let mut table = HashMap::new(alloc);
    for id in &ids {
        let sizes = node_sizes(store, inner, *id, &table);
        table.insert(*id, sizes)?;
    }
    Ok(table)
}
