//! The numbers that are free in shared formulas and have no entry.

ghost use Rattle.std.specs.Prelude.{◌≡◌, ◌⊎◌, ℕ, pos, [], ◌∷◌, Some, IsTrue, ◌↔◌, IfOk, OnOk, slice_get};
ghost use Rattle.std.specs.List.{AllByRecursion};
ghost use Rattle.std.specs.Ordering.{nat_cmp};
ghost use Rattle.std.specs.BTreeSet.{contains};
ghost use Rattle.logic_meaning.specs.Some.{SomeOf};
ghost use Rattle.logic_meaning.specs.Form.{coefficient};
ghost use Rattle.logic_meaning.specs.Tree.{IsFree};
ghost use Rattle.logic_meaning.specs.Atom.{Mentions};
ghost use Rattle.normal_atoms.specs.Atoms.{atom_of};
ghost use Rattle.formula_tree.specs.declared.shape.Shape.{Shape};
ghost use Rattle.formula_tree.specs.Shapes.{AllIds};
ghost use Rattle.formula_store.specs.declared.id.FormulaId.{FormulaId};
ghost use Rattle.formula_store.specs.Nodes.{IsId, AreNodes, tree};
ghost use Rattle.formula_store.specs.Order.{IsOrder};
ghost use Rattle.free_names.specs.Scopes.{IsIn};
ghost use Rattle.free_names.specs.Missing.{AreMissing, IsThere, IsSound, numbers_at};

use formula_store::{FormulaId, Store};
use formula_tree::Shape;
use linear_forms::Linear;
use normal_atoms::Atom;
use std::alloc::{AllocError, Global};
use std::collections::{BTreeSet, HashMap};

/// Lists of numbers by the ids of formulas.
pub(crate) type Table = HashMap<FormulaId, Vec<usize>>;

/// Puts into the table, for a formula and all that stand in it, the free numbers that have no entry.
pub(crate) fn look_into(
    alloc: Global,
    store: &Store,
    id: FormulaId,
    valued: &BTreeSet<usize>,
    table: &mut Table,
) -> Result<(), AllocError>
    requires id { IsId store.now id }
    requires sound { IsSound store.now (contains nat_cmp valued.now) table.old }
    ensures sound { OnOk result (IsSound store.now (contains nat_cmp valued.now) table.new) }
    ensures there { OnOk result (IsThere table.new id) }
{
    let ids = subformulas(store, id)?;
    for id in &ids {
        let numbers = node_missing(alloc, store, *id, valued, table)?;
        table.insert(*id, numbers).map_err(|_| AllocError)?;
    }
    Ok(())
}

/// The distinct subformulas, members first.
fn subformulas(store: &Store, id: FormulaId) -> Result<Vec<FormulaId>, AllocError>
    requires { IsId store.now id }
    ensures order { IfOk result (λ ids. IsOrder store.now (id ∷ []) ids.items) }
    ensures nodes { AreNodes store.now }
{
    match store.subformulas(id) {
        Ok(ids) => Ok(ids),
        Err(_) => Err(AllocError),
    }
}

/// The free numbers of one formula that have no entry, from those of its members.
fn node_missing(
    alloc: Global,
    store: &Store,
    id: FormulaId,
    valued: &BTreeSet<usize>,
    table: &Table,
) -> Result<Vec<usize>, AllocError>
    requires id { IsId store.now id }
    requires sound { IsSound store.now (contains nat_cmp valued.now) table.now }
    requires members { (n : Shape FormulaId) → slice_get store.now id.number ≡ Some n → AllIds (IsThere table.now) n }
    ensures { IfOk result (λ v. AreMissing (IsFree (tree store.now id)) (contains nat_cmp valued.now) v.items) }
{
    match store.shape(id) {
        Shape::True | Shape::False => Ok(Vec::new(alloc)),
        Shape::One(atom) => atom_missing(alloc, atom, valued),
        Shape::And(ids) | Shape::Or(ids) => union(alloc, ids.items(), table),
        Shape::Not(member) => union(alloc, &[*member], table),
        Shape::Impl(left, right) | Shape::Repl(left, right) | Shape::Equiv(left, right) => {
            union(alloc, &[*left, *right], table)
        }
        Shape::Ex(x, member) | Shape::All(x, member) => {
            without(alloc, x.number, numbers(table, *member))
        }
    }
}

/// The numbers of an atom that have no entry.
fn atom_missing(
    alloc: Global,
    atom: &Atom,
    valued: &BTreeSet<usize>,
) -> Result<Vec<usize>, AllocError>
    ensures { IfOk result (λ v. AreMissing (Mentions (atom_of atom.now)) (contains nat_cmp valued.now) v.items) }
{
    match atom {
        Atom::Compare(_, form) => form_missing(alloc, form, valued),
        Atom::Congruent { form, .. } => form_missing(alloc, form, valued),
    }
}

/// The numbers of a form that have no entry.
fn form_missing(
    alloc: Global,
    form: &Linear,
    valued: &BTreeSet<usize>,
) -> Result<Vec<usize>, AllocError>
    ensures { IfOk result (λ v. AreMissing (λ n. ¬ (coefficient n form.now ≡ pos 0)) (contains nat_cmp valued.now) v.items) }
{
    let mut missing = Vec::new(alloc);
    let _sorted = form.constant_part();
    for place in 0..form.places() {
        if let Some((name, _)) = form.term(place) {
            if !valued.contains(&name.number) {
                missing.push(name.number)?;
            }
        }
    }
    Ok(missing)
}

/// The numbers that the table has for a formula.
pub(crate) fn numbers(table: &Table, id: FormulaId) -> &[usize]
    requires { IsThere table.now id }
    ensures { result.now ≡ numbers_at table.now id }
{
    table.get(&id).unwrap()
}

/// The numbers that the table has for some of the formulas, each once.
fn union(alloc: Global, ids: &[FormulaId], table: &Table) -> Result<Vec<usize>, AllocError>
    requires { AllByRecursion (IsThere table.now) ids.now }
    ensures { IfOk result (λ v. (n : ℕ) → IsIn n v.items ↔ SomeOf (λ id. IsIn n (numbers_at table.now id)) ids.now) }
{
    let mut seen = BTreeSet::new(alloc);
    let mut union = Vec::new(alloc);
    for id in ids {
        add(numbers(table, *id), &mut seen, &mut union)?;
    }
    Ok(union)
}

/// Adds the numbers that were not seen yet.
fn add(
    numbers: &[usize],
    seen: &mut BTreeSet<usize>,
    union: &mut Vec<usize>,
) -> Result<(), AllocError>
    requires { (n : ℕ) → IsTrue (contains nat_cmp seen.old n) ↔ IsIn n union.old.items }
    ensures same { OnOk result ((n : ℕ) → IsTrue (contains nat_cmp seen.new n) ↔ IsIn n union.new.items) }
    ensures added { OnOk result ((n : ℕ) → IsIn n union.new.items ↔ (IsIn n union.old.items ⊎ IsIn n numbers.now)) }
{
    for number in numbers {
        if seen.insert(*number)? {
            union.push(*number)?;
        }
    }
    Ok(())
}

/// The numbers but for one.
fn without(alloc: Global, number: usize, numbers: &[usize]) -> Result<Vec<usize>, AllocError>
    ensures { IfOk result (λ v. (n : ℕ) → IsIn n v.items ↔ ((¬ (number ≡ n)) × IsIn n numbers.now)) }
{
    let mut rest = Vec::new(alloc);
    for other in numbers {
        if *other != number {
            rest.push(*other)?;
        }
    }
    Ok(rest)
}
