// The truth of a formula of a store where a name has a value and all others are 0, each distinct subformula evaluated once.
ghost use Rattle.std.specs.Prelude.{◌≡◌, Some, IfOk, slice_get};
ghost use Rattle.std.specs.List.{AllByRecursion};
ghost use Rattle.formula_tree.specs.declared.shape.Shape.{Shape};
ghost use Rattle.formula_tree.specs.Shapes.{AllIds};
ghost use Rattle.formula_store.specs.declared.id.FormulaId.{FormulaId};
ghost use Rattle.formula_store.specs.Nodes.{tree, IsId};
ghost use Rattle.linear_theory.specs.Answer.{truth_by};
ghost use Rattle.linear_opt.specs.Values.{told};
ghost use Rattle.linear_opt.specs.Truths.{IsListed, HasTruth, IsThere, truth_in, all_of, some_of};

use crate::atoms::{Value, is_true};
use formula_store::{FormulaId, Store};
use formula_tree::Shape;
use logic_meaning::VarId;
use std::alloc::AllocError;
use std::collections::HashMap;

/// A formula of a store, and its distinct subformulas, members first.
#[derive(Drop)]
pub(crate) struct Listed<'s> {
    pub(crate) store: &'s Store,
    pub(crate) root: FormulaId,
    pub(crate) ids: &'s [FormulaId],
}

/// Truths by the ids of formulas.
pub(crate) type Table = HashMap<FormulaId, bool>;

impl Listed<'_> {
    /// Whether the formula, which has no quantifiers, is true where the name has the value and all others are 0. The truths of
    /// its subformulas are put into the table, over those that are there.
    pub(crate) fn truth(
        &self,
        z: VarId,
        value: Value,
        table: &mut Table,
    ) -> Result<bool, AllocError>
        requires { IsListed self.now }
        ensures { IfOk result (λ truth. truth ≡ truth_by (told z.number value) (tree self.now.store.now self.now.root)) }
    {
        for id in self.ids {
            let truth = node_truth(self.store, z, value, *id, table);
            table.insert(*id, truth)?;
        }
        Ok(truth_in(table, self.root))
    }
}

// The truth of one formula there, from those of its members.
fn node_truth(store: &Store, z: VarId, value: Value, id: FormulaId, table: &Table) -> bool
    requires id { IsId store.now id }
    requires members { (n : Shape FormulaId) → slice_get store.now id.number ≡ Some n → AllIds (HasTruth (told z.number value) store.now table.now) n }
    ensures { result ≡ truth_by (told z.number value) (tree store.now id) }
{
    match store.shape(id) {
        Shape::True => true,
        Shape::False => false,
        Shape::One(atom) => is_true(z, value, atom),
        Shape::And(ids) => all_true(table, ids.items()),
        Shape::Or(ids) => some_true(table, ids.items()),
        Shape::Not(f) => !truth_in(table, *f),
        Shape::Impl(f, g) => !truth_in(table, *f) || truth_in(table, *g),
        Shape::Repl(f, g) => truth_in(table, *f) || !truth_in(table, *g),
        Shape::Equiv(f, g) => truth_in(table, *f) == truth_in(table, *g),
        Shape::Ex(..) | Shape::All(..) => false,
    }
}

// The truth that the table has for a formula.
fn truth_in(table: &Table, id: FormulaId) -> bool
    requires { IsThere table.now id }
    ensures { result ≡ truth_in table.now id }
{
    *table.get(&id).unwrap()
}

// Whether each of the formulas is true.
fn all_true(table: &Table, ids: &[FormulaId]) -> bool
    requires { AllByRecursion (IsThere table.now) ids.now }
    ensures { result ≡ all_of (truth_in table.now) ids.now }
{
    for id in ids {
        if !truth_in(table, *id) {
            return false;
        }
    }
    true
}

// Whether some of the formulas is true.
fn some_true(table: &Table, ids: &[FormulaId]) -> bool
    requires { AllByRecursion (IsThere table.now) ids.now }
    ensures { result ≡ some_of (truth_in table.now) ids.now }
{
    for id in ids {
        if truth_in(table, *id) {
            return true;
        }
    }
    false
}
