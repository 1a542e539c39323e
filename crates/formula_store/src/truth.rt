//! The truth of a formula without quantifiers, each of its distinct subformulas evaluated once.

ghost use Rattle.std.specs.Prelude.{◌≡◌, ◌≤◌, ◌<◌, ◌+◌, Bool, not, ◌||◌, true, false, pos, IfOk, IsErrOf, IsTrue, nat_eq, ◌↔◌, Some, MatchOption, length, get_or, slice_get};
ghost use Rattle.std.specs.List.{AllByRecursion};
ghost use Rattle.logic_meaning.specs.Some.{SomeOf};
ghost use Rattle.logic_meaning.specs.Same.{same_atom};
ghost use Rattle.logic_meaning.specs.Sizes.{distinct_count};
ghost use Rattle.logic_meaning.specs.Shape.{IsQuantifierFree};
ghost use Rattle.formula_tree.specs.declared.shape.Shape.{Shape};
ghost use Rattle.formula_tree.specs.Shapes.{AllIds};
ghost use Rattle.formula_tree.specs.FromLinearForms.{point_of};
ghost use Rattle.formula_store.specs.declared.id.FormulaId.{FormulaId};
ghost use Rattle.formula_store.specs.Nodes.{tree, IsId};
ghost use Rattle.formula_store.specs.Truths.{Tells, SomeAtomPasses, IsWholeWhereAsked};

use crate::error::EvalStop;
use crate::id::FormulaId;
use crate::order::{subformulas, unmarked};
use crate::steps::Steps;
use crate::store::Store;
use formula_tree::{Shape, Values, truth};
use std::alloc::Global;
use std::sync::ledger::{Blank, Ledger};

// The truth of a formula at the numbers, each distinct subformula evaluated once, its members before it.
pub(crate) fn truth_shared<L: Ledger>(
    alloc: Global,
    store: &Store,
    root: FormulaId,
    at: &Values,
    steps: &mut Steps<L>,
) -> Result<bool, EvalStop>
    requires id { IsId store.now root }
    requires free { IsQuantifierFree (tree store.now root) }
    requires whole { IsWholeWhereAsked (tree store.now root) at.now.denominator }
    ensures truth { IfOk result (λ b. Tells b (tree store.now root) (point_of at.now)) }
    ensures steps { steps.new ≤ steps.old + distinct_count same_atom nat_eq (tree store.now root) }
    ensures overflow { IsErrOf result EvalStop.Overflow → SomeAtomPasses (tree store.now root) at.now }
{
    let ids = subformulas(alloc, store, &[root])?;
    let mut table = unmarked(alloc, store.len())?;
    for id in &ids {
        steps.tick();
        let Some(truth) = node_truth(store, *id, &table, at) else {
            return Err(EvalStop::Overflow);
        };
        table[id.number] = truth;
    }
    Ok(mark(&table, root))
}

/// The same for a caller that counts no steps.
pub(crate) fn truth_uncounted<L: Ledger>(
    store: &Store,
    root: FormulaId,
    at: &Values,
    blank: Blank,
) -> Result<bool, EvalStop>
    requires id { IsId store.now root }
    requires free { IsQuantifierFree (tree store.now root) }
    requires whole { IsWholeWhereAsked (tree store.now root) at.now.denominator }
    requires name { blank.name ≡ L.name }
    requires parts { blank.parts ≡ L.parts }
    requires some { 0 < L.parts }
    ensures truth { IfOk result (λ b. Tells b (tree store.now root) (point_of at.now)) }
    ensures overflow { IsErrOf result EvalStop.Overflow → SomeAtomPasses (tree store.now root) at.now }
{
    let mut steps: Steps<L> = Steps::begun(blank);
    store.truth_shared(root, at, &mut steps)
}

// The truth of one formula, whose members have theirs in a table; `None` where the value of its atom is not there.
fn node_truth(store: &Store, id: FormulaId, table: &Vec<bool>, at: &Values) -> Option<bool>
    requires id { IsId store.now id }
    requires free { IsQuantifierFree (tree store.now id) }
    requires whole { IsWholeWhereAsked (tree store.now id) at.now.denominator }
    requires size { length table.now.items ≡ length store.now }
    requires members { (n : Shape FormulaId) → slice_get store.now id.number ≡ Some n → AllIds (λ m. Tells (get_or table.now.items m.number false) (tree store.now m) (point_of at.now)) n }
    ensures { MatchOption result (SomeAtomPasses (tree store.now id) at.now) (λ b. Tells b (tree store.now id) (point_of at.now)) }
{
    match store.shape(id) {
        Shape::True => Some(true),
        Shape::False => Some(false),
        Shape::One(atom) => truth(atom, at),
        Shape::And(ids) => Some(!some_is(false, ids.items(), table)),
        Shape::Or(ids) => Some(some_is(true, ids.items(), table)),
        Shape::Not(member) => Some(!mark(table, *member)),
        Shape::Impl(left, right) => Some(!mark(table, *left) | mark(table, *right)),
        Shape::Repl(left, right) => Some(!mark(table, *right) | mark(table, *left)),
        Shape::Equiv(left, right) => Some(mark(table, *left) == mark(table, *right)),
        Shape::Ex(..) | Shape::All(..) => unreachable!(),
    }
}

// The truth that a table has for a formula.
#[tactic(auto, using(crate::proofs::Told::read_default))]
fn mark(table: &Vec<bool>, id: FormulaId) -> bool
    requires { id.number < length table.now.items }
    ensures { result ≡ get_or table.now.items id.number false }
{
    table[id.number]
}

// Whether some of the formulas has this truth.
fn some_is(wanted: bool, ids: &[FormulaId], table: &Vec<bool>) -> bool
    requires { AllByRecursion (λ id. id.number < length table.now.items) ids.now }
    ensures { IsTrue result ↔ SomeOf (λ id. get_or table.now.items id.number false ≡ wanted) ids.now }
{
    for id in ids {
        if table[id.number] == wanted {
            return true;
        }
    }
    false
}
