//! What the branches of a question say.

ghost use Rattle.std.specs.Prelude.{◌≡◌, ◌<◌, IfSome, IsTrue, length};
ghost use Rattle.logic_meaning.specs.Formula.{No};
ghost use Rattle.logic_meaning.specs.Some.{EachOf};
ghost use Rattle.formula_store.specs.Nodes.{tree, IsId};
ghost use Rattle.short_answers.specs.Branches.{IsToldBy};

use branch_rounds::Branch;
use formula_store::{FormulaId, Store};
use formula_tree::Shape;
use test_points::TestPoint;

/// At which points formulas are true together: nowhere, where the names are put at these test points, the last one first, or it is
/// not known.
#[derive(Drop)]
pub(crate) enum Answer {
    Nowhere,
    At(Vec<TestPoint>),
    Unknown,
}

/// What the branches of a block of all names say.
pub(crate) fn answer_of(store: &Store, mut branches: Vec<Branch>) -> Answer
    requires { EachOf (λ b. IsId store.now b.formula) branches.items }
    ensures { IsToldBy store.now branches.items result }
{
    if are_false(store, &branches) {
        return Answer::Nowhere;
    }
    match true_one(store, &branches) {
        Some(place) => Answer::At(branches.remove(place).into_answers()),
        None => Answer::Unknown,
    }
}

// Whether each of the branches is `false`.
fn are_false(store: &Store, branches: &[Branch]) -> bool
    requires { EachOf (λ b. IsId store.now b.formula) branches.now }
    ensures { IsTrue result → EachOf (λ b. tree store.now b.formula ≡ No) branches.now }
{
    for branch in branches {
        if !is_false(store, branch.formula()) {
            return false;
        }
    }
    true
}

// Where the first branch stands that is `true`.
fn true_one(store: &Store, branches: &[Branch]) -> Option<usize>
    requires { EachOf (λ b. IsId store.now b.formula) branches.now }
    ensures { IfSome result (λ place. place < length branches.now) }
{
    for (place, branch) in branches.iter().enumerate() {
        if is_true(store, branch.formula()) {
            return Some(place);
        }
    }
    None
}

// Whether the formula is `false`.
fn is_false(store: &Store, id: FormulaId) -> bool
    requires { IsId store.now id }
    ensures { IsTrue result → tree store.now id ≡ No }
{
    matches!(store.shape(id), Shape::False)
}

// Whether the formula is `true`.
fn is_true(store: &Store, id: FormulaId) -> bool
    requires { IsId store.now id }
{
    matches!(store.shape(id), Shape::True)
}
