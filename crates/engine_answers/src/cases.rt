//! What the cases of a formula without free names tell: each guard is `true` or `false`.

ghost use Rattle.std.specs.Prelude.{◌≡◌, ◌↔◌, IsTrue};
ghost use Rattle.logic_meaning.specs.Formula.{Yes};
ghost use Rattle.logic_meaning.specs.Some.{EachOf, SomeOf};
ghost use Rattle.formula_store.specs.Nodes.{tree, IsId};

use crate::case_tree::Case;
use formula_store::{FormulaId, Store};
use formula_tree::Shape;

/// Whether the guard of some case is `true`.
pub(crate) fn some_true(store: &Store, cases: &[Case]) -> bool
    requires { EachOf (λ k. IsId store.now k.guard) cases.now }
    ensures { IsTrue result ↔ SomeOf (λ k. tree store.now k.guard ≡ Yes) cases.now }
{
    for case in cases {
        if is_true(store, case.guard) {
            return true;
        }
    }
    false
}

// Whether the formula is `true`.
fn is_true(store: &Store, id: FormulaId) -> bool
    requires { IsId store.now id }
    ensures { IsTrue result ↔ (tree store.now id ≡ Yes) }
{
    match store.shape(id) {
        Shape::True => true,
        _ => false,
    }
}
