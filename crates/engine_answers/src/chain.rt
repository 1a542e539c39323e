//! A chain of one quantifier, split from the formula behind it.

ghost use Rattle.std.specs.Prelude.{◌≡◌, ◌≤◌, ◌+◌, [], IfOk, MatchOption, length, map, nat_eq};
ghost use Rattle.logic_meaning.specs.Shape.{block_of, matrix_of};
ghost use Rattle.logic_meaning.specs.Plain.{leading};
ghost use Rattle.formula_store.specs.Nodes.{tree, IsId};
ghost use Rattle.engine_answers.specs.Chains.{Ends, IsUnder, IsSplit};

use formula_store::{FormulaId, Store};
use formula_tree::Shape;
use indexmap::IndexSet;
use logic_meaning::{Quantifier, VarId};
use std::alloc::{AllocError, Global};

// The quantifier with which the formula begins; `ex` where it begins with none.
pub(crate) fn leading(store: &Store, id: FormulaId) -> Quantifier
    requires { IsId store.now id }
    ensures { result ≡ leading (tree store.now id) }
{
    match store.shape(id) {
        Shape::All(..) => Quantifier::ForAll,
        _ => Quantifier::Exists,
    }
}

/// The names of the chain of this quantifier with which the formula begins, each once, and the formula behind them, whose number is
/// smaller by one at least for each name. The chain stops before a name that already stands in it. Its only error is want of
/// memory.
pub fn split(
    alloc: Global,
    store: &Store,
    form: FormulaId,
    quantifier: Quantifier,
) -> Result<(IndexSet<VarId>, FormulaId), AllocError>
    requires { IsId store.now form }
    ensures split { IfOk result (λ r. IsSplit store.now quantifier (tree store.now form) r.0.keys r.1) }
    ensures below { IfOk result (λ r. r.1.number + length r.0.keys ≤ form.number) }
{
    let mut names = IndexSet::new(alloc);
    let mut inner = form;
    while let Some((name, body)) = under(store, inner, quantifier) {
        if !names.insert(name)? {
            break;
        }
        inner = body;
    }
    Ok((names, inner))
}

// The name and the formula under the quantifier, where the formula begins with it.
fn under(store: &Store, id: FormulaId, quantifier: Quantifier) -> Option<(VarId, FormulaId)>
    requires { IsId store.now id }
    ensures { MatchOption result (Ends quantifier (tree store.now id)) (λ r. IsUnder store.now quantifier id r.0 r.1) }
{
    match (store.shape(id), quantifier) {
        (Shape::Ex(name, inner), Quantifier::Exists)
        | (Shape::All(name, inner), Quantifier::ForAll) => Some((*name, *inner)),
        _ => None,
    }
}
