//! The sentence that is checked.

ghost use Rattle.std.specs.Prelude.{◌≡◌, map, IfOk};
ghost use Rattle.std.specs.List.{AllByRecursion};
ghost use Rattle.formula_tree.specs.Makers.{IsMade, Keeps};
ghost use Rattle.formula_store.specs.Nodes.{tree, IsId};
ghost use Rattle.sample_reference.specs.Leading.{under_names};
ghost use Rattle.smt_theorems.specs.Resolved.{conjunction};

use formula_store::{FormulaId, Store};
use formula_tree::{Ids, Maker, Shape};
use logic_meaning::VarId;
use std::alloc::{AllocError, Global};

/// The formulas joined by `and` under `ex` of the first so many names, the first one outermost.
pub(crate) fn sentence_of(
    alloc: Global,
    store: &mut Store,
    asserted: &[FormulaId],
    count: usize,
) -> Result<FormulaId, AllocError>
    requires { AllByRecursion (IsId store.old) asserted.now }
    ensures made { IfOk result (λ id. IsMade (IsId store.new) (tree store.new) id (under_names 0 count (conjunction (map (tree store.old) asserted.now)))) }
    ensures kept { Keeps (IsId store.old) (tree store.old) (IsId store.new) (tree store.new) }
{
    let mut formula = joined(alloc, store, asserted)?;
    let mut level = count;
    'levels: while level > 0 {
        level -= 1;
        formula = store.make(Shape::Ex(VarId { number: level }, formula))?;
    }
    Ok(formula)
}

/// The formulas joined by `and`: one alone stands for itself, and none is true.
fn joined(alloc: Global, store: &mut Store, asserted: &[FormulaId]) -> Result<FormulaId, AllocError>
    requires { AllByRecursion (IsId store.old) asserted.now }
    ensures made { IfOk result (λ id. IsMade (IsId store.new) (tree store.new) id (conjunction (map (tree store.old) asserted.now))) }
    ensures kept { Keeps (IsId store.old) (tree store.old) (IsId store.new) (tree store.new) }
{
    match asserted {
        [] => Ok(store.make(Shape::True)?),
        [one] => Ok(*one),
        several => {
            let ids = several.iter().copied().collect(alloc)?;
            Ok(store.make(Shape::And(Ids::of(ids)))?)
        }
    }
}
