//! What is needed of a store, copied into a fresh one.

ghost use Rattle.std.specs.Prelude.{◌≡◌, ◌≤◌, ◌+◌, List, Some, IfOk, OnOk, length, map, get_or, slice_get};
ghost use Rattle.formula_tree.specs.declared.shape.Shape.{Shape};
ghost use Rattle.formula_store.specs.declared.id.FormulaId.{FormulaId};
ghost use Rattle.std.specs.List.{AllByRecursion};
ghost use Rattle.formula_tree.specs.Makers.{AreMade, Keeps};
ghost use Rattle.formula_tree.specs.Shapes.{AllIds};
ghost use Rattle.formula_store.specs.Nodes.{tree, IsId};
ghost use Rattle.formula_store.specs.Order.{IsOrder};
ghost use Rattle.formula_store.specs.Copies.{first_id, Copied};

use crate::id::FormulaId;
use crate::order::subformulas;
use crate::port::Port;
use crate::store::Store;
use std::alloc::{AllocError, Global};

// The id of the first formula, where a table has no other yet.
const FIRST: FormulaId = FormulaId { number: 0 };

/// Makes the formulas again in another store, and gives their ids there, in order.
pub(crate) fn copied(
    alloc: Global,
    store: &Store,
    roots: &[FormulaId],
    into: &mut Store,
) -> Result<Vec<FormulaId>, AllocError>
    requires { AllByRecursion (IsId store.now) roots.now }
    ensures made { IfOk result (λ ids. AreMade (IsId into.new) (tree into.new) ids.items (map (tree store.now) roots.now)) }
    ensures few { OnOk result ((needed : List FormulaId) → IsOrder store.now roots.now needed → length into.new ≤ length into.old + length needed) }
{
    let ids = subformulas(alloc, store, roots)?;
    let mut table = Vec::new(alloc);
    table.resize(store.len(), FIRST)?;
    for id in &ids {
        let copy = copied_node(alloc, store, *id, &table, into)?;
        table[id.number] = copy;
    }
    let port = Port {
        begun: 0,
        ids: &table,
    };
    port.ids(alloc, roots)
}

// Makes one formula in the other store, over the copies of its members.
fn copied_node(
    alloc: Global,
    store: &Store,
    id: FormulaId,
    table: &Vec<FormulaId>,
    into: &mut Store,
) -> Result<FormulaId, AllocError>
    requires id { IsId store.now id }
    requires size { length table.now.items ≡ length store.now }
    requires members { (n : Shape FormulaId) → slice_get store.now id.number ≡ Some n → AllIds (λ m. Copied store.now into.old m (get_or table.now.items m.number first_id)) n }
    ensures copied { IfOk result (Copied store.now into.new id) }
    ensures kept { Keeps (IsId into.old) (tree into.old) (IsId into.new) (tree into.new) }
    ensures few { length into.new ≤ length into.old + 1 }
{
    let port = Port {
        begun: 0,
        ids: table,
    };
    port.made(alloc, store.shape(id), into)
}
