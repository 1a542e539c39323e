//! What was made beside a store, made again in one.

ghost use Rattle.std.specs.Prelude.{◌≡◌, ◌≤◌, ◌<◌, ◌+◌, IfOk, length};
ghost use Rattle.formula_tree.specs.Makers.{IsMade, Keeps};
ghost use Rattle.formula_store.specs.Nodes.{tree, IsId, AreNodes};
ghost use Rattle.formula_store.specs.Changes.{tree_on, Grows};

use crate::delta::Delta;
use crate::id::FormulaId;
use crate::port::Port;
use crate::store::Store;
use std::alloc::{AllocError, Global};

/// Makes the new formulas in the store, one after another, and gives the id of the one that is wanted. After an error some of
/// them are there.
pub(crate) fn taken_in(
    alloc: Global,
    store: &mut Store,
    delta: &Delta,
) -> Result<FormulaId, AllocError>
    requires begun { delta.now.begun ≤ length store.old }
    requires nodes { AreNodes store.old }
    ensures made { IfOk result (λ id. IsMade (IsId store.new) (tree store.new) id (tree_on store.old delta.now)) }
    ensures kept { Keeps (IsId store.old) (tree store.old) (IsId store.new) (tree store.new) }
    ensures few { length store.new ≤ length store.old + length delta.now.own }
    ensures grown { Grows store.old store.new }
{
    let mut ids = Vec::new(alloc);
    for place in 0..delta.len() {
        let port = Port {
            begun: delta.begun(),
            ids: &ids,
        };
        let id = port.made(alloc, delta.shape(place), store)?;
        ids.push(id)?;
    }
    let port = Port {
        begun: delta.begun(),
        ids: &ids,
    };
    Ok(port.id(delta.root()))
}
