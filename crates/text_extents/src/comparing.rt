//! Two formulas of a store compared by their texts.

ghost use Rattle.std.specs.Prelude.{ℕ, IfOk, IfSome, IsTrue};
ghost use Rattle.logic_meaning.specs.Tree.{IsFree};
ghost use Rattle.formula_store.specs.Nodes.{tree, IsId};
ghost use Rattle.text_extents.specs.Extents.{IsExtentOf, IsNeverLarger, IsWritten};

use crate::error::ExtentError;
use crate::extent::Extent;
use formula_store::{FormulaId, Store};
use std::alloc::{AllocError, Global};

// Larger formulas are not compared.
const MOST_NODES: u64 = 100_000;

/// Whether the second formula is seen to have no more nodes than the first, no other names and, whatever its names are, no longer
/// text. It is not seen of a formula with more than 100,000 nodes. Its only error is want of memory.
pub fn is_no_larger(
    alloc: Global,
    store: &Store,
    large: FormulaId,
    small: FormulaId,
) -> Result<bool, AllocError>
    requires large { IsId store.now large }
    requires small { IsId store.now small }
    requires large_written { IsWritten (tree store.now large) }
    requires small_written { IsWritten (tree store.now small) }
    ensures no_larger { IfOk result (λ b. IsTrue b → IsNeverLarger (tree store.now large) (tree store.now small)) }
    ensures names { IfOk result (λ b. IsTrue b → (x : ℕ) → IsFree (tree store.now small) x → IsFree (tree store.now large) x) }
{
    let nodes = store.facts(large).nodes;
    if MOST_NODES < nodes || nodes < store.facts(small).nodes {
        return Ok(false);
    }
    let Some(large) = extent_of(alloc, store, large)? else {
        return Ok(false);
    };
    let Some(small) = extent_of(alloc, store, small)? else {
        return Ok(false);
    };
    Ok(large.covers(&small))
}

// The extent of the formula's text, unless that is too long.
fn extent_of(alloc: Global, store: &Store, id: FormulaId) -> Result<Option<Extent>, AllocError>
    requires id { IsId store.now id }
    requires written { IsWritten (tree store.now id) }
    ensures { IfOk result (λ r. IfSome r (IsExtentOf (tree store.now id))) }
{
    let mut extent = Extent::empty(alloc);
    match extent.formula(store, id) {
        Ok(()) => Ok(Some(extent)),
        Err(ExtentError::Long) => Ok(None),
        Err(ExtentError::Memory) => Err(AllocError),
    }
}
