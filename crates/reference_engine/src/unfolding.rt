//! Shared formulas as trees in negation normal form.

ghost use Rattle.std.specs.Prelude.{◌≡◌, ◌≤◌, ◌<◌, IfOk, OnOk, IsErrOf};
ghost use Rattle.logic_meaning.specs.Every.{Every};
ghost use Rattle.logic_meaning.specs.Sizes.{nodes};
ghost use Rattle.logic_meaning.specs.Reference.{normal_tree};
ghost use Rattle.formula_tree.specs.Makers.{Keeps};
ghost use Rattle.formula_tree.specs.Trees.{tree_of};
ghost use Rattle.formula_store.specs.Nodes.{IsId, tree};
ghost use Rattle.nnf_trees.specs.Nnfs.{HasModulus};

use formula_store::{FormulaId, Store, Unfold, nnf};
use formula_tree::Tree;
use std::alloc::Global;

/// The negation normal form of the shared formula, as a tree. `Large` comes exactly where it has more than `limit` nodes, and
/// before it is unfolded, else `Memory`. The formulas of the store stay.
pub fn unfolded(alloc: Global, store: &mut Store, id: FormulaId, limit: u64) -> Result<Tree, Unfold>
    requires { IsId store.old id }
    ensures form { IfOk result (λ t. tree_of t ≡ normal_tree (tree store.old id)) }
    ensures moduli { IfOk result (λ t. Every HasModulus (tree_of t)) }
    ensures small { OnOk result (nodes (normal_tree (tree store.old id)) ≤ limit) }
    ensures large { IsErrOf result Unfold.Large → limit < nodes (normal_tree (tree store.old id)) }
    ensures kept { Keeps (IsId store.old) (tree store.old) (IsId store.new) (tree store.new) }
{
    let Ok(form) = nnf(alloc, store, id, None) else {
        return Err(Unfold::Memory);
    };
    store.unfold(form, limit)
}
