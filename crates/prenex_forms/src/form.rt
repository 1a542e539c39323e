//! The negation normal form of a formula of a store, as a tree.

ghost use Rattle.std.specs.Prelude.{◌≡◌, ◌≤◌, ◌<◌, ◌⊎◌, IfOk, IfErr, OnOk, IsErrOf};
ghost use Rattle.logic_meaning.specs.Sizes.{nodes};
ghost use Rattle.formula_tree.specs.Makers.{Keeps};
ghost use Rattle.formula_store.specs.Nodes.{IsId, tree};
ghost use Rattle.nnf_trees.specs.Nnfs.{nnf_of, IsProper};
ghost use Rattle.prenex_forms.specs.NegationForm.{negation_form};

use formula_store::{FormulaId, Store, Unfold};
use formula_tree::FormError;
use nnf_trees::{Nnf, normal_form};
use reference_engine::unfolded;
use std::alloc::Global;

/// The negation normal form of the formula. `Nodes` comes exactly where it has more than `limit` nodes, and before it is unfolded,
/// else `Memory`. The formulas of the store stay.
pub(crate) fn unfolded_form(
    alloc: Global,
    store: &mut Store,
    id: FormulaId,
    limit: u64,
) -> Result<Nnf, FormError>
    requires { IsId store.old id }
    ensures form { IfOk result (λ f. nnf_of f ≡ negation_form (tree store.old id)) }
    ensures proper { IfOk result IsProper }
    ensures small { OnOk result (nodes (negation_form (tree store.old id)) ≤ limit) }
    ensures nodes { IsErrOf result FormError.Nodes → limit < nodes (negation_form (tree store.old id)) }
    ensures errors { IfErr result (λ e. (e ≡ FormError.Nodes) ⊎ (e ≡ FormError.Memory)) }
    ensures kept { Keeps (IsId store.old) (tree store.old) (IsId store.new) (tree store.new) }
{
    let tree = match unfolded(alloc, store, id, limit) {
        Ok(tree) => tree,
        Err(Unfold::Large) => return Err(FormError::Nodes),
        Err(Unfold::Memory) => return Err(FormError::Memory),
    };
    Ok(normal_form(alloc, &tree, false)?)
}
