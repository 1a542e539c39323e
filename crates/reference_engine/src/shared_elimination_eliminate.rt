//! The reference elimination of a shared formula.

ghost use Rattle.std.specs.Prelude.{◌≡◌, ◌≤◌, ℕ, IfOk, IfErr, OnOk};
ghost use Rattle.logic_meaning.specs.Every.{Every};
ghost use Rattle.logic_meaning.specs.Sizes.{nodes};
ghost use Rattle.normal_atoms.specs.Atoms.{context_of};
ghost use Rattle.logic_meaning.specs.NormalForm.{IsNormal};
ghost use Rattle.logic_meaning.specs.Measured.{done, pay};
ghost use Rattle.elimination_theory.specs.Theorems.{IsAnswerTo};
ghost use Rattle.logic_meaning.specs.Reference.{normal_tree, reference};
ghost use Rattle.formula_tree.specs.Makers.{Keeps};
ghost use Rattle.formula_tree.specs.Trees.{tree_of};
ghost use Rattle.formula_store.specs.Nodes.{IsId, tree};
ghost use Rattle.nnf_trees.specs.Nnfs.{HasModulus};
ghost use Rattle.reference_engine.specs.Told.{StopsWith};

use crate::eliminate::eliminate_form;
use crate::measured::Measured;
use crate::sharing::share;
use crate::unfolding::unfolded;
use formula_store::{FormulaId, Store, Unfold};
use formula_tree::Tree;
use normal_atoms::Context;
use std::alloc::Global;

/// A formula without quantifiers that is equivalent to the shared one, by the reference elimination of its tree: it has no other
/// free names, normal atoms and at most `limit` nodes. `Nodes` comes exactly where the elimination costs more than `limit` nodes,
/// at once where the negation normal form has more, and `Overflow` exactly where a number passes 2^127 - 1 before that, else
/// `Memory`. The formulas of the store stay.
///
/// The recursion is as deep as the tree is high.
pub fn eliminate_shared(
    alloc: Global,
    store: &mut Store,
    context: Context,
    id: FormulaId,
    limit: u64,
) -> Result<FormulaId, Measured>
    requires id { IsId store.old id }
    requires normal { Every (IsNormal (context_of context)) (tree store.old id) }
    ensures made { IfOk result (λ r. IsId store.new r) }
    ensures answer { IfOk result (λ r. (cost : ℕ) × (reference (context_of context) limit (tree store.old id) ≡ done (tree store.new r, cost))) }
    ensures exact { IfOk result (λ r. IsAnswerTo (context_of context) (tree store.old id) (tree store.new r)) }
    ensures small { IfOk result (λ r. nodes (tree store.new r) ≤ limit) }
    ensures stops { IfErr result (λ e. StopsWith e (reference (context_of context) limit (tree store.old id))) }
    ensures kept { Keeps (IsId store.old) (tree store.old) (IsId store.new) (tree store.new) }
{
    let form = unfolded_form(alloc, store, id, limit)?;
    let answer = eliminate_form(alloc, &form, context, limit)?;
    share(alloc, store, answer).map_err(|_| Measured::Memory)
}

/// The negation normal form of the shared formula, as a tree. `Nodes` comes exactly where it has more than `limit` nodes, and
/// before it is unfolded, else `Memory`. The formulas of the store stay.
pub fn unfolded_form(
    alloc: Global,
    store: &mut Store,
    id: FormulaId,
    limit: u64,
) -> Result<Tree, Measured>
    requires { IsId store.old id }
    ensures form { IfOk result (λ t. tree_of t ≡ normal_tree (tree store.old id)) }
    ensures moduli { IfOk result (λ t. Every HasModulus (tree_of t)) }
    ensures small { OnOk result (nodes (normal_tree (tree store.old id)) ≤ limit) }
    ensures stops { IfErr result (λ e. StopsWith e (pay limit (nodes (normal_tree (tree store.old id))) 0)) }
    ensures kept { Keeps (IsId store.old) (tree store.old) (IsId store.new) (tree store.new) }
{
    match unfolded(alloc, store, id, limit) {
        Ok(tree) => Ok(tree),
        Err(Unfold::Large) => Err(Measured::Nodes),
        Err(Unfold::Memory) => Err(Measured::Memory),
    }
}
