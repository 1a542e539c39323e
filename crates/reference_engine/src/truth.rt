//! The truth of a shared formula at a point.

ghost use Rattle.std.specs.Prelude.{◌≡◌, ◌↔◌, ℕ, IsTrue, IfOk, IfErr};
ghost use Rattle.logic_meaning.specs.Every.{Every};
ghost use Rattle.logic_meaning.specs.Point.{Of};
ghost use Rattle.logic_meaning.specs.Tree.{TrueAt};
ghost use Rattle.linear_forms.specs.Values.{point_of};
ghost use Rattle.normal_atoms.specs.Atoms.{context_of};
ghost use Rattle.logic_meaning.specs.NormalForm.{IsNormal, constant_tree};
ghost use Rattle.logic_meaning.specs.Measured.{done};
ghost use Rattle.logic_meaning.specs.Sample.{reference_at};
ghost use Rattle.formula_tree.specs.Makers.{Keeps};
ghost use Rattle.formula_store.specs.Nodes.{IsId, tree};
ghost use Rattle.reference_engine.specs.Told.{StopsWith};

use crate::measured::Measured;
use crate::shared_elimination_eliminate::unfolded_form;
use crate::truths::truth_plain;
use formula_store::{FormulaId, Store};
use linear_forms::Values;
use normal_atoms::Context;
use std::alloc::Global;

/// Whether the shared formula is true at the point, by the reference elimination of its tree with the point put in. `Nodes` comes
/// exactly where that costs more than `limit` nodes, at once where the negation normal form has more, and `Overflow` exactly where
/// a number passes 2^127 - 1 before that, else `Memory`. The formulas of the store stay.
///
/// The recursion is as deep as the tree is high.
pub fn truth_by_elimination(
    alloc: Global,
    store: &mut Store,
    context: Context,
    id: FormulaId,
    at: &Values,
    limit: u64,
) -> Result<bool, Measured>
    requires id { IsId store.old id }
    requires normal { Every (IsNormal (context_of context)) (tree store.old id) }
    requires point { Of (context_of context) (point_of at.now) }
    ensures truth { IfOk result (λ b. IsTrue b ↔ TrueAt (context_of context) (tree store.old id) (point_of at.now)) }
    ensures answer { IfOk result (λ b. (cost : ℕ) × (reference_at (context_of context) limit (point_of at.now) (tree store.old id) ≡ done (constant_tree b, cost))) }
    ensures stops { IfErr result (λ e. StopsWith e (reference_at (context_of context) limit (point_of at.now) (tree store.old id))) }
    ensures kept { Keeps (IsId store.old) (tree store.old) (IsId store.new) (tree store.new) }
{
    let form = unfolded_form(alloc, store, id, limit)?;
    truth_plain(alloc, &form, context, at, limit)
}
