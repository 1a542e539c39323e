//! The reference sample of a formula at a point.

ghost use Rattle.std.specs.Prelude.{IfOk, IfErr};
ghost use Rattle.logic_meaning.specs.Every.{Every};
ghost use Rattle.logic_meaning.specs.Point.{Of};
ghost use Rattle.normal_atoms.specs.Atoms.{context_of};
ghost use Rattle.logic_meaning.specs.NormalForm.{IsNormal};
ghost use Rattle.linear_forms.specs.Values.{point_of};
ghost use Rattle.reference_engine.specs.Told.{StopsWith};
ghost use Rattle.formula_tree.specs.Makers.{Keeps};
ghost use Rattle.formula_store.specs.Nodes.{tree, IsId};
ghost use Rattle.logic_meaning.specs.ReferenceSample.{reference_sample};
ghost use Rattle.sample_reference.specs.TrueSample.{IsTrueSample};
ghost use Rattle.sample_reference.specs.Seen.{sample_of};

use exact_numbers::Fraction;
use formula_store::{FormulaId, Store};
use linear_forms::Values;
use logic_meaning::VarId;
use normal_atoms::Context;
use plain_samples::sample_at;
use reference_engine::{Measured, unfolded_form};
use std::alloc::Global;

/// The reference sample of the formula at the point. `Nodes` comes exactly where it costs more than `limit` nodes, and `Overflow`
/// exactly where a number passes 2^127 - 1 before that, else `Memory`. The formulas of the store stay.
pub(crate) fn plain_sample(
    alloc: Global,
    store: &mut Store,
    context: Context,
    id: FormulaId,
    at: &Values,
    limit: u64,
) -> Result<Option<Vec<(VarId, Fraction)>>, Measured>
    requires id { IsId store.old id }
    requires normal { Every (IsNormal (context_of context)) (tree store.old id) }
    requires point { Of (context_of context) (point_of at.now) }
    ensures truth { IfOk result (λ o. IsTrueSample (context_of context) (tree store.old id) (point_of at.now) (sample_of o)) }
    ensures stops { IfErr result (λ e. StopsWith e (reference_sample (context_of context) limit (point_of at.now) (tree store.old id))) }
    ensures kept { Keeps (IsId store.old) (tree store.old) (IsId store.new) (tree store.new) }
{
    match unfolded_form(alloc, store, id, limit) {
        Ok(form) => sample_at(alloc, &form, context, at, limit),
        Err(error) => Err(error),
    }
}
