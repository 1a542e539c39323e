//! The guards of points, joined with formulas of a store.

ghost use Rattle.std.specs.Prelude.{IfOk};
ghost use Rattle.logic_meaning.specs.BothTheories.{IsPlaceIn};
ghost use Rattle.normal_atoms.specs.Atoms.{context_of};
ghost use Rattle.formula_tree.specs.Makers.{IsMade, Keeps};
ghost use Rattle.formula_store.specs.Nodes.{tree, IsId};
ghost use Rattle.test_points.specs.Points.{place_of, IsTestPoint};
ghost use Rattle.virtual_subst.specs.Guarded.{guarded};

use crate::folding::{fold, normal_made};
use formula_store::{FormulaId, Store};
use logic_meaning::Junction;
use normal_atoms::Context;
use std::alloc::{AllocError, Global};
use test_points::{TestPoint, guard};

/// Over the integers the formula joined with the guard of the point (Cooper 1972), over the fields itself. The formulas of the
/// store stay.
pub fn with_guard(
    alloc: Global,
    store: &mut Store,
    context: Context,
    put: FormulaId,
    point: &TestPoint,
) -> Result<FormulaId, AllocError>
    requires id { IsId store.old put }
    requires point { IsTestPoint point.now }
    requires place { IsPlaceIn (context_of context) (place_of point.now) }
    ensures made { IfOk result (λ id. IsMade (IsId store.new) (tree store.new) id (guarded (context_of context) (place_of point.now) (tree store.old put))) }
    ensures kept { Keeps (IsId store.old) (tree store.old) (IsId store.new) (tree store.new) }
{
    match context {
        Context::Fields => Ok(put),
        Context::Integers => {
            let Ok(normal) = guard(alloc, point) else {
                return Err(AllocError);
            };
            let condition = normal_made(store, normal)?;
            fold(alloc, store, Junction::Conjunction, &[condition, put])
        }
    }
}
