//! What is left of a branch at one point, pruned under the assumptions.

ghost use Rattle.std.specs.Prelude.{◌≡◌, ◌≤◌, IfOk, MatchOption, map};
ghost use Rattle.logic_meaning.specs.Formula.{No};
ghost use Rattle.logic_meaning.specs.BothTheories.{IsPlaceIn};
ghost use Rattle.elimination_theory.specs.Theorems.{IsTidy};
ghost use Rattle.normal_atoms.specs.Atoms.{context_of, atom_of};
ghost use Rattle.formula_tree.specs.Makers.{IsMade, Keeps};
ghost use Rattle.formula_store.specs.Nodes.{tree, IsId};
ghost use Rattle.test_points.specs.Points.{place_of, IsTestPoint};
ghost use Rattle.branch_rounds.specs.Worked.{guarded, IsWork, IsLeft};

use crate::work::Work;
use branch_pruning::{Reach, pruned};
use formula_store::{FormulaId, Store};
use formula_tree::Shape;
use logic_meaning::Junction;
use normal_atoms::Context;
use std::alloc::{AllocError, Global};
use test_points::{TestPoint, guard};
use virtual_subst::{fold, normal_made};

impl Work<'_> {
    /// The formula into which a point was put, over the integers joined with the point's guard (Cooper 1972), and pruned under the
    /// assumptions; `None` where nothing is left but `false`. Its only error is want of memory. The formulas of the store stay.
    pub(crate) fn left_at(
        &self,
        store: &mut Store,
        put: FormulaId,
        point: &TestPoint,
        reach: Reach,
        effort: &mut u64,
    ) -> Result<Option<FormulaId>, AllocError>
        requires work { IsWork self.now }
        requires id { IsId store.old put }
        requires point { IsTestPoint point.now }
        requires place { IsPlaceIn (context_of self.now.context) (place_of point.now) }
        requires tidy { IsTidy (context_of self.now.context) (guarded (context_of self.now.context) (place_of point.now) (tree store.old put)) }
        ensures left { IfOk result (IsLeft (context_of self.now.context) (map atom_of self.now.assumed.now) (guarded (context_of self.now.context) (place_of point.now) (tree store.old put)) store.new) }
        ensures kept { Keeps (IsId store.old) (tree store.old) (IsId store.new) (tree store.new) }
    {
        let whole = self.with_guard(store, put, point)?;
        let left = pruned(
            self.alloc,
            store,
            self.context,
            self.assumed,
            whole,
            reach,
            effort,
        )?;
        Ok(unless_false(store, left))
    }

    // Over the integers the formula joined with the guard of the point, over the fields itself.
    fn with_guard(
        &self,
        store: &mut Store,
        put: FormulaId,
        point: &TestPoint,
    ) -> Result<FormulaId, AllocError>
        requires id { IsId store.old put }
        requires point { IsTestPoint point.now }
        requires place { IsPlaceIn (context_of self.now.context) (place_of point.now) }
        ensures made { IfOk result (λ id. IsMade (IsId store.new) (tree store.new) id (guarded (context_of self.now.context) (place_of point.now) (tree store.old put))) }
        ensures kept { Keeps (IsId store.old) (tree store.old) (IsId store.new) (tree store.new) }
    {
        match self.context {
            Context::Fields => Ok(put),
            Context::Integers => {
                let Ok(normal) = guard(self.alloc, point) else {
                    return Err(AllocError);
                };
                let condition = normal_made(store, normal)?;
                fold(self.alloc, store, Junction::Conjunction, &[condition, put])
            }
        }
    }
}

// The formula, unless it is `false`.
fn unless_false(store: &Store, id: FormulaId) -> Option<FormulaId>
    requires { IsId store.now id }
    ensures { MatchOption result (tree store.now id ≡ No) (λ left. left ≡ id) }
{
    match store.shape(id) {
        Shape::False => None,
        _ => Some(id),
    }
}
