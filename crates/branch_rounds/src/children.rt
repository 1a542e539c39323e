//! What becomes of a branch at each of the points of a name.

ghost use Rattle.std.specs.Prelude.{◌≡◌, ◌↔◌, ◌<◌, ◌≤◌, ◌++◌, ◌∷◌, [], List, All, IfOk, IfErr, IsTrue, length, map, false};
ghost use Rattle.logic_meaning.specs.Formula.{Yes};
ghost use Rattle.logic_meaning.specs.Some.{SomeOf};
ghost use Rattle.logic_meaning.specs.BothTheories.{IsPlaceIn};
ghost use Rattle.elimination_theory.specs.Theorems.{IsTidy};
ghost use Rattle.normal_atoms.specs.Atoms.{context_of, atom_of};
ghost use Rattle.formula_tree.specs.Makers.{AreMade, Keeps};
ghost use Rattle.formula_store.specs.Nodes.{tree, IsId};
ghost use Rattle.nnf_trees.specs.Placed.{put, all_within};
ghost use Rattle.test_points.specs.Points.{place_of, IsTestPoint};
ghost use Rattle.branch_rounds.specs.Worked.{IsWork, guarded};
ghost use Rattle.branch_rounds.specs.declared.children.Child.{Child};
ghost use Rattle.branch_rounds.specs.Children.{AreChildrenOf, HasPoints, IsAdded};

use crate::error::RoundError;
use crate::work::Work;
use branch_points::Chosen;
use branch_pruning::Reach;
use formula_store::{FormulaId, Store};
use formula_tree::Shape;
use qe_parallel::Gate;
use std::alloc::{AllocError, Global};
use std::thread::Threads;
use test_points::TestPoint;
use virtual_subst::{SubstError, put_at_all};

/// A point, and what is left of a branch there.
#[derive(Drop)]
pub(crate) struct Child {
    pub(crate) point: TestPoint,
    pub(crate) formula: FormulaId,
}

impl Work<'_> {
    /// What is left of the branch at the chosen points, put in by threads and each pruned under the assumptions,
    /// without what is `false`; where one of them is `true`, that one alone. `Overflow` comes only where a number that is formed for
    /// an atom at some point passes 2^127 - 1, else `Memory`. The formulas of the store stay.
    pub(crate) fn children<R: Threads + Sync, G: Gate + Sync>(
        &self,
        rt: &R,
        store: &mut Store,
        branch: FormulaId,
        chosen: &Chosen,
        reach: Reach,
        effort: &mut u64,
        gate: &G,
    ) -> Result<Vec<Child>, RoundError>
        requires work { IsWork self.now }
        requires id { IsId store.old branch }
        requires tidy { IsTidy (context_of self.now.context) (tree store.old branch) }
        requires points { HasPoints self.now.context (tree store.old branch) chosen.now }
        ensures children { IfOk result (λ v. AreChildrenOf self.now (tree store.old branch) chosen.now store.new v.items) }
        ensures overflow { IfErr result (λ e. e ≡ RoundError.Overflow → SomeOf (λ t. all_within (context_of self.now.context) t.name.number (place_of t) (tree store.old branch) ≡ false) chosen.now.points.items) }
        ensures word { IfErr result (λ e. ¬ (e ≡ RoundError.Nodes)) }
        ensures kept { Keeps (IsId store.old) (tree store.old) (IsId store.new) (tree store.new) }
    {
        let put = match self.put_at_points(rt, store, branch, &chosen.points, gate) {
            Ok(put) => put,
            Err(error) => return Err(error),
        };
        let mut children = Vec::new(self.alloc);
        for place in 0..put.len() {
            let point = &chosen.points[place];
            if self.add_child(store, &mut children, put[place], point, reach, effort)? {
                return Ok(last_alone(self.alloc, children)?);
            }
        }
        Ok(children)
    }

    // The formula with the name at each of the points.
    fn put_at_points<R: Threads + Sync, G: Gate + Sync>(
        &self,
        rt: &R,
        store: &mut Store,
        branch: FormulaId,
        points: &[TestPoint],
        gate: &G,
    ) -> Result<Vec<FormulaId>, RoundError>
        requires work { IsWork self.now }
        requires id { IsId store.old branch }
        requires tidy { IsTidy (context_of self.now.context) (tree store.old branch) }
        requires points { All IsTestPoint points.now }
        requires places { All (λ t. IsPlaceIn (context_of self.now.context) (place_of t)) points.now }
        ensures made { IfOk result (λ ids. AreMade (IsId store.new) (tree store.new) ids.items (map (λ t. put (context_of self.now.context) t.name.number (place_of t) (tree store.old branch)) points.now)) }
        ensures overflow { IfErr result (λ e. e ≡ RoundError.Overflow → SomeOf (λ t. all_within (context_of self.now.context) t.name.number (place_of t) (tree store.old branch) ≡ false) points.now) }
        ensures word { IfErr result (λ e. ¬ (e ≡ RoundError.Nodes)) }
        ensures kept { Keeps (IsId store.old) (tree store.old) (IsId store.new) (tree store.new) }
    {
        match put_at_all(
            rt,
            self.alloc,
            store,
            self.context,
            branch,
            points,
            self.workers,
            gate,
        ) {
            Ok(put) => Ok(put),
            Err(SubstError::Overflow) => Err(RoundError::Overflow),
            Err(SubstError::Memory) => Err(RoundError::Memory),
        }
    }

    // Puts what is left at one point behind the children, if it is not `false`; whether it is `true`.
    fn add_child(
        &self,
        store: &mut Store,
        children: &mut Vec<Child>,
        put: FormulaId,
        point: &TestPoint,
        reach: Reach,
        effort: &mut u64,
    ) -> Result<bool, AllocError>
        requires work { IsWork self.now }
        requires id { IsId store.old put }
        requires point { IsTestPoint point.now }
        requires place { IsPlaceIn (context_of self.now.context) (place_of point.now) }
        requires tidy { IsTidy (context_of self.now.context) (guarded (context_of self.now.context) (place_of point.now) (tree store.old put)) }
        ensures added { IfOk result (IsAdded self.now (tree store.old put) point.now store.new children.old.items children.new.items) }
        ensures kept { Keeps (IsId store.old) (tree store.old) (IsId store.new) (tree store.new) }
    {
        let Some(formula) = self.left_at(store, put, point, reach, effort)? else {
            return Ok(false);
        };
        let point = point.copy(self.alloc)?;
        children.push(Child { point, formula })?;
        Ok(is_true(store, formula))
    }
}

// The last child alone.
fn last_alone(alloc: Global, mut children: Vec<Child>) -> Result<Vec<Child>, AllocError>
    requires { 0 < length children.items }
    ensures { IfOk result (λ v. (before : List Child) × (last : Child) × (children.items ≡ before ++ last ∷ []) × (v.items ≡ last ∷ [])) }
{
    let Some(last) = children.pop() else {
        unreachable!()
    };
    Ok(vec![in alloc; last]?)
}

/// Whether the formula is `true`.
pub(crate) fn is_true(store: &Store, id: FormulaId) -> bool
    requires { IsId store.now id }
    ensures { IsTrue result ↔ (tree store.now id ≡ Yes) }
{
    match store.shape(id) {
        Shape::True => true,
        _ => false,
    }
}
