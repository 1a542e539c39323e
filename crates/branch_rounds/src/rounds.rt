//! One name less in every branch.

ghost use Rattle.std.specs.Prelude.{◌≡◌, ◌<◌, ◌≤◌, ◌+◌, ◌++◌, [], ◌∷◌, IfOk, IfErr, OnOk, MatchResult, IsTrue, ◌↔◌, length, map};
ghost use Rattle.logic_meaning.specs.Answer.{Place};
ghost use Rattle.logic_meaning.specs.Some.{EachOf, SomeOf};
ghost use Rattle.normal_atoms.specs.Atoms.{context_of, atom_of};
ghost use Rattle.logic_meaning.specs.declared.form.VarId.{VarId};
ghost use Rattle.formula_tree.specs.Makers.{Keeps};
ghost use Rattle.formula_store.specs.Nodes.{tree, IsId};
ghost use Rattle.branch_rounds.specs.Worked.{IsWork};
ghost use Rattle.branch_rounds.specs.Branches.{branch_at, IsOpen, Seen, others_of};
ghost use Rattle.branch_rounds.specs.Rounds.{IsStep, IsRound, IsSettled, IsSpreadOver, PassesAt, IsDirectAt, IsLeftAlone};

use crate::branch::Branch;
use crate::budget::Budget;
use crate::children::{Child, is_true};
use crate::error::{RoundError, of_choice};
use crate::spread::Spread;
use crate::work::Work;
use branch_points::chosen;
use branch_pruning::Reach;
use formula_store::Store;
use logic_meaning::VarId;
use qe_parallel::Gate;
use std::alloc::{AllocError, Global};
use std::thread::Threads;
use test_points::TestPoint;

impl Work<'_> {
    /// The branches without one name of each: for each branch those at the points of a name that is left in it. A branch that has
    /// the names left of the last one with its formula is not made again; where one is `true`, it stands alone.
    pub(crate) fn round<R: Threads + Sync, G: Gate + Sync>(
        &self,
        rt: &R,
        budget: &mut Budget,
        store: &mut Store,
        branches: Vec<Branch>,
        gate: &G,
    ) -> Result<Vec<Branch>, RoundError>
        requires work { IsWork self.now }
        requires are_open { EachOf (IsOpen self.now store.old) branches.items }
        requires some { EachOf (λ b. 0 < length b.left) branches.items }
        ensures round { IfOk result (λ v. IsRound self.now store.old branches.items store.new v.items) }
        ensures overflow { IfErr result (λ e. e ≡ RoundError.Overflow → SomeOf (λ b. PassesAt self.now.context (tree store.old b.formula) b.left) branches.items) }
        ensures direct { (b : Seen) (x : VarId) (s : Place) → branches.items ≡ b ∷ [] → IsDirectAt (context_of self.now.context) budget.old.nodes (tree store.old b.formula) b.left x s →
            MatchResult result (λ v. IsLeftAlone (context_of self.now.context) x.number s (tree store.old b.formula) store.new v.items) (λ e. e ≡ RoundError.Memory) }
        ensures kept { Keeps (IsId store.old) (tree store.old) (IsId store.new) (tree store.new) }
    {
        let mut spread = Spread::new(self.alloc);
        for branch in branches {
            let next = match self.step(rt, budget, store, branch, gate) {
                Ok(next) => next,
                Err(error) => return Err(error),
            };
            if settles(store, &next) {
                return Ok(next);
            }
            add_all(&mut spread, next)?;
        }
        Ok(spread.into_branches())
    }

    /// The branches at the points of a name that is left in the branch: no more than the nodes that they cost.
    pub(crate) fn step<R: Threads + Sync, G: Gate + Sync>(
        &self,
        rt: &R,
        budget: &mut Budget,
        store: &mut Store,
        branch: Branch,
        gate: &G,
    ) -> Result<Vec<Branch>, RoundError>
        requires work { IsWork self.now }
        requires are_open { IsOpen self.now store.old branch }
        requires some { 0 < length branch.left }
        ensures step { IfOk result (λ v. IsStep self.now store.old branch store.new v.items) }
        ensures overflow { IfErr result (λ e. e ≡ RoundError.Overflow → PassesAt self.now.context (tree store.old branch.formula) branch.left) }
        ensures direct { (x : VarId) (s : Place) → IsDirectAt (context_of self.now.context) budget.old.nodes (tree store.old branch.formula) branch.left x s →
            MatchResult result (λ v. IsLeftAlone (context_of self.now.context) x.number s (tree store.old branch.formula) store.new v.items) (λ e. e ≡ RoundError.Memory) }
        ensures paid { IfOk result (λ v. budget.new.nodes + length v.items ≤ budget.old.nodes) }
        ensures kept { Keeps (IsId store.old) (tree store.old) (IsId store.new) (tree store.new) }
    {
        let formula = branch.formula();
        let nodes = store.facts(formula).nodes;
        let formulas = store.len();
        budget.begin(formulas);
        let most = budget.most(nodes, formulas);
        let choice = match chosen(
            self.alloc,
            store,
            self.context,
            formula,
            branch.left(),
            most,
        ) {
            Ok(choice) => choice,
            Err(error) => return Err(of_choice(error)),
        };
        if let Err(error) = budget.pay(choice.points.len(), nodes) {
            return Err(error);
        }
        let left = others(self.alloc, branch.left(), choice.name)?;
        let reach = reach_with(&left, choice.points.len());
        let effort = &mut budget.effort;
        let children = match self.children(rt, store, formula, &choice, reach, effort, gate) {
            Ok(children) => children,
            Err(error) => return Err(error),
        };
        Ok(branches_at(self.alloc, branch.points(), children, &left)?)
    }
}

// At so few points a name leaves hardly more branches than there were.
const FEW_POINTS: usize = 2;

// How far what is left at so many points is pruned, with these names left: wholly once it is done, and before that only where branches
// become many.
fn reach_with(left: &[VarId], points: usize) -> Reach {
    if left.is_empty() {
        Reach::Whole
    } else if points <= FEW_POINTS {
        Reach::Nowhere
    } else {
        Reach::Outermost
    }
}

/// Whether the branches are one that is `true`, whose other names do not matter.
pub(crate) fn settles(store: &Store, branches: &[Branch]) -> bool
    requires { EachOf (λ b. IsId store.now b.formula) branches.now }
    ensures { IsTrue result → IsSettled store.now branches.now }
{
    match branches {
        [only] => is_true(store, only.formula()),
        _ => false,
    }
}

// Puts the branches last, as `Spread::add` does.
fn add_all(spread: &mut Spread, branches: Vec<Branch>) -> Result<(), AllocError>
    ensures { OnOk result (IsSpreadOver spread.old branches.items spread.new) }
{
    for branch in branches {
        spread.add(branch)?;
    }
    Ok(())
}

// The names but for one.
fn others(alloc: Global, names: &[VarId], name: VarId) -> Result<Vec<VarId>, AllocError>
    ensures { IfOk result (λ v. v.items ≡ others_of name names.now) }
{
    let mut others = Vec::new(alloc);
    for other in names {
        if other.number != name.number {
            others.push(*other)?;
        }
    }
    Ok(others)
}

// A branch for each child, with its point behind these.
fn branches_at(
    alloc: Global,
    points: &[TestPoint],
    children: Vec<Child>,
    left: &[VarId],
) -> Result<Vec<Branch>, AllocError>
    ensures { IfOk result (λ v. v.items ≡ map (branch_at points.now left.now) children.items) }
{
    let mut branches = Vec::new(alloc);
    for child in children {
        let points = with_last(alloc, points, child.point)?;
        let left = all_of(alloc, left)?;
        branches.push(Branch::of(child.formula, points, left))?;
    }
    Ok(branches)
}

// Copies of the points, and one more behind them.
fn with_last(
    alloc: Global,
    points: &[TestPoint],
    last: TestPoint,
) -> Result<Vec<TestPoint>, AllocError>
    ensures { IfOk result (λ v. v.items ≡ points.now ++ last ∷ []) }
{
    let mut copies = Vec::new(alloc);
    for point in points {
        copies.push(point.copy(alloc)?)?;
    }
    copies.push(last)?;
    Ok(copies)
}

// A copy of the names.
pub(crate) fn all_of(alloc: Global, names: &[VarId]) -> Result<Vec<VarId>, AllocError>
    ensures { IfOk result (λ v. v.items ≡ names.now) }
{
    let mut copies = Vec::new(alloc);
    copies.extend_from_slice(names)?;
    Ok(copies)
}
