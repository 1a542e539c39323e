//! Many test points put into one formula, and what is made taken into the store.

ghost use Rattle.std.specs.Prelude.{◌≡◌, ◌≤◌, ◌++◌, ◌∷◌, [], All, OnOk, IfOk, IfErr, length, map, false};
ghost use Rattle.std.specs.List.{AllByRecursion};
ghost use Rattle.logic_meaning.specs.Plain.{IsPlain};
ghost use Rattle.logic_meaning.specs.Some.{SomeOf};
ghost use Rattle.formula_laws.specs.Equivalence.{InContext};
ghost use Rattle.normal_atoms.specs.Atoms.{context_of};
ghost use Rattle.formula_tree.specs.Makers.{AreMade, Keeps};
ghost use Rattle.formula_store.specs.Changes.{tree_on};
ghost use Rattle.formula_store.specs.Nodes.{tree, IsId};
ghost use Rattle.nnf_trees.specs.Placed.{put, all_within};
ghost use Rattle.test_points.specs.Points.{place_of};
ghost use Rattle.virtual_subst.specs.Shared.{IsAtPlace, AreTruths};

use crate::atoms::At;
use crate::error::SubstError;
use crate::putting::put_in;
use crate::sharing::substitute_all;
use crate::truths::Truths;
use formula_store::{Delta, FormulaId, Store};
use normal_atoms::Context;
use qe_parallel::{FanError, Gate};
use std::alloc::{AllocError, Global};
use std::thread::Threads;
use test_points::TestPoint;

/// The formula at each of the points, in their order, as `substitute_all` makes it by at most so many threads at once, taken into
/// the store; by one thread where the gate does not share out the nodes of all points. `Overflow` comes only where a number that is formed for an atom at some point passes 2^127 - 1, else `Memory`. The
/// formulas of the store stay.
pub fn put_at_all<R: Threads + Sync, G: Gate + Sync>(
    rt: &R,
    alloc: Global,
    store: &mut Store,
    context: Context,
    branch: FormulaId,
    points: &[TestPoint],
    workers: usize,
    gate: &G,
) -> Result<Vec<FormulaId>, SubstError>
    requires id { IsId store.old branch }
    requires plain { IsPlain (tree store.old branch) }
    requires in_context { InContext (context_of context) (tree store.old branch) }
    requires places { All (IsAtPlace context) points.now }
    requires workers { 1 ≤ workers }
    ensures made { IfOk result (λ ids. AreMade (IsId store.new) (tree store.new) ids.items (map (λ t. put (context_of context) t.name.number (place_of t) (tree store.old branch)) points.now)) }
    ensures overflow { IfErr result (λ e. e ≡ SubstError.Overflow → SomeOf (λ t. all_within (context_of context) t.name.number (place_of t) (tree store.old branch) ≡ false) points.now) }
    ensures kept { Keeps (IsId store.old) (tree store.old) (IsId store.new) (tree store.new) }
{
    let workers = threads(store, branch, points, workers, gate);
    let truths = Truths::of(store)?;
    if workers == 1 {
        put_each(alloc, store, context, branch, points, truths)
    } else {
        put_beside(rt, alloc, store, context, branch, points, workers, gate)
    }
}

// By how many of the threads the points are put in: by all where the gate shares out their nodes, else by one.
fn threads<G: Gate>(
    store: &Store,
    branch: FormulaId,
    points: &[TestPoint],
    workers: usize,
    gate: &G,
) -> usize
    requires id { IsId store.now branch }
    requires workers { 1 ≤ workers }
    ensures some { 1 ≤ result }
    ensures most { result ≤ workers }
{
    if workers < 2 || points.len() < 2 {
        return 1;
    }
    let nodes = store.facts(branch).nodes;
    let shared = gate.shares(nodes.saturating_mul(points.len() as u64));
    if shared { workers } else { 1 }
}

// The same by many threads: made beside the store, which they only read, and then taken in.
fn put_beside<R: Threads + Sync, G: Gate + Sync>(
    rt: &R,
    alloc: Global,
    store: &mut Store,
    context: Context,
    branch: FormulaId,
    points: &[TestPoint],
    workers: usize,
    gate: &G,
) -> Result<Vec<FormulaId>, SubstError>
    requires id { IsId store.old branch }
    requires plain { IsPlain (tree store.old branch) }
    requires in_context { InContext (context_of context) (tree store.old branch) }
    requires places { All (IsAtPlace context) points.now }
    requires workers { 1 ≤ workers }
    ensures made { IfOk result (λ ids. AreMade (IsId store.new) (tree store.new) ids.items (map (λ t. put (context_of context) t.name.number (place_of t) (tree store.old branch)) points.now)) }
    ensures overflow { IfErr result (λ e. e ≡ SubstError.Overflow → SomeOf (λ t. all_within (context_of context) t.name.number (place_of t) (tree store.old branch) ≡ false) points.now) }
    ensures kept { Keeps (IsId store.old) (tree store.old) (IsId store.new) (tree store.new) }
{
    match substitute_all(rt, alloc, store, context, branch, points, workers, gate) {
        Ok(deltas) => Ok(taken_in(alloc, store, deltas)?),
        Err(FanError::Piece { stop, .. }) => Err(stop),
        Err(FanError::Memory) => Err(SubstError::Memory),
    }
}

// The same by one thread: made in the store itself, the formulas that `put_beside` makes beside it and takes in.
fn put_each(
    alloc: Global,
    store: &mut Store,
    context: Context,
    branch: FormulaId,
    points: &[TestPoint],
    truths: Truths,
) -> Result<Vec<FormulaId>, SubstError>
    requires id { IsId store.old branch }
    requires plain { IsPlain (tree store.old branch) }
    requires in_context { InContext (context_of context) (tree store.old branch) }
    requires places { All (IsAtPlace context) points.now }
    requires truths { AreTruths store.old truths }
    ensures made { IfOk result (λ ids. AreMade (IsId store.new) (tree store.new) ids.items (map (λ t. put (context_of context) t.name.number (place_of t) (tree store.old branch)) points.now)) }
    ensures overflow { IfErr result (λ e. e ≡ SubstError.Overflow → SomeOf (λ t. all_within (context_of context) t.name.number (place_of t) (tree store.old branch) ≡ false) points.now) }
    ensures kept { Keeps (IsId store.old) (tree store.old) (IsId store.new) (tree store.new) }
{
    let Ok(ids) = store.subformulas(branch) else {
        return Err(SubstError::Memory);
    };
    let mut made = Vec::with_capacity(alloc, points.len())?;
    for point in points {
        match put_in(alloc, At { context, point }, truths, store, &ids, branch) {
            Ok(id) => push_id(&mut made, id)?,
            Err(error) => return Err(error),
        }
    }
    Ok(made)
}

// Puts an id last.
fn push_id(ids: &mut Vec<FormulaId>, id: FormulaId) -> Result<(), AllocError>
    ensures { OnOk result (ids.new.items ≡ ids.old.items ++ id ∷ []) }
{
    ids.push(id)?;
    Ok(())
}

// What was made beside the store, taken in one after the other.
fn taken_in(
    alloc: Global,
    store: &mut Store,
    deltas: Vec<Delta>,
) -> Result<Vec<FormulaId>, AllocError>
    requires { AllByRecursion (λ d. d.begun ≤ length store.old) deltas.items }
    ensures made { IfOk result (λ ids. AreMade (IsId store.new) (tree store.new) ids.items (map (tree_on store.old) deltas.items)) }
    ensures kept { Keeps (IsId store.old) (tree store.old) (IsId store.new) (tree store.new) }
{
    let mut ids = Vec::new(alloc);
    for delta in deltas {
        let Ok(id) = store.absorb(delta) else {
            return Err(AllocError);
        };
        ids.push(id)?;
    }
    Ok(ids)
}
