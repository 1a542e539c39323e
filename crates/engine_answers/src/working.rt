//! A formula worked on without its quantifiers, from the inside out.

ghost use Rattle.std.specs.Prelude.{◌≡◌, ℕ, IfOk, IfErr, OnOk, MatchResult, map};
ghost use Rattle.logic_meaning.specs.Every.{Every};
ghost use Rattle.logic_meaning.specs.Fold.{joined, folded};
ghost use Rattle.logic_meaning.specs.Shape.{IsQuantifierFree, quantified};
ghost use Rattle.logic_meaning.specs.Plain.{IsNegationNormal};
ghost use Rattle.logic_meaning.specs.Tree.{Tree, Trees};
ghost use Rattle.normal_atoms.specs.Atoms.{context_of, atom_of};
ghost use Rattle.logic_meaning.specs.NormalForm.{IsNormal};
ghost use Rattle.formula_tree.specs.Makers.{Keeps};
ghost use Rattle.formula_store.specs.Nodes.{tree, IsId};
ghost use Rattle.branch_rounds.specs.Worked.{IsWork, IsWorkedTo};
ghost use Rattle.engine_answers.specs.Without.{IsReady, IsWithout, Remembers};

use crate::assumed::without_names;
use crate::chain::split;
use crate::inner_blocks_block::Block;
use crate::kind::{Kind, kind_of, members_of};
use branch_rounds::{Budget, RoundError, Work, fold};
use formula_store::{FormulaId, Store};
use logic_meaning::{Junction, Quantifier};
use qe_parallel::Gate;
use std::collections::HashMap;
use std::thread::Threads;

// What formulas were worked on to under some assumptions.
type Done = HashMap<FormulaId, FormulaId>;

/// The formula, in negation normal form, worked on without its quantifiers under the assumptions (Loos and Weispfenning 1993, Cooper
/// 1972): blocks from the innermost out, each branch by branch under the assumptions that have none of its names, and what is left
/// of a block simplified under all of them. A chain of one quantifier is one block, each name once. A formula without quantifiers is
/// folded only, and there the only error is `Memory` and the budget stays.
///
/// What the branches of all blocks cost is taken off the budget before anything is put in; `Nodes` comes where it does not suffice,
/// `Overflow` only where a number passes 2^127 - 1, else `Memory`. The formulas of the store stay. Under the same assumptions each
/// distinct subformula is worked on once. The recursion is as deep as the formula is high.
pub fn worked<R: Threads + Sync, G: Gate + Sync>(
    rt: &R,
    work: &Work<'_>,
    budget: &mut Budget,
    store: &mut Store,
    id: FormulaId,
    gate: &G,
) -> Result<FormulaId, RoundError>
    requires work { IsWork work.now }
    requires id { IsId store.old id }
    requires normal { Every (IsNormal (context_of work.now.context)) (tree store.old id) }
    requires form { IsNegationNormal (tree store.old id) }
    ensures worked { IfOk result (IsWorkedTo (context_of work.now.context) (map atom_of work.now.assumed.now) (tree store.old id) store.new) }
    ensures plain { IsQuantifierFree (tree store.old id) → MatchResult result (λ r. tree store.new r ≡ folded (tree store.old id)) (λ e. e ≡ RoundError.Memory) }
    ensures unpaid { IsQuantifierFree (tree store.old id) → budget.new ≡ budget.old }
    ensures kept { Keeps (IsId store.old) (tree store.old) (IsId store.new) (tree store.new) }
{
    let mut done = HashMap::new(work.alloc);
    made(rt, work, budget, store, &mut done, id, gate)
}

// The formula worked on, unless it was already. An atom and a constant stay, and are not remembered.
#[cycle(worked)]
fn remembered<R: Threads + Sync, G: Gate + Sync>(
    rt: &R,
    work: &Work<'_>,
    budget: &mut Budget,
    store: &mut Store,
    done: &mut Done,
    id: FormulaId,
    gate: &G,
) -> Result<FormulaId, RoundError>
    requires work { IsWork work.now }
    requires ready { IsReady (context_of work.now.context) store.old id }
    requires done { Remembers work.now store.old done.old }
    ensures without { IfOk result (IsWithout work.now (tree store.old id) store.new) }
    ensures stops { IsQuantifierFree (tree store.old id) → IfErr result (λ e. e ≡ RoundError.Memory) }
    ensures unpaid { IsQuantifierFree (tree store.old id) → budget.new ≡ budget.old }
    ensures done { OnOk result (Remembers work.now store.new done.new) }
    ensures kept { Keeps (IsId store.old) (tree store.old) (IsId store.new) (tree store.new) }
{
    if let Kind::Itself = kind_of(store, id) {
        return Ok(id);
    }
    if let Some(before) = done.get(&id) {
        return Ok(*before);
    }
    let made = match made(rt, work, budget, store, done, id, gate) {
        Ok(made) => made,
        Err(error) => return Err(error),
    };
    match done.insert(id, made) {
        Ok(_) => Ok(made),
        Err(_) => Err(RoundError::Memory),
    }
}

// The formula worked on by what it begins with.
#[cycle(worked)]
fn made<R: Threads + Sync, G: Gate + Sync>(
    rt: &R,
    work: &Work<'_>,
    budget: &mut Budget,
    store: &mut Store,
    done: &mut Done,
    id: FormulaId,
    gate: &G,
) -> Result<FormulaId, RoundError>
    requires work { IsWork work.now }
    requires ready { IsReady (context_of work.now.context) store.old id }
    requires done { Remembers work.now store.old done.old }
    ensures without { IfOk result (IsWithout work.now (tree store.old id) store.new) }
    ensures stops { IsQuantifierFree (tree store.old id) → IfErr result (λ e. e ≡ RoundError.Memory) }
    ensures unpaid { IsQuantifierFree (tree store.old id) → budget.new ≡ budget.old }
    ensures done { OnOk result (Remembers work.now store.new done.new) }
    ensures kept { Keeps (IsId store.old) (tree store.old) (IsId store.new) (tree store.new) }
{
    match kind_of(store, id) {
        Kind::Itself => Ok(id),
        Kind::List(junction) => list_made(rt, work, budget, store, done, id, junction, gate),
        Kind::Chain(quantifier) => chain_made(rt, work, budget, store, id, quantifier, gate),
    }
}

// A list worked on member by member, and folded.
#[cycle(worked)]
fn list_made<R: Threads + Sync, G: Gate + Sync>(
    rt: &R,
    work: &Work<'_>,
    budget: &mut Budget,
    store: &mut Store,
    done: &mut Done,
    id: FormulaId,
    junction: Junction,
    gate: &G,
) -> Result<FormulaId, RoundError>
    requires work { IsWork work.now }
    requires ready { IsReady (context_of work.now.context) store.old id }
    requires list { (fs : Trees) × (tree store.old id ≡ joined junction fs) }
    requires done { Remembers work.now store.old done.old }
    ensures without { IfOk result (IsWithout work.now (tree store.old id) store.new) }
    ensures stops { IsQuantifierFree (tree store.old id) → IfErr result (λ e. e ≡ RoundError.Memory) }
    ensures unpaid { IsQuantifierFree (tree store.old id) → budget.new ≡ budget.old }
    ensures done { OnOk result (Remembers work.now store.new done.new) }
    ensures kept { Keeps (IsId store.old) (tree store.old) (IsId store.new) (tree store.new) }
{
    let members = members_of(work.alloc, store, id, junction)?;
    let mut parts = Vec::with_capacity(work.alloc, members.len())?;
    for member in &members {
        let part = match remembered(rt, work, budget, store, done, *member, gate) {
            Ok(part) => part,
            Err(error) => return Err(error),
        };
        let Ok(()) = parts.push(part) else {
            return Err(RoundError::Memory);
        };
    }
    Ok(fold(work.alloc, store, junction, &parts)?)
}

// The block of a chain of one quantifier, over the formula behind it.
#[cycle(worked)]
fn chain_made<R: Threads + Sync, G: Gate + Sync>(
    rt: &R,
    work: &Work<'_>,
    budget: &mut Budget,
    store: &mut Store,
    id: FormulaId,
    quantifier: Quantifier,
    gate: &G,
) -> Result<FormulaId, RoundError>
    requires work { IsWork work.now }
    requires ready { IsReady (context_of work.now.context) store.old id }
    requires chain { (x : ℕ) × (g : Tree) × (tree store.old id ≡ quantified quantifier x g) }
    ensures worked { IfOk result (IsWorkedTo (context_of work.now.context) (map atom_of work.now.assumed.now) (tree store.old id) store.new) }
    ensures kept { Keeps (IsId store.old) (tree store.old) (IsId store.new) (tree store.new) }
{
    let (names, inner) = split(work.alloc, store, id, quantifier)?;
    let assumed = without_names(work.alloc, work.assumed, names.as_slice())?;
    let under = Work {
        alloc: work.alloc,
        context: work.context,
        assumed: &assumed,
        workers: work.workers,
    };
    let mut done = HashMap::new(work.alloc);
    let inner = match made(rt, &under, budget, store, &mut done, inner, gate) {
        Ok(inner) => inner,
        Err(error) => return Err(error),
    };
    let block = Block {
        work: &*work,
        under: &under,
        quantifier,
        names: names.as_slice(),
    };
    block.closed(rt, budget, store, inner, gate)
}
