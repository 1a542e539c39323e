//! A formula shortened.

ghost use Rattle.std.specs.Prelude.{◌≡◌, IfOk, IsTrue, map};
ghost use Rattle.normal_atoms.specs.Atoms.{context_of, atom_of};
ghost use Rattle.shape_theory.specs.Simplifiable.{EquivalentUnder};
ghost use Rattle.elimination_theory.specs.Theorems.{IsTidy};
ghost use Rattle.formula_tree.specs.Makers.{Keeps};
ghost use Rattle.formula_store.specs.Nodes.{tree, IsId};
ghost use Rattle.branch_pruning.specs.Pruned.{AreCovering, IsPrunedTo};
ghost use Rattle.branch_rounds.specs.Worked.{IsWork};
ghost use Rattle.short_answers.specs.Asking.{AreTidyIds, FollowsUnder, IsAsking, IsTidyId};
ghost use Rattle.short_answers.specs.Shorter.{IsConstant, IsShortenedTo};

use crate::asking::Asker;
use crate::atoms::{are_atoms, atoms_in, atoms_in_all, formulas_of, names_in};
use branch_rounds::{Budget, Reach, Work, pruned};
use formula_store::{FormulaId, Store};
use formula_tree::Shape;
use normal_atoms::Context;
use qe_parallel::Gate;
use std::alloc::AllocError;
use std::thread::Threads;
use text_extents::is_no_larger;

/// How many nodes a formula has at most that is shortened.
const MOST_NODES: u64 = 20_000;

/// How many nodes a formula has at most for which more is tried than the constants.
const MOST_SEARCHED: u64 = 4_000;

/// The formula, or a shorter one that is seen to have its truth wherever the assumptions are true: the conjunction of the atoms that
/// follow from it, where they are together the formula, or else its disjunction without the members that others cover. It has no other
/// free names, no more nodes and no longer text, and is Reduced under the assumptions where the formula is. A constant stays.
///
/// What is seen is asked of the elimination itself: whether a branch is left of a conjunction, in whose atoms all names are put. How
/// many questions are asked is bounded, and so is what each may cost; a question that stops says nothing. What the search for
/// certificates does in them is taken off the budget's effort. The only error is want of memory. The formulas of the store stay.
pub fn shortened<R: Threads + Sync, G: Gate + Sync>(
    rt: &R,
    work: &Work<'_>,
    budget: &mut Budget,
    store: &mut Store,
    id: FormulaId,
    gate: &G,
) -> Result<FormulaId, AllocError>
    requires work { IsWork work.now }
    requires id { IsTidyId (context_of work.now.context) store.old id }
    ensures shortened { IfOk result (IsShortenedTo work.now (tree store.old id) store.new) }
    ensures constant { IfOk result (λ r. IsConstant (tree store.old id) → tree store.new r ≡ tree store.old id) }
    ensures kept { Keeps (IsId store.old) (tree store.old) (IsId store.new) (tree store.new) }
{
    if is_left_as_it_is(store, work.context, id) {
        return Ok(id);
    }
    let atoms = atoms_in(work.alloc, store, id)?;
    let names = names_in(work.alloc, &atoms, work.assumed)?;
    let assumed = formulas_of(work.alloc, store, work.assumed)?;
    let asker = Asker {
        rt,
        gate,
        work,
        assumed: &assumed,
        names: &names,
    };
    asker.short(store, budget, id)
}

/// A mark for each of the formulas: wherever the assumptions and some of the formulas are true, some is that is marked. One that is seen
/// to be true only where marked ones before it are has no mark, as far as questions like those of `shortened` show it. The only error is
/// want of memory. The formulas of the store stay.
pub fn uncovered<R: Threads + Sync, G: Gate + Sync>(
    rt: &R,
    work: &Work<'_>,
    budget: &mut Budget,
    store: &mut Store,
    formulas: &[FormulaId],
    gate: &G,
) -> Result<Vec<bool>, AllocError>
    requires work { IsWork work.now }
    requires formulas { AreTidyIds (context_of work.now.context) store.old formulas.now }
    ensures covering { IfOk result (λ v. AreCovering (context_of work.now.context) (map atom_of work.now.assumed.now) (map (tree store.old) formulas.now) v.items) }
    ensures kept { Keeps (IsId store.old) (tree store.old) (IsId store.new) (tree store.new) }
{
    let atoms = atoms_in_all(work.alloc, store, formulas)?;
    let names = names_in(work.alloc, &atoms, work.assumed)?;
    let assumed = formulas_of(work.alloc, store, work.assumed)?;
    let asker = Asker {
        rt,
        gate,
        work,
        assumed: &assumed,
        names: &names,
    };
    asker.uncovered(store, budget, formulas)
}

// Whether no shorter formula is searched for: of a constant, an atom and a large formula, and over the fields of a conjunction of atoms.
fn is_left_as_it_is(store: &Store, context: Context, id: FormulaId) -> bool
    requires { IsId store.now id }
    ensures { IsConstant (tree store.now id) → IsTrue result }
{
    match (context, store.shape(id)) {
        (_, Shape::True | Shape::False | Shape::One(_)) => true,
        (Context::Fields, Shape::And(_)) if are_atoms(store, id) => true,
        _ => MOST_NODES < store.facts(id).nodes,
    }
}

impl<R: Threads + Sync, G: Gate + Sync> Asker<'_, R, G> {
    // A constant that is the formula; else what is found for one that is not too large.
    fn short(
        &self,
        store: &mut Store,
        budget: &mut Budget,
        id: FormulaId,
    ) -> Result<FormulaId, AllocError>
        requires asking { IsAsking self.now.work.now self.now.assumed.now self.now.names.now store.old }
        requires id { IsTidyId (context_of self.now.work.now.context) store.old id }
        ensures shortened { IfOk result (IsShortenedTo self.now.work.now (tree store.old id) store.new) }
        ensures kept { Keeps (IsId store.old) (tree store.old) (IsId store.new) (tree store.new) }
    {
        if let Some(constant) = self.constant(store, budget, id)? {
            return self.smaller(store, id, constant);
        }
        if MOST_SEARCHED < store.facts(id).nodes {
            return Ok(id);
        }
        self.searched(store, budget, id)
    }

    // The conjunction of the atoms that follow from the formula, where that is the formula; or else the formula without the members that
    // others cover, of which the same is tried once more.
    fn searched(
        &self,
        store: &mut Store,
        budget: &mut Budget,
        id: FormulaId,
    ) -> Result<FormulaId, AllocError>
        requires asking { IsAsking self.now.work.now self.now.assumed.now self.now.names.now store.old }
        requires id { IsTidyId (context_of self.now.work.now.context) store.old id }
        ensures shortened { IfOk result (IsShortenedTo self.now.work.now (tree store.old id) store.new) }
        ensures kept { Keeps (IsId store.old) (tree store.old) (IsId store.new) (tree store.new) }
    {
        let whole = self.by_hull(store, budget, id)?;
        if whole != id {
            return Ok(whole);
        }
        let thin = self.by_thinning(store, budget, id)?;
        if thin == id {
            return Ok(thin);
        }
        self.by_hull(store, budget, thin)
    }

    // The conjunction of the atoms that follow from the formula, where they are together the formula and no larger.
    fn by_hull(
        &self,
        store: &mut Store,
        budget: &mut Budget,
        id: FormulaId,
    ) -> Result<FormulaId, AllocError>
        requires asking { IsAsking self.now.work.now self.now.assumed.now self.now.names.now store.old }
        requires id { IsTidyId (context_of self.now.work.now.context) store.old id }
        ensures shortened { IfOk result (IsShortenedTo self.now.work.now (tree store.old id) store.new) }
        ensures kept { Keeps (IsId store.old) (tree store.old) (IsId store.new) (tree store.new) }
    {
        let hull = self.hull(store, budget, id)?;
        if self.is_enough(store, budget, id, hull)? {
            self.smaller(store, id, hull)
        } else {
            Ok(id)
        }
    }

    // The formula without the members that others cover.
    fn by_thinning(
        &self,
        store: &mut Store,
        budget: &mut Budget,
        id: FormulaId,
    ) -> Result<FormulaId, AllocError>
        requires asking { IsAsking self.now.work.now self.now.assumed.now self.now.names.now store.old }
        requires id { IsTidyId (context_of self.now.work.now.context) store.old id }
        ensures shortened { IfOk result (IsShortenedTo self.now.work.now (tree store.old id) store.new) }
        ensures kept { Keeps (IsId store.old) (tree store.old) (IsId store.new) (tree store.new) }
    {
        let thin = self.thinned(store, budget, id)?;
        self.smaller(store, id, thin)
    }

    // Whether the second formula is smaller, and the first is seen to follow from it.
    fn is_enough(
        &self,
        store: &mut Store,
        budget: &mut Budget,
        id: FormulaId,
        hull: FormulaId,
    ) -> Result<bool, AllocError>
        requires asking { IsAsking self.now.work.now self.now.assumed.now self.now.names.now store.old }
        requires id { IsTidyId (context_of self.now.work.now.context) store.old id }
        requires hull { IsTidyId (context_of self.now.work.now.context) store.old hull }
        ensures enough { IfOk result (λ b. IsTrue b → FollowsUnder (context_of self.now.work.now.context) (map atom_of self.now.work.now.assumed.now) (tree store.old hull) (tree store.old id)) }
        ensures kept { Keeps (IsId store.old) (tree store.old) (IsId store.new) (tree store.new) }
    {
        if has_fewer_nodes(store, hull, id) {
            self.follows(store, budget, hull, id)
        } else {
            Ok(false)
        }
    }

    // The second formula, which has the truth of the first, simplified, where it is no larger; else the first.
    fn smaller(
        &self,
        store: &mut Store,
        id: FormulaId,
        other: FormulaId,
    ) -> Result<FormulaId, AllocError>
        requires work { IsWork self.now.work.now }
        requires id { IsTidyId (context_of self.now.work.now.context) store.old id }
        requires other { IsTidyId (context_of self.now.work.now.context) store.old other }
        requires same { EquivalentUnder (context_of self.now.work.now.context) (map atom_of self.now.work.now.assumed.now) (tree store.old id) (tree store.old other) }
        ensures shortened { IfOk result (IsShortenedTo self.now.work.now (tree store.old id) store.new) }
        ensures kept { Keeps (IsId store.old) (tree store.old) (IsId store.new) (tree store.new) }
    {
        let small = simplified(self.work, store, other)?;
        if has_fewer_nodes(store, small, id) && is_no_larger(self.work.alloc, store, id, small)? {
            Ok(small)
        } else {
            Ok(id)
        }
    }
}

// The formula simplified under the assumptions.
fn simplified(work: &Work<'_>, store: &mut Store, id: FormulaId) -> Result<FormulaId, AllocError>
    requires work { IsWork work.now }
    requires id { IsId store.old id }
    requires tidy { IsTidy (context_of work.now.context) (tree store.old id) }
    ensures pruned { IfOk result (IsPrunedTo (context_of work.now.context) (map atom_of work.now.assumed.now) (tree store.old id) store.new) }
    ensures kept { Keeps (IsId store.old) (tree store.old) (IsId store.new) (tree store.new) }
{
    let mut nothing = 0;
    pruned(
        work.alloc,
        store,
        work.context,
        work.assumed,
        id,
        Reach::Nowhere,
        &mut nothing,
    )
}

// Whether the first formula has fewer nodes than the second.
fn has_fewer_nodes(store: &Store, one: FormulaId, other: FormulaId) -> bool
    requires one { IsId store.now one }
    requires other { IsId store.now other }
{
    store.facts(one).nodes < store.facts(other).nodes
}
