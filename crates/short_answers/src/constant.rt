//! Formulas that are true everywhere, or nowhere.

ghost use Rattle.std.specs.Prelude.{◌≡◌, ◌∷◌, [], pos, map, IfOk, IfSome, IsTrue};
ghost use Rattle.logic_meaning.specs.Shape.{IsQuantifierFree};
ghost use Rattle.normal_atoms.specs.Atoms.{context_of, atom_of};
ghost use Rattle.formula_tree.specs.Makers.{Keeps};
ghost use Rattle.formula_store.specs.Nodes.{tree, IsId};
ghost use Rattle.short_answers.specs.Asking.{IsAnswerTo, IsAsking, IsTidyId, NeverTogether};
ghost use Rattle.short_answers.specs.Shorter.{IsSame};

use crate::answer::Answer;
use crate::asking::Asker;
use crate::negating::negation;
use branch_rounds::Budget;
use formula_store::{EvalStop, FormulaId, Store};
use formula_tree::{Maker, Shape};
use linear_forms::Values;
use logic_meaning::VarId;
use qe_parallel::Gate;
use std::alloc::{AllocError, Global};
use std::thread::Threads;

/// At how many points a formula is looked at before it is asked whether it is constant.
const LOOKS: u8 = 24;

/// The values of names are between this number and its negative.
const MOST: i128 = 97;

/// What the first of them is picked by.
const SEED: u32 = 1;

/// A truth that a formula has at each of some points.
#[derive(Clone, Copy, PartialEq, Eq)]
enum Look {
    Always,
    Never,
    Both,
}

impl<R: Threads + Sync, G: Gate + Sync> Asker<'_, R, G> {
    /// `true` or `false` where the formula is seen to be that wherever the assumptions are true. It is asked only where the formula has one
    /// truth at some points. Its only error is want of memory; the formulas of the store stay.
    pub(crate) fn constant(
        &self,
        store: &mut Store,
        budget: &mut Budget,
        id: FormulaId,
    ) -> Result<Option<FormulaId>, AllocError>
        requires asking { IsAsking self.now.work.now self.now.assumed.now self.now.names.now store.old }
        requires id { IsTidyId (context_of self.now.work.now.context) store.old id }
        ensures constant { IfOk result (λ r. IfSome r (IsSame self.now.work.now (tree store.old id) store.new)) }
        ensures kept { Keeps (IsId store.old) (tree store.old) (IsId store.new) (tree store.new) }
    {
        match looked(self.work.alloc, store, id, self.names)? {
            Look::Always => self.always(store, budget, id),
            Look::Never => self.never(store, budget, id),
            Look::Both => Ok(None),
        }
    }

    // `true` where the formula's negation is seen to be true nowhere where the assumptions are.
    fn always(
        &self,
        store: &mut Store,
        budget: &mut Budget,
        id: FormulaId,
    ) -> Result<Option<FormulaId>, AllocError>
        requires asking { IsAsking self.now.work.now self.now.assumed.now self.now.names.now store.old }
        requires id { IsTidyId (context_of self.now.work.now.context) store.old id }
        ensures constant { IfOk result (λ r. IfSome r (IsSame self.now.work.now (tree store.old id) store.new)) }
        ensures kept { Keeps (IsId store.old) (tree store.old) (IsId store.new) (tree store.new) }
    {
        let not = negation(self.work.alloc, store, id)?;
        if !self.is_nowhere(store, budget, not)? {
            return Ok(None);
        }
        let yes = store.make(Shape::True)?;
        Ok(Some(yes))
    }

    // `false` where the formula is seen to be true nowhere where the assumptions are.
    fn never(
        &self,
        store: &mut Store,
        budget: &mut Budget,
        id: FormulaId,
    ) -> Result<Option<FormulaId>, AllocError>
        requires asking { IsAsking self.now.work.now self.now.assumed.now self.now.names.now store.old }
        requires id { IsTidyId (context_of self.now.work.now.context) store.old id }
        ensures constant { IfOk result (λ r. IfSome r (IsSame self.now.work.now (tree store.old id) store.new)) }
        ensures kept { Keeps (IsId store.old) (tree store.old) (IsId store.new) (tree store.new) }
    {
        if !self.is_nowhere(store, budget, id)? {
            return Ok(None);
        }
        let no = store.make(Shape::False)?;
        Ok(Some(no))
    }

    // Whether the formula is seen to be true nowhere where the assumptions are, by a large question.
    fn is_nowhere(
        &self,
        store: &mut Store,
        budget: &mut Budget,
        id: FormulaId,
    ) -> Result<bool, AllocError>
        requires asking { IsAsking self.now.work.now self.now.assumed.now self.now.names.now store.old }
        requires id { IsTidyId (context_of self.now.work.now.context) store.old id }
        ensures nowhere { IfOk result (λ b. IsTrue b → NeverTogether (context_of self.now.work.now.context) (map atom_of self.now.work.now.assumed.now) (tree store.old id ∷ [])) }
        ensures kept { Keeps (IsId store.old) (tree store.old) (IsId store.new) (tree store.new) }
    {
        match self.ask_at_length(store, budget, id)? {
            Answer::Nowhere => Ok(true),
            Answer::At(_) | Answer::Unknown => Ok(false),
        }
    }

    // Where the formula is true, by a large question.
    fn ask_at_length(
        &self,
        store: &mut Store,
        budget: &mut Budget,
        id: FormulaId,
    ) -> Result<Answer, AllocError>
        requires asking { IsAsking self.now.work.now self.now.assumed.now self.now.names.now store.old }
        requires id { IsTidyId (context_of self.now.work.now.context) store.old id }
        ensures answer { IfOk result (IsAnswerTo self.now.work.now (tree store.old id ∷ [])) }
        ensures kept { Keeps (IsId store.old) (tree store.old) (IsId store.new) (tree store.new) }
    {
        let Some(mut own) = budget.large_question() else {
            return Ok(Answer::Unknown);
        };
        let answer = self.eliminated(store, &mut own, &[id])?;
        budget.pay_search(&own);
        Ok(answer)
    }
}

// Which truth the formula has at some points.
fn looked(alloc: Global, store: &Store, id: FormulaId, names: &[VarId]) -> Result<Look, AllocError>
    requires id { IsId store.now id }
    requires free { IsQuantifierFree (tree store.now id) }
{
    let mut seed = SEED;
    let first = next_look(alloc, store, id, names, &mut seed)?;
    for _ in 1..LOOKS {
        let next = next_look(alloc, store, id, names, &mut seed)?;
        if next != first {
            return Ok(Look::Both);
        }
    }
    Ok(first)
}

// Which truth the formula has at the next point; both where a number passes the limit.
fn next_look(
    alloc: Global,
    store: &Store,
    id: FormulaId,
    names: &[VarId],
    seed: &mut u32,
) -> Result<Look, AllocError>
    requires id { IsId store.now id }
    requires free { IsQuantifierFree (tree store.now id) }
{
    let values = values(alloc, names, seed)?;
    match store.truth(id, &values) {
        Ok(true) => Ok(Look::Always),
        Ok(false) => Ok(Look::Never),
        Err(EvalStop::Overflow) => Ok(Look::Both),
        Err(EvalStop::Memory) => Err(AllocError),
    }
}

// A whole number for each name, picked by the seed, which goes on.
fn values(alloc: Global, names: &[VarId], seed: &mut u32) -> Result<Values, AllocError>
    ensures { IfOk result (λ v. v.denominator ≡ pos 1) }
{
    let mut values = Values::new(alloc, 1);
    for name in names {
        *seed = seed.wrapping_mul(1_664_525).wrapping_add(1_013_904_223);
        let number = i128::from(*seed >> 8) % (2 * MOST + 1) - MOST;
        values.put(*name, number).map_err(|_| AllocError)?;
    }
    Ok(values)
}
