//! The least value of a target, found and checked.

ghost use Rattle.std.specs.Prelude.{IfOk, IfSome};
ghost use Rattle.formula_store.specs.Nodes.{tree, IsId};
ghost use Rattle.least_search.specs.Found.{found_of, IsTargetFound};
ghost use Rattle.least_search.specs.Problems.{IsProblem, formula_of};

use crate::checks::{are_refuted, is_bound};
use crate::found::Found;
use crate::problem::Problem;
use formula_store::{FormulaId, Store};
use logic_meaning::VarId;
use simplex_optimum::{Optimum, Ratio};
use std::alloc::{AllocError, Global};

/// What is found of the target of this name in a resolved problem over the ordered fields: a conjunction of weak constraints behind
/// quantifiers by `ex`. `None` where the formula is no such problem, or where the search does not suffice or what it finds cannot be
/// checked. Its only error is want of memory.
pub fn least_found(
    alloc: Global,
    store: &Store,
    problem: FormulaId,
    target: VarId,
) -> Result<Option<Found>, AllocError>
    requires id { IsId store.now problem }
    ensures found { IfOk result (λ o. IfSome o (λ f. IsTargetFound target.number (tree store.now problem) (found_of f))) }
{
    let Some(problem) = Problem::read(alloc, store, problem, target)? else {
        return Ok(None);
    };
    match problem.optimum(alloc)? {
        Some(Optimum::Contradiction(multipliers)) => problem.infeasible(alloc, &multipliers),
        Some(Optimum::Unbounded { point, steps }) => problem.unbounded(alloc, &point, &steps),
        Some(Optimum::Least { point, multipliers }) => {
            problem.attained(alloc, &point, &multipliers)
        }
        None => Ok(None),
    }
}

impl Problem<'_> {
    /// That no point meets the constraints, if the multipliers prove it.
    fn infeasible(&self, alloc: Global, multipliers: &[i128]) -> Result<Option<Found>, AllocError>
        requires problem { IsProblem self.now }
        ensures found { IfOk result (λ o. IfSome o (λ f. IsTargetFound self.now.target.number (formula_of self.now) (found_of f))) }
    {
        if are_refuted(alloc, &self.rows, multipliers)? {
            Ok(Some(Found::Infeasible))
        } else {
            Ok(None)
        }
    }

    /// That the target has no least value, if the point meets the constraints, and the steps lead down for ever.
    fn unbounded(
        &self,
        alloc: Global,
        point: &[Ratio],
        steps: &[Ratio],
    ) -> Result<Option<Found>, AllocError>
        requires problem { IsProblem self.now }
        ensures found { IfOk result (λ o. IfSome o (λ f. IsTargetFound self.now.target.number (formula_of self.now) (found_of f))) }
    {
        let (Some(value), Some(fall)) = (self.target_value(point), self.target_value(steps)) else {
            return Ok(None);
        };
        let (Some(values), Some(steps)) = (self.values(alloc, point)?, self.values(alloc, steps)?)
        else {
            return Ok(None);
        };
        if self.is_met(alloc, value, &values)? && self.leads_down(alloc, fall, &steps)? {
            Ok(Some(Found::Unbounded))
        } else {
            Ok(None)
        }
    }

    /// The least value of the target, if the point meets the constraints, and the multipliers prove that none has a smaller value.
    fn attained(
        self,
        alloc: Global,
        point: &[Ratio],
        multipliers: &[i128],
    ) -> Result<Option<Found>, AllocError>
        requires problem { IsProblem self }
        ensures found { IfOk result (λ o. IfSome o (λ f. IsTargetFound self.entry.target.number (formula_of self.entry) (found_of f))) }
    {
        let Some(least) = self.target_value(point) else {
            return Ok(None);
        };
        let Some(values) = self.values(alloc, point)? else {
            return Ok(None);
        };
        if !self.is_met(alloc, least, &values)? {
            return Ok(None);
        }
        let Problem { rows, target, .. } = self;
        if is_bound(alloc, rows, target, least, multipliers)? {
            Ok(Some(Found::Attained(least, values)))
        } else {
            Ok(None)
        }
    }
}
