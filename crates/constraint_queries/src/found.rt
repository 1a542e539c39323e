//! The least value of the target of a resolved problem, and values that attain it.

ghost use Rattle.std.specs.Prelude.{◌≡◌, ◌≤◌, IfOk, IfErr};
ghost use Rattle.exact_numbers.specs.Fraction.{frac_of};
ghost use Rattle.logic_meaning.specs.Context.{Fields};
ghost use Rattle.logic_meaning.specs.Every.{Every};
ghost use Rattle.normal_atoms.specs.Atoms.{context_of};
ghost use Rattle.logic_meaning.specs.NormalForm.{IsNormal};
ghost use Rattle.formula_store.specs.Nodes.{tree, IsId};
ghost use Rattle.logic_meaning.specs.LeastFraction.{IsLeastFraction};
ghost use Rattle.session_state.specs.Growth.{KeepsState};
ghost use Rattle.least_search.specs.Found.{found_of, IsTargetFound};
ghost use Rattle.constraint_queries.specs.Found.{IsWeakProblem, IsConditionOf, ConditionStop, FoundStop};

use exact_numbers::Fraction;
use form_commands::{Workshop, guards_together, measured_refusal};
use formula_store::FormulaId;
use least_search::{Found, least_found};
use linear_forms::Values;
use linear_opt::{Least, least_value};
use logic_meaning::VarId;
use program_meaning::StatementError;
use qe_parallel::Gate;
use session_state::SessionState;
use std::thread::Threads;

/// What is found of the target of this name in a resolved problem over the ordered fields: by the simplex method, and by elimination
/// where that does not suffice.
pub(crate) fn look<R: Threads + Sync, G: Gate + Sync>(
    workshop: &Workshop<'_, R, G>,
    state: &mut SessionState,
    problem: FormulaId,
    target: VarId,
) -> Result<Found, StatementError>
    requires workers { 1 ≤ workshop.now.limits.workers }
    requires theory { context_of state.old.context ≡ Fields }
    requires id { IsId state.old.store problem }
    requires normal { Every (IsNormal Fields) (tree state.old.store problem) }
    requires weak { IsWeakProblem (tree state.old.store problem) }
    ensures found { IfOk result (λ r. IsTargetFound target.number (tree state.old.store problem) (found_of r)) }
    ensures stopped { IfErr result (FoundStop workshop.now.limits.nodes target.number (tree state.old.store problem)) }
    ensures kept { KeepsState state.old state.new }
{
    match least_found(state.alloc, &state.store, problem, target) {
        Ok(Some(found)) => Ok(found),
        Ok(None) => eliminated(workshop, state, problem, target),
        Err(_) => Err(StatementError::Memory),
    }
}

/// What is found of it by what the cases of the problem say together.
fn eliminated<R: Threads + Sync, G: Gate + Sync>(
    workshop: &Workshop<'_, R, G>,
    state: &mut SessionState,
    problem: FormulaId,
    target: VarId,
) -> Result<Found, StatementError>
    requires workers { 1 ≤ workshop.now.limits.workers }
    requires theory { context_of state.old.context ≡ Fields }
    requires id { IsId state.old.store problem }
    requires normal { Every (IsNormal Fields) (tree state.old.store problem) }
    requires weak { IsWeakProblem (tree state.old.store problem) }
    ensures found { IfOk result (λ r. IsTargetFound target.number (tree state.old.store problem) (found_of r)) }
    ensures stopped { IfErr result (FoundStop workshop.now.limits.nodes target.number (tree state.old.store problem)) }
    ensures kept { KeepsState state.old state.new }
{
    let condition = condition(workshop, state, problem)?;
    match least_value(&state.store, condition, target) {
        Ok(Least::Infeasible) => Ok(Found::Infeasible),
        Ok(Least::Unbounded) => Ok(Found::Unbounded),
        Ok(Least::At(least)) => attained(workshop, state, problem, target, least),
        Err(_) => Err(StatementError::Memory),
    }
}

/// What the cases of a resolved problem say together: a formula without quantifiers.
fn condition<R: Threads + Sync, G: Gate + Sync>(
    workshop: &Workshop<'_, R, G>,
    state: &mut SessionState,
    problem: FormulaId,
) -> Result<FormulaId, StatementError>
    requires workers { 1 ≤ workshop.now.limits.workers }
    requires theory { context_of state.old.context ≡ Fields }
    requires id { IsId state.old.store problem }
    requires normal { Every (IsNormal Fields) (tree state.old.store problem) }
    requires weak { IsWeakProblem (tree state.old.store problem) }
    ensures condition { IfOk result (IsConditionOf (tree state.old.store problem) state.new) }
    ensures stopped { IfErr result (ConditionStop workshop.now.limits.nodes (tree state.old.store problem)) }
    ensures kept { KeepsState state.old state.new }
{
    let engine = workshop.engine(state);
    let cases = match engine.cases(&mut state.store, problem, &[]) {
        Ok(cases) => cases,
        Err(error) => return Err(measured_refusal(error)),
    };
    match guards_together(state.alloc, &mut state.store, &cases) {
        Ok(condition) => Ok(condition),
        Err(_) => Err(StatementError::Memory),
    }
}

/// The least value, with values of the names with which the target has it.
fn attained<R: Threads + Sync, G: Gate + Sync>(
    workshop: &Workshop<'_, R, G>,
    state: &mut SessionState,
    problem: FormulaId,
    target: VarId,
    least: Fraction,
) -> Result<Found, StatementError>
    requires workers { 1 ≤ workshop.now.limits.workers }
    requires theory { context_of state.old.context ≡ Fields }
    requires id { IsId state.old.store problem }
    requires normal { Every (IsNormal Fields) (tree state.old.store problem) }
    requires weak { IsWeakProblem (tree state.old.store problem) }
    requires least { IsLeastFraction target.number (tree state.old.store problem) (frac_of least) }
    ensures found { IfOk result (λ r. IsTargetFound target.number (tree state.old.store problem) (found_of r)) }
    ensures stopped { IfErr result (FoundStop workshop.now.limits.nodes target.number (tree state.old.store problem)) }
    ensures kept { KeepsState state.old state.new }
{
    let mut values = Values::new(state.alloc, least.denominator);
    if let Err(_failed) = values.put(target, least.numerator) {
        return Err(StatementError::Memory);
    }
    let engine = workshop.engine(state);
    match engine.sample(&mut state.store, problem, &values) {
        Ok(Some(sample)) => Ok(Found::Attained(least, sample)),
        Ok(None) => unreachable!(),
        Err(error) => Err(measured_refusal(error)),
    }
}
