//! The truth of a formula at a point.

ghost use Rattle.std.specs.Prelude.{◌≡◌, ◌≤◌, ◌↔◌, None, IfOk, IfErr, OnOk, OnErr, IsTrue};
ghost use Rattle.std.specs.List.{IsDistinct};
ghost use Rattle.logic_meaning.specs.Every.{Every};
ghost use Rattle.logic_meaning.specs.Point.{Of};
ghost use Rattle.logic_meaning.specs.Shape.{IsQuantifierFree};
ghost use Rattle.logic_meaning.specs.Tree.{TrueAt};
ghost use Rattle.normal_atoms.specs.Atoms.{context_of};
ghost use Rattle.logic_meaning.specs.NormalForm.{IsNormal};
ghost use Rattle.language_meaning.specs.Point.{IsPointOf};
ghost use Rattle.written_syntax.specs.PointNumbers.{point_of};
ghost use Rattle.written_syntax.specs.Writable.{AreWritableEntries};
ghost use Rattle.language_meaning.specs.Statements.{Holds};
ghost use Rattle.language_meaning.specs.Value.{same_name};
ghost use Rattle.language_meaning.specs.Resolving.{at_names};
ghost use Rattle.formula_store.specs.Nodes.{tree, IsId};
ghost use Rattle.formula_store.specs.Truths.{Tells, IsWholeWhereAsked};
ghost use Rattle.form_commands.specs.Replies.{use_of, RefusesCommand, AnswersQuery};
ghost use Rattle.form_commands.specs.Reading.{HasNumbers};
ghost use Rattle.point_queries.specs.Asked.{HaveNumbers, AcceptsBoth};
ghost use Rattle.program_meaning.specs.Meaning.{meaning};
ghost use Rattle.session_state.specs.Numbered.{numbered};
ghost use Rattle.session_state.specs.Keeping.{state_of, IsSessionState};
ghost use Rattle.session_state.specs.Growth.{KeepsState, GrowsState};
ghost use Rattle.session_state.specs.Scripted.{HasAnswers, answered_tree};
ghost use Rattle.program_meaning.specs.Points.{IsTruth};
ghost use Rattle.point_queries.specs.Truths.{RefusesTruth, ValueStop, EliminationStop};

use crate::points::{asked, number_command, values_of};
use form_commands::{Workshop, holds_quantifier, measured_refusal, printed_line, text_of_truth};
use formula_store::{EvalStop, FormulaId};
use language_meaning::PointEntry;
use program_meaning::{Line, StatementError};
use qe_parallel::Gate;
use session_state::SessionState;
use std::thread::Threads;
use written_syntax::{Formula, Point};

/// Answers whether the formula is true at the point. After an `Err` the names may have grown.
pub fn answer_holds<R: Threads + Sync, G: Gate + Sync>(
    workshop: &Workshop<'_, R, G>,
    state: &mut SessionState,
    formula: &Formula,
    entries: &[PointEntry],
    printed: bool,
) -> Result<Line, StatementError>
    requires workers { 1 ≤ workshop.now.limits.workers }
    requires answers { HasAnswers state.old formula.now }
    requires entries { AreWritableEntries entries.now }
    requires session { IsSessionState state.old }
    ensures session { OnOk result (IsSessionState state.new) }
    ensures answer { IfOk result (AnswersQuery (Holds (answered_tree formula.now) entries.now) (state_of state.old) workshop.now.limits.nodes printed (state_of state.new).names) }
    ensures next { OnOk result (state_of state.new ≡ numbered (meaning (Holds (answered_tree formula.now) entries.now)) (state_of state.old)) }
    ensures refused { IfErr result (RefusesCommand (Holds (answered_tree formula.now) entries.now) (state_of state.old) workshop.now.limits.nodes (use_of None printed)) }
    ensures grown { OnErr result (GrowsState state.old state.new) }
{
    number_command(formula, entries, &state.bindings, &mut state.names)?;
    let truth = truth(workshop, state, formula, entries)?;
    printed_line(state.alloc, text_of_truth(truth), printed)
}

/// Whether the formula is true at the point, or the first cause of a refusal.
fn truth<R: Threads + Sync, G: Gate + Sync>(
    workshop: &Workshop<'_, R, G>,
    state: &mut SessionState,
    formula: &Formula,
    entries: &[PointEntry],
) -> Result<bool, StatementError>
    requires workers { 1 ≤ workshop.now.limits.workers }
    requires answers { HasAnswers state.old formula.now }
    requires entries { AreWritableEntries entries.now }
    requires session { IsSessionState state.old }
    requires numbered { HasNumbers state.old.names (answered_tree formula.now) }
    requires valued { HaveNumbers state.old.names entries.now }
    ensures truth { IfOk result (IsTruth (state_of state.old) (answered_tree formula.now) entries.now) }
    ensures accepted { OnOk result (AcceptsBoth (state_of state.old) (answered_tree formula.now) entries.now) }
    ensures refused { IfErr result (RefusesTruth (state_of state.old) workshop.now.limits.nodes (answered_tree formula.now) entries.now) }
    ensures kept { KeepsState state.old state.new }
{
    let (id, point) = asked(state, formula, entries)?;
    if holds_quantifier(state, formula) {
        eliminated_truth(workshop, state, id, entries, &point)
    } else {
        truth_at(state, id, entries, &point)
    }
}

/// The truth of a resolved formula at the point, by elimination.
fn eliminated_truth<R: Threads + Sync, G: Gate + Sync>(
    workshop: &Workshop<'_, R, G>,
    state: &mut SessionState,
    id: FormulaId,
    entries: &[PointEntry],
    point: &Point,
) -> Result<bool, StatementError>
    requires workers { 1 ≤ workshop.now.limits.workers }
    requires id { IsId state.old.store id }
    requires normal { Every (IsNormal (context_of state.old.context)) (tree state.old.store id) }
    requires theory { Of (context_of state.old.context) (point_of point.now) }
    requires distinct { IsDistinct same_name state.old.names }
    requires numbered { HaveNumbers state.old.names entries.now }
    requires point { IsPointOf entries.now (point_of point.now) }
    ensures truth { IfOk result (λ b. IsTrue b ↔ TrueAt (context_of state.old.context) (tree state.old.store id) (at_names state.old.names (point_of point.now))) }
    ensures fault { IfErr result (EliminationStop (context_of state.old.context) workshop.now.limits.nodes (tree state.old.store id) (at_names state.old.names (point_of point.now))) }
    ensures kept { KeepsState state.old state.new }
{
    let values = values_of(state.alloc, &state.names, entries, point)?;
    let engine = workshop.engine(state);
    match engine.truth(&mut state.store, id, &values) {
        Ok(holds) => Ok(holds),
        Err(error) => Err(measured_refusal(error)),
    }
}

/// The truth of a resolved formula without quantifiers at the point.
fn truth_at(
    state: &SessionState,
    id: FormulaId,
    entries: &[PointEntry],
    point: &Point,
) -> Result<bool, StatementError>
    requires id { IsId state.now.store id }
    requires free { IsQuantifierFree (tree state.now.store id) }
    requires whole { IsWholeWhereAsked (tree state.now.store id) point.now.denominator }
    requires distinct { IsDistinct same_name state.now.names }
    requires numbered { HaveNumbers state.now.names entries.now }
    requires point { IsPointOf entries.now (point_of point.now) }
    ensures truth { IfOk result (λ b. Tells b (tree state.now.store id) (at_names state.now.names (point_of point.now))) }
    ensures fault { IfErr result (ValueStop (tree state.now.store id) (at_names state.now.names (point_of point.now))) }
{
    let values = values_of(state.alloc, &state.names, entries, point)?;
    match state.store.truth(id, &values) {
        Ok(truth) => Ok(truth),
        Err(EvalStop::Overflow) => Err(StatementError::Overflow),
        Err(EvalStop::Memory) => Err(StatementError::Memory),
    }
}
