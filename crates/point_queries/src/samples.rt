//! The sample of a formula at a point.

ghost use Rattle.std.specs.Prelude.{◌≡◌, ◌≤◌, None, IfOk, IfErr, OnOk, OnErr, length};
ghost use Rattle.std.specs.List.{IsDistinct};
ghost use Rattle.logic_meaning.specs.Every.{Every};
ghost use Rattle.logic_meaning.specs.Point.{Of};
ghost use Rattle.normal_atoms.specs.Atoms.{context_of};
ghost use Rattle.logic_meaning.specs.NormalForm.{IsNormal};
ghost use Rattle.language_meaning.specs.Point.{IsPointOf};
ghost use Rattle.written_syntax.specs.PointNumbers.{point_of};
ghost use Rattle.written_syntax.specs.Writable.{AreWritableEntries};
ghost use Rattle.language_meaning.specs.Statements.{Sample};
ghost use Rattle.language_meaning.specs.Value.{same_name};
ghost use Rattle.language_meaning.specs.Resolving.{at_names};
ghost use Rattle.formula_store.specs.Nodes.{tree, IsId};
ghost use Rattle.sample_reference.specs.TrueSample.{IsTrueSample};
ghost use Rattle.sample_reference.specs.Seen.{sample_of};
ghost use Rattle.logic_meaning.specs.Writing.{text_limit};
ghost use Rattle.form_commands.specs.Replies.{use_of, RefusesCommand, AnswersQuery};
ghost use Rattle.form_commands.specs.Reading.{HasNumbers};
ghost use Rattle.point_queries.specs.Asked.{HaveNumbers};
ghost use Rattle.program_meaning.specs.Meaning.{meaning};
ghost use Rattle.session_state.specs.Numbered.{numbered};
ghost use Rattle.program_meaning.specs.Reply.{IsLine};
ghost use Rattle.session_state.specs.Keeping.{state_of, IsSessionState};
ghost use Rattle.session_state.specs.Growth.{KeepsState, GrowsState};
ghost use Rattle.session_state.specs.Scripted.{HasAnswers, answered_tree};
ghost use Rattle.program_meaning.specs.Samples.{sample_text};
ghost use Rattle.point_queries.specs.SampleSteps.{RefusesSample, SampleStop, IsSampleWithin, IsWantedSample};

use crate::points::{asked, number_command, values_of};
use exact_numbers::Fraction;
use form_commands::{Workshop, measured_refusal, printed_line};
use formula_store::FormulaId;
use language_meaning::PointEntry;
use logic_meaning::VarId;
use program_meaning::{Line, StatementError};
use qe_parallel::Gate;
use redlog_printer::{PrintError, point_text};
use session_state::SessionState;
use std::thread::Threads;
use written_syntax::{Formula, Point};

/// Answers with values for the names of the leading block, or with `none`. After an `Err` the names may have grown.
pub fn answer_sample<R: Threads + Sync, G: Gate + Sync>(
    workshop: &Workshop<'_, R, G>,
    state: &mut SessionState,
    formula: &Formula,
    entries: &[PointEntry],
    printed: bool,
) -> Result<Line, StatementError>
    requires workers { 1 ≤ workshop.now.limits.workers }
    requires answers { HasAnswers state.old formula.now }
    requires entries { AreWritableEntries entries.now }
    requires session { IsSessionState state.old }
    ensures session { OnOk result (IsSessionState state.new) }
    ensures answer { IfOk result (AnswersQuery (Sample (answered_tree formula.now) entries.now) (state_of state.old) workshop.now.limits.nodes printed (state_of state.new).names) }
    ensures next { OnOk result (state_of state.new ≡ numbered (meaning (Sample (answered_tree formula.now) entries.now)) (state_of state.old)) }
    ensures refused { IfErr result (RefusesCommand (Sample (answered_tree formula.now) entries.now) (state_of state.old) workshop.now.limits.nodes (use_of None printed)) }
    ensures grown { OnErr result (GrowsState state.old state.new) }
{
    number_command(formula, entries, &state.bindings, &mut state.names)?;
    let sample = sample(workshop, state, formula, entries)?;
    line_of_sample(state, &sample, printed)
}

/// The sample of the formula at the point, or the first cause of a refusal.
fn sample<R: Threads + Sync, G: Gate + Sync>(
    workshop: &Workshop<'_, R, G>,
    state: &mut SessionState,
    formula: &Formula,
    entries: &[PointEntry],
) -> Result<Option<Vec<(VarId, Fraction)>>, StatementError>
    requires workers { 1 ≤ workshop.now.limits.workers }
    requires answers { HasAnswers state.old formula.now }
    requires entries { AreWritableEntries entries.now }
    requires session { IsSessionState state.old }
    requires numbered { HasNumbers state.old.names (answered_tree formula.now) }
    requires valued { HaveNumbers state.old.names entries.now }
    ensures sample { IfOk result (λ o. IsWantedSample (state_of state.old) workshop.now.limits.nodes (answered_tree formula.now) entries.now (sample_of o)) }
    ensures refused { IfErr result (RefusesSample (state_of state.old) workshop.now.limits.nodes (answered_tree formula.now) entries.now) }
    ensures kept { KeepsState state.old state.new }
{
    let (id, point) = asked(state, formula, entries)?;
    resolved_sample(workshop, state, id, entries, &point)
}

/// The sample of a resolved formula at the point.
fn resolved_sample<R: Threads + Sync, G: Gate + Sync>(
    workshop: &Workshop<'_, R, G>,
    state: &mut SessionState,
    id: FormulaId,
    entries: &[PointEntry],
    point: &Point,
) -> Result<Option<Vec<(VarId, Fraction)>>, StatementError>
    requires workers { 1 ≤ workshop.now.limits.workers }
    requires id { IsId state.old.store id }
    requires normal { Every (IsNormal (context_of state.old.context)) (tree state.old.store id) }
    requires theory { Of (context_of state.old.context) (point_of point.now) }
    requires distinct { IsDistinct same_name state.old.names }
    requires numbered { HaveNumbers state.old.names entries.now }
    requires point { IsPointOf entries.now (point_of point.now) }
    ensures sample { IfOk result (λ o. IsTrueSample (context_of state.old.context) (tree state.old.store id) (at_names state.old.names (point_of point.now)) (sample_of o)) }
    ensures fault { IfErr result (SampleStop (context_of state.old.context) workshop.now.limits.nodes (tree state.old.store id) (at_names state.old.names (point_of point.now))) }
    ensures kept { KeepsState state.old state.new }
{
    let values = values_of(state.alloc, &state.names, entries, point)?;
    let engine = workshop.engine(state);
    match engine.sample(&mut state.store, id, &values) {
        Ok(sample) => Ok(sample),
        Err(error) => Err(measured_refusal(error)),
    }
}

/// The line of a sample, if it is printed.
fn line_of_sample(
    state: &SessionState,
    sample: &Option<Vec<(VarId, Fraction)>>,
    printed: bool,
) -> Result<Line, StatementError>
    requires within { IsSampleWithin (length state.now.names) (sample_of sample.now) }
    requires short { length (sample_text state.now.names (sample_of sample.now)) ≤ text_limit }
    ensures line { IfOk result (IsLine printed (sample_text state.now.names (sample_of sample.now))) }
    ensures memory { IfErr result (λ e. e ≡ StatementError.Memory) }
{
    let Some(values) = sample else {
        return printed_line(state.alloc, b"none", printed);
    };
    if !printed {
        return Ok(Line::Nothing);
    }
    match point_text(state.alloc, values, &state.names) {
        Ok(text) => Ok(Line::Printed(text)),
        Err(PrintError::Text) => unreachable!(),
        Err(PrintError::Memory) => Err(StatementError::Memory),
    }
}
