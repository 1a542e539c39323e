//! The case list of a formula.

ghost use Rattle.logic_meaning.specs.Formula.{also};
ghost use Rattle.std.specs.Prelude.{◌≡◌, ◌≤◌, Bool, None, map, IfOk, IfErr, OnOk, OnErr, length};
ghost use Rattle.reference_engine.specs.Case.{case_seen, HavePoints};
ghost use Rattle.redlog_printer.specs.Within.{AreCasesWithin};
ghost use Rattle.logic_meaning.specs.AnswerTexts.{cases_text as text_of_cases};
ghost use Rattle.written_syntax.specs.Writable.{AreWritableFormulas};
ghost use Rattle.language_meaning.specs.Trees.{formulas_of};
ghost use Rattle.written_syntax.specs.CodeTrees.{formula_tree};
ghost use Rattle.form_commands.specs.Replies.{use_of, Refuses, RefusesCommand, IsQueryAnswer, AnswersQuery};
ghost use Rattle.form_commands.specs.Refusals.{LineFault};
ghost use Rattle.form_commands.specs.Reading.{AreNumbered, AreReadable};
ghost use Rattle.program_meaning.specs.Meaning.{meaning};
ghost use Rattle.session_state.specs.Numbered.{numbered};
ghost use Rattle.program_meaning.specs.Reply.{IsLine};
ghost use Rattle.session_state.specs.Keeping.{state_of, IsSessionState};
ghost use Rattle.session_state.specs.Growth.{KeepsState, GrowsState};
ghost use Rattle.session_state.specs.Scripted.{HasAnswers, answered_tree};
ghost use Rattle.point_queries.specs.CaseLists.{AreCasesIn, CasesRefuse, cases_command};

use form_commands::{
    Way, Workshop, forms_refusal, number_parts, print_refusal, read_parts, wanted_cases,
};
use program_meaning::{Line, StatementError};
use qe_parallel::Gate;
use redlog_printer::cases_text;
use reference_engine::PrintedCase;
use session_state::SessionState;
use std::thread::Threads;
use written_syntax::Formula;

/// Answers with the cases of the formula, their guards simplified under the assumptions. After an `Err` the names may have grown.
pub fn answer_cases<R: Threads + Sync, G: Gate + Sync>(
    workshop: &Workshop<'_, R, G>,
    state: &mut SessionState,
    formula: &Formula,
    given: &[Formula],
    printed: bool,
) -> Result<Line, StatementError>
    requires workers { 1 ≤ workshop.now.limits.workers }
    requires answers { HasAnswers state.old formula.now }
    requires given { AreWritableFormulas (formulas_of (map formula_tree given.now)) }
    requires session { IsSessionState state.old }
    ensures session { OnOk result (IsSessionState state.new) }
    ensures answer { IfOk result (AnswersQuery (cases_command formula.now given.now) (state_of state.old) workshop.now.limits.nodes printed (state_of state.new).names) }
    ensures next { OnOk result (state_of state.new ≡ numbered (meaning (cases_command formula.now given.now)) (state_of state.old)) }
    ensures refused { IfErr result (RefusesCommand (cases_command formula.now given.now) (state_of state.old) workshop.now.limits.nodes (use_of None printed)) }
    ensures grown { OnErr result (GrowsState state.old state.new) }
{
    number_parts(formula, given, &state.bindings, &mut state.names)?;
    answer_numbered(workshop, state, formula, given, printed)
}

/// Answers the command, whose variables have their numbers. A case list that is too long to be printed gives way to that of the reference
/// elimination.
fn answer_numbered<R: Threads + Sync, G: Gate + Sync>(
    workshop: &Workshop<'_, R, G>,
    state: &mut SessionState,
    formula: &Formula,
    given: &[Formula],
    printed: bool,
) -> Result<Line, StatementError>
    requires workers { 1 ≤ workshop.now.limits.workers }
    requires answers { HasAnswers state.old formula.now }
    requires given { AreWritableFormulas (formulas_of (map formula_tree given.now)) }
    requires session { IsSessionState state.old }
    requires numbered { AreNumbered state.old.names (also (answered_tree formula.now) (formulas_of (map formula_tree given.now))) }
    ensures answer { IfOk result (IsQueryAnswer (state_of state.old) workshop.now.limits.nodes printed (cases_command formula.now given.now) state.new.names) }
    ensures refused { IfErr result (Refuses (state_of state.old) workshop.now.limits.nodes (use_of None printed) (cases_command formula.now given.now)) }
    ensures kept { KeepsState state.old state.new }
{
    match attempt(workshop, state, Way::ByCases, formula, given, printed) {
        Ok(line) => Ok(line),
        Err(StatementError::Text) => {
            attempt(workshop, state, Way::ByReference, formula, given, printed)
        }
        Err(error) => Err(error),
    }
}

/// Answers with the cases that are found in this way, or says why there are none.
fn attempt<R: Threads + Sync, G: Gate + Sync>(
    workshop: &Workshop<'_, R, G>,
    state: &mut SessionState,
    way: Way,
    formula: &Formula,
    given: &[Formula],
    printed: bool,
) -> Result<Line, StatementError>
    requires workers { 1 ≤ workshop.now.limits.workers }
    requires answers { HasAnswers state.old formula.now }
    requires given { AreWritableFormulas (formulas_of (map formula_tree given.now)) }
    requires session { IsSessionState state.old }
    requires numbered { AreNumbered state.old.names (also (answered_tree formula.now) (formulas_of (map formula_tree given.now))) }
    ensures answer { IfOk result (IsQueryAnswer (state_of state.old) workshop.now.limits.nodes printed (cases_command formula.now given.now) state.new.names) }
    ensures refused { IfErr result (CasesRefuse way (state_of state.old) workshop.now.limits.nodes printed (answered_tree formula.now) (formulas_of (map formula_tree given.now))) }
    ensures kept { KeepsState state.old state.new }
{
    let cases = cases_of(workshop, state, way, formula, given)?;
    line_of_cases(state, &cases, printed)
}

/// The cases of the formula under the assumptions, found in this way, or the first cause of a refusal.
fn cases_of<R: Threads + Sync, G: Gate + Sync>(
    workshop: &Workshop<'_, R, G>,
    state: &mut SessionState,
    way: Way,
    formula: &Formula,
    given: &[Formula],
) -> Result<Vec<PrintedCase>, StatementError>
    requires workers { 1 ≤ workshop.now.limits.workers }
    requires answers { HasAnswers state.old formula.now }
    requires given { AreWritableFormulas (formulas_of (map formula_tree given.now)) }
    requires session { IsSessionState state.old }
    requires numbered { AreNumbered state.old.names (also (answered_tree formula.now) (formulas_of (map formula_tree given.now))) }
    ensures cases { IfOk result (λ v. AreCasesIn way (state_of state.old) workshop.now.limits.nodes (answered_tree formula.now) (formulas_of (map formula_tree given.now)) (map case_seen v.items)) }
    ensures points { IfOk result (λ v. HavePoints v.items) }
    ensures readable { OnOk result (AreReadable (state_of state.old) (also (answered_tree formula.now) (formulas_of (map formula_tree given.now)))) }
    ensures refused { IfErr result (λ e. (printed : Bool) → Refuses (state_of state.old) workshop.now.limits.nodes (use_of None printed) (cases_command formula.now given.now) e) }
    ensures kept { KeepsState state.old state.new }
{
    let read = read_parts(state, formula, given)?;
    let engine = workshop.engine(state);
    match wanted_cases(&engine, &mut state.store, way, &read) {
        Ok(cases) => Ok(cases),
        Err(error) => Err(forms_refusal(error)),
    }
}

/// The line of the cases, if it is printed.
fn line_of_cases(
    state: &SessionState,
    cases: &[PrintedCase],
    printed: bool,
) -> Result<Line, StatementError>
    requires { AreCasesWithin (length state.now.names) (map case_seen cases.now) }
    ensures line { IfOk result (IsLine printed (text_of_cases state.now.names (map case_seen cases.now))) }
    ensures fault { IfErr result (LineFault printed (text_of_cases state.now.names (map case_seen cases.now))) }
{
    if !printed {
        return Ok(Line::Nothing);
    }
    match cases_text(state.alloc, cases, &state.names) {
        Ok(text) => Ok(Line::Printed(text)),
        Err(error) => Err(print_refusal(error)),
    }
}
