//! The commands inside a statement are answered, one after the other in the order of their last tokens.

ghost use Rattle.std.specs.Prelude.{◌≡◌, ◌≢◌, ◌≤◌, ◌+◌, ◌++◌, [], None, Some, IfOk, IfErr, IfSome, IfNone, OnOk, length, map};
ghost use Rattle.std.specs.List.{AllByRecursion, fold};
ghost use Rattle.formula_store.specs.Nodes.{tree};
ghost use Rattle.logic_meaning.specs.Names.{with_name};
ghost use Rattle.formula_resolving.specs.Numbering.{Grows};
ghost use Rattle.formula_resolving.specs.Order.{nest_of, IsCounted, AreInOrder};
ghost use Rattle.written_syntax.specs.CodeTrees.{inner_of, whole_command as inner_nest};
ghost use Rattle.written_syntax.specs.LastTokens.{inside_count};
ghost use Rattle.session_state.specs.Keeping.{state_of, IsSessionState};
ghost use Rattle.session_state.specs.Growth.{GrowsState};
ghost use Rattle.program_meaning.specs.Causes.{IsFirst};
ghost use Rattle.program_meaning.specs.Inside.{inner_use, IsInnerAnswer};
ghost use Rattle.program_meaning.specs.Meaning.{meaning, text_variables};
ghost use Rattle.session_commands.specs.Asking.{asked_command, formula_asked, formula_in, command_in, IsWritten, CanAct, CanAskOf};
ghost use Rattle.session_commands.specs.Inner.{IsOwn, IsNumberedNest, AreAnswered, AreStopped, IsWrittenFormula};
ghost use Rattle.session_commands.specs.Through.{LeavesState};
ghost use Rattle.session_commands.specs.Running.{nest_meaning, IsStep, IsHalted, Runs, Halts};

use crate::formulas::{inner_form_of, wanted_formula};
use form_commands::{Workshop, number_all};
use formula_resolving::{Step, commands_inside, number_text};
use formula_store::FormulaId;
use formula_tree::{Bindings, Names};
use point_queries::{number_axes, number_entries};
use program_meaning::StatementError;
use qe_parallel::Gate;
use session_state::SessionState;
use std::alloc::Global;
use std::thread::Threads;
use written_syntax::{Action, Command, Formula, InnerCommand};

/// Answers the commands inside the action, and keeps the answers of those that stand in no other. Where there are some, the variables of the
/// whole text get their numbers first. After an `Err` the names may have grown.
pub(crate) fn answer_inside<R: Threads + Sync, G: Gate + Sync>(
    workshop: &Workshop<'_, R, G>,
    state: &mut SessionState,
    action: &Action,
) -> Result<(), StatementError>
    requires workers { 1 ≤ workshop.now.limits.workers }
    requires written { IsWritten action.now }
    requires session { IsSessionState state.old }
    requires settled { state.old.answers.items ≡ [] }
    ensures session { OnOk result (IsSessionState state.new) }
    ensures ready { OnOk result (CanAct state.new action.now) }
    ensures answered { OnOk result (AreAnswered action.now (state_of state.old) workshop.now.limits.nodes (state_of state.new)) }
    ensures stopped { IfErr result (AreStopped action.now (state_of state.old) workshop.now.limits.nodes) }
    ensures left { LeavesState state.old state.new }
{
    let Some((command, formula)) = asked_in(action) else {
        return Ok(());
    };
    let Ok(steps) = commands_inside(state.alloc, formula) else {
        return Err(StatementError::Memory);
    };
    if steps.is_empty() {
        return Ok(());
    }
    number_command(command, formula, &state.bindings, &mut state.names)?;
    let answers = answer_steps(workshop, state, &steps)?;
    state.answers = answers;
    Ok(())
}

/// The command of the action and its formula, inside which other commands may stand.
fn asked_in(action: &Action) -> Option<(&Command, &Formula)>
    ensures asked { IfSome result (λ r. (command_in action.now ≡ Some r.0.now) × (formula_asked r.0.now ≡ Some r.1.now)) }
    ensures none { IfNone result (formula_in action.now ≡ None) }
{
    match action {
        Action::Say(command) | Action::Assign(_, command) => {
            let formula = formula_of(command)?;
            Some((command, formula))
        }
        Action::Empty | Action::Ignored | Action::Finish => None,
        Action::Choose(_) | Action::Assume(_) | Action::Retract => None,
    }
}

/// The formula of a command, inside which others may stand.
fn formula_of(command: &Command) -> Option<&Formula>
    ensures asked { IfSome result (λ f. formula_asked command.now ≡ Some f.now) }
    ensures none { IfNone result (formula_asked command.now ≡ None) }
{
    match command {
        Command::Echo(formula)
        | Command::Nnf(formula)
        | Command::Pnf(formula)
        | Command::Dnf(formula)
        | Command::Cnf(formula) => Some(formula),
        Command::Simpl(formula, _) | Command::Qe(formula, _) | Command::Qea(formula, _) => {
            Some(formula)
        }
        Command::Holds(formula, _) | Command::Sample(formula, _) => Some(formula),
        Command::Grid(formula, _) => Some(formula),
        Command::Certify(_) | Command::Check(..) | Command::Least(..) => None,
    }
}

/// Numbers the variables of the command in the order of the text, those of the commands inside its formula among them. After an `Err` the names
/// may have grown.
fn number_command(
    command: &Command,
    formula: &Formula,
    bindings: &Bindings<FormulaId>,
    names: &mut Names,
) -> Result<(), StatementError>
    requires asked { formula_asked command.now ≡ Some formula.now }
    requires written { CanAskOf IsWrittenFormula command.now }
    ensures numbered { OnOk result (names.new ≡ fold with_name names.old (text_variables (inner_of formula.now) (meaning (asked_command command.now)))) }
    ensures grown { Grows names.old names.new }
    ensures memory { IfErr result (λ e. e ≡ StatementError.Memory) }
{
    if let Err(_failed) = number_text(formula, bindings, names) {
        return Err(StatementError::Memory);
    }
    match command {
        Command::Simpl(_, given) | Command::Qe(_, given) | Command::Qea(_, given) => {
            number_all(given.items(), bindings, names)
        }
        Command::Holds(_, entries) | Command::Sample(_, entries) => {
            number_entries(entries.items(), names)
        }
        Command::Grid(_, axes) => number_axes(axes.items(), names),
        Command::Echo(_) | Command::Nnf(_) | Command::Pnf(_) | Command::Dnf(_) | Command::Cnf(_) =>
            Ok(()),
        Command::Certify(_) | Command::Check(..) | Command::Least(..) => unreachable!(),
    }
}

/// Answers the commands in their order, each with the answers of those inside it, and gives the answers that are left. The state has no answers
/// after it, and after an `Err` the names may have grown.
fn answer_steps<R: Threads + Sync, G: Gate + Sync>(
    workshop: &Workshop<'_, R, G>,
    state: &mut SessionState,
    steps: &[Step<'_>],
) -> Result<Vec<FormulaId>, StatementError>
    requires workers { 1 ≤ workshop.now.limits.workers }
    requires session { IsSessionState state.old }
    requires settled { state.old.answers.items ≡ [] }
    requires counts { AllByRecursion IsCounted steps.now }
    requires numbered { AllByRecursion (IsNumberedNest state.old.names) (map nest_of steps.now) }
    requires enough { AreInOrder (map nest_of steps.now) 0 }
    ensures session { OnOk result (IsSessionState state.new) }
    ensures own { IfOk result (λ ids. AllByRecursion (IsOwn state.new) ids.items) }
    ensures answered { IfOk result (λ ids. Runs (state_of state.old) workshop.now.limits.nodes (map nest_of steps.now) [] state.old.names (map (tree state.new.store) ids.items) state.new.names) }
    ensures halted { IfErr result (λ e. e ≢ StatementError.Memory → Halts (state_of state.old) workshop.now.limits.nodes (map nest_of steps.now) [] state.old.names e) }
    ensures grown { GrowsState state.old state.new }
{
    let mut answers = Vec::new(state.alloc);
    for step in steps {
        answer_step(workshop, state, step, &mut answers)?;
    }
    Ok(answers)
}

/// Answers one command, whose answer takes the place of the last ones, which are those of the commands inside it.
fn answer_step<R: Threads + Sync, G: Gate + Sync>(
    workshop: &Workshop<'_, R, G>,
    state: &mut SessionState,
    step: &Step<'_>,
    answers: &mut Vec<FormulaId>,
) -> Result<(), StatementError>
    requires workers { 1 ≤ workshop.now.limits.workers }
    requires session { IsSessionState state.old }
    requires settled { state.old.answers.items ≡ [] }
    requires counted { IsCounted step.now }
    requires enough { step.now.inside ≤ length answers.old.items }
    requires own { AllByRecursion (IsOwn state.old) answers.old.items }
    requires numbered { IsNumberedNest state.old.names (nest_of step.now) }
    ensures session { OnOk result (IsSessionState state.new) }
    ensures settled { state.new.answers.items ≡ [] }
    ensures own { OnOk result (AllByRecursion (IsOwn state.new) answers.new.items) }
    ensures answered { OnOk result (IsStep (state_of state.old) workshop.now.limits.nodes (nest_of step.now) (map (tree state.old.store) answers.old.items) state.old.names (map (tree state.new.store) answers.new.items) state.new.names) }
    ensures count { OnOk result (length answers.new.items + step.now.inside ≡ length answers.old.items + 1) }
    ensures halted { IfErr result (λ e. e ≢ StatementError.Memory → IsHalted (state_of state.old) workshop.now.limits.nodes (nest_of step.now) (map (tree state.old.store) answers.old.items) state.old.names e) }
    ensures grown { GrowsState state.old state.new }
{
    state.answers = take_last(state.alloc, answers, step.inside)?;
    let given = inner_formula(workshop, state, step.command);
    state.answers.clear();
    let id = given?;
    match answers.push(id) {
        Ok(()) => Ok(()),
        Err(_) => Err(StatementError::Memory),
    }
}

/// Takes so many answers from the end.
fn take_last(
    alloc: Global,
    answers: &mut Vec<FormulaId>,
    count: usize,
) -> Result<Vec<FormulaId>, StatementError>
    requires { count ≤ length answers.old.items }
    ensures taken { IfOk result (λ last. (answers.old.items ≡ answers.new.items ++ last.items) × (length last.items ≡ count)) }
    ensures memory { IfErr result (λ e. e ≡ StatementError.Memory) }
{
    let start = answers.len() - count;
    let Ok(last) = Vec::from_slice(alloc, &answers[start..]) else {
        return Err(StatementError::Memory);
    };
    answers.truncate(start);
    Ok(last)
}

/// The formula that the command gives, with the answers of the state in the places of those inside it, or the first cause of its refusal. The
/// names may have grown.
fn inner_formula<R: Threads + Sync, G: Gate + Sync>(
    workshop: &Workshop<'_, R, G>,
    state: &mut SessionState,
    command: &InnerCommand,
) -> Result<FormulaId, StatementError>
    requires workers { 1 ≤ workshop.now.limits.workers }
    requires session { IsSessionState state.old }
    requires places { inside_count (inner_nest command.now) ≤ length state.old.answers.items }
    requires numbered { IsNumberedNest state.old.names (inner_nest command.now) }
    ensures session { OnOk result (IsSessionState state.new) }
    ensures own { IfOk result (IsOwn state.new) }
    ensures answered { IfOk result (λ id. IsInnerAnswer (nest_meaning (inner_nest command.now)) (state_of state.old) workshop.now.limits.nodes (tree state.new.store id) state.new.names) }
    ensures refused { IfErr result (λ e. e ≢ StatementError.Memory → IsFirst (nest_meaning (inner_nest command.now)) (state_of state.old) workshop.now.limits.nodes inner_use e) }
    ensures grown { GrowsState state.old state.new }
{
    let (wanted, formula) = inner_form_of(command);
    wanted_formula(workshop, state, wanted, formula)
}
