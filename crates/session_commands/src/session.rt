ghost use Rattle.std.specs.Prelude.{◌≡◌, ◌≤◌, [], Some, None, IfOk, IfErr, OnOk, OnErr};
ghost use Rattle.language_meaning.specs.Holes.{alone};
ghost use Rattle.session_commands.specs.Asking.{asked_command, asked_action, IsWritten, CanAsk, CanAct};
ghost use Rattle.session_state.specs.Keeping.{state_of, IsSessionState};
ghost use Rattle.session_state.specs.Growth.{GrowsState};
ghost use Rattle.form_commands.specs.Replies.{use_of, RefusesCommand, IsStopped, AnswersFormula, BindsFormula};
ghost use Rattle.form_commands.specs.Refusals.{read_refusal};
ghost use Rattle.program_meaning.specs.Meaning.{meaning};
ghost use Rattle.session_state.specs.Numbered.{numbered};
ghost use Rattle.session_state.specs.FormulaGiven.{GivesFormula};
ghost use Rattle.program_meaning.specs.Reply.{IsLine, AnswersSaid, Answers, with_variables, Reply};
ghost use Rattle.session_commands.specs.Through.{IsStatementAnswer, IsStatementStopped, IsAnsweredThrough, LeavesState};
ghost use Rattle.program_meaning.specs.Words.{context_text};
ghost use Rattle.session_commands.specs.Seen.{state_in};
ghost use Rattle.program_meaning.specs.State.{first_state, theory_of, chosen};

use crate::assumptions::{assume, retract};
use crate::formulas::{answer_formula, form_command_of};
use crate::inner::answer_inside;
use constraint_queries::{answer_certificate, answer_check, answer_least};
use form_commands::{Limits, Workshop, printed_line};
use language_meaning::{ReadError, Setting};
use logic_meaning::Name;
use normal_atoms::Context;
use point_queries::{answer_cases, answer_grid, answer_holds, answer_sample};
use program_meaning::{Line, StatementError};
use qe_parallel::Gate;
use redlog_reader::read_statement;
use session_state::SessionState;
use std::alloc::Global;
use std::marker::Model;
use std::thread::Threads;
use written_syntax::{Action, Command, Statement};

/// What the statements of a script share. It is seen as its state and its limits.
#[derive(Drop)]
pub struct Session {
    state: SessionState,
    limits: Limits,
}

impl Model for Session {
    ghost use Rattle.std.specs.Prelude.{◌≡◌, ◌≤◌, []};
    ghost use Rattle.session_state.specs.Keeping.{IsSessionState};
    ghost use Rattle.session_commands.specs.Seen.{Seen};

    ghost Value = { Seen };

    ghost view = { λ s. record { context = s.state.context; names = s.state.names; bindings = s.state.bindings; standing = s.state.standing; formulas = s.state.store; limits = s.limits } };

    ghost invariant = { λ s. IsSessionState s.state × (s.state.answers.items ≡ []) × (1 ≤ s.limits.workers) };
}

impl Session {
    /// A session under these limits: over the ordered fields, with no names, nothing bound and nothing assumed.
    pub fn new(alloc: Global, limits: Limits) -> Session
        requires { 1 ≤ limits.workers }
        ensures state { state_in result ≡ first_state }
        ensures limits { result.limits ≡ limits }
    {
        Session {
            state: SessionState::new(alloc),
            limits,
        }
    }

    /// Answers the statement that these bytes spell, or says the first cause of its refusal, which changes nothing.
    /// An elimination or a grid is worked on by as many threads of the runtime as the session has workers; each passes the gate before a
    /// piece.
    pub fn statement<R: Threads + Sync, G: Gate + Sync>(
        &mut self,
        rt: &R,
        bytes: &[u8],
        gate: &G,
    ) -> Result<Line, StatementError>
        ensures reply { Reply (state_in self.old) self.old.limits.nodes bytes.now result (state_in self.new) }
        ensures limits { self.new.limits ≡ self.old.limits }
    {
        if let Err(_failed) = self.state.tidy() {
            return Err(StatementError::Memory);
        }
        let workshop = Workshop {
            rt,
            limits: self.limits,
            gate,
        };
        reply_to(&workshop, &mut self.state, bytes)
    }
}

/// Reads a statement and answers it.
fn reply_to<R: Threads + Sync, G: Gate + Sync>(
    workshop: &Workshop<'_, R, G>,
    state: &mut SessionState,
    bytes: &[u8],
) -> Result<Line, StatementError>
    requires workers { 1 ≤ workshop.now.limits.workers }
    requires session { IsSessionState state.old }
    requires settled { state.old.answers.items ≡ [] }
    ensures session { IsSessionState state.new }
    ensures settled { state.new.answers.items ≡ [] }
    ensures reply { Reply (state_of state.old) workshop.now.limits.nodes bytes.now result (state_of state.new) }
{
    match read_statement(state.alloc, bytes) {
        Ok(statement) => answer(workshop, state, &statement),
        Err(error) => Err(refusal_of(error)),
    }
}

/// A refusal of the reader.
fn refusal_of(error: ReadError) -> StatementError
    ensures { result ≡ read_refusal error }
{
    match error {
        ReadError::Long => StatementError::Long,
        ReadError::Lexical => StatementError::Lexical,
        ReadError::Nesting => StatementError::Nesting,
        ReadError::Syntax => StatementError::Syntax,
        ReadError::Memory => StatementError::Memory,
    }
}

/// Answers a statement, the commands inside it first. An `Err` leaves the state as it was.
fn answer<R: Threads + Sync, G: Gate + Sync>(
    workshop: &Workshop<'_, R, G>,
    state: &mut SessionState,
    statement: &Statement,
) -> Result<Line, StatementError>
    requires workers { 1 ≤ workshop.now.limits.workers }
    requires written { IsWritten statement.now.action }
    requires formula { BindsFormula (asked_action statement.now.action) }
    requires session { IsSessionState state.old }
    requires settled { state.old.answers.items ≡ [] }
    ensures session { IsSessionState state.new }
    ensures settled { state.new.answers.items ≡ [] }
    ensures answer { IfOk result (λ line. IsStatementAnswer statement.now (state_of state.old) workshop.now.limits.nodes line (state_of state.new)) }
    ensures refusal { IfErr result (IsStatementStopped statement.now (state_of state.old) workshop.now.limits.nodes) }
    ensures unchanged { OnErr result (state_of state.new ≡ state_of state.old) }
{
    let count = state.names.count();
    let result = answer_all(workshop, state, statement);
    state.answers.clear();
    match result {
        Ok(line) => Ok(line),
        Err(error) => {
            state.names.keep_first(count);
            Err(error)
        }
    }
}

/// The same, where the answers of the commands inside are left in the state, and after an `Err` the names may have grown.
fn answer_all<R: Threads + Sync, G: Gate + Sync>(
    workshop: &Workshop<'_, R, G>,
    state: &mut SessionState,
    statement: &Statement,
) -> Result<Line, StatementError>
    requires workers { 1 ≤ workshop.now.limits.workers }
    requires written { IsWritten statement.now.action }
    requires formula { BindsFormula (asked_action statement.now.action) }
    requires session { IsSessionState state.old }
    requires settled { state.old.answers.items ≡ [] }
    ensures session { OnOk result (IsSessionState state.new) }
    ensures answer { IfOk result (λ line. IsAnsweredThrough statement.now (state_of state.old) workshop.now.limits.nodes line (state_of state.new)) }
    ensures refusal { IfErr result (IsStatementStopped statement.now (state_of state.old) workshop.now.limits.nodes) }
    ensures left { OnErr result (LeavesState state.old state.new) }
{
    answer_inside(workshop, state, &statement.action)?;
    act(workshop, state, statement)
}

/// Does what the statement says, with the answers of the commands inside it. After an `Err` the names may have grown.
#[tactic(auto, using(crate::proofs::ItemTrees::item_trees))]
fn act<R: Threads + Sync, G: Gate + Sync>(
    workshop: &Workshop<'_, R, G>,
    state: &mut SessionState,
    statement: &Statement,
) -> Result<Line, StatementError>
    requires workers { 1 ≤ workshop.now.limits.workers }
    requires ready { CanAct state.old statement.now.action }
    requires formula { BindsFormula (asked_action statement.now.action) }
    requires session { IsSessionState state.old }
    ensures session { OnOk result (IsSessionState state.new) }
    ensures answer { IfOk result (λ line. Answers (with_variables alone (asked_action statement.now.action) (state_of state.old)) workshop.now.limits.nodes statement.now.printed (asked_action statement.now.action) line (state_of state.new)) }
    ensures refusal { IfErr result (IsStopped (with_variables alone (asked_action statement.now.action) (state_of state.old)) workshop.now.limits.nodes statement.now.printed (asked_action statement.now.action)) }
    ensures grown { OnErr result (GrowsState state.old state.new) }
{
    match &statement.action {
        Action::Empty | Action::Ignored => Ok(Line::Nothing),
        Action::Finish => Ok(Line::Finished),
        Action::Choose(setting) => choose(state, *setting, statement.printed),
        Action::Say(command) => say(workshop, state, command, statement.printed),
        Action::Assign(name, command) => {
            answer_form_command(workshop, state, command, &Some(*name), statement.printed)
        }
        Action::Assume(given) => assume(state, given.items(), statement.printed),
        Action::Retract => retract(state, statement.printed),
    }
}

/// Chooses the theory. Another one than before drops what is bound and what is assumed.
fn choose(state: &mut SessionState, setting: Setting, printed: bool) -> Result<Line, StatementError>
    requires { IsSessionState state.old }
    ensures session { OnOk result (IsSessionState state.new) }
    ensures line { IfOk result (IsLine printed (context_text (theory_of setting))) }
    ensures chosen { OnOk result (state_of state.new ≡ chosen (state_of state.old) (theory_of setting)) }
    ensures memory { IfErr result (λ e. e ≡ StatementError.Memory) }
    ensures grown { OnErr result (GrowsState state.old state.new) }
{
    let (context, word) = match setting {
        Setting::Ofsf => (Context::Fields, b"ofsf".as_slice()),
        Setting::Pasf => (Context::Integers, b"pasf".as_slice()),
    };
    let line = printed_line(state.alloc, word, printed)?;
    state.choose(context);
    Ok(line)
}

/// Answers a command. After an `Err` the names may have grown.
#[tactic(auto, using(crate::proofs::ItemTrees::item_trees))]
fn say<R: Threads + Sync, G: Gate + Sync>(
    workshop: &Workshop<'_, R, G>,
    state: &mut SessionState,
    command: &Command,
    printed: bool,
) -> Result<Line, StatementError>
    requires workers { 1 ≤ workshop.now.limits.workers }
    requires ready { CanAsk state.old command.now }
    requires session { IsSessionState state.old }
    ensures session { OnOk result (IsSessionState state.new) }
    ensures answer { IfOk result (λ line. AnswersSaid (meaning (asked_command command.now)) (numbered (meaning (asked_command command.now)) (state_of state.old)) workshop.now.limits.nodes printed line (state_of state.new)) }
    ensures refusal { IfErr result (RefusesCommand (asked_command command.now) (state_of state.old) workshop.now.limits.nodes (use_of None printed)) }
    ensures grown { OnErr result (GrowsState state.old state.new) }
{
    match command {
        Command::Qea(formula, given) => answer_cases(
            workshop,
            state,
            formula,
            given.items(),
            printed,
        ),
        Command::Holds(formula, entries) => {
            answer_holds(workshop, state, formula, entries.items(), printed)
        }
        Command::Sample(formula, entries) => {
            answer_sample(workshop, state, formula, entries.items(), printed)
        }
        Command::Grid(formula, axes) => {
            answer_grid(workshop, state, formula, axes.items(), printed)
        }
        Command::Certify(constraints) => {
            answer_certificate(workshop.limits.nodes, state, constraints.items(), printed)
        }
        Command::Check(constraints, multipliers) => answer_check(
            workshop.limits.nodes,
            state,
            constraints.items(),
            multipliers.items(),
            printed,
        ),
        Command::Least(constraints, target) => {
            answer_least(workshop, state, constraints.items(), target, printed)
        }
        Command::Echo(_)
        | Command::Nnf(_)
        | Command::Pnf(_)
        | Command::Dnf(_)
        | Command::Cnf(_)
        | Command::Simpl(..)
        | Command::Qe(..) => answer_form_command(workshop, state, command, &None, printed),
    }
}

/// Answers a command that gives a formula, and binds it to the name, if there is one. After an `Err` the names may have grown.
fn answer_form_command<R: Threads + Sync, G: Gate + Sync>(
    workshop: &Workshop<'_, R, G>,
    state: &mut SessionState,
    command: &Command,
    target: &Option<Name>,
    printed: bool,
) -> Result<Line, StatementError>
    requires workers { 1 ≤ workshop.now.limits.workers }
    requires ready { CanAsk state.old command.now }
    requires formula { GivesFormula (meaning (asked_command command.now)).answer }
    requires session { IsSessionState state.old }
    ensures session { OnOk result (IsSessionState state.new) }
    ensures answer { IfOk result (λ line. AnswersFormula (asked_command command.now) (state_of state.old) workshop.now.limits.nodes (use_of target.now printed) line (state_of state.new)) }
    ensures refusal { IfErr result (RefusesCommand (asked_command command.now) (state_of state.old) workshop.now.limits.nodes (use_of target.now printed)) }
    ensures grown { OnErr result (GrowsState state.old state.new) }
{
    let Some((wanted, formula)) = form_command_of(command) else {
        unreachable!()
    };
    answer_formula(workshop, state, wanted, formula, target, printed)
}
