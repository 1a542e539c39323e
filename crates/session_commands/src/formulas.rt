//! Commands that give a formula: it is printed, or bound to a name.

ghost use Rattle.logic_meaning.specs.Formula.{also};
ghost use Rattle.std.specs.Prelude.{◌≡◌, ◌⊎◌, ◌↔◌, ◌<◌, ◌≤◌, ◌++◌, true, IsTrue, Option, Some, IfOk, IfErr, IfSome, IfNone, MatchOption, OnOk, OnErr, length, codes, map};
ghost use Rattle.std.specs.Bool.{MatchBool};
ghost use Rattle.logic_meaning.specs.Bindings.{bound_to, most_bound};
ghost use Rattle.formula_store.specs.Nodes.{tree, IsId};
ghost use Rattle.formula_laws.specs.Within.{IsTreeWithin};
ghost use Rattle.logic_meaning.specs.Members.{HasTwoMembers};
ghost use Rattle.logic_meaning.specs.Text.{tree_text};
ghost use Rattle.logic_meaning.specs.Writing.{text_limit};
ghost use Rattle.written_syntax.specs.Writable.{AreWritableFormulas};
ghost use Rattle.session_commands.specs.Asking.{asked_command, formula_asked};
ghost use Rattle.session_commands.specs.InnerForms.{IsInnerForm};
ghost use Rattle.written_syntax.specs.CodeTrees.{whole_command as inner_nest, formula_tree};
ghost use Rattle.language_meaning.specs.Trees.{formulas_of};
ghost use Rattle.form_commands.specs.Replies.{use_of, Refuses, RefusesCommand, IsFormulaAnswer, AnswersFormula};
ghost use Rattle.form_commands.specs.Refusals.{IsLongText, LineFault};
ghost use Rattle.session_commands.specs.Steps.{given_trees, form_of, command_of, HasUnwantedQuantifier, IsReady, IsUnready, IsWantedOf, MayBind, TargetFault, IsLineOf, GiveFault, bound_after, IsFirstAttempt, IsByCases, IsForSize, IsUnfit, plain_of, RefusesAsked, AttemptRefuses, KeepsWhereEliminated, HasFewBytes};
ghost use Rattle.form_commands.specs.Reading.{AreNumbered, AreRead};
ghost use Rattle.program_meaning.specs.Meaning.{meaning};
ghost use Rattle.session_state.specs.Numbered.{numbered};
ghost use Rattle.session_state.specs.FormulaGiven.{GivesFormula};
ghost use Rattle.program_meaning.specs.Uses.{formula_line};
ghost use Rattle.logic_meaning.specs.Tree.{tree_distinct};
ghost use Rattle.program_meaning.specs.declared.limit.TheConstants.{MOST_SUBFORMULAS};
ghost use Rattle.program_meaning.specs.Causes.{HasNoRoom};
ghost use Rattle.program_meaning.specs.Reply.{IsLine};
ghost use Rattle.session_state.specs.Keeping.{state_of, IsSessionState, HasIds};
ghost use Rattle.session_state.specs.Scripted.{HasAnswers, answered_tree};
ghost use Rattle.session_state.specs.Growth.{KeepsState, GrowsState};

use form_commands::{
    ClauseForm, Form, Premised, Way, Workshop, formed, forms_refusal, holds_quantifier,
    number_parts, read_parts, text_of,
};
use formula_store::FormulaId;
use formula_tree::{BindError, Bindings};
use logic_meaning::{Name, TEXT_LIMIT};
use program_meaning::{Line, MOST_SUBFORMULAS, StatementError};
use qe_parallel::Gate;
use session_state::SessionState;
use std::alloc::Global;
use std::thread::Threads;
use written_syntax::{Command, Formula, Formulas, InnerCommand};

/// At most so many names are bound.
const MOST_BOUND: usize = 256;

/// The formula that a command gives: as it is, its negation normal form, its prenex form, a clean form, one that is simplified
/// under assumptions, or one without quantifiers, simplified under assumptions.
#[derive(Clone, Copy)]
pub(crate) enum FormCommand<'a> {
    Resolved,
    NegationNormal,
    Prenex,
    Distributed(ClauseForm),
    Simplified(&'a Formulas),
    Eliminated(Way, &'a Formulas),
}

impl<'a> FormCommand<'a> {
    /// The form that is wanted.
    fn form(self) -> Form
        ensures { result ≡ form_of self.entry }
    {
        match self {
            FormCommand::Resolved => Form::AsRead,
            FormCommand::NegationNormal => Form::NegationNormal,
            FormCommand::Prenex => Form::Prenex,
            FormCommand::Distributed(clauses) => Form::Distributed(clauses),
            FormCommand::Simplified(_) => Form::Simplified,
            FormCommand::Eliminated(way, _) => Form::Eliminated(way),
        }
    }

    /// The same command by the reference elimination alone, where it is one by cases.
    fn by_reference(self) -> Option<FormCommand<'a>>
        ensures { MatchOption result (¬ (IsByCases self.entry)) (λ plain. (plain ≡ plain_of self.entry) × IsByCases self.entry) }
    {
        match self {
            FormCommand::Eliminated(Way::ByCases, given) => {
                Some(FormCommand::Eliminated(Way::ByReference, given))
            }
            FormCommand::Eliminated(Way::ByReference, _)
            | FormCommand::Resolved
            | FormCommand::NegationNormal
            | FormCommand::Prenex
            | FormCommand::Distributed(_)
            | FormCommand::Simplified(_) => None,
        }
    }

    /// The assumptions.
    #[tactic(auto, using(crate::proofs::ItemTrees::item_trees))]
    fn assumptions(self) -> &'a [Formula]
        ensures { formulas_of (map formula_tree result.now) ≡ given_trees self.entry }
    {
        match self {
            FormCommand::Resolved
            | FormCommand::NegationNormal
            | FormCommand::Prenex
            | FormCommand::Distributed(_) => &[],
            FormCommand::Simplified(given) | FormCommand::Eliminated(_, given) => given.items(),
        }
    }
}

/// What formula the command asks for, and of which one; `None` of a query.
pub(crate) fn form_command_of(command: &Command) -> Option<(FormCommand<'_>, &Formula)>
    ensures asked { IfSome result (λ r. asked_command command.now ≡ command_of r.0 (answered_tree r.1.now)) }
    ensures formula { IfSome result (λ r. formula_asked command.now ≡ Some r.1.now) }
    ensures first { IfSome result (λ r. IsFirstAttempt r.0) }
    ensures query { IfNone result (¬ (GivesFormula (meaning (asked_command command.now)).answer)) }
{
    match command {
        Command::Echo(formula) => Some((FormCommand::Resolved, formula)),
        Command::Nnf(formula) => Some((FormCommand::NegationNormal, formula)),
        Command::Pnf(formula) => Some((FormCommand::Prenex, formula)),
        Command::Dnf(formula) => Some((FormCommand::Distributed(ClauseForm::Disjunctive), formula)),
        Command::Cnf(formula) => Some((FormCommand::Distributed(ClauseForm::Conjunctive), formula)),
        Command::Simpl(formula, given) => Some((FormCommand::Simplified(given), formula)),
        Command::Qe(formula, given) => {
            Some((FormCommand::Eliminated(Way::ByCases, given), formula))
        }
        Command::Qea(..)
        | Command::Holds(..)
        | Command::Sample(..)
        | Command::Grid(..)
        | Command::Certify(..)
        | Command::Check(..)
        | Command::Least(..) => None,
    }
}

/// What formula a command inside another one asks for, and of which one.
#[tactic(auto, using(written_syntax::proofs::TreeEquations::wholes))]
pub(crate) fn inner_form_of(command: &InnerCommand) -> (FormCommand<'_>, &Formula)
    ensures form { IsInnerForm result.0 result.1.now (inner_nest command.now) }
    ensures first { IsFirstAttempt result.0 }
{
    match command {
        InnerCommand::Nnf(formula) => (FormCommand::NegationNormal, formula),
        InnerCommand::Pnf(formula) => (FormCommand::Prenex, formula),
        InnerCommand::Dnf(formula) => (FormCommand::Distributed(ClauseForm::Disjunctive), formula),
        InnerCommand::Cnf(formula) => (FormCommand::Distributed(ClauseForm::Conjunctive), formula),
        InnerCommand::Simpl(formula, given) => (FormCommand::Simplified(given), formula),
        InnerCommand::Qe(formula, given) => (FormCommand::Eliminated(Way::ByCases, given), formula),
    }
}

/// Answers a command that gives a formula. After an `Err` the names may have grown.
pub(crate) fn answer_formula<R: Threads + Sync, G: Gate + Sync>(
    workshop: &Workshop<'_, R, G>,
    state: &mut SessionState,
    wanted: FormCommand<'_>,
    formula: &Formula,
    target: &Option<Name>,
    printed: bool,
) -> Result<Line, StatementError>
    requires workers { 1 ≤ workshop.now.limits.workers }
    requires answers { HasAnswers state.old formula.now }
    requires given { AreWritableFormulas (given_trees wanted) }
    requires session { IsSessionState state.old }
    requires first { IsFirstAttempt wanted }
    ensures session { OnOk result (IsSessionState state.new) }
    ensures answer { IfOk result (λ line. AnswersFormula (command_of wanted.entry (answered_tree formula.now)) (state_of state.old) workshop.now.limits.nodes (use_of target.now printed) line (state_of state.new)) }
    ensures refused { IfErr result (RefusesCommand (command_of wanted.entry (answered_tree formula.now)) (state_of state.old) workshop.now.limits.nodes (use_of target.now printed)) }
    ensures grown { OnErr result (GrowsState state.old state.new) }
{
    let assumptions = wanted.assumptions();
    number_parts(formula, assumptions, &state.bindings, &mut state.names)?;
    answer_numbered(workshop, state, wanted, formula, target, printed)
}

/// Answers the command, whose variables have their numbers. A condition by cases that is too large to be bound or to be printed gives way to
/// that of the reference elimination.
fn answer_numbered<R: Threads + Sync, G: Gate + Sync>(
    workshop: &Workshop<'_, R, G>,
    state: &mut SessionState,
    wanted: FormCommand<'_>,
    formula: &Formula,
    target: &Option<Name>,
    printed: bool,
) -> Result<Line, StatementError>
    requires workers { 1 ≤ workshop.now.limits.workers }
    requires answers { HasAnswers state.old formula.now }
    requires given { AreWritableFormulas (given_trees wanted) }
    requires session { IsSessionState state.old }
    requires numbered { AreNumbered state.old.names (also (answered_tree formula.now) (given_trees wanted)) }
    requires first { IsFirstAttempt wanted }
    ensures session { OnOk result (IsSessionState state.new) }
    ensures answer { IfOk result (λ line. IsFormulaAnswer (state_of state.old) workshop.now.limits.nodes (use_of target.now printed) (command_of wanted.entry (answered_tree formula.now)) line (state_of state.new)) }
    ensures refused { IfErr result (Refuses (state_of state.old) workshop.now.limits.nodes (use_of target.now printed) (command_of wanted.entry (answered_tree formula.now))) }
    ensures grown { OnErr result (GrowsState state.old state.new) }
{
    let error = match attempt(workshop, state, wanted, formula, target, printed) {
        Ok(line) => return Ok(line),
        Err(error) => error,
    };
    match instead(state, wanted, target, error) {
        Some(plain) => attempt(workshop, state, plain, formula, target, printed),
        None => Err(error),
    }
}

/// The same command by the reference elimination alone, where its condition by cases is too large to be bound or to be printed, and there is
/// room for its name.
fn instead<'a>(
    state: &SessionState,
    wanted: FormCommand<'a>,
    target: &Option<Name>,
    error: StatementError,
) -> Option<FormCommand<'a>>
    ensures { MatchOption result (¬ (IsUnfit (state_of state.now).bound target.now wanted.entry error)) (λ plain. (plain ≡ plain_of wanted.entry) × IsUnfit (state_of state.now).bound target.now wanted.entry error) }
{
    if !is_size(error) || lacks_room(state, target) {
        return None;
    }
    wanted.by_reference()
}

/// Whether the refusal is for the size of what is given.
fn is_size(error: StatementError) -> bool
    ensures { MatchBool result (IsForSize error) (¬ (IsForSize error)) }
{
    matches!(error, StatementError::Bindings | StatementError::Text)
}

/// Gives the formula that is wanted, or says why there is none. After an `Err` the names may have grown, but not those of a command that
/// eliminates.
fn attempt<R: Threads + Sync, G: Gate + Sync>(
    workshop: &Workshop<'_, R, G>,
    state: &mut SessionState,
    wanted: FormCommand<'_>,
    formula: &Formula,
    target: &Option<Name>,
    printed: bool,
) -> Result<Line, StatementError>
    requires workers { 1 ≤ workshop.now.limits.workers }
    requires answers { HasAnswers state.old formula.now }
    requires given { AreWritableFormulas (given_trees wanted) }
    requires session { IsSessionState state.old }
    requires numbered { AreNumbered state.old.names (also (answered_tree formula.now) (given_trees wanted)) }
    ensures session { OnOk result (IsSessionState state.new) }
    ensures answer { IfOk result (λ line. IsFormulaAnswer (state_of state.old) workshop.now.limits.nodes (use_of target.now printed) (command_of wanted.entry (answered_tree formula.now)) line (state_of state.new)) }
    ensures refused { IfErr result (AttemptRefuses (state_of state.old) workshop.now.limits.nodes (use_of target.now printed) wanted.entry (answered_tree formula.now)) }
    ensures grown { OnErr result (GrowsState state.old state.new) }
    ensures kept { OnErr result (KeepsWhereEliminated wanted.entry state.old state.new) }
{
    let id = wanted_formula(workshop, state, wanted, formula)?;
    give(state, target, printed, id)
}

/// The formula that is wanted, or the first cause of a refusal in reading or in making it. The names may have grown.
pub(crate) fn wanted_formula<R: Threads + Sync, G: Gate + Sync>(
    workshop: &Workshop<'_, R, G>,
    state: &mut SessionState,
    wanted: FormCommand<'_>,
    formula: &Formula,
) -> Result<FormulaId, StatementError>
    requires workers { 1 ≤ workshop.now.limits.workers }
    requires answers { HasAnswers state.old formula.now }
    requires given { AreWritableFormulas (given_trees wanted) }
    requires session { IsSessionState state.old }
    requires numbered { AreNumbered state.old.names (also (answered_tree formula.now) (given_trees wanted)) }
    ensures made { IfOk result (IsId state.new.store) }
    ensures wanted { IfOk result (λ id. IsWantedOf (state_of state.old) workshop.now.limits.nodes wanted.entry (answered_tree formula.now) (tree state.new.store id) state.new.names) }
    ensures refused { IfErr result (RefusesAsked (state_of state.old) workshop.now.limits.nodes wanted.entry (answered_tree formula.now)) }
    ensures grown { GrowsState state.old state.new }
    ensures other { IfErr result (λ e. ¬ (IsForSize e)) }
    ensures kept { KeepsWhereEliminated wanted.entry state.old state.new }
{
    let read = read_wanted(state, wanted, formula)?;
    let form = wanted.form();
    let engine = workshop.engine(state);
    match formed(&engine, &mut state.store, &mut state.names, form, &read) {
        Ok(id) => Ok(id),
        Err(error) => Err(forms_refusal(error)),
    }
}

/// Binds the formula to the name, if there is one, and gives its line, if it is printed. An `Err` leaves all as it was.
fn give(
    state: &mut SessionState,
    target: &Option<Name>,
    printed: bool,
    id: FormulaId,
) -> Result<Line, StatementError>
    requires id { IsId state.old.store id }
    requires within { IsTreeWithin (length state.old.names) (tree state.old.store id) }
    requires members { HasTwoMembers (tree state.old.store id) }
    ensures bound { OnOk result (state.new ≡ record state.old { bindings = bound_after state.old.bindings target.now id }) }
    ensures line { IfOk result (IsLineOf target.now printed (state_of state.old) (tree state.old.store id)) }
    ensures fault { IfErr result (GiveFault target.now printed (state_of state.old) (tree state.old.store id)) }
    ensures few { IfErr result (λ e. e ≡ StatementError.Text → HasFewBytes target.now ⊎ (text_limit < length (tree_text state.old.names (tree state.old.store id)))) }
    ensures unchanged { OnErr result (state.new ≡ state.old) }
{
    check_target(state, target, id)?;
    let line = line_of(state, target, printed, id)?;
    bind(state, target, id)?;
    Ok(line)
}

/// What is read of the formula and its assumptions. A disjunctive or conjunctive form is refused where a quantifier stands in the
/// formula, also where reading it overflows.
fn read_wanted(
    state: &mut SessionState,
    wanted: FormCommand<'_>,
    formula: &Formula,
) -> Result<Premised, StatementError>
    requires answers { HasAnswers state.old formula.now }
    requires given { AreWritableFormulas (given_trees wanted) }
    requires ids { HasIds state.old }
    requires numbered { AreNumbered state.old.names (also (answered_tree formula.now) (given_trees wanted)) }
    ensures read { IfOk result (AreRead (state_of state.old) (answered_tree formula.now) (given_trees wanted.entry) state.new) }
    ensures ready { OnOk result (IsReady (state_of state.old) wanted.entry (answered_tree formula.now)) }
    ensures unready { IfErr result (IsUnready (state_of state.old) wanted.entry (answered_tree formula.now)) }
    ensures kept { KeepsState state.old state.new }
{
    match read_parts(state, formula, wanted.assumptions()) {
        Ok(read) => {
            if has_unwanted_quantifier(state, wanted, formula) {
                return Err(StatementError::Quantified);
            }
            Ok(read)
        }
        Err(StatementError::Overflow) => {
            if has_unwanted_quantifier(state, wanted, formula) {
                return Err(StatementError::Quantified);
            }
            Err(StatementError::Overflow)
        }
        Err(error) => Err(error),
    }
}

/// Whether a quantifier stands in a formula that is asked for its disjunctive or conjunctive form.
fn has_unwanted_quantifier(state: &SessionState, wanted: FormCommand<'_>, formula: &Formula) -> bool
    requires answers { HasAnswers state.now formula.now }
    requires ids { HasIds state.now }
    ensures { IsTrue result ↔ HasUnwantedQuantifier (state_of state.now) wanted.entry (answered_tree formula.now) }
{
    match wanted {
        FormCommand::Distributed(_) => holds_quantifier(state, formula),
        FormCommand::Resolved | FormCommand::NegationNormal | FormCommand::Prenex => false,
        FormCommand::Simplified(_) | FormCommand::Eliminated(..) => false,
    }
}

/// Whether the formula may be bound to the name, if there is one.
fn check_target(
    state: &SessionState,
    target: &Option<Name>,
    id: FormulaId,
) -> Result<(), StatementError>
    requires { IsId state.now.store id }
    ensures ok { OnOk result (MayBind (state_of state.now).bound target.now (tree state.now.store id)) }
    ensures fault { IfErr result (TargetFault (state_of state.now).bound target.now (tree state.now.store id)) }
{
    if lacks_room(state, target) {
        return Err(StatementError::Bindings);
    }
    match target {
        Some(_) => check_size(state, id),
        None => Ok(()),
    }
}

/// Whether the formula has no more distinct subformulas than a bound formula may have.
fn check_size(state: &SessionState, id: FormulaId) -> Result<(), StatementError>
    requires { IsId state.now.store id }
    ensures few { OnOk result (tree_distinct (tree state.now.store id) ≤ MOST_SUBFORMULAS) }
    ensures fault { IfErr result (λ e. ((e ≡ StatementError.Bindings) × (MOST_SUBFORMULAS < tree_distinct (tree state.now.store id))) ⊎ (e ≡ StatementError.Memory)) }
{
    let Ok(count) = state.store.distinct(id) else {
        return Err(StatementError::Memory);
    };
    if count > MOST_SUBFORMULAS {
        return Err(StatementError::Bindings);
    }
    Ok(())
}

/// Whether the name, if there is one, is new, and as many names are bound as may be.
fn lacks_room(state: &SessionState, target: &Option<Name>) -> bool
    ensures { MatchBool result (HasNoRoom (state_of state.now).bound target.now) (¬ (HasNoRoom (state_of state.now).bound target.now)) }
{
    match target {
        Some(name) => is_full_without(&state.bindings, name),
        None => false,
    }
}

/// Whether the name is new, and as many names are bound as may be.
fn is_full_without(bindings: &Bindings<FormulaId>, name: &Name) -> bool
    ensures { MatchBool result
        ((bound_to bindings.now name.now ≡ None) × (most_bound ≤ length bindings.now))
        (¬ ((bound_to bindings.now name.now ≡ None) × (most_bound ≤ length bindings.now))) }
{
    bindings.get(name).is_none() && bindings.len() >= MOST_BOUND
}

/// The line of a formula, if it is printed.
fn line_of(
    state: &SessionState,
    target: &Option<Name>,
    printed: bool,
    id: FormulaId,
) -> Result<Line, StatementError>
    requires id { IsId state.now.store id }
    requires within { IsTreeWithin (length state.now.names) (tree state.now.store id) }
    requires members { HasTwoMembers (tree state.now.store id) }
    ensures line { IfOk result (IsLine printed (formula_line target.now state.now.names (tree state.now.store id))) }
    ensures short { OnOk result (¬ (IsLongText printed (formula_line target.now state.now.names (tree state.now.store id)))) }
    ensures fault { IfErr result (LineFault printed (formula_line target.now state.now.names (tree state.now.store id))) }
    ensures few { IfErr result (λ e. e ≡ StatementError.Text → HasFewBytes target.now ⊎ (text_limit < length (tree_text state.now.names (tree state.now.store id)))) }
{
    if !printed {
        return Ok(Line::Nothing);
    }
    let text = text_of(state, id)?;
    match target {
        None => Ok(Line::Printed(text)),
        Some(name) => assignment_line(state.alloc, name, &text),
    }
}

/// The line of an assignment.
fn assignment_line(alloc: Global, name: &Name, text: &[u8]) -> Result<Line, StatementError>
    ensures few { length name.now ≤ 64 }
    ensures line { IfOk result (IsLine true (name.now ++ codes " := " ++ text.now)) }
    ensures short { OnOk result (length (name.now ++ codes " := " ++ text.now) ≤ text_limit) }
    ensures fault { IfErr result (λ e. ((e ≡ StatementError.Text) × (text_limit < length (name.now ++ codes " := " ++ text.now))) ⊎ (e ≡ StatementError.Memory)) }
{
    let before = name.bytes();
    if text.len() > TEXT_LIMIT || TEXT_LIMIT - text.len() < before.len() + 4 {
        return Err(StatementError::Text);
    }
    let Ok(line) = joined(alloc, before, text) else {
        return Err(StatementError::Memory);
    };
    Ok(Line::Printed(line))
}

/// The name, ` := ` and the text.
fn joined(alloc: Global, name: &[u8], text: &[u8]) -> Result<Vec<u8>, std::alloc::AllocError>
    ensures { IfOk result (λ v. v.items ≡ name.now ++ codes " := " ++ text.now) }
{
    let mut line = Vec::new(alloc);
    line.extend_from_slice(name)?;
    line.extend_from_slice(b" := ")?;
    line.extend_from_slice(text)?;
    Ok(line)
}

/// Binds the formula to the name, if there is one.
fn bind(
    state: &mut SessionState,
    target: &Option<Name>,
    id: FormulaId,
) -> Result<(), StatementError>
    requires { ¬ (HasNoRoom (state_of state.old).bound target.now) }
    ensures bound { OnOk result (state.new ≡ record state.old { bindings = bound_after state.old.bindings target.now id }) }
    ensures memory { IfErr result (λ e. e ≡ StatementError.Memory) }
    ensures unchanged { OnErr result (state.new ≡ state.old) }
{
    let Some(name) = target else {
        return Ok(());
    };
    match state.bindings.put(name, id) {
        Ok(()) => Ok(()),
        Err(BindError::Full) => unreachable!(),
        Err(BindError::Memory) => Err(StatementError::Memory),
    }
}
