//! Standing assumptions: they are put behind the others, or all taken back.

ghost use Rattle.std.specs.Prelude.{◌≡◌, ℕ, [], IfOk, IfErr, OnOk, OnErr, length, map};
ghost use Rattle.std.specs.List.{AllByRecursion, fold};
ghost use Rattle.logic_meaning.specs.Some.{EachOf};
ghost use Rattle.formula_laws.specs.Within.{IsTreeWithin};
ghost use Rattle.formula_store.specs.Nodes.{tree, IsId};
ghost use Rattle.written_syntax.specs.Writable.{AreWritableFormulas};
ghost use Rattle.language_meaning.specs.Trees.{formulas_of};
ghost use Rattle.written_syntax.specs.CodeTrees.{formula_tree};
ghost use Rattle.session_state.specs.Numbered.{numbered};
ghost use Rattle.program_meaning.specs.Reply.{IsLine, AnswersAssumptions};
ghost use Rattle.program_meaning.specs.Standing.{with_assumption, standing_text};
ghost use Rattle.program_meaning.specs.State.{with_standing};
ghost use Rattle.session_state.specs.Keeping.{state_of, IsSessionState};
ghost use Rattle.session_state.specs.Growth.{KeepsState, GrowsState};
ghost use Rattle.session_state.specs.Trees.{standing_trees, IsFront};
ghost use Rattle.form_commands.specs.Refusals.{IsLongText, LineFault};
ghost use Rattle.form_commands.specs.Reading.{AreNumbered};
ghost use Rattle.session_commands.specs.Standing.{RefusesAssumptions, RefusesAssumed, AnswersAssumed, grown_by, IsGrown};

use form_commands::{number_all, print_refusal, printed_line, read_all};
use formula_store::{FormulaId, Store};
use formula_tree::Shape;
use program_meaning::{Line, StatementError};
use session_state::{Assumption, SessionState, Standing};
use std::alloc::{AllocError, Global};
use written_syntax::Formula;

/// Puts the assumptions behind the standing ones, and gives the line of them all. After an `Err` the names may have grown.
pub(crate) fn assume(
    state: &mut SessionState,
    given: &[Formula],
    printed: bool,
) -> Result<Line, StatementError>
    requires proper { AreWritableFormulas (formulas_of (map formula_tree given.now)) }
    requires session { IsSessionState state.old }
    ensures session { OnOk result (IsSessionState state.new) }
    ensures answer { IfOk result (λ line. AnswersAssumed (formulas_of (map formula_tree given.now)) (state_of state.old) printed line (state_of state.new)) }
    ensures refused { IfErr result (RefusesAssumed (formulas_of (map formula_tree given.now)) (state_of state.old) printed) }
    ensures grown { OnErr result (GrowsState state.old state.new) }
{
    number_all(given, &state.bindings, &mut state.names)?;
    assume_numbered(state, given, printed)
}

/// The same, where the variables of the assumptions have their numbers.
fn assume_numbered(
    state: &mut SessionState,
    given: &[Formula],
    printed: bool,
) -> Result<Line, StatementError>
    requires proper { AreWritableFormulas (formulas_of (map formula_tree given.now)) }
    requires session { IsSessionState state.old }
    requires numbered { AreNumbered state.old.names (formulas_of (map formula_tree given.now)) }
    ensures session { OnOk result (IsSessionState state.new) }
    ensures answer { IfOk result (λ line. (limit : ℕ) → AnswersAssumptions (formulas_of (map formula_tree given.now)) (state_of state.old) limit printed line (state_of state.new)) }
    ensures refused { IfErr result (RefusesAssumptions (formulas_of (map formula_tree given.now)) (state_of state.old) printed) }
    ensures kept { OnErr result (KeepsState state.old state.new) }
{
    let ids = read_all(state, given)?;
    stand(state, &ids, printed)
}

/// Puts the formulas behind the standing assumptions, and gives the line of them all. An `Err` leaves all as it was.
fn stand(state: &mut SessionState, ids: &[FormulaId], printed: bool) -> Result<Line, StatementError>
    requires ids { AllByRecursion (IsId state.old.store) ids.now }
    requires within { EachOf (IsTreeWithin (length state.old.names)) (grown_by state.old (map (tree state.old.store) ids.now)) }
    ensures grown { OnOk result (IsGrown state.old (map (tree state.old.store) ids.now) state.new) }
    ensures line { IfOk result (IsLine printed (standing_text state.old.names (grown_by state.old (map (tree state.old.store) ids.now)))) }
    ensures short { OnOk result (¬ (IsLongText printed (standing_text state.old.names (grown_by state.old (map (tree state.old.store) ids.now))))) }
    ensures fault { IfErr result (LineFault printed (standing_text state.old.names (grown_by state.old (map (tree state.old.store) ids.now)))) }
    ensures unchanged { OnErr result (state.new ≡ state.old) }
{
    let count = state.standing.count();
    match grow(state, ids, printed) {
        Ok(line) => Ok(line),
        Err(error) => {
            state.standing.keep_first(count);
            Err(error)
        }
    }
}

/// The same, where after an `Err` some of them may stand behind the others.
fn grow(state: &mut SessionState, ids: &[FormulaId], printed: bool) -> Result<Line, StatementError>
    requires ids { AllByRecursion (IsId state.old.store) ids.now }
    requires within { EachOf (IsTreeWithin (length state.old.names)) (grown_by state.old (map (tree state.old.store) ids.now)) }
    ensures grown { OnOk result (IsGrown state.old (map (tree state.old.store) ids.now) state.new) }
    ensures front { IsFront state.old.standing state.new.standing }
    ensures rest { state.new ≡ record state.old { standing = state.new.standing } }
    ensures line { IfOk result (IsLine printed (standing_text state.old.names (grown_by state.old (map (tree state.old.store) ids.now)))) }
    ensures short { OnOk result (¬ (IsLongText printed (standing_text state.old.names (grown_by state.old (map (tree state.old.store) ids.now))))) }
    ensures fault { IfErr result (LineFault printed (standing_text state.old.names (grown_by state.old (map (tree state.old.store) ids.now)))) }
{
    match put_all(state.alloc, &state.store, ids, &mut state.standing) {
        Ok(()) => standing_line(state, printed),
        Err(_) => Err(StatementError::Memory),
    }
}

/// Puts the formulas behind the standing assumptions. After an `Err` some of them may stand there.
fn put_all(
    alloc: Global,
    store: &Store,
    ids: &[FormulaId],
    standing: &mut Standing,
) -> Result<(), AllocError>
    requires { AllByRecursion (IsId store.now) ids.now }
    ensures grown { OnOk result (standing_trees standing.new ≡ fold with_assumption (standing_trees standing.old) (map (tree store.now) ids.now)) }
    ensures front { IsFront standing.old standing.new }
{
    for id in ids {
        put_one(alloc, store, *id, standing)?;
    }
    Ok(())
}

/// Puts the formula behind the standing assumptions, where it is an atom or false. Want of memory changes nothing.
fn put_one(
    alloc: Global,
    store: &Store,
    id: FormulaId,
    standing: &mut Standing,
) -> Result<(), AllocError>
    requires { IsId store.now id }
    ensures grown { OnOk result (standing_trees standing.new ≡ with_assumption (standing_trees standing.old) (tree store.now id)) }
    ensures front { IsFront standing.old standing.new }
{
    match store.shape(id) {
        Shape::False => standing.put(Assumption::False),
        Shape::One(atom) => {
            let atom = atom.copy(alloc).map_err(|_| AllocError)?;
            standing.put(Assumption::One(atom))
        }
        _ => Ok(()),
    }
}

/// The line of the standing assumptions, if it is printed.
fn standing_line(state: &SessionState, printed: bool) -> Result<Line, StatementError>
    requires { EachOf (IsTreeWithin (length state.now.names)) (standing_trees state.now.standing) }
    ensures line { IfOk result (IsLine printed (standing_text state.now.names (standing_trees state.now.standing))) }
    ensures short { OnOk result (¬ (IsLongText printed (standing_text state.now.names (standing_trees state.now.standing)))) }
    ensures fault { IfErr result (LineFault printed (standing_text state.now.names (standing_trees state.now.standing))) }
{
    if !printed {
        return Ok(Line::Nothing);
    }
    match state.standing.text(state.alloc, &state.names) {
        Ok(text) => Ok(Line::Printed(text)),
        Err(error) => Err(print_refusal(error)),
    }
}

/// Takes the standing assumptions back.
pub(crate) fn retract(state: &mut SessionState, printed: bool) -> Result<Line, StatementError>
    requires { IsSessionState state.old }
    ensures session { OnOk result (IsSessionState state.new) }
    ensures line { IfOk result (IsLine printed (standing_text state.old.names [])) }
    ensures retracted { OnOk result (state_of state.new ≡ with_standing (state_of state.old) []) }
    ensures memory { IfErr result (λ e. e ≡ StatementError.Memory) }
    ensures grown { OnErr result (GrowsState state.old state.new) }
{
    let line = printed_line(state.alloc, b"{}", printed)?;
    state.standing.clear();
    Ok(line)
}
