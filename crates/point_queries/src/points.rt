//! What is looked at before anything is answered at a point.

ghost use Rattle.std.specs.Prelude.{◌≡◌, ◌↔◌, ◌++◌, ℕ, IfOk, IfErr, OnOk, IsTrue};
ghost use Rattle.std.specs.List.{IsDistinct, fold};
ghost use Rattle.logic_meaning.specs.Some.{SomeOf};
ghost use Rattle.normal_atoms.specs.Atoms.{context_of};
ghost use Rattle.linear_forms.specs.Values.{number_at};
ghost use Rattle.language_meaning.specs.Point.{IsPointOf};
ghost use Rattle.written_syntax.specs.PointNumbers.{point_of};
ghost use Rattle.written_syntax.specs.Writable.{AreWritableEntries};
ghost use Rattle.language_meaning.specs.Value.{same_name};
ghost use Rattle.logic_meaning.specs.Names.{with_name};
ghost use Rattle.language_meaning.specs.Resolving.{formula_variables, at_names};
ghost use Rattle.language_meaning.specs.Causes.{IsBound};
ghost use Rattle.formula_resolving.specs.Numbering.{Grows};
ghost use Rattle.program_meaning.specs.State.{known};
ghost use Rattle.form_commands.specs.Reading.{HasNumbers};
ghost use Rattle.point_queries.specs.Asked.{HaveNumbers, RefusesAsking, RefusesBoth, entry_names, stop_of, is_whole_theory, IsReadAs, IsMeantPoint, PointStop, IsValued, ValuedStop, IsAsked};
ghost use Rattle.session_state.specs.Keeping.{state_of, IsSessionState, HasIds};
ghost use Rattle.session_state.specs.Growth.{KeepsState};
ghost use Rattle.session_state.specs.Scripted.{HasAnswers, answered_tree};

use form_commands::resolved;
use formula_resolving::{bound_formula, number_formula};
use formula_store::FormulaId;
use formula_tree::{Bindings, Names};
use free_names::is_valued;
use language_meaning::PointEntry;
use linear_forms::Values;
use normal_atoms::Context;
use program_meaning::StatementError;
use session_state::SessionState;
use std::alloc::Global;
use written_syntax::{Formula, Point, PointFault};

/// Numbers the variables of the formula and of the point, in the order of the text. After an `Err` the names may have grown.
pub fn number_command(
    formula: &Formula,
    entries: &[PointEntry],
    bindings: &Bindings<FormulaId>,
    names: &mut Names,
) -> Result<(), StatementError>
    ensures numbered { OnOk result (names.new ≡ fold with_name names.old (formula_variables (answered_tree formula.now) ++ entry_names entries.now)) }
    ensures grown { Grows names.old names.new }
    ensures memory { IfErr result (λ e. e ≡ StatementError.Memory) }
{
    if let Err(_failed) = number_formula(formula, bindings, names) {
        return Err(StatementError::Memory);
    }
    number_entries(entries, names)
}

/// Numbers the names of the entries, in their order. After an `Err` the names may have grown.
pub fn number_entries(entries: &[PointEntry], names: &mut Names) -> Result<(), StatementError>
    ensures numbered { OnOk result (names.new ≡ fold with_name names.old (entry_names entries.now)) }
    ensures grown { Grows names.old names.new }
    ensures memory { IfErr result (λ e. e ≡ StatementError.Memory) }
{
    for entry in entries {
        if let Err(_failed) = names.number(&entry.name) {
            return Err(StatementError::Memory);
        }
    }
    Ok(())
}

/// The resolved formula and the point, or the first cause of a refusal.
pub fn asked(
    state: &mut SessionState,
    formula: &Formula,
    entries: &[PointEntry],
) -> Result<(FormulaId, Point), StatementError>
    requires answers { HasAnswers state.old formula.now }
    requires entries { AreWritableEntries entries.now }
    requires session { IsSessionState state.old }
    requires numbered { HasNumbers state.old.names (answered_tree formula.now) }
    ensures asked { IfOk result (λ a. IsAsked (state_of state.old) (answered_tree formula.now) entries.now state.new a.0 a.1) }
    ensures refused { IfErr result (RefusesBoth (state_of state.old) (answered_tree formula.now) entries.now) }
    ensures kept { KeepsState state.old state.new }
{
    let id = read(state, formula, entries)?;
    let point = meant_point(state.alloc, state.context, entries)?;
    check_valued(state, formula, entries)?;
    let Some(id) = id else {
        return Err(StatementError::Overflow);
    };
    let Some(point) = point else {
        return Err(StatementError::Overflow);
    };
    Ok((id, point))
}

/// The resolved formula, or `None` where its reading overflows.
pub fn read(
    state: &mut SessionState,
    formula: &Formula,
    entries: &[PointEntry],
) -> Result<Option<FormulaId>, StatementError>
    requires answers { HasAnswers state.old formula.now }
    requires ids { HasIds state.old }
    requires numbered { HasNumbers state.old.names (answered_tree formula.now) }
    ensures read { IfOk result (IsReadAs (state_of state.old) (answered_tree formula.now) entries.now state.new) }
    ensures refused { IfErr result (RefusesAsking (state_of state.old) (answered_tree formula.now) entries.now) }
    ensures kept { KeepsState state.old state.new }
{
    let met = some_bound(state, entries);
    match resolved(state, formula) {
        Ok(id) => {
            if met {
                return Err(StatementError::FormulaAsTerm);
            }
            Ok(Some(id))
        }
        Err(error) => match stop(error, met) {
            Some(error) => Err(error),
            None => Ok(None),
        },
    }
}

/// The word for a formula that is not resolved, or `None` where its reading overflows and no entry names something bound.
fn stop(error: StatementError, met: bool) -> Option<StatementError>
    ensures { result ≡ stop_of error met }
{
    match error {
        StatementError::Unbound | StatementError::Memory => Some(error),
        _ if met => Some(StatementError::FormulaAsTerm),
        StatementError::Overflow => None,
        _ => Some(error),
    }
}

/// Whether something is bound to the name of an entry.
fn some_bound(state: &SessionState, entries: &[PointEntry]) -> bool
    ensures { IsTrue result ↔ SomeOf (IsBound (known (state_of state.now))) (entry_names entries.now) }
{
    for entry in entries {
        if bound_formula(&entry.name, &state.bindings).is_some() {
            return true;
        }
    }
    false
}

/// The point that the entries mean, or `None` where one of its numbers passes the limit.
#[tactic(auto, using(written_syntax::proofs::WritableLemmas::writable))]
pub fn meant_point(
    alloc: Global,
    context: Context,
    entries: &[PointEntry],
) -> Result<Option<Point>, StatementError>
    requires { AreWritableEntries entries.now }
    ensures point { IfOk result (IsMeantPoint (context_of context) entries.now) }
    ensures fault { IfErr result (PointStop (context_of context) entries.now) }
{
    match Point::of(alloc, entries, is_whole(context)) {
        Ok(point) => Ok(Some(point)),
        Err(PointFault::Overflow) => Ok(None),
        Err(PointFault::Memory) => Err(StatementError::Memory),
        Err(_) => Err(StatementError::Point),
    }
}

/// Whether the values of a point of the theory are whole.
fn is_whole(context: Context) -> bool
    ensures { result ≡ is_whole_theory (context_of context) }
{
    match context {
        Context::Fields => false,
        Context::Integers => true,
    }
}

/// Whether each free name of the formula has an entry.
pub fn check_valued(
    state: &SessionState,
    formula: &Formula,
    entries: &[PointEntry],
) -> Result<(), StatementError>
    requires answers { HasAnswers state.now formula.now }
    requires ids { HasIds state.now }
    ensures valued { OnOk result (IsValued (state_of state.now) (answered_tree formula.now) entries.now) }
    ensures fault { IfErr result (ValuedStop (state_of state.now) (answered_tree formula.now) entries.now) }
{
    match is_valued(
        state.alloc,
        formula,
        entries,
        &state.bindings,
        &state.answers,
        &state.names,
        &state.store,
    ) {
        Ok(true) => Ok(()),
        Ok(false) => Err(StatementError::Unvalued),
        Err(_) => Err(StatementError::Memory),
    }
}

/// The numbers of the point for the numbered names.
pub fn values_of(
    alloc: Global,
    names: &Names,
    entries: &[PointEntry],
    point: &Point,
) -> Result<Values, StatementError>
    requires distinct { IsDistinct same_name names.now }
    requires numbered { HaveNumbers names.now entries.now }
    requires point { IsPointOf entries.now (point_of point.now) }
    ensures at { IfOk result (λ v. (n : ℕ) → number_at v n ≡ (at_names names.now (point_of point.now)).at n) }
    ensures below { IfOk result (λ v. v.denominator ≡ point.now.denominator) }
    ensures memory { IfErr result (λ e. e ≡ StatementError.Memory) }
{
    let mut values = Values::new(alloc, point.denominator());
    for entry in entries {
        let number = point.numerator(&entry.name);
        if let Err(_failed) = values.put(names.place(&entry.name), number) {
            return Err(StatementError::Memory);
        }
    }
    Ok(values)
}
