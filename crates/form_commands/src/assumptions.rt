//! The formula of a command and its assumptions: numbered, and resolved together.

ghost use Rattle.logic_meaning.specs.Formula.{also};
ghost use Rattle.std.specs.Prelude.{◌≡◌, ◌≢◌, ◌++◌, [], None, IfOk, IfErr, OnOk, map};
ghost use Rattle.std.specs.List.{AllByRecursion, fold};
ghost use Rattle.normal_atoms.specs.Atoms.{atom_of, IsWellFormed};
ghost use Rattle.formula_tree.specs.Makers.{AreMade};
ghost use Rattle.logic_meaning.specs.Names.{with_name};
ghost use Rattle.language_meaning.specs.Resolving.{resolve, formula_variables, all_variables};
ghost use Rattle.formula_resolving.specs.Numbering.{Grows};
ghost use Rattle.formula_store.specs.Nodes.{tree, IsId};
ghost use Rattle.written_syntax.specs.Writable.{IsWritableFormula};
ghost use Rattle.language_meaning.specs.Trees.{formulas_of};
ghost use Rattle.written_syntax.specs.CodeTrees.{formula_tree};
ghost use Rattle.program_meaning.specs.Assumptions.{atoms_alone, atoms_among, resolved_all};
ghost use Rattle.program_meaning.specs.State.{known};
ghost use Rattle.session_state.specs.Trees.{standing_trees};
ghost use Rattle.session_state.specs.Keeping.{state_of, HasIds};
ghost use Rattle.session_state.specs.Growth.{KeepsState};
ghost use Rattle.session_state.specs.Scripted.{HasAnswers, answered_tree};
ghost use Rattle.form_commands.specs.Reading.{HasNumbers, AreNumbered, AreUnread, AreRead, AreAllRead, IsOneMore, IsReadUnder, IsUnreadUnder, FirstAmong, IsEarlierOf, AppliesToSome, IsFirstWith};

use crate::forms::Premised;
use crate::reading::{resolved_part, resolved_plain};
use crate::refusals::static_refusal;
use formula_resolving::number_formula;
use formula_store::FormulaId;
use formula_tree::{Bindings, Names, Shape};
use language_meaning::StaticError;
use normal_atoms::Atom;
use program_meaning::StatementError;
use session_state::SessionState;
use std::alloc::AllocError;
use written_syntax::Formula;

/// Numbers the variables of the formula and of its assumptions, in the order of the text. After an `Err` the names may have
/// grown.
pub fn number_parts(
    formula: &Formula,
    given: &[Formula],
    bindings: &Bindings<FormulaId>,
    names: &mut Names,
) -> Result<(), StatementError>
    ensures numbered { OnOk result (names.new ≡ fold with_name names.old (formula_variables (answered_tree formula.now) ++ all_variables (formulas_of (map formula_tree given.now)))) }
    ensures grown { Grows names.old names.new }
    ensures memory { IfErr result (λ e. e ≡ StatementError.Memory) }
{
    number_part(formula, bindings, names)?;
    number_all(given, bindings, names)
}

/// Numbers the variables of the formulas, in their order. After an `Err` the names may have grown.
pub fn number_all(
    given: &[Formula],
    bindings: &Bindings<FormulaId>,
    names: &mut Names,
) -> Result<(), StatementError>
    ensures numbered { OnOk result (names.new ≡ fold with_name names.old (all_variables (formulas_of (map formula_tree given.now)))) }
    ensures grown { Grows names.old names.new }
    ensures memory { IfErr result (λ e. e ≡ StatementError.Memory) }
{
    for assumption in given {
        number_part(assumption, bindings, names)?;
    }
    Ok(())
}

/// Numbers the variables of one formula.
pub fn number_part(
    formula: &Formula,
    bindings: &Bindings<FormulaId>,
    names: &mut Names,
) -> Result<(), StatementError>
    ensures numbered { OnOk result (names.new ≡ fold with_name names.old (formula_variables (formula_tree formula.now))) }
    ensures grown { Grows names.old names.new }
    ensures memory { IfErr result (λ e. e ≡ StatementError.Memory) }
{
    match number_formula(formula, bindings, names) {
        Ok(_) => Ok(()),
        Err(_) => Err(StatementError::Memory),
    }
}

/// The resolved formula and the atoms of what is assumed, or the first cause of a refusal in the formula or its assumptions.
pub fn read_parts(
    state: &mut SessionState,
    formula: &Formula,
    given: &[Formula],
) -> Result<Premised, StatementError>
    requires answers { HasAnswers state.old formula.now }
    requires proper_given { AllByRecursion (λ g. IsWritableFormula (formula_tree g)) given.now }
    requires ids { HasIds state.old }
    requires numbered { AreNumbered state.old.names (also (answered_tree formula.now) (formulas_of (map formula_tree given.now))) }
    ensures read { IfOk result (AreRead (state_of state.old) (answered_tree formula.now) (formulas_of (map formula_tree given.now)) state.new) }
    ensures unread { IfErr result (AreUnread (state_of state.old) (also (answered_tree formula.now) (formulas_of (map formula_tree given.now)))) }
    ensures kept { KeepsState state.old state.new }
{
    let mut ids = Vec::new(state.alloc);
    let stop = read_given(state, given, &mut ids)?;
    read_under(state, formula, stop, &ids)
}

/// The resolved formula and the atoms of what is assumed, or the earlier of this cause and the first one in the formula.
fn read_under(
    state: &mut SessionState,
    formula: &Formula,
    stop: Option<StaticError>,
    ids: &[FormulaId],
) -> Result<Premised, StatementError>
    requires answers { HasAnswers state.old formula.now }
    requires ids { HasIds state.old }
    requires numbered { HasNumbers state.old.names (answered_tree formula.now) }
    requires given { stop ≡ None → AllByRecursion (IsId state.old.store) ids.now }
    ensures read { IfOk result (IsReadUnder (state_of state.old) (answered_tree formula.now) stop ids.now state.new) }
    ensures unread { IfErr result (IsUnreadUnder (state_of state.old) (answered_tree formula.now) stop) }
    ensures kept { KeepsState state.old state.new }
{
    match resolved_part(state, formula) {
        Ok(formula) => match stop {
            None => premised(state, formula, ids),
            Some(error) => Err(static_refusal(error)),
        },
        Err(error) => {
            let error = cause(error, stop)?;
            Err(static_refusal(error))
        }
    }
}

/// The resolved formulas, or the first cause of a refusal in any of them.
pub fn read_all(
    state: &mut SessionState,
    given: &[Formula],
) -> Result<Vec<FormulaId>, StatementError>
    requires proper { AllByRecursion (λ g. IsWritableFormula (formula_tree g)) given.now }
    requires ids { HasIds state.old }
    requires numbered { AreNumbered state.old.names (formulas_of (map formula_tree given.now)) }
    ensures read { IfOk result (λ ids. AreAllRead (state_of state.old) (formulas_of (map formula_tree given.now)) state.new ids.items) }
    ensures unread { IfErr result (AreUnread (state_of state.old) (formulas_of (map formula_tree given.now))) }
    ensures kept { KeepsState state.old state.new }
{
    let mut ids = Vec::new(state.alloc);
    match read_given(state, given, &mut ids)? {
        None => Ok(ids),
        Some(error) => Err(static_refusal(error)),
    }
}

/// The first cause of a refusal in the formulas, if there is one; else their ids are put into the list.
fn read_given(
    state: &mut SessionState,
    given: &[Formula],
    ids: &mut Vec<FormulaId>,
) -> Result<Option<StaticError>, StatementError>
    requires proper { AllByRecursion (λ g. IsWritableFormula (formula_tree g)) given.now }
    requires ids { HasIds state.old }
    requires numbered { AllByRecursion (λ g. HasNumbers state.old.names (formula_tree g)) given.now }
    requires empty { ids.old.items ≡ [] }
    ensures first { IfOk result (FirstAmong (AppliesToSome (state_of state.old) given.now)) }
    ensures made { IfOk result (λ stop. stop ≡ None → AreMade (IsId state.new.store) (tree state.new.store) ids.new.items (resolved_all (state_of state.old) (formulas_of (map formula_tree given.now)))) }
    ensures memory { IfErr result (λ e. e ≡ StatementError.Memory) }
    ensures kept { KeepsState state.old state.new }
{
    let mut stop = None;
    for formula in given {
        stop = read_one(state, formula, ids, stop)?;
    }
    Ok(stop)
}

/// The earlier of this cause and the first one in the formula. Where there is none in it, its id is put behind the others.
fn read_one(
    state: &mut SessionState,
    formula: &Formula,
    ids: &mut Vec<FormulaId>,
    stop: Option<StaticError>,
) -> Result<Option<StaticError>, StatementError>
    requires proper { IsWritableFormula (formula_tree formula.now) }
    requires ids { HasIds state.old }
    requires numbered { HasNumbers state.old.names (formula_tree formula.now) }
    ensures first { IfOk result (IsFirstWith (state_of state.old) (formula_tree formula.now) stop) }
    ensures made { IfOk result (λ r. r ≡ None → IsOneMore state.new ids.old.items ids.new.items (resolve (state_of state.old).context (known (state_of state.old)) state.old.names (formula_tree formula.now))) }
    ensures memory { IfErr result (λ e. e ≡ StatementError.Memory) }
    ensures kept { KeepsState state.old state.new }
{
    match resolved_plain(state, formula) {
        Ok(id) => match ids.push(id) {
            Ok(()) => Ok(stop),
            Err(_) => Err(StatementError::Memory),
        },
        Err(error) => {
            let error = cause(error, stop)?;
            Ok(Some(error))
        }
    }
}

/// The formula with the atoms of what is assumed.
fn premised(
    state: &SessionState,
    formula: FormulaId,
    ids: &[FormulaId],
) -> Result<Premised, StatementError>
    requires { AllByRecursion (IsId state.now.store) ids.now }
    ensures formula { IfOk result (λ r. r.formula ≡ formula) }
    ensures atoms { IfOk result (λ r. map atom_of r.atoms.items ≡ atoms_among (standing_trees state.now.standing ++ map (tree state.now.store) ids.now)) }
    ensures well_formed { IfOk result (λ r. AllByRecursion IsWellFormed r.atoms.items) }
    ensures memory { IfErr result (λ e. e ≡ StatementError.Memory) }
{
    let atoms = assumed_atoms(state, ids)?;
    Ok(Premised { formula, atoms })
}

/// The atoms among the standing assumptions and these formulas.
fn assumed_atoms(state: &SessionState, ids: &[FormulaId]) -> Result<Vec<Atom>, StatementError>
    requires { AllByRecursion (IsId state.now.store) ids.now }
    ensures atoms { IfOk result (λ v. map atom_of v.items ≡ atoms_among (standing_trees state.now.standing ++ map (tree state.now.store) ids.now)) }
    ensures well_formed { IfOk result (λ v. AllByRecursion IsWellFormed v.items) }
    ensures memory { IfErr result (λ e. e ≡ StatementError.Memory) }
{
    let Ok(mut atoms) = state.standing.atoms(state.alloc) else {
        return Err(StatementError::Memory);
    };
    for id in ids {
        if let Err(_failed) = add_atom(state, *id, &mut atoms) {
            return Err(StatementError::Memory);
        }
    }
    Ok(atoms)
}

/// Adds the formula to the atoms, where it is one.
fn add_atom(state: &SessionState, id: FormulaId, atoms: &mut Vec<Atom>) -> Result<(), AllocError>
    requires id { IsId state.now.store id }
    requires well_formed { AllByRecursion IsWellFormed atoms.old.items }
    ensures atoms { OnOk result (map atom_of atoms.new.items ≡ map atom_of atoms.old.items ++ atoms_alone (tree state.now.store id)) }
    ensures well_formed { AllByRecursion IsWellFormed atoms.new.items }
{
    if let Shape::One(atom) = state.store.shape(id) {
        let atom = atom.copy(state.alloc).map_err(|_| AllocError)?;
        atoms.push(atom)?;
    }
    Ok(())
}

/// The earlier of two causes. Want of memory is none.
fn cause(error: StaticError, stop: Option<StaticError>) -> Result<StaticError, StatementError>
    ensures earlier { IfOk result (IsEarlierOf error stop) }
    ensures cause { OnOk result (error ≢ StaticError.Memory) }
    ensures memory { IfErr result (λ e. e ≡ StatementError.Memory) }
{
    match error {
        StaticError::Memory => Err(StatementError::Memory),
        _ => Ok(earlier(error, stop)),
    }
}

/// The earlier of two causes in the order in which they are looked for.
fn earlier(error: StaticError, stop: Option<StaticError>) -> StaticError
    ensures { IsEarlierOf error stop result }
{
    match stop {
        Some(other) => error.min(other),
        None => error,
    }
}
