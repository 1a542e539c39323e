//! The forms of a formula of a store.

ghost use Rattle.std.specs.Prelude.{◌≡◌, ◌⊎◌, ◌<◌, ◌≤◌, Ok, IsErrOf, IfOk, IfErr, OnOk, OnErr, length, map};
ghost use Rattle.std.specs.List.{AllByRecursion};
ghost use Rattle.logic_meaning.specs.Every.{Every};
ghost use Rattle.logic_meaning.specs.NegationNormal.{normal_form};
ghost use Rattle.logic_meaning.specs.Shape.{IsQuantifierFree};
ghost use Rattle.logic_meaning.specs.Sizes.{nodes};
ghost use Rattle.logic_meaning.specs.Some.{EachOf};
ghost use Rattle.logic_meaning.specs.Members.{HasTwoMembers};
ghost use Rattle.formula_laws.specs.Within.{IsTreeWithin};
ghost use Rattle.normal_atoms.specs.Atoms.{context_of, atom_of, IsWellFormed};
ghost use Rattle.logic_meaning.specs.NormalForm.{IsNormal, negated_normal};
ghost use Rattle.shape_theory.specs.Orderly.{IsOrderly};
ghost use Rattle.formula_tree.specs.Makers.{Keeps};
ghost use Rattle.formula_resolving.specs.Numbering.{Grows};
ghost use Rattle.formula_store.specs.Nodes.{tree, IsId};
ghost use Rattle.program_meaning.specs.FormulaAnswers.{HasNewNames};
ghost use Rattle.form_commands.specs.Forms.{junction_of, IsPremised, IsDistributed, IsEliminatedAs, IsSimplifiedAs, IsCleanedAs, IsSimplifiedAnswer, IsPrenexAs, IsFormed};
ghost use Rattle.form_commands.specs.Faults.{NegationFault, PrenexFault, ClauseFault, SimplificationFault, EliminationFault, FormFault};

use crate::conditions::condition_by_cases;
use crate::error::{FormsError, measured_error};
use crate::way::Way;
use engine_answers::Engine;
use formula_store::{FormulaId, Store, nnf};
use formula_tree::{FormError, Names};
use normal_atoms::{Atom, Context};
use normal_forms::{cnf, dnf};
use qe_parallel::Gate;
use reference_engine::eliminate_shared;
use session_state::pnf;
use std::alloc::Global;
use std::thread::Threads;
use theory_simplifier::{SimplError, simplify};

/// Which clean form is wanted.
#[derive(Clone, Copy, Debug, PartialEq, Eq)]
pub enum ClauseForm {
    Disjunctive,
    Conjunctive,
}

/// A form of a formula: as it is, its negation normal form, its prenex form, a clean form, one that is simplified under atoms, or one
/// without quantifiers, simplified under atoms, which is found in one of two ways.
#[derive(Clone, Copy, Debug, PartialEq, Eq)]
pub enum Form {
    AsRead,
    NegationNormal,
    Prenex,
    Distributed(ClauseForm),
    Simplified,
    Eliminated(Way),
}

/// A formula, and atoms under which it is looked at.
#[derive(Drop)]
pub struct Premised {
    pub formula: FormulaId,
    pub atoms: Vec<Atom>,
}

/// The form of what was read. The new names of a prenex form stand behind the others. After an `Err` the formulas and the names stay.
///
/// A prenex form gives `Nodes` exactly where the negation normal form has more nodes than the limit, and `Overflow` exactly where it
/// has not and a renamed atom passes the limit of numbers. A form without quantifiers gives either only where the reference
/// elimination stops with it; by cases it gives neither for a formula over the fields whose negation normal form is direct. The others
/// give `Nodes` alone: a negation normal form only where 6 times the distinct subformulas are above the limit, a clean form only where
/// the plain form has more places of atoms, and a simplified one only where the negation normal form has more nodes.
pub fn formed<R: Threads + Sync, G: Gate + Sync>(
    engine: &Engine<'_, R, G>,
    store: &mut Store,
    names: &mut Names,
    form: Form,
    read: &Premised,
) -> Result<FormulaId, FormsError>
    requires workers { 1 ≤ engine.now.limits.workers }
    requires read { IsPremised (context_of engine.now.context) (length names.old) store.old read.now }
    requires free { IsDistributed form → IsQuantifierFree (tree store.old read.now.formula) }
    ensures formed { IfOk result (IsFormed (context_of engine.now.context) (map atom_of read.now.atoms.items) engine.now.limits.nodes form names.old (tree store.old read.now.formula) names.new store.new) }
    ensures fault { IfErr result (FormFault (context_of engine.now.context) (length names.old) engine.now.limits.nodes form (tree store.old read.now.formula)) }
    ensures unchanged { OnErr result (names.new ≡ names.old) }
    ensures grown { Grows names.old names.new }
    ensures kept { Keeps (IsId store.old) (tree store.old) (IsId store.new) (tree store.new) }
{
    let (alloc, context, limit) = (engine.alloc, engine.context, engine.limits.nodes);
    let id = read.formula;
    match form {
        Form::AsRead => Ok(id),
        Form::NegationNormal => negated(alloc, store, Some(limit), id),
        Form::Prenex => prenexed(alloc, store, names, context, limit, id),
        Form::Distributed(clauses) => distributed(alloc, store, context, limit, clauses, id),
        Form::Simplified => simplified_negation(alloc, store, context, limit, id, &read.atoms),
        Form::Eliminated(Way::ByCases) => condition_by_cases(engine, store, id, &read.atoms),
        Form::Eliminated(Way::ByReference) => {
            simplified_answer(alloc, store, context, limit, id, &read.atoms)
        }
    }
}

/// The negation normal form. `Nodes` comes exactly where there is a limit and 6 times the distinct subformulas are above it.
pub(crate) fn negated(
    alloc: Global,
    store: &mut Store,
    limit: Option<u64>,
    id: FormulaId,
) -> Result<FormulaId, FormsError>
    requires { IsId store.old id }
    ensures made { IfOk result (IsId store.new) }
    ensures form { IfOk result (λ r. tree store.new r ≡ normal_form negated_normal (tree store.old id)) }
    ensures fault { IfErr result (NegationFault limit (tree store.old id)) }
    ensures kept { Keeps (IsId store.old) (tree store.old) (IsId store.new) (tree store.new) }
{
    match nnf(alloc, store, id, limit) {
        Ok(id) => Ok(id),
        Err(FormError::Nodes) => Err(FormsError::Nodes),
        Err(_) => Err(FormsError::Memory),
    }
}

/// The prenex form, with its new names behind the others. After an `Err` the names are as before.
fn prenexed(
    alloc: Global,
    store: &mut Store,
    names: &mut Names,
    context: Context,
    limit: u64,
    id: FormulaId,
) -> Result<FormulaId, FormsError>
    requires id { IsId store.old id }
    requires normal { Every (IsNormal (context_of context)) (tree store.old id) }
    requires within { IsTreeWithin (length names.old) (tree store.old id) }
    ensures made { IfOk result (IsId store.new) }
    ensures form { IfOk result (λ r. IsPrenexAs (context_of context) (length names.old) limit (tree store.old id) (tree store.new r)) }
    ensures names { OnOk result (HasNewNames names.old (tree store.old id) names.new) }
    ensures fault { IfErr result (PrenexFault (context_of context) (length names.old) limit (tree store.old id)) }
    ensures unchanged { OnErr result (names.new ≡ names.old) }
    ensures grown { Grows names.old names.new }
    ensures kept { Keeps (IsId store.old) (tree store.old) (IsId store.new) (tree store.new) }
{
    match pnf(alloc, store, context, id, names, limit) {
        Ok(id) => Ok(id),
        Err(FormError::Nodes) => Err(FormsError::Nodes),
        Err(FormError::Overflow) => Err(FormsError::Overflow),
        Err(FormError::Memory) => Err(FormsError::Memory),
        Err(FormError::Quantified) => unreachable!(),
    }
}

/// A clean form of the negation normal form. `Nodes` comes only where the plain form has more places of atoms than the limit.
fn distributed(
    alloc: Global,
    store: &mut Store,
    context: Context,
    limit: u64,
    clauses: ClauseForm,
    id: FormulaId,
) -> Result<FormulaId, FormsError>
    requires id { IsId store.old id }
    requires normal { Every (IsNormal (context_of context)) (tree store.old id) }
    requires members { HasTwoMembers (tree store.old id) }
    requires free { IsQuantifierFree (tree store.old id) }
    ensures made { IfOk result (IsId store.new) }
    ensures cleaned { IfOk result (λ r. IsCleanedAs (context_of context) (junction_of clauses) (normal_form negated_normal (tree store.old id)) (tree store.new r)) }
    ensures fault { IfErr result (ClauseFault limit clauses (normal_form negated_normal (tree store.old id))) }
    ensures kept { Keeps (IsId store.old) (tree store.old) (IsId store.new) (tree store.new) }
{
    let form = negated(alloc, store, None, id)?;
    cleaned(alloc, store, context, limit, clauses, form)
}

/// A clean form of a formula in negation normal form without quantifiers.
fn cleaned(
    alloc: Global,
    store: &mut Store,
    context: Context,
    limit: u64,
    clauses: ClauseForm,
    id: FormulaId,
) -> Result<FormulaId, FormsError>
    requires id { IsId store.old id }
    requires formula { IsOrderly (IsNormal (context_of context)) (tree store.old id) }
    requires free { IsQuantifierFree (tree store.old id) }
    ensures made { IfOk result (IsId store.new) }
    ensures cleaned { IfOk result (λ r. IsCleanedAs (context_of context) (junction_of clauses) (tree store.old id) (tree store.new r)) }
    ensures fault { IfErr result (ClauseFault limit clauses (tree store.old id)) }
    ensures kept { Keeps (IsId store.old) (tree store.old) (IsId store.new) (tree store.new) }
{
    match clauses {
        ClauseForm::Disjunctive => form_or_fault(dnf(alloc, store, context, id, limit)),
        ClauseForm::Conjunctive => form_or_fault(cnf(alloc, store, context, id, limit)),
    }
}

/// The form, or why there is none. One of a formula with a quantifier is not asked for.
fn form_or_fault(made: Result<FormulaId, FormError>) -> Result<FormulaId, FormsError>
    ensures made { IfOk result (λ id. made ≡ Ok id) }
    ensures fault { IfErr result (λ e. ((e ≡ FormsError.Nodes) × IsErrOf made FormError.Nodes) ⊎ (e ≡ FormsError.Memory)) }
{
    match made {
        Ok(id) => Ok(id),
        Err(FormError::Nodes) => Err(FormsError::Nodes),
        Err(_) => Err(FormsError::Memory),
    }
}

/// The negation normal form, simplified under the atoms.
fn simplified_negation(
    alloc: Global,
    store: &mut Store,
    context: Context,
    limit: u64,
    id: FormulaId,
    atoms: &[Atom],
) -> Result<FormulaId, FormsError>
    requires id { IsId store.old id }
    requires normal { Every (IsNormal (context_of context)) (tree store.old id) }
    requires members { HasTwoMembers (tree store.old id) }
    requires atoms { EachOf (IsNormal (context_of context)) (map atom_of atoms.now) }
    requires well_formed { AllByRecursion IsWellFormed atoms.now }
    ensures made { IfOk result (IsId store.new) }
    ensures simplified { IfOk result (λ r. IsSimplifiedAs (context_of context) (map atom_of atoms.now) (normal_form negated_normal (tree store.old id)) (tree store.new r)) }
    ensures fault { IfErr result (SimplificationFault limit (normal_form negated_normal (tree store.old id))) }
    ensures kept { Keeps (IsId store.old) (tree store.old) (IsId store.new) (tree store.new) }
{
    let form = negated(alloc, store, None, id)?;
    simplified(alloc, store, context, limit, form, atoms)
}

/// What the reference elimination gives, simplified under the atoms.
pub(crate) fn simplified_answer(
    alloc: Global,
    store: &mut Store,
    context: Context,
    limit: u64,
    id: FormulaId,
    atoms: &[Atom],
) -> Result<FormulaId, FormsError>
    requires id { IsId store.old id }
    requires normal { Every (IsNormal (context_of context)) (tree store.old id) }
    requires atoms { EachOf (IsNormal (context_of context)) (map atom_of atoms.now) }
    requires well_formed { AllByRecursion IsWellFormed atoms.now }
    ensures made { IfOk result (IsId store.new) }
    ensures answer { IfOk result (λ r. IsSimplifiedAnswer (context_of context) (map atom_of atoms.now) limit (tree store.old id) (tree store.new r)) }
    ensures fault { IfErr result (EliminationFault (context_of context) limit (tree store.old id)) }
    ensures kept { Keeps (IsId store.old) (tree store.old) (IsId store.new) (tree store.new) }
{
    let answer = eliminated(alloc, store, context, limit, id)?;
    match simplified(alloc, store, context, limit, answer, atoms) {
        Ok(id) => Ok(id),
        Err(_) => Err(FormsError::Memory),
    }
}

/// What the reference elimination gives.
fn eliminated(
    alloc: Global,
    store: &mut Store,
    context: Context,
    limit: u64,
    id: FormulaId,
) -> Result<FormulaId, FormsError>
    requires id { IsId store.old id }
    requires normal { Every (IsNormal (context_of context)) (tree store.old id) }
    ensures made { IfOk result (IsId store.new) }
    ensures answer { IfOk result (λ r. IsEliminatedAs (context_of context) limit (tree store.old id) (tree store.new r)) }
    ensures fault { IfErr result (EliminationFault (context_of context) limit (tree store.old id)) }
    ensures kept { Keeps (IsId store.old) (tree store.old) (IsId store.new) (tree store.new) }
{
    match eliminate_shared(alloc, store, context, id, limit) {
        Ok(id) => Ok(id),
        Err(error) => Err(measured_error(error)),
    }
}

/// A formula in negation normal form, simplified under the atoms. `Nodes` comes only where it has more nodes than the limit.
pub(crate) fn simplified(
    alloc: Global,
    store: &mut Store,
    context: Context,
    limit: u64,
    id: FormulaId,
    atoms: &[Atom],
) -> Result<FormulaId, FormsError>
    requires id { IsId store.old id }
    requires formula { IsOrderly (IsNormal (context_of context)) (tree store.old id) }
    requires well_formed { AllByRecursion IsWellFormed atoms.now }
    requires atoms { EachOf (IsNormal (context_of context)) (map atom_of atoms.now) }
    ensures made { IfOk result (IsId store.new) }
    ensures simplified { IfOk result (λ r. IsSimplifiedAs (context_of context) (map atom_of atoms.now) (tree store.old id) (tree store.new r)) }
    ensures small { OnOk result (nodes (tree store.old id) ≤ limit) }
    ensures fault { IfErr result (SimplificationFault limit (tree store.old id)) }
    ensures kept { Keeps (IsId store.old) (tree store.old) (IsId store.new) (tree store.new) }
{
    match simplify(alloc, store, context, id, atoms, limit) {
        Ok(id) => Ok(id),
        Err(SimplError::Nodes) => Err(FormsError::Nodes),
        Err(SimplError::Memory) => Err(FormsError::Memory),
    }
}
