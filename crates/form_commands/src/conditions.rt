//! A formula without quantifiers, by cases.

ghost use Rattle.std.specs.Prelude.{◌≡◌, ◌≤◌, IfOk, IfErr, OnOk, map};
ghost use Rattle.std.specs.List.{AllByRecursion};
ghost use Rattle.logic_meaning.specs.Every.{Every};
ghost use Rattle.logic_meaning.specs.NegationNormal.{normal_form_of_not};
ghost use Rattle.logic_meaning.specs.Sizes.{nodes};
ghost use Rattle.logic_meaning.specs.Some.{EachOf};
ghost use Rattle.logic_meaning.specs.Tree.{Tree};
ghost use Rattle.normal_atoms.specs.Atoms.{context_of, atom_of, IsWellFormed};
ghost use Rattle.logic_meaning.specs.NormalForm.{IsNormal, negated_normal};
ghost use Rattle.shape_theory.specs.Orderly.{IsOrderly};
ghost use Rattle.formula_tree.specs.Makers.{IsMade, Keeps};
ghost use Rattle.formula_store.specs.Nodes.{tree, IsId};
ghost use Rattle.short_answers.specs.Asking.{IsTidyId};
ghost use Rattle.short_answers.specs.Shorter.{IsConstant, IsShort};
ghost use Rattle.engine_answers.specs.CaseTrees.{cases_seen, guards_together};
ghost use Rattle.form_commands.specs.Conditions.{said_of, IsAnswerFor, IsConditionByCases, IsNotDirect};
ghost use Rattle.form_commands.specs.Faults.{ConditionFault, SimplificationFault};
ghost use Rattle.form_commands.specs.Forms.{IsSimplifiedAs};

use crate::error::{FormsError, measured_error};
use crate::forms::{negated, simplified, simplified_answer};
use engine_answers::{Answer, CaseTree, Engine, guards_together};
use formula_store::{FormulaId, Store};
use formula_tree::{Maker, Shape};
use normal_atoms::{Atom, Context};
use qe_parallel::Gate;
use std::alloc::Global;
use std::thread::Threads;

/// A condition for the formula under the atoms: the one that the elimination finds, simplified, or what the guards of its cases say
/// together, simplified and shortened. Where that has more nodes than the limit as it stands, the reference elimination answers. So `Overflow` and `Nodes` come only where it stops with that
/// word, and over the fields neither comes of a formula whose negation normal form is direct.
pub(crate) fn condition_by_cases<R: Threads + Sync, G: Gate + Sync>(
    engine: &Engine<'_, R, G>,
    store: &mut Store,
    id: FormulaId,
    atoms: &[Atom],
) -> Result<FormulaId, FormsError>
    requires workers { 1 ≤ engine.now.limits.workers }
    requires id { IsId store.old id }
    requires normal { Every (IsNormal (context_of engine.now.context)) (tree store.old id) }
    requires atoms { EachOf (IsNormal (context_of engine.now.context)) (map atom_of atoms.now) }
    requires well_formed { AllByRecursion IsWellFormed atoms.now }
    ensures made { IfOk result (IsId store.new) }
    ensures condition { IfOk result (λ r. IsConditionByCases (context_of engine.now.context) (map atom_of atoms.now) engine.now.limits.nodes (tree store.old id) (tree store.new r)) }
    ensures fault { IfErr result (ConditionFault (context_of engine.now.context) engine.now.limits.nodes (tree store.old id)) }
    ensures kept { Keeps (IsId store.old) (tree store.old) (IsId store.new) (tree store.new) }
{
    let (alloc, context, limit) = (engine.alloc, engine.context, engine.limits.nodes);
    let answer = match engine.answer(store, id, atoms) {
        Ok(answer) => answer,
        Err(error) => return Err(measured_error(error)),
    };
    match told(engine, store, &answer, atoms) {
        Ok(id) => Ok(id),
        Err(FormsError::Nodes) => simplified_answer(alloc, store, context, limit, id, atoms),
        Err(_) => Err(FormsError::Memory),
    }
}

/// What the answer says of the formula, simplified and shortened under the atoms. `Nodes` comes only where that has more nodes than the
/// limit, and of no direct formula.
fn told<R: Threads + Sync, G: Gate + Sync>(
    engine: &Engine<'_, R, G>,
    store: &mut Store,
    answer: &Answer,
    atoms: &[Atom],
) -> Result<FormulaId, FormsError>
    requires workers { 1 ≤ engine.now.limits.workers }
    requires answer { (f : Tree) × IsAnswerFor engine.now.context (map atom_of atoms.now) engine.now.limits.nodes f store.old answer.now }
    requires atoms { EachOf (IsNormal (context_of engine.now.context)) (map atom_of atoms.now) }
    requires well_formed { AllByRecursion IsWellFormed atoms.now }
    ensures made { IfOk result (IsId store.new) }
    ensures told { IfOk result (λ r. (f : Tree) → IsAnswerFor engine.now.context (map atom_of atoms.now) engine.now.limits.nodes f store.old answer.now →
        IsConditionByCases (context_of engine.now.context) (map atom_of atoms.now) engine.now.limits.nodes f (tree store.new r)) }
    ensures fault { IfErr result (λ e. (f : Tree) → IsAnswerFor engine.now.context (map atom_of atoms.now) engine.now.limits.nodes f store.old answer.now → e ≡ FormsError.Nodes →
        IsNotDirect (context_of engine.now.context) engine.now.limits.nodes f) }
    ensures kept { Keeps (IsId store.old) (tree store.old) (IsId store.new) (tree store.new) }
{
    let (alloc, context, limit) = (engine.alloc, engine.context, engine.limits.nodes);
    match answer {
        Answer::Condition(id) => simplified(alloc, store, context, limit, *id, atoms),
        Answer::Cases(case_tree) => match said(alloc, store, context, limit, case_tree, atoms) {
            Ok(id) => shortened(engine, store, id, atoms),
            Err(error) => Err(error),
        },
    }
}

/// What the cases say of the formula, simplified under the atoms. `Nodes` comes only where it has more nodes than the limit.
fn said(
    alloc: Global,
    store: &mut Store,
    context: Context,
    limit: u64,
    case_tree: &CaseTree,
    atoms: &[Atom],
) -> Result<FormulaId, FormsError>
    requires guards { EachOf (λ k. IsId store.old k.guard) case_tree.now.cases.items }
    requires orderly { IsOrderly (IsNormal (context_of context)) (guards_together (cases_seen store.old case_tree.now.cases.items)) }
    requires atoms { EachOf (IsNormal (context_of context)) (map atom_of atoms.now) }
    requires well_formed { AllByRecursion IsWellFormed atoms.now }
    ensures made { IfOk result (IsId store.new) }
    ensures said { IfOk result (λ r. IsSimplifiedAs (context_of context) (map atom_of atoms.now) (said_of case_tree.now.universal (guards_together (cases_seen store.old case_tree.now.cases.items))) (tree store.new r)) }
    ensures small { OnOk result (nodes (said_of case_tree.now.universal (guards_together (cases_seen store.old case_tree.now.cases.items))) ≤ limit) }
    ensures fault { IfErr result (SimplificationFault limit (said_of case_tree.now.universal (guards_together (cases_seen store.old case_tree.now.cases.items)))) }
    ensures kept { Keeps (IsId store.old) (tree store.old) (IsId store.new) (tree store.new) }
{
    let id = joined(alloc, store, case_tree)?;
    simplified(alloc, store, context, limit, id, atoms)
}

/// What the cases say of the formula together, as it stands.
fn joined(alloc: Global, store: &mut Store, case_tree: &CaseTree) -> Result<FormulaId, FormsError>
    requires { EachOf (λ k. IsId store.old k.guard) case_tree.now.cases.items }
    ensures made { IfOk result (λ r. IsMade (IsId store.new) (tree store.new) r (said_of case_tree.now.universal (guards_together (cases_seen store.old case_tree.now.cases.items)))) }
    ensures memory { IfErr result (λ e. e ≡ FormsError.Memory) }
    ensures kept { Keeps (IsId store.old) (tree store.old) (IsId store.new) (tree store.new) }
{
    let Ok(id) = guards_together(alloc, store, case_tree) else {
        return Err(FormsError::Memory);
    };
    if case_tree.universal {
        opposite(alloc, store, id)
    } else {
        Ok(id)
    }
}

/// The negation normal form of the negation.
fn opposite(alloc: Global, store: &mut Store, id: FormulaId) -> Result<FormulaId, FormsError>
    requires { IsId store.old id }
    ensures made { IfOk result (λ r. IsMade (IsId store.new) (tree store.new) r (normal_form_of_not negated_normal (tree store.old id))) }
    ensures memory { IfErr result (λ e. e ≡ FormsError.Memory) }
    ensures kept { Keeps (IsId store.old) (tree store.old) (IsId store.new) (tree store.new) }
{
    let Ok(negation) = store.make(Shape::Not(id)) else {
        return Err(FormsError::Memory);
    };
    negated(alloc, store, None, negation)
}

/// The formula shortened under the atoms.
fn shortened<R: Threads + Sync, G: Gate + Sync>(
    engine: &Engine<'_, R, G>,
    store: &mut Store,
    id: FormulaId,
    atoms: &[Atom],
) -> Result<FormulaId, FormsError>
    requires workers { 1 ≤ engine.now.limits.workers }
    requires id { IsTidyId (context_of engine.now.context) store.old id }
    requires atoms { EachOf (IsNormal (context_of engine.now.context)) (map atom_of atoms.now) }
    requires well_formed { AllByRecursion IsWellFormed atoms.now }
    ensures shortened { IfOk result (IsShort (context_of engine.now.context) (map atom_of atoms.now) (tree store.old id) store.new) }
    ensures constant { IfOk result (λ r. IsConstant (tree store.old id) → tree store.new r ≡ tree store.old id) }
    ensures memory { IfErr result (λ e. e ≡ FormsError.Memory) }
    ensures kept { Keeps (IsId store.old) (tree store.old) (IsId store.new) (tree store.new) }
{
    match engine.shortened(store, id, atoms) {
        Ok(id) => Ok(id),
        Err(_) => Err(FormsError::Memory),
    }
}
