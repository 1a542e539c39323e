//! The case list of a formula of a store, by the reference elimination.

ghost use Rattle.std.specs.Prelude.{◌≡◌, ℕ, map, IfOk, IfErr};
ghost use Rattle.std.specs.List.{AllByRecursion};
ghost use Rattle.logic_meaning.specs.Every.{Every};
ghost use Rattle.logic_meaning.specs.Measured.{done};
ghost use Rattle.logic_meaning.specs.Some.{EachOf};
ghost use Rattle.normal_atoms.specs.Atoms.{context_of, atom_of, IsWellFormed};
ghost use Rattle.logic_meaning.specs.NormalForm.{IsNormal};
ghost use Rattle.logic_meaning.specs.Cases.{reference_cases};
ghost use Rattle.nnf_trees.specs.Nnfs.{HasModulus};
ghost use Rattle.reference_engine.specs.Case.{case_seen, leaf_case, HavePoints};
ghost use Rattle.reference_engine.specs.Stand.{AreSound};
ghost use Rattle.formula_tree.specs.Trees.{tree_of};
ghost use Rattle.formula_tree.specs.Makers.{Keeps};
ghost use Rattle.formula_store.specs.Nodes.{tree, IsId};
ghost use Rattle.form_commands.specs.Faults.{CasesFault};
ghost use Rattle.form_commands.specs.Cases.{AreWantedCases};

use crate::error::{FormsError, measured_error};
use crate::guards::left_cases;
use formula_store::{FormulaId, Store};
use formula_tree::Tree;
use normal_atoms::{Atom, Context};
use reference_engine::{Leaf, PrintedCase, case_leaves, unfolded_form};
use std::alloc::Global;

/// The cases of the reference elimination, with their guards simplified under the atoms, and without those whose guard becomes false.
/// `Overflow` and `Nodes` come exactly where the reference elimination stops so.
pub(crate) fn reference_list(
    alloc: Global,
    store: &mut Store,
    context: Context,
    limit: u64,
    id: FormulaId,
    atoms: &[Atom],
) -> Result<Vec<PrintedCase>, FormsError>
    requires id { IsId store.old id }
    requires normal { Every (IsNormal (context_of context)) (tree store.old id) }
    requires atoms { EachOf (IsNormal (context_of context)) (map atom_of atoms.now) }
    requires well_formed { AllByRecursion IsWellFormed atoms.now }
    ensures cases { IfOk result (λ v. AreWantedCases (context_of context) (map atom_of atoms.now) limit (tree store.old id) (map case_seen v.items)) }
    ensures points { IfOk result (λ v. HavePoints v.items) }
    ensures fault { IfErr result (CasesFault (context_of context) limit (tree store.old id)) }
    ensures kept { Keeps (IsId store.old) (tree store.old) (IsId store.new) (tree store.new) }
{
    let leaves = reference_leaves(alloc, store, context, limit, id)?;
    match left_cases(alloc, store, context, leaves, atoms) {
        Ok(cases) => Ok(cases),
        Err(_) => Err(FormsError::Memory),
    }
}

/// The cases of the formula, by the reference elimination.
fn reference_leaves(
    alloc: Global,
    store: &mut Store,
    context: Context,
    limit: u64,
    id: FormulaId,
) -> Result<Vec<Leaf>, FormsError>
    requires id { IsId store.old id }
    requires normal { Every (IsNormal (context_of context)) (tree store.old id) }
    ensures cases { IfOk result (λ v. (cost : ℕ) × (reference_cases (context_of context) limit (tree store.old id) ≡ done (map leaf_case v.items, cost))) }
    ensures sound { IfOk result (λ v. AreSound v.items) }
    ensures fault { IfErr result (CasesFault (context_of context) limit (tree store.old id)) }
    ensures kept { Keeps (IsId store.old) (tree store.old) (IsId store.new) (tree store.new) }
{
    match unfolded_form(alloc, store, id, limit) {
        Ok(form) => leaves_of(alloc, context, limit, &form),
        Err(error) => Err(measured_error(error)),
    }
}

/// The cases of a formula that is unfolded.
fn leaves_of(
    alloc: Global,
    context: Context,
    limit: u64,
    form: &Tree,
) -> Result<Vec<Leaf>, FormsError>
    requires moduli { Every HasModulus (tree_of form.now) }
    requires normal { Every (IsNormal (context_of context)) (tree_of form.now) }
    ensures cases { IfOk result (λ v. (cost : ℕ) × (reference_cases (context_of context) limit (tree_of form.now) ≡ done (map leaf_case v.items, cost))) }
    ensures sound { IfOk result (λ v. AreSound v.items) }
    ensures fault { IfErr result (CasesFault (context_of context) limit (tree_of form.now)) }
{
    match case_leaves(alloc, form, context, limit) {
        Ok(leaves) => Ok(leaves),
        Err(error) => Err(measured_error(error)),
    }
}
