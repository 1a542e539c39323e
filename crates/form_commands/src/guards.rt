//! The guards of cases, simplified under atoms.

ghost use Rattle.std.specs.Prelude.{◌≡◌, ◌≢◌, ◌++◌, [], All, map, IfOk, IfSome, OnOk, option_map};
ghost use Rattle.std.specs.Bool.{MatchBool};
ghost use Rattle.std.specs.List.{AllByRecursion};
ghost use Rattle.logic_meaning.specs.Every.{Every};
ghost use Rattle.logic_meaning.specs.Numbers.{IsAtomInLimit};
ghost use Rattle.logic_meaning.specs.Formula.{No};
ghost use Rattle.logic_meaning.specs.Some.{EachOf};
ghost use Rattle.normal_atoms.specs.Atoms.{context_of, atom_of, IsWellFormed};
ghost use Rattle.logic_meaning.specs.NormalForm.{IsNormal};
ghost use Rattle.logic_meaning.specs.Cases.{Case as ReferenceCase};
ghost use Rattle.test_points.specs.Points.{answer_of, IsTestPoint};
ghost use Rattle.engine_answers.specs.CaseTrees.{cases_seen};
ghost use Rattle.nnf_trees.specs.Nnfs.{nnf_of};
ghost use Rattle.reference_engine.specs.Case.{case_seen, leaf_case, HavePoints};
ghost use Rattle.reference_engine.specs.Stand.{IsSound, AreSound};
ghost use Rattle.shape_theory.specs.Orderly.{IsOrderly};
ghost use Rattle.formula_tree.specs.Trees.{tree_of};
ghost use Rattle.formula_tree.specs.Makers.{Keeps};
ghost use Rattle.formula_store.specs.Nodes.{tree, IsId};
ghost use Rattle.form_commands.specs.Forms.{IsSimplifiedAs};
ghost use Rattle.form_commands.specs.Cases.{IsLeftOf, AreLeftOf, put_before};

use crate::forms::simplified;
use engine_answers::Case;
use formula_store::{FormulaId, Store};
use formula_tree::{Shape, Tree};
use normal_atoms::{Atom, Context};
use reference_engine::{Leaf, PrintedCase, share};
use std::alloc::{AllocError, Global};
use test_points::TestPoint;

/// The cases with their guards simplified under the atoms, in order, without those whose guard becomes false.
pub(crate) fn left_cases(
    alloc: Global,
    store: &mut Store,
    context: Context,
    leaves: Vec<Leaf>,
    atoms: &[Atom],
) -> Result<Vec<PrintedCase>, AllocError>
    requires sound { AreSound leaves.items }
    requires orderly { EachOf (λ (k : ReferenceCase). IsOrderly (IsNormal (context_of context)) k.guard) (map leaf_case leaves.items) }
    requires well_formed { AllByRecursion IsWellFormed atoms.now }
    requires atoms { EachOf (IsNormal (context_of context)) (map atom_of atoms.now) }
    ensures left { IfOk result (λ v. AreLeftOf (context_of context) (map atom_of atoms.now) (map leaf_case leaves.items) (map case_seen v.items)) }
    ensures points { IfOk result (λ v. HavePoints v.items) }
    ensures kept { Keeps (IsId store.old) (tree store.old) (IsId store.new) (tree store.new) }
{
    let mut cases = Vec::new(alloc);
    for leaf in leaves {
        let case = left_case(alloc, store, context, leaf, atoms)?;
        push_left(&mut cases, case)?;
    }
    Ok(cases)
}

/// The cases over formulas of the store with their guards simplified under the atoms, in order, without those whose guard becomes
/// false.
pub(crate) fn left_guards(
    alloc: Global,
    store: &mut Store,
    context: Context,
    found: Vec<Case>,
    atoms: &[Atom],
) -> Result<Vec<PrintedCase>, AllocError>
    requires guards { EachOf (λ (k : Case). IsId store.old k.guard) found.items }
    requires well_formed_points { EachOf (λ (k : Case). All IsTestPoint k.answers.items) found.items }
    requires orderly { EachOf (λ (k : ReferenceCase). IsOrderly (IsNormal (context_of context)) k.guard) (cases_seen store.old found.items) }
    requires well_formed { AllByRecursion IsWellFormed atoms.now }
    requires atoms { EachOf (IsNormal (context_of context)) (map atom_of atoms.now) }
    ensures left { IfOk result (λ v. AreLeftOf (context_of context) (map atom_of atoms.now) (cases_seen store.old found.items) (map case_seen v.items)) }
    ensures points { IfOk result (λ v. HavePoints v.items) }
    ensures kept { Keeps (IsId store.old) (tree store.old) (IsId store.new) (tree store.new) }
{
    let mut cases = Vec::new(alloc);
    for case in found {
        let Case { guard, answers } = case;
        let left = left_guard(alloc, store, context, guard, answers, atoms)?;
        push_left(&mut cases, left)?;
    }
    Ok(cases)
}

/// Puts the case, if there is one, behind the others.
fn push_left(cases: &mut Vec<PrintedCase>, case: Option<PrintedCase>) -> Result<(), AllocError>
    requires points { HavePoints cases.old.items }
    requires more { IfSome case (λ k. All IsTestPoint k.answers.items) }
    ensures cases { OnOk result (map case_seen cases.new.items ≡ map case_seen cases.old.items ++ put_before (option_map case_seen case) []) }
    ensures points { HavePoints cases.new.items }
{
    if let Some(case) = case {
        cases.push(case)?;
    }
    Ok(())
}

/// What is left of the case of a leaf.
fn left_case(
    alloc: Global,
    store: &mut Store,
    context: Context,
    leaf: Leaf,
    atoms: &[Atom],
) -> Result<Option<PrintedCase>, AllocError>
    requires sound { IsSound leaf }
    requires orderly { IsOrderly (IsNormal (context_of context)) (nnf_of leaf.formula) }
    requires well_formed { AllByRecursion IsWellFormed atoms.now }
    requires atoms { EachOf (IsNormal (context_of context)) (map atom_of atoms.now) }
    ensures left { IfOk result (λ o. IsLeftOf (context_of context) (map atom_of atoms.now) (leaf_case leaf) (option_map case_seen o)) }
    ensures points { IfOk result (λ o. IfSome o (λ k. All IsTestPoint k.answers.items)) }
    ensures kept { Keeps (IsId store.old) (tree store.old) (IsId store.new) (tree store.new) }
{
    let Leaf { formula, points } = leaf;
    let Ok(guard) = share(alloc, store, formula) else {
        return Err(AllocError);
    };
    left_guard(alloc, store, context, guard, points, atoms)
}

/// The case with its guard simplified under the atoms, or `None` where it becomes false.
fn left_guard(
    alloc: Global,
    store: &mut Store,
    context: Context,
    guard: FormulaId,
    answers: Vec<TestPoint>,
    atoms: &[Atom],
) -> Result<Option<PrintedCase>, AllocError>
    requires id { IsId store.old guard }
    requires well_formed_points { All IsTestPoint answers.items }
    requires orderly { IsOrderly (IsNormal (context_of context)) (tree store.old guard) }
    requires well_formed { AllByRecursion IsWellFormed atoms.now }
    requires atoms { EachOf (IsNormal (context_of context)) (map atom_of atoms.now) }
    ensures left { IfOk result (λ o. IsLeftOf (context_of context) (map atom_of atoms.now) (record { guard = tree store.old guard; answers = map answer_of answers.items }) (option_map case_seen o)) }
    ensures points { IfOk result (λ o. IfSome o (λ k. All IsTestPoint k.answers.items)) }
    ensures kept { Keeps (IsId store.old) (tree store.old) (IsId store.new) (tree store.new) }
{
    let id = simplified_guard(alloc, store, context, guard, atoms)?;
    if is_false(store, id) {
        return Ok(None);
    }
    let guard = unfolded(store, id)?;
    Ok(Some(PrintedCase { guard, answers }))
}

/// The guard, simplified under the atoms.
fn simplified_guard(
    alloc: Global,
    store: &mut Store,
    context: Context,
    guard: FormulaId,
    atoms: &[Atom],
) -> Result<FormulaId, AllocError>
    requires id { IsId store.old guard }
    requires orderly { IsOrderly (IsNormal (context_of context)) (tree store.old guard) }
    requires well_formed { AllByRecursion IsWellFormed atoms.now }
    requires atoms { EachOf (IsNormal (context_of context)) (map atom_of atoms.now) }
    ensures made { IfOk result (IsId store.new) }
    ensures simplified { IfOk result (λ r. IsSimplifiedAs (context_of context) (map atom_of atoms.now) (tree store.old guard) (tree store.new r)) }
    ensures kept { Keeps (IsId store.old) (tree store.old) (IsId store.new) (tree store.new) }
{
    match simplified(alloc, store, context, u64::MAX, guard, atoms) {
        Ok(id) => Ok(id),
        Err(_) => Err(AllocError),
    }
}

/// Whether the formula is `false`.
fn is_false(store: &Store, id: FormulaId) -> bool
    requires { IsId store.now id }
    ensures { MatchBool result (tree store.now id ≡ No) (tree store.now id ≢ No) }
{
    match store.shape(id) {
        Shape::False => true,
        Shape::True | Shape::One(_) | Shape::And(_) | Shape::Or(_) | Shape::Not(_) => false,
        Shape::Impl(..) | Shape::Repl(..) | Shape::Equiv(..) => false,
        Shape::Ex(..) | Shape::All(..) => false,
    }
}

/// The formula as a tree, whose numbers are within the limit.
fn unfolded(store: &Store, id: FormulaId) -> Result<Tree, AllocError>
    requires { IsId store.now id }
    ensures tree { IfOk result (λ t. tree_of t ≡ tree store.now id) }
    ensures numbers { IfOk result (λ t. Every IsAtomInLimit (tree_of t)) }
{
    match store.unfold(id, u64::MAX) {
        Ok(tree) => Ok(tree),
        Err(_) => Err(AllocError),
    }
}
