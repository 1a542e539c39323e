// The cases of the leading block.
ghost use Rattle.std.specs.Prelude.{◌≡◌, ℕ, map, IfOk, IfErr};
ghost use Rattle.logic_meaning.specs.Every.{Every};
ghost use Rattle.logic_meaning.specs.Some.{EachOf};
ghost use Rattle.logic_meaning.specs.Tree.{IsFree};
ghost use Rattle.normal_atoms.specs.Atoms.{context_of};
ghost use Rattle.logic_meaning.specs.NormalForm.{IsNormal};
ghost use Rattle.elimination_theory.specs.Theorems.{AreExactCases};
ghost use Rattle.logic_meaning.specs.Cases.{Case, case_sign, reference_cases};
ghost use Rattle.logic_meaning.specs.Over.{AreAnswersOver};
ghost use Rattle.logic_meaning.specs.Measured.{done};
ghost use Rattle.formula_tree.specs.Trees.{tree_of};
ghost use Rattle.nnf_trees.specs.Nnfs.{nnf_of, HasModulus};
ghost use Rattle.reference_engine.specs.Told.{StopsWith};
ghost use Rattle.reference_engine.specs.Stand.{AreSound};
ghost use Rattle.reference_engine.specs.Case.{case_seen, leaf_case, HavePoints};

use crate::branch::Leaf;
use crate::chain::leaves;
use crate::measured::{Measured, Setting, pay};
use crate::parts::is_ex;
use formula_tree::Tree;
use nnf_trees::{Nnf, form_sizes, into_tree, normal_form};
use normal_atoms::Context;
use std::alloc::{AllocError, Global};
use test_points::TestPoint;

/// Where the guard is true, the answers make the matrix behind the leading block true.
#[derive(Drop)]
pub struct PrintedCase {
    pub guard: Tree,
    pub answers: Vec<TestPoint>,
}

/// Whether the cases are those of the formula itself, and not of its negation.
#[tactic(auto, using(nnf_trees::proofs::NnfEquations::nnfs, crate::proofs::Chaining::signs))]
pub fn is_asked(f: &Nnf) -> bool
    ensures { result ≡ case_sign (nnf_of f.now) }
{
    match f {
        Nnf::Constant(_) | Nnf::One(_) | Nnf::Joined(..) => true,
        Nnf::Quantified(quantifier, _, _) => is_ex(*quantifier),
    }
}

// The leaves as cases.
fn told(alloc: Global, leaves: Vec<Leaf>) -> Result<Vec<PrintedCase>, AllocError>
    requires { AreSound leaves.items }
    ensures cases { IfOk result (λ v. map case_seen v.items ≡ map leaf_case leaves.items) }
    ensures points { IfOk result (λ v. HavePoints v.items) }
{
    let mut cases = Vec::new(alloc);
    for leaf in leaves {
        let Leaf { formula, points } = leaf;
        let guard = into_tree(alloc, formula)?;
        let case = PrintedCase {
            guard,
            answers: points,
        };
        cases.push(case)?;
    }
    Ok(cases)
}

/// The cases of the leading block of `ex`, or of `all` for the negation, by the reference elimination, in its order: each guard
/// is true exactly where its answers make the matrix true, and together they are the tree, or its negation. Each answer has a
/// place of the theory whose form is sorted, over the free names of the tree and names answered before it, with numbers within
/// 2^127 - 1. `Nodes` comes exactly where that costs more than `limit` nodes, and `Overflow` exactly where a number passes
/// 2^127 - 1 before that, else `Memory`.
///
/// The recursion is as deep as the tree is high.
pub fn cases_plain(
    alloc: Global,
    tree: &Tree,
    context: Context,
    limit: u64,
) -> Result<Vec<PrintedCase>, Measured>
    requires moduli { Every HasModulus (tree_of tree.now) }
    requires normal { Every (IsNormal (context_of context)) (tree_of tree.now) }
    ensures cases { IfOk result (λ v. (cost : ℕ) × (reference_cases (context_of context) limit (tree_of tree.now) ≡ done (map case_seen v.items, cost))) }
    ensures exact { IfOk result (λ v. AreExactCases (context_of context) (tree_of tree.now) (map case_seen v.items)) }
    ensures answers { IfOk result (λ v. EachOf (λ (k : Case). AreAnswersOver (context_of context) (IsFree (tree_of tree.now)) k.answers) (map case_seen v.items)) }
    ensures points { IfOk result (λ v. HavePoints v.items) }
    ensures stops { IfErr result (λ e. StopsWith e (reference_cases (context_of context) limit (tree_of tree.now))) }
{
    let left = case_leaves(alloc, tree, context, limit)?;
    Ok(told(alloc, left)?)
}

/// The same cases as leaves: the guards in negation normal form, to be worked on without a copy, and the points that answer.
pub fn case_leaves(
    alloc: Global,
    tree: &Tree,
    context: Context,
    limit: u64,
) -> Result<Vec<Leaf>, Measured>
    requires moduli { Every HasModulus (tree_of tree.now) }
    requires normal { Every (IsNormal (context_of context)) (tree_of tree.now) }
    ensures cases { IfOk result (λ v. (cost : ℕ) × (reference_cases (context_of context) limit (tree_of tree.now) ≡ done (map leaf_case v.items, cost))) }
    ensures sound { IfOk result (λ v. AreSound v.items) }
    ensures stops { IfErr result (λ e. StopsWith e (reference_cases (context_of context) limit (tree_of tree.now))) }
{
    let setting = Setting {
        alloc,
        context,
        limit,
    };
    let mut cost = 0;
    pay(limit, &mut cost, form_sizes(tree).plain)?;
    let form = normal_form(alloc, tree, false)?;
    let left = leaves(setting, &mut cost, Vec::new(alloc), is_asked(&form), &form)?;
    Ok(left)
}
