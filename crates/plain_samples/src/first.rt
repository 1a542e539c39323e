// The first case whose guard is true.
ghost use Rattle.std.specs.Prelude.{◌≡◌, List, [], All, IfOk, IfSome, if◌then◌else◌};
ghost use Rattle.logic_meaning.specs.Every.{Every};
ghost use Rattle.normal_atoms.specs.Atoms.{context_of};
ghost use Rattle.logic_meaning.specs.NormalForm.{IsNormal};
ghost use Rattle.logic_meaning.specs.Cases.{case_sign};
ghost use Rattle.logic_meaning.specs.Reference.{Branch, branches, leading_branches, normal_tree};
ghost use Rattle.formula_tree.specs.Trees.{tree_of};
ghost use Rattle.nnf_trees.specs.Nnfs.{nnf_of, HasModulus, IsProper};
ghost use Rattle.test_points.specs.Points.{IsTestPoint};
ghost use Rattle.reference_engine.specs.Ready.{IsReady};
ghost use Rattle.reference_engine.specs.Told.{Told};
ghost use Rattle.reference_engine.specs.Stand as stand;
ghost use Rattle.reference_engine.specs.Stand.{StandFor};
ghost use Rattle.plain_samples.specs.First.{is_yes, first_steps, IsChoice};
ghost use Rattle.plain_samples.specs.Steps.{steps_seen, AreSteps};

use crate::chain::{Rooted, rooted_leaves};
use crate::replay::steps_back;
use crate::step::Step;
use formula_tree::Tree;
use nnf_trees::{Nnf, form_sizes, normal_form};
use normal_atoms::Context;
use reference_engine::{Leaf, Measured, Setting, is_asked, pay};
use std::alloc::Global;
use test_points::TestPoint;

// Whether the formula is the constant true.
#[tactic(auto, using(nnf_trees::proofs::NnfEquations::nnfs, crate::proofs::TracedCasesChoosing::trues))]
fn is_true(f: &Nnf) -> bool
    ensures { result ≡ is_yes (nnf_of f.now) }
{
    match f {
        Nnf::Constant(truth) => *truth,
        Nnf::One(_) | Nnf::Joined(..) | Nnf::Quantified(..) => false,
    }
}

// The points of the leaf, where it is true.
fn points_if_true(leaf: Leaf) -> Option<Vec<TestPoint>>
    ensures { result ≡ (if is_yes (nnf_of leaf.formula) then Some leaf.points else None) }
{
    let Leaf { formula, points } = leaf;
    if is_true(&formula) {
        Some(points)
    } else {
        None
    }
}

// The points of the first leaf that is true, the last one first.
fn first_true(leaves: Vec<Leaf>) -> Option<Vec<TestPoint>>
    requires { stand.AreSound leaves.items }
    ensures choice { (bs : List Branch) → StandFor leaves.items bs → IsChoice bs result }
    ensures points { IfSome result (λ v. All IsTestPoint v.items) }
{
    for leaf in leaves {
        if let Some(points) = points_if_true(leaf) {
            return Some(points);
        }
    }
    None
}

/// The steps that lead from the formula, or for false from its negation, to the first branch of its leading block that is true:
/// that of the outermost name first, each point in the formula into which it was put. There are none where no branch is true.
/// `Nodes` comes exactly where the branches cost more than the limit, and `Overflow` exactly where a number passes 2^127 - 1
/// before that, else `Memory`. The recursion is as deep as the formula is high.
pub fn true_steps(
    setting: Setting,
    cost: &mut u64,
    sign: bool,
    f: &Nnf,
) -> Result<Option<Vec<Step>>, Measured>
    requires proper { IsProper f.now }
    requires ready { IsReady (context_of setting.context) (nnf_of f.now) }
    ensures told { Told steps_seen result cost.new (first_steps (branches (context_of setting.context) setting.limit [] sign (nnf_of f.now) cost.old)) }
    ensures sound { IfOk result (AreSteps (context_of setting.context)) }
{
    let found = rooted_leaves(setting, cost, Vec::new(setting.alloc), sign, f)?;
    let Rooted { root, leaves } = found;
    match first_true(leaves) {
        Some(points) => {
            let steps = steps_back(setting.alloc, setting.context, root, points)?;
            Ok(Some(steps))
        }
        None => Ok(None),
    }
}

/// The steps that lead to the first case of the leading block whose guard is true: of `ex`, or of `all` for the negation. That of
/// the outermost name comes first, each point in the formula into which it was put. There are none where no guard is true.
/// `Nodes` comes exactly where the cases cost more than `limit` nodes, and `Overflow` exactly where a number passes 2^127 - 1
/// before that, else `Memory`. The recursion is as deep as the tree is high.
pub fn first_true_steps(
    alloc: Global,
    tree: &Tree,
    context: Context,
    limit: u64,
    cost: &mut u64,
) -> Result<Option<Vec<Step>>, Measured>
    requires moduli { Every HasModulus (tree_of tree.now) }
    requires normal { Every (IsNormal (context_of context)) (tree_of tree.now) }
    ensures told { Told steps_seen result cost.new (first_steps (leading_branches (context_of context) limit (case_sign (normal_tree (tree_of tree.now))) (tree_of tree.now) cost.old)) }
    ensures sound { IfOk result (AreSteps (context_of context)) }
{
    let setting = Setting {
        alloc,
        context,
        limit,
    };
    pay(limit, cost, form_sizes(tree).plain)?;
    let form = normal_form(alloc, tree, false)?;
    true_steps(setting, cost, is_asked(&form), &form)
}
