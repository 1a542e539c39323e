ghost use Rattle.std.specs.Prelude.{◌≡◌, ◌≤◌, ℕ, IfOk, IfErr};
ghost use Rattle.logic_meaning.specs.Every.{Every};
ghost use Rattle.logic_meaning.specs.Sizes.{nodes};
ghost use Rattle.normal_atoms.specs.Atoms.{context_of};
ghost use Rattle.logic_meaning.specs.NormalForm.{IsNormal};
ghost use Rattle.logic_meaning.specs.Measured.{done};
ghost use Rattle.elimination_theory.specs.Theorems.{IsAnswerTo};
ghost use Rattle.logic_meaning.specs.Reference.{reference};
ghost use Rattle.formula_tree.specs.Trees.{tree_of};
ghost use Rattle.nnf_trees.specs.Nnfs.{nnf_of, HasModulus, IsProper};
ghost use Rattle.reference_engine.specs.Told.{StopsWith};

use crate::branches::branches;
use crate::measured::{Measured, Setting, pay};
use formula_tree::Tree;
use logic_meaning::Junction;
use nnf_trees::{Nnf, fold, form_sizes, into_tree, normal_form};
use normal_atoms::Context;
use std::alloc::Global;

/// The reference elimination of a tree over normal atoms: a formula without quantifiers that is equivalent to the tree, has no
/// other free names, normal atoms and at most `limit` nodes. `Nodes` comes exactly where it costs more than `limit` nodes, and
/// `Overflow` exactly where a number passes 2^127 - 1 before that, else `Memory`.
///
/// The recursion is as deep as the tree is high.
pub fn eliminate_plain(
    alloc: Global,
    tree: &Tree,
    context: Context,
    limit: u64,
) -> Result<Tree, Measured>
    requires moduli { Every HasModulus (tree_of tree.now) }
    requires normal { Every (IsNormal (context_of context)) (tree_of tree.now) }
    ensures answer { IfOk result (λ t. (cost : ℕ) × (reference (context_of context) limit (tree_of tree.now) ≡ done (tree_of t, cost))) }
    ensures exact { IfOk result (λ t. IsAnswerTo (context_of context) (tree_of tree.now) (tree_of t)) }
    ensures small { IfOk result (λ t. nodes (tree_of t) ≤ limit) }
    ensures stops { IfErr result (λ e. StopsWith e (reference (context_of context) limit (tree_of tree.now))) }
{
    let answer = eliminate_form(alloc, tree, context, limit)?;
    Ok(into_tree(alloc, answer)?)
}

/// As `eliminate_plain`, the answer in negation normal form, whose atoms are well formed.
pub fn eliminate_form(
    alloc: Global,
    tree: &Tree,
    context: Context,
    limit: u64,
) -> Result<Nnf, Measured>
    requires moduli { Every HasModulus (tree_of tree.now) }
    requires normal { Every (IsNormal (context_of context)) (tree_of tree.now) }
    ensures answer { IfOk result (λ f. (cost : ℕ) × (reference (context_of context) limit (tree_of tree.now) ≡ done (nnf_of f, cost))) }
    ensures exact { IfOk result (λ f. IsAnswerTo (context_of context) (tree_of tree.now) (nnf_of f)) }
    ensures small { IfOk result (λ f. nodes (nnf_of f) ≤ limit) }
    ensures proper { IfOk result IsProper }
    ensures stops { IfErr result (λ e. StopsWith e (reference (context_of context) limit (tree_of tree.now))) }
{
    let setting = Setting {
        alloc,
        context,
        limit,
    };
    let mut cost = 0;
    pay(limit, &mut cost, form_sizes(tree).plain)?;
    let form = normal_form(alloc, tree, false)?;
    let left = branches(setting, &mut cost, Vec::new(alloc), true, &form)?;
    Ok(fold(alloc, Junction::Disjunction, left)?)
}
