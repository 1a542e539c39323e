// The truth of a formula at a point.
ghost use Rattle.std.specs.Prelude.{◌≡◌, ◌↔◌, ℕ, IfOk, IfErr, IsTrue};
ghost use Rattle.logic_meaning.specs.Every.{Every};
ghost use Rattle.logic_meaning.specs.Formula.{Yes};
ghost use Rattle.logic_meaning.specs.Point.{Of};
ghost use Rattle.logic_meaning.specs.Tree.{TrueAt};
ghost use Rattle.logic_meaning.specs.Measured.{done};
ghost use Rattle.logic_meaning.specs.Sample.{reference_at};
ghost use Rattle.normal_atoms.specs.Atoms.{context_of};
ghost use Rattle.logic_meaning.specs.NormalForm.{IsNormal, constant_tree};
ghost use Rattle.formula_tree.specs.Trees.{tree_of};
ghost use Rattle.linear_forms.specs.Values.{point_of};
ghost use Rattle.nnf_trees.specs.Nnfs.{HasModulus};
ghost use Rattle.reference_engine.specs.Told.{StopsWith};

use crate::eliminate::eliminate_plain;
use crate::formulas::put_in;
use crate::measured::{Measured, pay};
use formula_tree::Tree;
use linear_forms::Values;
use nnf_trees::form_sizes;
use normal_atoms::Context;
use std::alloc::Global;

// Whether the tree is the constant true.
#[tactic(auto, using(formula_tree::proofs::TreeEquations::trees))]
fn is_true(tree: &Tree) -> bool
    ensures { IsTrue result ↔ (tree_of tree.now ≡ Yes) }
{
    match tree {
        Tree::True => true,
        Tree::False
        | Tree::One(_)
        | Tree::And(_)
        | Tree::Or(_)
        | Tree::Not(_)
        | Tree::Impl(..)
        | Tree::Repl(..)
        | Tree::Equiv(..)
        | Tree::Ex(..)
        | Tree::All(..) => false,
    }
}

/// Whether the tree is true at the point, by the reference elimination: the nodes of its negation normal form are counted, then
/// the point is put in, and then the quantifiers are eliminated. `Nodes` comes exactly where that costs more than `limit` nodes,
/// and `Overflow` exactly where a number passes 2^127 - 1 before that, else `Memory`.
///
/// The recursion is as deep as the tree is high.
pub fn truth_plain(
    alloc: Global,
    tree: &Tree,
    context: Context,
    at: &Values,
    limit: u64,
) -> Result<bool, Measured>
    requires moduli { Every HasModulus (tree_of tree.now) }
    requires normal { Every (IsNormal (context_of context)) (tree_of tree.now) }
    requires point { Of (context_of context) (point_of at.now) }
    ensures truth { IfOk result (λ b. IsTrue b ↔ TrueAt (context_of context) (tree_of tree.now) (point_of at.now)) }
    ensures answer { IfOk result (λ b. (cost : ℕ) × (reference_at (context_of context) limit (point_of at.now) (tree_of tree.now) ≡ done (constant_tree b, cost))) }
    ensures stops { IfErr result (λ e. StopsWith e (reference_at (context_of context) limit (point_of at.now) (tree_of tree.now))) }
{
    let mut cost = 0;
    pay(limit, &mut cost, form_sizes(tree).plain)?;
    let put = put_in(alloc, tree, context, at)?;
    let answer = eliminate_plain(alloc, &put, context, limit)?;
    Ok(is_true(&answer))
}
