// The steps of the first case that is true at a point.
ghost use Rattle.std.specs.Prelude.{◌≡◌, ℕ, IfOk, IfErr};
ghost use Rattle.logic_meaning.specs.Every.{Every};
ghost use Rattle.logic_meaning.specs.Point.{Of};
ghost use Rattle.normal_atoms.specs.Atoms.{context_of};
ghost use Rattle.logic_meaning.specs.NormalForm.{IsNormal};
ghost use Rattle.logic_meaning.specs.Measured.{done};
ghost use Rattle.logic_meaning.specs.Sample.{chosen_steps};
ghost use Rattle.formula_tree.specs.Trees.{tree_of};
ghost use Rattle.linear_forms.specs.Values.{point_of};
ghost use Rattle.nnf_trees.specs.Nnfs.{HasModulus};
ghost use Rattle.reference_engine.specs.Told.{StopsWith};
ghost use Rattle.plain_samples.specs.Steps.{steps_seen, AreSteps};

use crate::first::true_steps;
use crate::step::Step;
use formula_tree::Tree;
use linear_forms::Values;
use nnf_trees::{form_sizes, normal_form};
use normal_atoms::Context;
use reference_engine::{Measured, Setting, is_asked, pay, put_in};
use std::alloc::Global;

/// The steps that lead to the first case whose guard is true at the point, that of the outermost name first: the nodes of the
/// negation normal form are counted, then the point is put in. There are none where no guard is true. `Nodes` comes exactly where
/// the cases cost more than `limit` nodes, and `Overflow` exactly where a number passes 2^127 - 1 before that, else `Memory`.
///
/// The recursion is as deep as the tree is high.
pub(crate) fn chosen_steps(
    alloc: Global,
    tree: &Tree,
    context: Context,
    at: &Values,
    limit: u64,
) -> Result<Option<Vec<Step>>, Measured>
    requires moduli { Every HasModulus (tree_of tree.now) }
    requires normal { Every (IsNormal (context_of context)) (tree_of tree.now) }
    requires point { Of (context_of context) (point_of at.now) }
    ensures chosen { IfOk result (λ o. (cost : ℕ) × (chosen_steps (context_of context) limit (point_of at.now) (tree_of tree.now) ≡ done (steps_seen o, cost))) }
    ensures sound { IfOk result (AreSteps (context_of context)) }
    ensures stops { IfErr result (λ e. StopsWith e (chosen_steps (context_of context) limit (point_of at.now) (tree_of tree.now))) }
{
    let setting = Setting {
        alloc,
        context,
        limit,
    };
    let mut cost = 0;
    pay(limit, &mut cost, form_sizes(tree).plain)?;
    let put = put_in(alloc, tree, context, at)?;
    let form = normal_form(alloc, &put, false).map_err(|_| Measured::Memory)?;
    true_steps(setting, &mut cost, is_asked(&form), &form)
}
