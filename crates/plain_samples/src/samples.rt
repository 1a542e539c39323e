// Samples of formulas.
ghost use Rattle.std.specs.Prelude.{◌≡◌, ℕ, IfOk, IfErr};
ghost use Rattle.logic_meaning.specs.Every.{Every};
ghost use Rattle.logic_meaning.specs.Point.{Of};
ghost use Rattle.logic_meaning.specs.Tree.{IsFree};
ghost use Rattle.normal_atoms.specs.Atoms.{context_of};
ghost use Rattle.logic_meaning.specs.NormalForm.{IsNormal};
ghost use Rattle.logic_meaning.specs.Measured.{done};
ghost use Rattle.formula_tree.specs.Trees.{tree_of};
ghost use Rattle.linear_forms.specs.Values.{point_of};
ghost use Rattle.nnf_trees.specs.Nnfs.{HasModulus};
ghost use Rattle.reference_engine.specs.Told.{StopsWith, Told};
ghost use Rattle.logic_meaning.specs.ReferenceSample.{sampled, reference_sample};
ghost use Rattle.sample_reference.specs.TrueSample.{closed_sample, IsTrueSample};
ghost use Rattle.sample_reference.specs.Seen.{sample_of};
ghost use Rattle.logic_meaning.specs.Values.{origin};
ghost use Rattle.plain_samples.specs.Steps.{steps_seen, AreSteps};

use crate::chosen::chosen_steps;
use crate::first::first_true_steps;
use crate::step::Step;
use crate::steps::step_values;
use exact_numbers::Fraction;
use formula_tree::Tree;
use linear_forms::Values;
use logic_meaning::VarId;
use normal_atoms::Context;
use reference_engine::Measured;
use std::alloc::Global;

// The values of the steps, where there are some. `Overflow` comes exactly where a number that is formed passes 2^127 - 1, else
// `Memory`.
fn sampled(
    alloc: Global,
    context: Context,
    steps: Option<Vec<Step>>,
) -> Result<Option<Vec<(VarId, Fraction)>>, Measured>
    requires { AreSteps (context_of context) steps }
    ensures { (cost : ℕ) → Told sample_of result cost (sampled (context_of context) cost (steps_seen steps)) }
{
    let Some(steps) = steps else {
        return Ok(None);
    };
    match step_values(alloc, context, &steps) {
        Ok(Some(values)) => Ok(Some(values)),
        Ok(None) => Err(Measured::Overflow),
        Err(_) => Err(Measured::Memory),
    }
}

/// Values for the names of the leading block of `ex`, with which the matrix behind it is true; where the formula begins with `all`,
/// values with which its matrix is false. They are those of the first case whose guard is true, the outermost name first, in lowest
/// terms and over the integers whole. There are none exactly where no guard is true. `Nodes` comes exactly where the cases cost
/// more than `limit` nodes, and `Overflow` exactly where a number passes 2^127 - 1 before that or in the values, else `Memory`.
///
/// The formula has no free names. The recursion is as deep as the tree is high.
pub fn sample_plain(
    alloc: Global,
    tree: &Tree,
    context: Context,
    limit: u64,
) -> Result<Option<Vec<(VarId, Fraction)>>, Measured>
    requires moduli { Every HasModulus (tree_of tree.now) }
    requires normal { Every (IsNormal (context_of context)) (tree_of tree.now) }
    requires closed { (y : ℕ) → ¬ (IsFree (tree_of tree.now) y) }
    ensures made { IfOk result (λ o. (cost : ℕ) × (closed_sample (context_of context) limit (tree_of tree.now) ≡ done (sample_of o, cost))) }
    ensures truth { IfOk result (λ o. IsTrueSample (context_of context) (tree_of tree.now) origin (sample_of o)) }
    ensures stops { IfErr result (λ e. StopsWith e (closed_sample (context_of context) limit (tree_of tree.now))) }
{
    let mut cost = 0;
    let steps = first_true_steps(alloc, tree, context, limit, &mut cost)?;
    sampled(alloc, context, steps)
}

/// The same of a formula at a point: the nodes of its negation normal form are counted, the point is put in, and then the sample is
/// taken.
///
/// The recursion is as deep as the tree is high.
pub fn sample_at(
    alloc: Global,
    tree: &Tree,
    context: Context,
    at: &Values,
    limit: u64,
) -> Result<Option<Vec<(VarId, Fraction)>>, Measured>
    requires moduli { Every HasModulus (tree_of tree.now) }
    requires normal { Every (IsNormal (context_of context)) (tree_of tree.now) }
    requires point { Of (context_of context) (point_of at.now) }
    ensures made { IfOk result (λ o. (cost : ℕ) × (reference_sample (context_of context) limit (point_of at.now) (tree_of tree.now) ≡ done (sample_of o, cost))) }
    ensures truth { IfOk result (λ o. IsTrueSample (context_of context) (tree_of tree.now) (point_of at.now) (sample_of o)) }
    ensures stops { IfErr result (λ e. StopsWith e (reference_sample (context_of context) limit (point_of at.now) (tree_of tree.now))) }
{
    let steps = chosen_steps(alloc, tree, context, at, limit)?;
    sampled(alloc, context, steps)
}
