//! A concrete sample of a case.

ghost use Rattle.std.specs.Prelude.{◌≡◌, IfOk, IfErr, All, map};
ghost use Rattle.normal_atoms.specs.Atoms.{context_of};
ghost use Rattle.formula_store.specs.Nodes.{tree, IsId};
ghost use Rattle.formula_tree.specs.Makers.{Keeps};
ghost use Rattle.linear_forms.specs.Values.{point_of};
ghost use Rattle.sample_reference.specs.Seen.{values_of};
ghost use Rattle.case_theory.specs.Samples.{IsSampleable, AreTrueAnswers};
ghost use Rattle.test_points.specs.Points.{answer_of, IsTestPoint};
ghost use Rattle.engine_answers.specs.Calculation.{CalculationPasses};

use crate::answers::answer_values;
use crate::branches::branches_of;
use crate::case_tree::Case;
use crate::error::SampleError;
use crate::known::known_values;
use exact_numbers::Fraction;
use formula_store::{FormulaId, Store};
use linear_forms::Values;
use logic_meaning::VarId;
use normal_atoms::Context;
use std::alloc::Global;

/// A number for each answered name, in the order of the answers, with which the matrix is true at the point: in lowest terms, and
/// over the integers whole. The value of an answer is calculated from the matrix with the answers after it put in, and from the
/// values before it: between an infinitesimal's form and the next critical value, beyond all critical values, or beyond them in the
/// residue class (Loos and Weispfenning 1993, Cooper 1972).
///
/// `Overflow` comes only where a number of this calculation passes 2^127 - 1: one of the point in lowest terms, one that is formed
/// where an answer after the first one is put in, or one that is formed for a value. Else the error is `Memory`. The formulas of the store stay.
pub fn concrete(
    alloc: Global,
    store: &mut Store,
    context: Context,
    case: &Case,
    matrix: FormulaId,
    at: &Values,
) -> Result<Vec<(VarId, Fraction)>, SampleError>
    requires matrix { IsId store.old matrix }
    requires points { All IsTestPoint case.now.answers.items }
    requires sampleable { IsSampleable (context_of context) (map answer_of case.now.answers.items) (tree store.old matrix) (point_of at.now) }
    ensures sample { IfOk result (λ v. AreTrueAnswers (context_of context) (map answer_of case.now.answers.items) (tree store.old matrix) (point_of at.now) (values_of v.items)) }
    ensures overflow { IfErr result (λ e. e ≡ SampleError.Overflow → CalculationPasses (context_of context) (map answer_of case.now.answers.items) (tree store.old matrix) at.now) }
    ensures kept { Keeps (IsId store.old) (tree store.old) (IsId store.new) (tree store.new) }
{
    let known = match known_values(alloc, at) {
        Ok(known) => known,
        Err(error) => return Err(error),
    };
    match branches_of(alloc, store, context, &case.answers, matrix) {
        Ok(branches) => answer_values(alloc, store, context, &case.answers, &branches, known),
        Err(error) => Err(error),
    }
}
