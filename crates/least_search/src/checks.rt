//! Checks of what a search finds.

ghost use Rattle.std.specs.Prelude.{◌≡◌, ◌∷◌, pos, ◌<ℤ◌, ℕ, ◌*ℤ◌, IsTrue, IfOk, IfSome, map};
ghost use Rattle.std.specs.List.{AllByRecursion};
ghost use Rattle.exact_numbers.specs.Frac.{IsLowest};
ghost use Rattle.exact_numbers.specs.Fraction.{frac_of};
ghost use Rattle.logic_meaning.specs.Context.{Fields};
ghost use Rattle.logic_meaning.specs.Point.{Point, Of};
ghost use Rattle.logic_meaning.specs.Some.{EachOf};
ghost use Rattle.logic_meaning.specs.Tree.{TrueAt};
ghost use Rattle.logic_meaning.specs.Values.{value_names, with_values, IsValue};
ghost use Rattle.linear_theory.specs.Meeting.{Meets, MeetsAll};
ghost use Rattle.linear_forms.specs.Values.{point_of, number_of};
ghost use Rattle.certificates.specs.Constraints.{constraint_of};
ghost use Rattle.sample_reference.specs.Seen.{value_of, values_of};
ghost use Rattle.plain_samples.specs.Told.{IsPointOver};
ghost use Rattle.formula_store.specs.Nodes.{tree};
ghost use Rattle.least_search.specs.Found.{at_value};
ghost use Rattle.least_search.specs.Problems.{IsProblem, IsKeptAlong, LeadsDown};

use crate::problem::Problem;
use certificates::{Bound, CertError, Constraint, check};
use exact_numbers::Fraction;
use formula_store::EvalStop;
use linear_forms::{Linear, Values};
use logic_meaning::VarId;
use plain_samples::point_of_values;
use std::alloc::{AllocError, Global};
use test_points::PointError;

/// The values over one denominator, the target's first, if they fit.
fn point(
    alloc: Global,
    target: (VarId, Fraction),
    values: &[(VarId, Fraction)],
) -> Result<Option<Values>, AllocError>
    ensures { IfOk result (λ o. IfSome o (IsPointOver (value_of target ∷ values_of values.now))) }
{
    let mut all = vec![in alloc; target]?;
    all.extend_from_slice(values)?;
    match point_of_values(alloc, &all) {
        Ok(point) => Ok(Some(point)),
        Err(PointError::Overflow | PointError::Nodes) => Ok(None),
        Err(PointError::Memory) => Err(AllocError),
    }
}

impl Problem<'_> {
    /// Whether the constraints are met where the target and the names have these values; not where a number passes 2^127 - 1.
    pub(crate) fn is_met(
        &self,
        alloc: Global,
        least: Fraction,
        values: &[(VarId, Fraction)],
    ) -> Result<bool, AllocError>
        requires problem { IsProblem self.now }
        requires lowest { IsLowest (frac_of least) }
        requires each { EachOf (IsValue Fields) (values_of values.now) }
        ensures { IfOk result (λ b. IsTrue b → TrueAt Fields (tree self.now.store.now self.now.matrix) (with_values (at_value self.now.target.number (frac_of least)) (values_of values.now))) }
    {
        let Some(point) = point(alloc, (self.target, least), values)? else {
            return Ok(false);
        };
        match self.store.truth(self.matrix, &point) {
            Ok(truth) => Ok(truth),
            Err(EvalStop::Overflow) => Ok(false),
            Err(EvalStop::Memory) => Err(AllocError),
        }
    }

    /// Whether a point that meets the constraints meets them when it goes on by these steps, of the target and of the names, and the
    /// target falls; not where a number passes 2^127 - 1.
    pub(crate) fn leads_down(
        &self,
        alloc: Global,
        fall: Fraction,
        steps: &[(VarId, Fraction)],
    ) -> Result<bool, AllocError>
        requires lowest { IsLowest (frac_of fall) }
        requires each { EachOf (IsValue Fields) (values_of steps.now) }
        requires names { value_names (values_of steps.now) ≡ map number_of self.now.names.items }
        ensures { IfOk result (λ b. IsTrue b → (r : Point ℕ) × LeadsDown self.now.target.number (map number_of self.now.names.items) (map constraint_of self.now.rows.items) r) }
    {
        let Some(steps) = point(alloc, (self.target, fall), steps)? else {
            return Ok(false);
        };
        if 0 <= steps.get(self.target) {
            return Ok(false);
        }
        all_are_kept(alloc, &self.rows, &steps)
    }
}

/// Whether a point that meets the constraints meets them when it goes on by the steps; not where a number passes 2^127 - 1.
fn all_are_kept(alloc: Global, rows: &[Constraint], steps: &Values) -> Result<bool, AllocError>
    ensures { IfOk result (λ b. IsTrue b → AllByRecursion (λ r. IsKeptAlong (point_of steps.now) (constraint_of r)) rows.now) }
{
    for row in rows {
        if !is_kept(alloc, row, steps)? {
            return Ok(false);
        }
    }
    Ok(true)
}

/// Whether a point that meets the constraint meets it when it goes on by the steps; not where a number passes 2^127 - 1.
fn is_kept(alloc: Global, row: &Constraint, steps: &Values) -> Result<bool, AllocError>
    ensures { IfOk result (λ b. IsTrue b → IsKeptAlong (point_of steps.now) (constraint_of row.now)) }
{
    let form = row.form.copy(alloc)?.with_constant(0);
    let Some(change) = form.value(steps) else {
        return Ok(false);
    };
    match row.bound {
        Bound::Equal => Ok(change == 0),
        Bound::AtMost | Bound::Below => Ok(change <= 0),
    }
}

/// The constraint that the name is below a value.
fn below(alloc: Global, name: VarId, value: Fraction) -> Result<Constraint, AllocError>
    ensures { IfOk result (λ c. (p : Point ℕ) → (p.at name.number *ℤ value.denominator) <ℤ (value.numerator *ℤ pos p.below) → Meets p (constraint_of c)) }
{
    let terms = vec![in alloc; (name, value.denominator)]?;
    Ok(Constraint {
        form: Linear::of(terms, -value.numerator),
        bound: Bound::Below,
    })
}

/// Whether the multipliers, of the rows and behind them of the constraint that the name is below the value, prove that no point meets
/// the rows with a smaller value of the name; not where a number passes 2^127 - 1.
pub(crate) fn is_bound(
    alloc: Global,
    mut rows: Vec<Constraint>,
    name: VarId,
    value: Fraction,
    multipliers: &[i128],
) -> Result<bool, AllocError>
    ensures { IfOk result (λ b. IsTrue b → (p : Point ℕ) → Of Fields p → (p.at name.number *ℤ value.denominator) <ℤ (value.numerator *ℤ pos p.below) → ¬ (MeetsAll p (map constraint_of rows.items))) }
{
    rows.push(below(alloc, name, value)?)?;
    are_refuted(alloc, &rows, multipliers)
}

/// Whether the multipliers prove that no point meets the rows; not where a number passes 2^127 - 1.
pub(crate) fn are_refuted(
    alloc: Global,
    rows: &[Constraint],
    multipliers: &[i128],
) -> Result<bool, AllocError>
    ensures { IfOk result (λ b. IsTrue b → (p : Point ℕ) → Of Fields p → ¬ (MeetsAll p (map constraint_of rows.now))) }
{
    match check(alloc, rows, multipliers) {
        Ok(refuted) => Ok(refuted),
        Err(CertError::Memory) => Err(AllocError),
        Err(CertError::Overflow | CertError::Nodes) => Ok(false),
    }
}
