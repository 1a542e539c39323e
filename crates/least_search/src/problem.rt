//! The problem of a target, and the search for its least value.

ghost use Rattle.std.specs.Prelude.{◌≡◌, IsTrue, ◌↔◌, IfOk, IfSome, map};
ghost use Rattle.logic_meaning.specs.Context.{Fields};
ghost use Rattle.logic_meaning.specs.Some.{Among, EachOf};
ghost use Rattle.logic_meaning.specs.Values.{value_names, IsValue};
ghost use Rattle.exact_numbers.specs.Frac.{IsLowest};
ghost use Rattle.exact_numbers.specs.Fraction.{frac_of};
ghost use Rattle.sample_reference.specs.Seen.{values_of};
ghost use Rattle.linear_forms.specs.Values.{number_of};
ghost use Rattle.formula_store.specs.Nodes.{tree, IsId};
ghost use Rattle.least_search.specs.Problems.{IsProblemOf};

use crate::rows::rows_of;
use certificates::{Bound, Constraint};
use exact_numbers::Fraction;
use formula_store::{FormulaId, Store};
use formula_tree::Shape;
use linear_forms::Linear;
use logic_meaning::VarId;
use simplex_optimum::{Optimum, Ratio, Sense, System};
use std::alloc::{AllocError, Global};

// What a search may spend: one for an entry of its tableau at each pivot.
const EFFORT: u64 = 100_000_000;

/// The names of the quantifiers in front of a formula, the formula behind them and the constraints that it is the conjunction of, and
/// the name whose value is to be least. The columns of the search are the numbers of all names, rising.
#[derive(Drop)]
pub(crate) struct Problem<'s> {
    pub(crate) store: &'s Store,
    pub(crate) target: VarId,
    pub(crate) names: Vec<VarId>,
    pub(crate) matrix: FormulaId,
    pub(crate) rows: Vec<Constraint>,
    columns: Vec<usize>,
}

/// Whether the name is one of the names.
fn stands_in(names: &[VarId], name: VarId) -> bool
    ensures { IsTrue result ↔ Among (map number_of names.now) name.number }
{
    names.iter().any(|other| other.number == name.number)
}

impl<'s> Problem<'s> {
    /// The problem of the target, where the formula is a conjunction of weak constraints behind quantifiers by `ex`.
    pub(crate) fn read(
        alloc: Global,
        store: &'s Store,
        formula: FormulaId,
        target: VarId,
    ) -> Result<Option<Problem<'s>>, AllocError>
        requires { IsId store.now formula }
        ensures { IfOk result (λ o. IfSome o (IsProblemOf target.number (tree store.now formula))) }
    {
        let mut names = Vec::new(alloc);
        let mut matrix = formula;
        while let Shape::Ex(name, inner) = store.shape(matrix) {
            if name.number == target.number || stands_in(&names, *name) {
                return Ok(None);
            }
            names.push(*name)?;
            matrix = *inner;
        }
        let Some(rows) = rows_of(alloc, store, matrix)? else {
            return Ok(None);
        };
        let columns = columns_of(alloc, &names, target)?;
        Ok(Some(Problem {
            store,
            target,
            names,
            matrix,
            rows,
            columns,
        }))
    }

    /// What the search finds.
    pub(crate) fn optimum(&self, alloc: Global) -> Result<Option<Optimum>, AllocError> {
        let Ok(target) = self.columns.binary_search(&self.target.number) else {
            return Ok(None);
        };
        let mut system = System::new(alloc, self.columns.len());
        for row in &self.rows {
            let sense = match row.bound {
                Bound::Equal => Sense::Equal,
                Bound::AtMost | Bound::Below => Sense::AtMost,
            };
            let terms = self.terms(alloc, &row.form)?;
            system.push(terms, row.form.constant_part(), sense)?;
        }
        let mut effort = EFFORT;
        system.least(target, &mut effort)
    }

    /// The columns of the names of a form, with their coefficients.
    fn terms(&self, alloc: Global, form: &Linear) -> Result<Vec<(usize, i128)>, AllocError> {
        let mut terms = Vec::with_capacity(alloc, form.places())?;
        for place in 0..form.places() {
            if let Some((name, coefficient)) = form.term(place)
                && let Ok(column) = self.columns.binary_search(&name.number)
            {
                terms.push((column, coefficient))?;
            }
        }
        Ok(terms)
    }

    /// The value of the target by what the search found for the columns, if it is a number within 2^127 - 1 over one.
    pub(crate) fn target_value(&self, found: &[Ratio]) -> Option<Fraction>
        ensures { IfSome result (λ f. IsLowest (frac_of f)) }
    {
        self.value_of(self.target, found)
    }

    /// The same of a name.
    fn value_of(&self, name: VarId, found: &[Ratio]) -> Option<Fraction>
        ensures { IfSome result (λ f. IsLowest (frac_of f)) }
    {
        let Ok(column) = self.columns.binary_search(&name.number) else {
            return None;
        };
        fraction(*found.get(column)?)
    }

    /// The same of all names but the target.
    pub(crate) fn values(
        &self,
        alloc: Global,
        found: &[Ratio],
    ) -> Result<Option<Vec<(VarId, Fraction)>>, AllocError>
        ensures names { IfOk result (λ o. IfSome o (λ v. value_names (values_of v.items) ≡ map number_of self.now.names.items)) }
        ensures each { IfOk result (λ o. IfSome o (λ v. EachOf (IsValue Fields) (values_of v.items))) }
    {
        let mut values = Vec::with_capacity(alloc, self.names.len())?;
        for name in &self.names {
            let Some(value) = self.value_of(*name, found) else {
                return Ok(None);
            };
            values.push((*name, value))?;
        }
        Ok(Some(values))
    }
}

/// The numbers of the names and of the target, rising.
fn columns_of(alloc: Global, names: &[VarId], target: VarId) -> Result<Vec<usize>, AllocError> {
    let mut columns = vec![in alloc; target.number]?;
    for name in names {
        columns.push(name.number)?;
    }
    columns.sort_unstable();
    Ok(columns)
}

/// The fraction in lowest terms, if its numbers are within 2^127 - 1 and the denominator is positive.
fn fraction(ratio: Ratio) -> Option<Fraction>
    ensures { IfSome result (λ f. IsLowest (frac_of f)) }
{
    if ratio.denominator <= 0 || ratio.numerator == i128::MIN {
        return None;
    }
    Some(Fraction::reduced(ratio.numerator, ratio.denominator))
}
