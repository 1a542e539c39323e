// Rows of the search: inequalities, with the multipliers by which they come from the constraints.
ghost use Rattle.std.specs.Prelude.{◌≡◌, ◌⊎◌, pos, negsuc, ◌<ℤ◌, ◌||◌, ◌++◌, false, true, int_div, map, option_map, All, IfOk, IfErr, IsErrOf, OnOk};
ghost use Rattle.std.specs.Option.{option_copied};
ghost use Rattle.exact_numbers.specs.Limit.{InLimit};
ghost use Rattle.exact_numbers.specs.Divides.{content_of, gcd_of};
ghost use Rattle.exact_numbers.specs.Division.{DividesAll};
ghost use Rattle.logic_meaning.specs.Form.{coefficient, combine};
ghost use Rattle.logic_meaning.specs.Sorted.{gathered};
ghost use Rattle.logic_meaning.specs.Terms.{CombinesWithin, CombinePasses};
ghost use Rattle.logic_meaning.specs.Rows.{numbers_of, row_content, row_quotient, lowest_row, pair_within, without_name, row_at, negated_row, bound_rows, rows_from};
ghost use Rattle.logic_meaning.specs.Search.{is_false, first_false, multipliers_from};
ghost use Rattle.certificates.specs.Constraints.{bound_of, constraint_of};
ghost use Rattle.certificates.specs.Rows.{row_of, rows_of, pair_of};

use crate::constraint::{Bound, Constraint};
use exact_numbers::gcd;
use linear_forms::{LinError, Linear};
use logic_meaning::VarId;
use std::alloc::{AllocError, Global};

// A form that is to be at most 0, or below 0 where the row is strict, and the multipliers by which it comes from the
// constraints: a form whose names are the places of the constraints.
#[derive(Drop)]
pub(crate) struct Row {
    pub(crate) form: Linear,
    pub(crate) strict: bool,
    pub(crate) multipliers: Linear,
}

impl Row {
    // The form of the constraint at a place, with the multiplier 1 there.
    fn of(alloc: Global, place: usize, strict: bool, form: &Linear) -> Result<Row, AllocError>
        ensures { IfOk result (λ r. row_of r ≡ row_at place strict (gathered form.now)) }
    {
        let form = form.copy(alloc)?;
        match Linear::variable(alloc, VarId { number: place }) {
            Ok(multipliers) => Ok(Row {
                form,
                strict,
                multipliers,
            }),
            Err(_) => Err(AllocError),
        }
    }

    // The row with the other sign.
    fn negated(&self, alloc: Global) -> Result<Row, AllocError>
        ensures { IfOk result (λ r. row_of r ≡ negated_row (row_of self.now)) }
    {
        self.divided(alloc, -1).map_err(|_| AllocError)
    }

    // Whether the constant, the value of a form without names, is too large.
    fn is_false(&self) -> bool
        ensures { result ≡ is_false (row_of self.now) }
    {
        let constant = self.form.constant_part();
        0 < constant || self.strict && constant == 0
    }

    // The multipliers as a list, one for each constraint.
    pub(crate) fn multipliers(
        &self,
        alloc: Global,
        constraints: &[Constraint],
    ) -> Result<Vec<i128>, AllocError>
        ensures multipliers { IfOk result (λ v. v.items ≡ multipliers_from 0 (map constraint_of constraints.now) self.now.multipliers) }
        ensures within { IfOk result (λ v. All InLimit v.items) }
    {
        let mut multipliers = Vec::with_capacity(alloc, constraints.len())?;
        for place in 0..constraints.len() {
            multipliers.push(self.multipliers.coefficient(VarId { number: place }))?;
        }
        Ok(multipliers)
    }

    // a * self + b * other, strict where one of them is.
    fn combine(&self, alloc: Global, a: i128, other: &Row, b: i128) -> Result<Row, LinError>
        ensures row { IfOk result (λ r. row_of r ≡ record { form = gathered (combine a self.now.form b other.now.form); strict = self.now.strict || other.now.strict; multipliers = gathered (combine a self.now.multipliers b other.now.multipliers) }) }
        ensures within { OnOk result (CombinesWithin a self.now.form b other.now.form × CombinesWithin a self.now.multipliers b other.now.multipliers) }
        ensures overflow { IsErrOf result LinError.Overflow → CombinePasses a self.now.form b other.now.form ⊎ CombinePasses a self.now.multipliers b other.now.multipliers }
    {
        let form = self.form.combine(alloc, a, &other.form, b)?;
        let multipliers = self.multipliers.combine(alloc, a, &other.multipliers, b)?;
        Ok(Row {
            form,
            strict: self.strict | other.strict,
            multipliers,
        })
    }

    // The greatest common divisor of all numbers of the row, 0 where all are 0.
    fn content(&self) -> i128
        ensures value { result ≡ row_content (row_of self.now) }
        ensures within { InLimit result }
    {
        gcd(content(&self.form), content(&self.multipliers))
    }

    // The row with each number divided by `by`, which is not 0 and divides them all. Its only error is `Memory`.
    fn divided(&self, alloc: Global, by: i128) -> Result<Row, LinError>
        requires nonzero { ¬ (by ≡ pos 0) }
        requires divides_form { DividesAll by (numbers_of self.now.form) }
        requires divides_multipliers { DividesAll by (numbers_of self.now.multipliers) }
        ensures row { IfOk result (λ r. row_of r ≡ row_quotient (row_of self.now) by) }
        ensures memory { IfErr result (λ e. e ≡ LinError.Memory) }
    {
        let form = self.form.divide_exact(alloc, by)?;
        let multipliers = self.multipliers.divide_exact(alloc, by)?;
        Ok(Row {
            form,
            strict: self.strict,
            multipliers,
        })
    }

    // The row divided by the greatest common divisor of its numbers, unless all are 0. Its only error is `Memory`.
    fn lowest(self, alloc: Global) -> Result<Row, LinError>
        ensures row { IfOk result (λ r. row_of r ≡ lowest_row (row_of self)) }
        ensures memory { IfErr result (λ e. e ≡ LinError.Memory) }
    {
        let content = self.content();
        if content <= 1 {
            Ok(self)
        } else {
            self.divided(alloc, content)
        }
    }
}

// The greatest common divisor of the constant and the coefficients.
fn content(form: &Linear) -> i128
    ensures value { result ≡ content_of (numbers_of form.now) }
    ensures within { InLimit result }
{
    gcd(form.constant_part(), form.content())
}

// The least factors by which two positive numbers become equal: that of the first, and that of the second.
fn factors(above: i128, below: i128) -> (i128, i128)
    requires above_positive { pos 0 <ℤ above }
    requires below_positive { pos 0 <ℤ below }
    requires above_within { InLimit above }
    requires below_within { InLimit below }
    ensures upper_factor { result.0 ≡ int_div below (gcd_of above below) }
    ensures lower_factor { result.1 ≡ int_div above (gcd_of above below) }
{
    let divisor = gcd(above, below);
    (below / divisor, above / divisor)
}

// The row that a row that bounds the name above and one that bounds it below give: multiplied so that the name cancels,
// added, and divided by the greatest common divisor of its numbers. `Overflow` comes exactly where a product or a sum
// passes 2^127 - 1, else `Memory`.
pub(crate) fn without_name(
    alloc: Global,
    name: VarId,
    upper: &Row,
    lower: &Row,
) -> Result<Row, LinError>
    requires upper_bound { pos 0 <ℤ coefficient name.number upper.now.form }
    requires lower_bound { coefficient name.number lower.now.form <ℤ pos 0 }
    ensures row { IfOk result (λ r. row_of r ≡ without_name name.number (pair_of upper.now lower.now)) }
    ensures within { OnOk result (pair_within name.number (pair_of upper.now lower.now) ≡ true) }
    ensures overflow { IsErrOf result LinError.Overflow → pair_within name.number (pair_of upper.now lower.now) ≡ false }
{
    let above = upper.form.coefficient(name);
    let below = -lower.form.coefficient(name);
    let (upper_factor, lower_factor) = factors(above, below);
    let row = upper.combine(alloc, upper_factor, lower, lower_factor)?;
    row.lowest(alloc)
}

// Adds the rows of the constraint at a place; an equation has a second one, with the other sign.
fn push_rows(
    alloc: Global,
    place: usize,
    constraint: &Constraint,
    rows: &mut Vec<Row>,
) -> Result<(), AllocError>
    ensures { OnOk result (rows_of rows.new.items ≡ rows_of rows.old.items ++ bound_rows place (bound_of constraint.now.bound) (gathered constraint.now.form)) }
{
    match constraint.bound {
        Bound::Equal => {
            let row = Row::of(alloc, place, false, &constraint.form)?;
            let negated = row.negated(alloc)?;
            rows.push(row)?;
            rows.push(negated)?;
        }
        Bound::AtMost => rows.push(Row::of(alloc, place, false, &constraint.form)?)?,
        Bound::Below => rows.push(Row::of(alloc, place, true, &constraint.form)?)?,
    }
    Ok(())
}

// The rows of the constraints, in their order.
pub(crate) fn rows_from(alloc: Global, constraints: &[Constraint]) -> Result<Vec<Row>, AllocError>
    ensures { IfOk result (λ v. rows_of v.items ≡ rows_from 0 (map constraint_of constraints.now)) }
{
    let mut rows = Vec::new(alloc);
    for (place, constraint) in constraints.iter().enumerate() {
        push_rows(alloc, place, constraint, &mut rows)?;
    }
    Ok(rows)
}

// The first row that is false.
pub(crate) fn first_false(rows: &[Row]) -> Option<&Row>
    ensures { option_map row_of (option_copied result) ≡ first_false (rows_of rows.now) }
{
    rows.iter().find(|row| row.is_false())
}
