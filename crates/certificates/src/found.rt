// The values of names, found one after the other.
ghost use Rattle.std.specs.Prelude.{◌≡◌, [], ◌∷◌, pos, map, option_map, All, IfOk, IfErr};
ghost use Rattle.exact_numbers.specs.Frac.{whole_frac};
ghost use Rattle.exact_numbers.specs.Fraction.{frac_of};
ghost use Rattle.exact_numbers.specs.Limit.{InLimit};
ghost use Rattle.logic_meaning.specs.Form.{coefficient, without};
ghost use Rattle.logic_meaning.specs.Some.{EachOf};
ghost use Rattle.logic_meaning.specs.Bounds.{value_among, terms_at, bound_of, bounds_of};
ghost use Rattle.certificates.specs.Rows.{rows_of, kept_of, all_kept};
ghost use Rattle.certificates.specs.Search.{AreBounds, plus_term, kept_value, ascent};
ghost use Rattle.certificates.specs.Certificates.{value_of, IsWithin};
ghost use Rattle.certificates.specs.Found.{Lacks};

use crate::numbers::{between, greatest, least};
use crate::rows::Row;
use crate::steps::Step;
use exact_numbers::Fraction;
use linear_forms::{LinError, Linear};
use logic_meaning::VarId;
use std::alloc::{AllocError, Global};
use std::collections::BTreeMap;
use std::marker::Model;

// The values of names; that of the name that was found last is the first.
#[derive(Drop)]
pub(crate) struct Found {
    list: Vec<(VarId, Fraction)>,
    values: BTreeMap<usize, Fraction>,
}

impl Model for Found {
    ghost use Rattle.certificates.specs.Found.{ValueList, found_of, IsIndex};

    ghost Value = { ValueList };

    ghost view = { λ f. found_of f.list.items };

    ghost invariant = { λ f. IsIndex f.list.items f.values.entries };
}

impl Found {
    // No values.
    fn new(alloc: Global) -> Found
        ensures { result ≡ [] }
    {
        Found {
            list: Vec::new(alloc),
            values: BTreeMap::new(alloc),
        }
    }

    // The values with that of a name before the others.
    fn with(self, name: VarId, value: Fraction) -> Result<Found, AllocError>
        ensures { IfOk result (λ f. f ≡ record { name = name.number; at = frac_of value } ∷ self) }
    {
        let Found {
            mut list,
            mut values,
        } = self;
        values.insert(name.number, value)?;
        list.push((name, value))?;
        Ok(Found { list, values })
    }

    // The value of a name, 0 where it has none.
    fn value(&self, name: VarId) -> Fraction
        ensures { frac_of result ≡ value_among self.now name.number }
    {
        match self.values.get(&name.number) {
            Some(value) => *value,
            None => Fraction::whole(0),
        }
    }

    // The sum with a term at its value, unless it is a term of `name`. `None` exactly where a number that is formed passes
    // 2^127 - 1.
    fn plus_term(&self, sum: Fraction, name: VarId, other: VarId, times: i128) -> Option<Fraction>
        requires { InLimit times }
        ensures { option_map frac_of result ≡ plus_term name.number self.now (frac_of sum) (record { times = times; name = other.number }) }
    {
        if name == other {
            Some(sum)
        } else {
            sum.add(Fraction::whole(times).multiply(self.value(other))?)
        }
    }

    // The sum of the terms of the other names, in rising order of the names. `None` exactly where a number that is formed passes
    // 2^127 - 1.
    fn sum_without(&self, name: VarId, form: &Linear) -> Option<Fraction>
        ensures { option_map frac_of result ≡ terms_at self.now (whole_frac (pos 0)) (without name.number form.now).terms }
    {
        let mut sum = Fraction::whole(0);
        for place in 0..form.places() {
            if let Some((other, times)) = form.term(place) {
                sum = self.plus_term(sum, name, other, times)?;
            }
        }
        Some(sum)
    }

    // The number of a name at which the form is 0, by the fraction rule. `None` exactly where a number that is formed passes
    // 2^127 - 1.
    fn bound(&self, name: VarId, form: &Linear) -> Option<Fraction>
        requires { ¬ (coefficient name.number form.now ≡ pos 0) }
        ensures { option_map frac_of result ≡ bound_of name.number self.now form.now }
    {
        let terms = self.sum_without(name, form)?;
        let sum = terms.add(Fraction::whole(form.constant_part()))?;
        sum.multiply(Fraction::whole(-form.coefficient(name)).invert())
    }

    // The bounds that rows give a name. `Overflow` comes exactly where a number that is formed passes 2^127 - 1, else `Memory`.
    fn bounds(&self, alloc: Global, name: VarId, rows: &[Row]) -> Result<Vec<Fraction>, LinError>
        requires { EachOf (λ r. ¬ (coefficient name.number r.form ≡ pos 0)) (rows_of rows.now) }
        ensures bounds { IfOk result (λ v. bounds_of name.number self.now (rows_of rows.now) ≡ Some (map frac_of v.items)) }
        ensures stops { IfErr result (λ e. Lacks e (bounds_of name.number self.now (rows_of rows.now))) }
    {
        let mut bounds = Vec::with_capacity(alloc, rows.len())?;
        for row in rows {
            let bound = self.bound(name, &row.form).ok_or(LinError::Overflow)?;
            bounds.push(bound).map_err(|_| LinError::Memory)?;
        }
        Ok(bounds)
    }

    // The value of the name of a step between its bounds. `Overflow` comes exactly where a number that is formed passes
    // 2^127 - 1, else `Memory`.
    fn step_value(&self, alloc: Global, step: &Step) -> Result<Fraction, LinError>
        requires { AreBounds (kept_of step.now) }
        ensures value { IfOk result (λ v. kept_value (kept_of step.now) self.now ≡ Some (frac_of v)) }
        ensures stops { IfErr result (λ e. Lacks e (kept_value (kept_of step.now) self.now)) }
    {
        let lowers = self.bounds(alloc, step.name, &step.lowers)?;
        let uppers = self.bounds(alloc, step.name, &step.uppers)?;
        between(greatest(&lowers), least(&uppers)).ok_or(LinError::Overflow)
    }

    // The values of the names of the steps, that of the last step found first. `Overflow` comes exactly where a number that is
    // formed passes 2^127 - 1, else `Memory`.
    pub(crate) fn ascend(alloc: Global, mut steps: Vec<Step>) -> Result<Found, LinError>
        requires { EachOf AreBounds (all_kept steps.items) }
        ensures values { IfOk result (λ f. ascent (all_kept steps.items) (Some []) ≡ Some f) }
        ensures stops { IfErr result (λ e. Lacks e (ascent (all_kept steps.items) (Some []))) }
    {
        let mut found = Found::new(alloc);
        while let Some(step) = steps.pop() {
            let value = found.step_value(alloc, &step)?;
            found = found.with(step.name, value)?;
        }
        Ok(found)
    }

    // The names with their values, as numerators over positive denominators.
    pub(crate) fn into_point(self, alloc: Global) -> Result<Vec<(VarId, i128, i128)>, AllocError>
        ensures values { IfOk result (λ v. map value_of v.items ≡ self) }
        ensures within { IfOk result (λ v. All IsWithin v.items) }
    {
        let Found { list, values: _ } = self;
        list.iter()
            .rev()
            .map(|(name, value)| (*name, value.numerator, value.denominator))
            .collect(alloc)
    }
}
