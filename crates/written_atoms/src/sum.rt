ghost use Rattle.std.specs.Prelude.{ℕ, ◌≡◌, pos, ◌+ℤ◌, ◌*ℤ◌, ◌<ℤ◌, IsTrue};
ghost use Rattle.exact_numbers.specs.Limit.{InLimit};
ghost use Rattle.logic_meaning.specs.Combining.{AddWithin};
ghost use Rattle.written_atoms.specs.Entries.{coefficient_at};

use crate::rational::Rational;
use exact_numbers::{lcm, product, sum};
use linear_forms::Linear;
use logic_meaning::VarId;
use std::alloc::{AllocError, Global};
use std::collections::BTreeMap;

/// A sum of forms over the integers, with its coefficients by name. A form is added in the time that its own names take.
#[derive(Drop)]
pub struct WholeSum {
    coefficients: BTreeMap<usize, i128>,
    constant: i128,
    ghost coefficients_within: { (x : ℕ) → InLimit (coefficient_at coefficients.entries x) },
    ghost constant_within: { InLimit constant },
}

// Whether the number and the product, and their sum, are within the limit.
fn may_be_added(number: i128, factor: i128, times: i128) -> bool
    requires { InLimit number }
    ensures { IsTrue result → AddWithin number (factor *ℤ times) }
{
    match product(factor, times) {
        Some(more) => sum(number, more).is_some(),
        None => false,
    }
}

// The number and the product.
fn with_product(number: i128, factor: i128, times: i128) -> i128
    requires { AddWithin number (factor *ℤ times) }
    ensures value { result ≡ number +ℤ factor *ℤ times }
    ensures within { InLimit result }
{
    number + factor * times
}

impl WholeSum {
    ghost use Rattle.std.specs.Prelude.{[], nat_eq, if◌then◌else◌, IfOk, OnOk};
    ghost use Rattle.std.specs.Option.{ForSome};
    ghost use Rattle.linear_forms.specs.Combinations.{IsLinear};
    ghost use Rattle.written_atoms.specs.Sum.{IsSumOf, AddsWithin, IsAdded, IsMultiple};

    /// The constant alone.
    pub fn of(alloc: Global, constant: i128) -> WholeSum
        requires { InLimit constant }
        ensures { IsSumOf result (record { terms = []; constant = constant }) }
    {
        WholeSum {
            coefficients: BTreeMap::new(alloc),
            constant,
        }
    }

    // The coefficient of a name, 0 where it has none.
    fn coefficient(&self, name: VarId) -> i128
        ensures value { result ≡ coefficient_at self.now.coefficients.entries name.number }
        ensures within { InLimit result }
    {
        match self.coefficients.get(&name.number) {
            Some(coefficient) => *coefficient,
            None => 0,
        }
    }

    /// Gives a name another coefficient. Its only error is want of memory, after which the coefficients are as before.
    pub fn put(&mut self, name: VarId, coefficient: i128) -> Result<(), AllocError>
        requires { InLimit coefficient }
        ensures put { OnOk result ((x : ℕ) → coefficient_at self.new.coefficients.entries x ≡ (if nat_eq name.number x then coefficient else coefficient_at self.old.coefficients.entries x)) }
        ensures constant { self.new.constant ≡ self.old.constant }
    {
        match self.coefficients.insert(name.number, coefficient) {
            Ok(_) => Ok(()),
            Err(_) => Err(AllocError),
        }
    }

    // Whether a multiple of a form may be added: no number of it and no sum passes the limit.
    fn may_take(&self, form: &Linear, factor: i128) -> bool
        ensures within { IsTrue result → AddsWithin self.now factor form.now }
        ensures linear { IsLinear form.now }
    {
        if !may_be_added(self.constant, factor, form.constant_part()) {
            return false;
        }
        for place in 0..usize::MAX {
            let Some((name, times)) = form.term(place) else {
                return true;
            };
            if !may_be_added(self.coefficient(name), factor, times) {
                return false;
            }
        }
        // No form has so many names.
        false
    }

    // Adds a multiple of a form. Where it fails for want of memory the sum is of no use any more.
    fn add(&mut self, form: &Linear, factor: i128) -> Result<(), AllocError>
        requires { AddsWithin self.old factor form.now }
        ensures { OnOk result (IsAdded self.old factor form.now self.new) }
    {
        let constant = with_product(self.constant, factor, form.constant_part());
        for place in 0..usize::MAX {
            let Some((name, times)) = form.term(place) else {
                self.constant = constant;
                return Ok(());
            };
            let coefficient = with_product(self.coefficient(name), factor, times);
            self.put(name, coefficient)?;
        }
        // No form has so many names.
        Err(AllocError)
    }

    // A form by name.
    fn of_form(alloc: Global, form: &Linear) -> Result<WholeSum, AllocError>
        requires { IsLinear form.now }
        ensures { IfOk result (λ s. IsSumOf s form.now) }
    {
        let mut sum = WholeSum::of(alloc, 0);
        sum.add(form, 1)?;
        Ok(sum)
    }

    // The multiple of the sum, if no number of it passes the limit.
    fn multiple(&self, alloc: Global, factor: i128) -> Result<Option<WholeSum>, AllocError>
        ensures { IfOk result (λ o. ForSome o (IsMultiple factor self.now)) }
    {
        let form = self.form(alloc)?;
        let mut multiple = WholeSum::of(alloc, 0);
        if !multiple.may_take(&form, factor) {
            return Ok(None);
        }
        multiple.add(&form, factor)?;
        Ok(Some(multiple))
    }

    // The sum as a form.
    fn form(&self, alloc: Global) -> Result<Linear, AllocError>
        ensures { IfOk result (λ f. IsSumOf self.now f × IsLinear f) }
    {
        let mut terms = Vec::new(alloc);
        for (name, times) in self.coefficients.iter() {
            if *times != 0 {
                terms.push((VarId { number: *name }, *times))?;
            }
        }
        Ok(Linear::of(terms, self.constant))
    }

    /// The sum as a form. Its only error is want of memory.
    pub fn into_form(self, alloc: Global) -> Result<Linear, AllocError>
        ensures { IfOk result (λ f. IsSumOf self f × IsLinear f) }
    {
        self.form(alloc)
    }
}

/// A sum of forms by name over one denominator: a multiple of the form that the fraction rule has, which is the sum in
/// lowest terms. So a part is added in the time that its own names take, as long as no number of the multiple passes the limit.
#[derive(Drop)]
pub(crate) struct SharedSum {
    numerators: WholeSum,
    denominator: i128,
    ghost positive: { pos 0 <ℤ denominator },
    ghost within: { InLimit denominator },
}

impl SharedSum {
    ghost use Rattle.std.specs.Prelude.{Some, IfOk, MatchBool};
    ghost use Rattle.exact_numbers.specs.Divides.{Divides};
    ghost use Rattle.linear_forms.specs.Combinations.{IsLinear};
    ghost use Rattle.language_meaning.specs.RationalForms.{RationalForm};
    ghost use Rattle.resolved_formulas.specs.LowestForms.{IsLowestForm};
    ghost use Rattle.written_atoms.specs.Rational.{rational_of};
    ghost use Rattle.written_atoms.specs.Sum.{IsMultipleOf, StaysMultiple, IsSummed};
    ghost use Rattle.written_atoms.specs.declared.sum.RunningSum.TheVariants.{Known};

    // A form in lowest terms by name.
    fn of(alloc: Global, form: &Rational) -> Result<SharedSum, AllocError>
        requires linear { IsLinear form.now.form }
        requires lowest { IsLowestForm (rational_of form.now) }
        ensures { IfOk result (λ s. IsMultipleOf (rational_of form.now) s) }
    {
        Ok(SharedSum {
            numerators: WholeSum::of_form(alloc, &form.form)?,
            denominator: form.denominator,
        })
    }

    // The form of the fraction rule.
    fn into_form(self, alloc: Global) -> Result<Rational, AllocError>
        ensures { IfOk result (λ r. (v : RationalForm) → IsMultipleOf v self → rational_of r ≡ v) }
    {
        Rational::lowest(alloc, self.numerators.into_form(alloc)?, self.denominator)
    }

    // Multiplies the sum up to a denominator, if no number passes the limit; else nothing changes.
    fn grow(&mut self, alloc: Global, denominator: i128) -> Result<bool, AllocError>
        requires positive { pos 0 <ℤ denominator }
        requires within { InLimit denominator }
        requires multiple { Divides self.old.denominator denominator }
        ensures { IfOk result (λ b. StaysMultiple self.old self.new × (IsTrue b → self.new.denominator ≡ denominator)) }
    {
        if self.denominator == denominator {
            return Ok(true);
        }
        let factor = Rational::quotient(denominator, self.denominator);
        let Some(numerators) = self.numerators.multiple(alloc, factor)? else {
            return Ok(false);
        };
        self.numerators = numerators;
        self.denominator = denominator;
        Ok(true)
    }

    // Adds a part where no number of the multiple passes the limit; else the sum stays what it was.
    fn add(&mut self, alloc: Global, part: &Rational) -> Result<bool, AllocError>
        ensures { IfOk result (λ b. MatchBool b (IsSummed (Known self.old) (Some part.now) (Known self.new)) (StaysMultiple self.old self.new)) }
    {
        let Some(multiple) = lcm(self.denominator, part.denominator) else {
            return Ok(false);
        };
        if !self.grow(alloc, multiple)? {
            return Ok(false);
        }
        let factor = Rational::quotient(multiple, part.denominator);
        if !self.numerators.may_take(&part.form, factor) {
            return Ok(false);
        }
        self.numerators.add(&part.form, factor)?;
        Ok(true)
    }

    // The sum with one part more: by name, or else by the step of the rule.
    fn plus(mut self, alloc: Global, part: &Rational) -> Result<RunningSum, AllocError>
        ensures { IfOk result (IsSummed (Known self) (Some part.now)) }
    {
        if self.add(alloc, part)? {
            return Ok(RunningSum::Known(self));
        }
        match self.into_form(alloc)?.plus(alloc, part)? {
            Some(total) => Ok(RunningSum::Known(SharedSum::of(alloc, &total)?)),
            None => Ok(RunningSum::Missing),
        }
    }
}

/// The sum of the members so far, by name, if the fraction rule gives one.
#[derive(Drop)]
pub(crate) enum RunningSum {
    Known(SharedSum),
    Missing,
}

impl RunningSum {
    ghost use Rattle.std.specs.Prelude.{Result, Ok, IfOk};
    ghost use Rattle.exact_numbers.specs.Frac.{whole_frac};
    ghost use Rattle.language_meaning.specs.RationalForms.{RationalForm, Missing, constant_form};
    ghost use Rattle.written_atoms.specs.Rational.{Shows};
    ghost use Rattle.written_atoms.specs.Sum.{ShowsSum, IsSummed};

    /// The sum of nothing.
    pub(crate) fn new(alloc: Global) -> RunningSum
        ensures { ShowsSum result (Ok (constant_form (whole_frac (pos 0)))) }
    {
        RunningSum::Known(SharedSum {
            numerators: WholeSum::of(alloc, 0),
            denominator: 1,
        })
    }

    /// The sum with one part more, as the fraction rule has it.
    pub(crate) fn plus(
        self,
        alloc: Global,
        part: &Option<Rational>,
    ) -> Result<RunningSum, AllocError>
        ensures { IfOk result (IsSummed self part.now) }
    {
        match (self, part) {
            (RunningSum::Known(total), Some(part)) => total.plus(alloc, part),
            _ => Ok(RunningSum::Missing),
        }
    }

    /// The sum as a form, if that is there.
    pub(crate) fn into_form(self, alloc: Global) -> Result<Option<Rational>, AllocError>
        ensures { IfOk result (λ o. (p : Result RationalForm Missing) → ShowsSum self p → Shows o p) }
    {
        match self {
            RunningSum::Known(total) => Ok(Some(total.into_form(alloc)?)),
            RunningSum::Missing => Ok(None),
        }
    }
}
