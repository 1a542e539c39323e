ghost use Rattle.std.specs.Prelude.{◌≡◌, pos, ◌<ℤ◌};
ghost use Rattle.exact_numbers.specs.Limit.{InLimit};

use exact_numbers::{Fraction, gcd, lcm, product};
use language_meaning::Literal;
use linear_forms::{LinError, Linear};
use logic_meaning::VarId;
use normal_atoms::Context;
use std::alloc::{AllocError, Global};

/// A linear form over a positive denominator.
#[derive(Drop)]
pub(crate) struct Rational {
    pub(crate) form: Linear,
    pub(crate) denominator: i128,
    pub(crate) ghost positive: { pos 0 <ℤ denominator },
    pub(crate) ghost within: { InLimit denominator },
    pub(crate) ghost constant_within: { InLimit form.constant },
}

// Each step of the fraction rule is `None` exactly where the rule gives no form, and its only error is want of memory.
impl Rational {
    ghost use Rattle.std.specs.Prelude.{◌∷◌, int_div, IfOk, option_map};
    ghost use Rattle.std.specs.Option.{ForSome};
    ghost use Rattle.exact_numbers.specs.Divides.{Divides, content_of};
    ghost use Rattle.exact_numbers.specs.Division.{DividesAll};
    ghost use Rattle.exact_numbers.specs.Fraction.{frac_of};
    ghost use Rattle.linear_forms.specs.Combinations.{IsLinear};
    ghost use Rattle.written_syntax.specs.Proper.{IsNumeral};
    ghost use Rattle.normal_atoms.specs.Atoms.{context_of};
    ghost use Rattle.language_meaning.specs.RationalForms.{numbers_of, is_constant, constant_form, constant_of, variable_form, lowest_form, sum_of_forms, multiple_of_form, product_of_forms, quotient_of_forms, power_of_form, opposite_form};
    ghost use Rattle.resolved_formulas.specs.LowestForms.{IsLowestForm};
    ghost use Rattle.written_atoms.specs.Rational.{rational_of, there, is_divisor};

    /// The fraction as a form.
    pub(crate) fn constant(alloc: Global, value: Fraction) -> Rational
        ensures { rational_of result ≡ constant_form (frac_of value) }
    {
        Rational {
            form: Linear::constant(alloc, value.numerator),
            denominator: value.denominator,
        }
    }

    /// The name as a form.
    pub(crate) fn variable(alloc: Global, name: VarId) -> Result<Rational, AllocError>
        ensures { IfOk result (λ r. rational_of r ≡ variable_form name.number) }
    {
        match Linear::variable(alloc, name) {
            Ok(form) => Ok(Rational {
                form,
                denominator: 1,
            }),
            Err(_) => Err(AllocError),
        }
    }

    /// The same form once more.
    pub(crate) fn copy(&self, alloc: Global) -> Result<Rational, AllocError>
        ensures { IfOk result (λ r. rational_of r ≡ rational_of self.now) }
    {
        Ok(Rational {
            form: self.form.copy(alloc)?,
            denominator: self.denominator,
        })
    }

    /// Whether no name stands in the form.
    pub(crate) fn is_constant(&self) -> bool
        ensures { result ≡ is_constant (rational_of self.now) }
    {
        self.form.term(0).is_none()
    }

    /// The constant over the denominator, which is the value of a constant form.
    pub(crate) fn constant_part(&self) -> Fraction
        ensures { frac_of result ≡ constant_of (rational_of self.now) }
    {
        Fraction {
            numerator: self.form.constant_part(),
            denominator: self.denominator,
        }
    }

    // The greatest common divisor of a denominator and all numbers of a form.
    fn common_divisor(form: &Linear, denominator: i128) -> i128
        requires positive { pos 0 <ℤ denominator }
        requires within { InLimit denominator }
        ensures value { result ≡ content_of (denominator ∷ numbers_of form.now) }
        ensures positive { pos 0 <ℤ result }
        ensures denominator { Divides result denominator }
        ensures numbers { DividesAll result (numbers_of form.now) }
        ensures within { InLimit result }
        ensures linear { IsLinear form.now }
    {
        gcd(denominator, gcd(form.constant_part(), form.content()))
    }

    /// The quotient of a number by a positive one.
    pub(crate) fn quotient(number: i128, divisor: i128) -> i128
        requires positive { pos 0 <ℤ divisor }
        requires within { InLimit number }
        ensures value { result ≡ int_div number divisor }
        ensures within { InLimit result }
    {
        number / divisor
    }

    /// The form over the denominator, all numbers divided by their greatest common divisor.
    pub(crate) fn lowest(
        alloc: Global,
        form: Linear,
        denominator: i128,
    ) -> Result<Rational, AllocError>
        requires positive { pos 0 <ℤ denominator }
        requires within { InLimit denominator }
        ensures rule { IfOk result (λ r. rational_of r ≡ lowest_form form denominator) }
        ensures linear { IfOk result (λ r. IsLinear r.form) }
    {
        let divisor = Rational::common_divisor(&form, denominator);
        if divisor == 1 {
            return Ok(Rational { form, denominator });
        }
        match form.divide_exact(alloc, divisor) {
            Ok(form) => Ok(Rational {
                form,
                denominator: Rational::quotient(denominator, divisor),
            }),
            Err(_) => Err(AllocError),
        }
    }

    /// The sum of two forms.
    pub(crate) fn plus(
        &self,
        alloc: Global,
        other: &Rational,
    ) -> Result<Option<Rational>, AllocError>
        ensures rule { IfOk result (λ r. option_map rational_of r ≡ there (sum_of_forms (rational_of self.now) (rational_of other.now))) }
        ensures linear { IfOk result (λ r. ForSome r (λ v. IsLinear v.form)) }
    {
        let _numbers = (self.form.constant_part(), other.form.constant_part());
        let Some(multiple) = lcm(self.denominator, other.denominator) else {
            return Ok(None);
        };
        let left = Rational::quotient(multiple, self.denominator);
        let right = Rational::quotient(multiple, other.denominator);
        match self.form.combine(alloc, left, &other.form, right) {
            Ok(form) => Ok(Some(Rational::lowest(alloc, form, multiple)?)),
            Err(LinError::Overflow) => Ok(None),
            Err(LinError::Memory) => Err(AllocError),
        }
    }

    // The product with a number.
    fn multiple(&self, alloc: Global, number: Fraction) -> Result<Option<Rational>, AllocError>
        ensures { IfOk result (λ r. option_map rational_of r ≡ there (multiple_of_form (rational_of self.now) (frac_of number))) }
    {
        let Some(denominator) = product(self.denominator, number.denominator) else {
            return Ok(None);
        };
        let nothing = Linear::constant(alloc, 0);
        match self.form.combine(alloc, number.numerator, &nothing, 0) {
            Ok(form) => Ok(Some(Rational::lowest(alloc, form, denominator)?)),
            Err(LinError::Overflow) => Ok(None),
            Err(LinError::Memory) => Err(AllocError),
        }
    }

    /// The product of two forms, of which one is constant.
    pub(crate) fn times(
        &self,
        alloc: Global,
        other: &Rational,
    ) -> Result<Option<Rational>, AllocError>
        ensures { IfOk result (λ r. option_map rational_of r ≡ there (product_of_forms (rational_of self.now) (rational_of other.now))) }
    {
        if other.is_constant() {
            self.multiple(alloc, other.constant_part())
        } else if self.is_constant() {
            other.multiple(alloc, self.constant_part())
        } else {
            Ok(None)
        }
    }

    /// Whether the form is a constant other than 0.
    pub(crate) fn is_divisor(&self) -> bool
        ensures { result ≡ is_divisor (rational_of self.now) }
    {
        self.is_constant() && self.form.constant_part() != 0
    }

    /// The quotient by a constant other than 0, over the fields alone.
    pub(crate) fn over(
        &self,
        alloc: Global,
        context: Context,
        divisor: &Rational,
    ) -> Result<Option<Rational>, AllocError>
        ensures { IfOk result (λ r. option_map rational_of r ≡ there (quotient_of_forms (context_of context) (rational_of self.now) (rational_of divisor.now))) }
    {
        match context {
            Context::Integers => Ok(None),
            Context::Fields => {
                if divisor.is_divisor() {
                    self.multiple(alloc, divisor.constant_part().invert())
                } else {
                    Ok(None)
                }
            }
        }
    }

    /// The power: of a constant the repeated product, of another form the powers 0 and 1.
    pub(crate) fn power(self, alloc: Global, exponent: Literal) -> Option<Rational>
        requires lowest { IsLowestForm (rational_of self) }
        requires numeral { IsNumeral exponent }
        ensures { option_map rational_of result ≡ there (power_of_form (rational_of self) exponent) }
    {
        let Literal::Fits(exponent) = exponent else {
            return None;
        };
        if self.is_constant() {
            let power = self.constant_part().power(exponent as u128)?;
            return Some(Rational::constant(alloc, power));
        }
        if exponent == 0 {
            Some(Rational::constant(alloc, Fraction::whole(1)))
        } else if exponent == 1 {
            Some(self)
        } else {
            None
        }
    }

    /// The form without its denominator.
    pub(crate) fn into_form(self) -> Linear
        ensures { result ≡ self.form }
    {
        let Rational {
            form,
            denominator: _,
        } = self;
        form
    }

    /// The form with the other sign.
    pub(crate) fn opposite(&self, alloc: Global) -> Result<Rational, AllocError>
        ensures { IfOk result (λ r. rational_of r ≡ opposite_form (rational_of self.now)) }
    {
        match self.form.divide_exact(alloc, -1) {
            Ok(form) => Ok(Rational {
                form,
                denominator: self.denominator,
            }),
            Err(_) => Err(AllocError),
        }
    }
}
