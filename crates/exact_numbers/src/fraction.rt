// Fractions within the limit, calculated by the fraction rule.
ghost use Rattle.std.specs.Prelude.{IsTrue, ◌↔◌, ◌≡◌, ℤ, pos, ◌<ℤ◌, MatchOption, option_map};
ghost use Rattle.exact_numbers.specs.Limit.{InLimit, checked};

use crate::divisors::{gcd, lcm};
use crate::limit::{product, sum};

/// A numerator over a positive denominator, both within the limit.
#[derive(Clone, Copy, Debug, PartialEq, Eq)]
pub struct Fraction {
    pub numerator: i128,
    pub denominator: i128,
    pub ghost positive: { pos 0 <ℤ denominator },
    pub ghost numerator_within: { InLimit numerator },
    pub ghost denominator_within: { InLimit denominator },
}

impl Fraction {
    ghost use Rattle.exact_numbers.specs.Frac.{whole_frac, SameValue, IsLowest, true_product, negated, inverted, lowest, scaled, sum_step, product_step, power_steps};
    ghost use Rattle.exact_numbers.specs.ExactSteps.{PowerPasses, IsExactPower, IsUnit, SumPasses, IsExactSum, ProductPasses, IsExactProduct};
    ghost use Rattle.exact_numbers.specs.Fraction.{frac_of};

    /// The whole number `number`.
    pub fn whole(number: i128) -> Fraction
        requires { InLimit number }
        ensures value { frac_of result ≡ whole_frac number }
        ensures lowest { IsLowest (frac_of result) }
    {
        Fraction {
            numerator: number,
            denominator: 1,
        }
    }

    /// `numerator / denominator` in lowest terms.
    pub fn reduced(numerator: i128, denominator: i128) -> Fraction
        requires numerator_within { InLimit numerator }
        requires positive { pos 0 <ℤ denominator }
        ensures rule { frac_of result ≡ lowest numerator denominator }
        ensures value { SameValue (frac_of result) (record { numerator = numerator; denominator = denominator }) }
        ensures lowest { IsLowest (frac_of result) }
    {
        let divisor = gcd(numerator, denominator);
        Fraction {
            numerator: numerator / divisor,
            denominator: denominator / divisor,
        }
    }

    /// The numerator over a multiple of the denominator, or `None` exactly where it passes the limit.
    pub fn scaled(self, multiple: i128) -> Option<i128>
        requires { pos 0 <ℤ multiple }
        ensures { result ≡ checked (scaled (frac_of self) multiple) }
    {
        product(self.numerator, multiple / self.denominator)
    }

    /// The sum in lowest terms: both fractions are multiplied up to the least common multiple of the denominators,
    /// added, and divided. `None` exactly where one of the numbers formed passes the limit.
    pub fn add(self, other: Fraction) -> Option<Fraction>
        ensures rule { option_map frac_of result ≡ sum_step (frac_of self) (frac_of other) }
        ensures outcome { MatchOption result (SumPasses (frac_of self) (frac_of other)) (λ r. IsExactSum (frac_of self) (frac_of other) (frac_of r)) }
    {
        let multiple = lcm(self.denominator, other.denominator)?;
        let left = self.scaled(multiple)?;
        let right = other.scaled(multiple)?;
        let total = sum(left, right)?;
        Some(Fraction::reduced(total, multiple))
    }

    /// The product in lowest terms: the numerators and the denominators are multiplied, and the two products divided.
    /// `None` exactly where one of the two products passes the limit.
    pub fn multiply(self, other: Fraction) -> Option<Fraction>
        ensures rule { option_map frac_of result ≡ product_step (frac_of self) (frac_of other) }
        ensures outcome { MatchOption result (ProductPasses (frac_of self) (frac_of other)) (λ r. IsExactProduct (frac_of self) (frac_of other) (frac_of r)) }
    {
        let numerator = product(self.numerator, other.numerator)?;
        let denominator = product(self.denominator, other.denominator)?;
        Some(Fraction::reduced(numerator, denominator))
    }

    /// The power in lowest terms, as a repeated product from 1 on; the power 0 is 1, also of 0.
    /// `None` exactly where a product formed passes the limit. It takes at most 128 steps.
    pub fn power(self, exponent: u128) -> Option<Fraction>
        requires { IsLowest (frac_of self) }
        ensures rule { option_map frac_of result ≡ power_steps (frac_of self) exponent }
        ensures outcome { MatchOption result (PowerPasses (frac_of self) exponent) (λ r. IsExactPower (frac_of self) exponent (frac_of r)) }
    {
        self.repeated(if self.is_unit() && 2 < exponent {
            2 - exponent % 2
        } else {
            exponent
        })
    }

    // Whether the fraction is 0, 1 or -1, whose powers from the first on repeat.
    fn is_unit(self) -> bool
        ensures { IsTrue result ↔ IsUnit (frac_of self) }
    {
        self.denominator == 1 && -1 <= self.numerator && self.numerator <= 1
    }

    // The product of so many factors, one after another.
    fn repeated(self, factors: u128) -> Option<Fraction>
        ensures { option_map frac_of result ≡ power_steps (frac_of self) factors }
    {
        let mut power = Fraction::whole(1);
        let mut done = 0;
        while done < factors {
            power = power.multiply(self)?;
            done += 1;
        }
        Some(power)
    }

    /// The fraction with the other sign.
    pub fn negate(self) -> Fraction
        ensures value { frac_of result ≡ negated (frac_of self) }
        ensures lowest { IsLowest (frac_of self) → IsLowest (frac_of result) }
    {
        Fraction {
            numerator: -self.numerator,
            denominator: self.denominator,
        }
    }

    /// One over a fraction that is not 0, with the sign above.
    pub fn invert(self) -> Fraction
        requires { ¬ (self.numerator ≡ pos 0) }
        ensures value { frac_of result ≡ inverted (frac_of self) }
        ensures one { SameValue (true_product (frac_of result) (frac_of self)) (whole_frac (pos 1)) }
        ensures lowest { IsLowest (frac_of self) → IsLowest (frac_of result) }
    {
        if self.numerator < 0 {
            Fraction {
                numerator: -self.denominator,
                denominator: -self.numerator,
            }
        } else {
            Fraction {
                numerator: self.denominator,
                denominator: self.numerator,
            }
        }
    }
}
