// Fractions in lowest terms.
use crate::numbers::{combination, gcd, product, quotient};
use std::cmp::Ordering;

/// A numerator over a positive denominator.
#[derive(Clone, Copy)]
pub struct Fraction {
    pub numerator: i128,
    pub denominator: i128,
}

impl Fraction {
    pub const ZERO: Fraction = Fraction {
        numerator: 0,
        denominator: 1,
    };

    /// A whole number.
    pub fn whole(number: i128) -> Fraction {
        Fraction {
            numerator: number,
            denominator: 1,
        }
    }

    /// The fraction in lowest terms; `None` where the denominator is 0 or a number does not fit.
    pub fn reduced(numerator: i128, denominator: i128) -> Option<Fraction> {
        if denominator == 1 {
            return Some(Fraction::whole(numerator));
        }
        let common = gcd(numerator, denominator);
        let divisor = if denominator < 0 {
            common.checked_neg()?
        } else {
            common
        };
        Some(Fraction {
            numerator: quotient(numerator, divisor)?,
            denominator: quotient(denominator, divisor)?,
        })
    }

    /// Whether it is a whole number.
    pub fn is_whole(self) -> bool {
        self.denominator == 1
    }

    /// Whether it is 0.
    pub fn is_zero(self) -> bool {
        self.numerator == 0
    }

    /// The sum, where it fits.
    #[inline(always)]
    pub fn plus(self, other: Fraction) -> Option<Fraction> {
        if self.denominator == 1 && other.denominator == 1 {
            return Some(Fraction::whole(self.numerator.checked_add(other.numerator)?));
        }
        self.wide_plus(other)
    }

    // The sum of fractions that are not both whole.
    fn wide_plus(self, other: Fraction) -> Option<Fraction> {
        let common = gcd(self.denominator, other.denominator);
        let own = quotient(other.denominator, common)?;
        let others = quotient(self.denominator, common)?;
        let numerator = combination(self.numerator, own, other.numerator, others)?;
        Fraction::reduced(numerator, product(self.denominator, own)?)
    }

    /// The fraction with the other sign, where it fits.
    pub fn turned(self) -> Option<Fraction> {
        Some(Fraction {
            numerator: self.numerator.checked_neg()?,
            denominator: self.denominator,
        })
    }

    /// The product, where it fits.
    #[inline(always)]
    pub fn times(self, other: Fraction) -> Option<Fraction> {
        if self.denominator == 1 && other.denominator == 1 {
            return Some(Fraction::whole(product(self.numerator, other.numerator)?));
        }
        self.wide_times(other)
    }

    // The product of fractions that are not both whole.
    fn wide_times(self, other: Fraction) -> Option<Fraction> {
        let one = Fraction::reduced(self.numerator, other.denominator)?;
        let two = Fraction::reduced(other.numerator, self.denominator)?;
        Some(Fraction {
            numerator: product(one.numerator, two.numerator)?,
            denominator: product(one.denominator, two.denominator)?,
        })
    }

    /// The quotient by a fraction, where that is not 0 and it fits.
    pub fn over(self, other: Fraction) -> Option<Fraction> {
        self.times(Fraction::reduced(other.denominator, other.numerator)?)
    }

    /// How two fractions compare.
    #[inline(always)]
    pub fn compare(self, other: Fraction) -> Ordering {
        if self.denominator == other.denominator {
            return self.numerator.cmp(&other.numerator);
        }
        self.wide_compare(other)
    }

    // How fractions with different denominators compare.
    fn wide_compare(self, other: Fraction) -> Ordering {
        match (
            product(self.numerator, other.denominator),
            product(other.numerator, self.denominator),
        ) {
            (Some(left), Some(right)) => left.cmp(&right),
            _ => self.compare_by_parts(other),
        }
    }

    // How fractions compare whose products do not fit: by their whole parts, and then by one over what is left, in turn.
    fn compare_by_parts(self, other: Fraction) -> Ordering {
        let mut left = self;
        let mut right = other;
        for _ in 0..256 {
            let (one, two) = (left.floor(), right.floor());
            let (Some(first), Some(second)) = (left.rest(), right.rest()) else {
                return one.cmp(&two);
            };
            if one != two || first == 0 || second == 0 {
                return one.cmp(&two).then(first.cmp(&second));
            }
            let inverse = Fraction {
                numerator: left.denominator,
                denominator: first,
            };
            left = Fraction {
                numerator: right.denominator,
                denominator: second,
            };
            right = inverse;
        }
        Ordering::Equal
    }

    /// The greatest whole number that is at most the fraction.
    pub fn floor(self) -> i128 {
        if self.denominator == 1 {
            return self.numerator;
        }
        self.numerator
            .checked_div_euclid(self.denominator)
            .unwrap_or(self.numerator)
    }

    // What the numerator leaves when it is divided by the denominator.
    fn rest(self) -> Option<i128> {
        self.numerator.checked_rem_euclid(self.denominator)
    }
}
