// Values with an arbitrarily small part.
use crate::fraction::Fraction;
use std::cmp::Ordering;

/// A number and a multiple of an arbitrarily small positive number.
#[derive(Clone, Copy)]
pub struct Value {
    pub number: Fraction,
    pub margin: Fraction,
}

impl Value {
    pub const ZERO: Value = Value {
        number: Fraction::ZERO,
        margin: Fraction::ZERO,
    };

    /// A number alone.
    pub fn plain(number: Fraction) -> Value {
        Value {
            number,
            margin: Fraction::ZERO,
        }
    }

    /// How two values compare.
    #[inline(always)]
    pub fn compare(self, other: Value) -> Ordering {
        self.number
            .compare(other.number)
            .then(self.margin.compare(other.margin))
    }

    /// The sum, where it fits.
    #[inline(always)]
    pub fn plus(self, other: Value) -> Option<Value> {
        Some(Value {
            number: self.number.plus(other.number)?,
            margin: self.margin.plus(other.margin)?,
        })
    }

    /// The difference, where it fits.
    pub fn minus(self, other: Value) -> Option<Value> {
        self.plus(Value {
            number: other.number.turned()?,
            margin: other.margin.turned()?,
        })
    }

    /// The multiple, where it fits.
    #[inline(always)]
    pub fn times(self, factor: Fraction) -> Option<Value> {
        Some(Value {
            number: self.number.times(factor)?,
            margin: if self.margin.is_zero() {
                self.margin
            } else {
                self.margin.times(factor)?
            },
        })
    }
}
