// The values that a check has found, as a point.
use crate::column::{Column, Side};
use crate::tableau::{Method, Simplex};
use bound_values::{Fraction, Value, gcd, product, quotient};
use std::alloc::AllocError;
use std::cmp::Ordering;

/// A number for each name, over one denominator, which is positive.
#[derive(Debug, Drop)]
pub struct Point {
    pub numerators: Vec<i128>,
    pub denominator: i128,
}

/// A name whose value is not whole, and the greatest whole number below it.
#[derive(Clone, Copy, Debug, PartialEq, Eq)]
pub struct Gap {
    pub name: usize,
    pub below: i128,
}

impl Simplex {
    /// A name whose value is not whole, if there is one.
    pub fn gap(&self) -> Option<Gap> {
        for name in 0..self.names.len() {
            let value = self.named(name)?;
            if !value.number.is_whole() {
                return Some(Gap {
                    name,
                    below: value.number.floor(),
                });
            }
        }
        None
    }

    // The value of a name, 0 where it stands in no row; `None` where a number does not fit.
    fn named(&self, name: usize) -> Option<Value> {
        let column = self
            .name_column(name)
            .and_then(|column| self.columns.get(column));
        match column {
            Some(column) => self.value_of(column),
            None => Some(Value::ZERO),
        }
    }

    // The value of a column; `None` where a number does not fit.
    fn value_of(&self, column: &Column) -> Option<Value> {
        match (self.method, column.ends) {
            (Method::Graph, Some(ends)) => self
                .graph
                .potential(ends.upper)
                .minus(self.graph.potential(ends.lower)),
            _ => Some(column.value),
        }
    }

    /// The values of the names after a check that met the conditions, the arbitrarily small number being so small that the bounds in
    /// force stay met; `None` where a number does not fit.
    pub fn point(&self) -> Result<Option<Point>, AllocError> {
        let Some(small) = self.small() else {
            return Ok(None);
        };
        let mut values = Vec::with_capacity(self.alloc, self.names.len())?;
        for name in 0..self.names.len() {
            let Some(number) = self.named(name).and_then(|value| at(value, small)) else {
                return Ok(None);
            };
            values.push(number)?;
        }
        let Some(denominator) = common_denominator(&values) else {
            return Ok(None);
        };
        let mut numerators = Vec::with_capacity(self.alloc, values.len())?;
        for value in &values {
            let Some(numerator) = scaled(*value, denominator) else {
                return Ok(None);
            };
            numerators.push(numerator)?;
        }
        Ok(Some(Point {
            numerators,
            denominator,
        }))
    }

    // A positive number for the arbitrarily small one at which all bounds stay met.
    fn small(&self) -> Option<Fraction> {
        let mut small = Fraction::whole(1);
        for column in &self.columns {
            let value = self.value_of(column)?;
            for side in [Side::Lower, Side::Upper] {
                if let Some(limit) = column.limit(side) {
                    let (least, most) = match side {
                        Side::Lower => (limit.value, value),
                        Side::Upper => (value, limit.value),
                    };
                    small = kept_in_order(least, most, small)?;
                }
            }
        }
        Some(small)
    }
}

// The number, or a smaller positive one at which the first value, being at most the second, is at most that.
fn kept_in_order(least: Value, most: Value, small: Fraction) -> Option<Fraction> {
    let gap = most.number.plus(least.number.turned()?)?;
    let gain = least.margin.plus(most.margin.turned()?)?;
    if gap.numerator <= 0 || gain.numerator <= 0 {
        return Some(small);
    }
    let edge = gap.over(gain)?;
    if edge.compare(small) == Ordering::Less {
        Some(edge)
    } else {
        Some(small)
    }
}

// The number that a value is for a number in place of the arbitrarily small one.
fn at(value: Value, small: Fraction) -> Option<Fraction> {
    value.number.plus(value.margin.times(small)?)
}

// The least common multiple of the denominators.
fn common_denominator(values: &[Fraction]) -> Option<i128> {
    let mut common = 1;
    for value in values {
        let rest = quotient(value.denominator, gcd(value.denominator, common))?;
        common = product(common, rest)?;
    }
    Some(common)
}

// The numerator over a multiple of the denominator.
fn scaled(value: Fraction, denominator: i128) -> Option<i128> {
    product(value.numerator, quotient(denominator, value.denominator)?)
}
