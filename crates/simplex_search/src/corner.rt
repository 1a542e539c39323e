// What is seen from the point at which all columns are 0 and all lines are met: rows that the others do not imply.
use crate::numbers::product;
use crate::system::{Row, Sense};
use crate::tableau::{Line, Tableau};
use std::cmp::Ordering;

// A number and a multiple of an arbitrarily small positive number.
#[derive(Clone, Copy)]
struct Amount {
    number: i128,
    margin: i128,
}

impl Amount {
    // How it compares with 0.
    fn order(self) -> Ordering {
        self.number.cmp(&0).then(self.margin.cmp(&0))
    }

    // A multiple, where it fits.
    fn times(self, factor: i128) -> Option<Amount> {
        Some(Amount {
            number: product(self.number, factor)?,
            margin: product(self.margin, factor)?,
        })
    }

    // The sum, where it fits.
    fn and(self, other: Amount) -> Option<Amount> {
        Some(Amount {
            number: self.number.checked_add(other.number)?,
            margin: self.margin.checked_add(other.margin)?,
        })
    }
}

impl Line {
    // The value where all columns are 0.
    fn amount(&self) -> Amount {
        Amount {
            number: self.constant,
            margin: self.margin,
        }
    }

    // Whether the value is as it is to be after such a change.
    fn is_met_after(&self, change: Amount, factor: i128) -> Option<bool> {
        let value = self.amount().times(factor)?.and(change)?;
        Some(!self.label.sense.is_broken_at(value.order()))
    }
}

// Rows, where their negations begin, in the same order, and how far a row may be broken.
#[derive(Clone, Copy)]
pub(crate) struct Negations<'a> {
    pub(crate) rows: &'a [Row],
    pub(crate) first: usize,
    pub(crate) distance: Distance,
}

// How far from the point a row may be broken.
#[derive(Clone, Copy, PartialEq, Eq)]
pub(crate) enum Distance {
    Near,
    Any,
}

impl Negations<'_> {
    // The least value of the row at a place at which its negation is met, if both are inequalities.
    fn least(self, place: usize) -> Option<Amount> {
        let row = self.rows.get(place)?;
        let negation = self.rows.get(self.first.checked_add(place)?)?;
        if row.sense == Sense::Equal
            || negation.sense == Sense::Equal
            || negation.terms.is_empty()
        {
            return None;
        }
        let number = row.constant.checked_add(negation.constant)?;
        if number != 0 && self.distance == Distance::Near {
            return None;
        }
        Some(Amount {
            number,
            margin: row.sense.margin().checked_add(negation.sense.margin())?,
        })
    }
}

impl Tableau {
    // How far from the point at which all columns are 0 a row may be broken: where all constants are 0, rows with a negative constant
    // may have been left out, and those are met near it alone.
    pub(crate) fn distance(&self) -> Distance {
        if self.lines.iter().all(|line| line.constant == 0) {
            Distance::Near
        } else {
            Distance::Any
        }
    }

    // Marks rows that the others do not imply, where all lines are met: a point that meets the others and the negation of one is that
    // at which a column is raised from 0; or, at which it falls until the first line is broken.
    pub(crate) fn mark_needed(&self, negations: Negations<'_>, needed: &mut [bool]) {
        for (column, label) in self.columns.iter().enumerate() {
            if let Some(label) = label
                && label.sense != Sense::Equal
            {
                if self.can_raise(column, label.place, negations) == Some(true) {
                    mark(needed, label.place);
                }
                if let Some(line) = self.first_stop(column)
                    && self.can_break(column, line, negations) == Some(true)
                {
                    mark(needed, line.label.place);
                }
            }
        }
    }

    // Whether all lines are met where the column is so great that the negation of its row is.
    fn can_raise(&self, column: usize, place: usize, negations: Negations<'_>) -> Option<bool> {
        let least = negations.least(place)?;
        for line in &self.lines {
            let change = least.times(line.coefficient(column))?;
            if !line.is_met_after(change, 1)? {
                return Some(false);
            }
        }
        Some(true)
    }

    // The line that comes to 0 first where the column falls; none, where an equation is broken.
    fn first_stop(&self, column: usize) -> Option<&Line> {
        let mut first: Option<&Line> = None;
        for line in &self.lines {
            let coefficient = line.coefficient(column);
            if coefficient != 0 && line.label.sense == Sense::Equal {
                return None;
            }
            if coefficient < 0 && is_sooner(line, first, column)? {
                first = Some(line);
            }
        }
        first
    }

    // Whether the others are met where the column falls until the negation of the line's row is.
    fn can_break(&self, column: usize, line: &Line, negations: Negations<'_>) -> Option<bool> {
        let least = negations.least(line.label.place)?.times(self.denominator)?;
        let fall = line.amount().and(least.times(-1)?)?;
        let factor = line.coefficient(column).checked_neg()?;
        for other in &self.lines {
            let coefficient = other.coefficient(column);
            if coefficient < 0
                && other.label.place != line.label.place
                && !other.is_met_after(fall.times(coefficient)?, factor)?
            {
                return Some(false);
            }
        }
        Some(true)
    }
}

// Whether a line comes to 0 sooner than the other, where the column falls.
fn is_sooner(line: &Line, other: Option<&Line>, column: usize) -> Option<bool> {
    let Some(other) = other else {
        return Some(true);
    };
    let left = line.amount().times(other.coefficient(column))?;
    let right = other.amount().times(line.coefficient(column))?;
    Some(left.and(right.times(-1)?)?.order().is_lt())
}

// Marks a place.
fn mark(marks: &mut [bool], place: usize) {
    if let Some(entry) = marks.get_mut(place) {
        *entry = true;
    }
}
