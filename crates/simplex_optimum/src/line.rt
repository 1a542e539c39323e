// A line of a tableau.
use crate::numbers::{combination, gcd, product};
use crate::system::{Row, Sense};
use std::alloc::{AllocError, Global};
use std::cmp::Ordering;

// What stands at a line or a column: a name, or the value of a row of the system, which is to be as its sense says.
#[derive(Clone, Copy)]
pub(crate) enum Label {
    Name(usize),
    Row(usize, Sense),
}

impl Label {
    // The place of the row among all, and 0 for a name.
    pub(crate) fn place(self) -> usize {
        match self {
            Label::Name(_) => 0,
            Label::Row(place, _) => place,
        }
    }

    // Whether a value that compares with 0 like this is not as it is to be.
    pub(crate) fn is_broken_at(self, excess: Ordering) -> bool {
        match self {
            Label::Name(_) => false,
            Label::Row(_, Sense::Equal) => excess.is_ne(),
            Label::Row(_, Sense::AtMost) => excess.is_gt(),
        }
    }

    // Whether a multiple of what stands here by this coefficient can take such an excess away: a name has any value, the value of an
    // inequality can fall below 0, and that of an equation stays 0.
    pub(crate) fn can_take(self, coefficient: i128, excess: Ordering) -> bool {
        match self {
            Label::Name(_) => coefficient != 0,
            Label::Row(_, Sense::Equal) => false,
            Label::Row(_, Sense::AtMost) => coefficient.cmp(&0) == excess,
        }
    }
}

// A value as a sum of multiples of the columns and a constant, all over a positive denominator; no number above 1 divides all.
#[derive(Drop)]
pub(crate) struct Line {
    pub(crate) label: Label,
    pub(crate) denominator: i128,
    pub(crate) coefficients: Vec<i128>,
    pub(crate) constant: i128,
}

impl Line {
    // The row at a place of the system, over columns of so many names.
    pub(crate) fn of(
        alloc: Global,
        place: usize,
        row: &Row,
        names: usize,
    ) -> Result<Line, AllocError> {
        let mut line = Line {
            label: Label::Row(place, row.sense),
            denominator: 1,
            coefficients: vec![in alloc; 0; names]?,
            constant: row.constant,
        };
        for (name, coefficient) in &row.terms {
            line.set(*name, *coefficient);
        }
        Ok(line)
    }

    // How the value compares with 0 where all columns are 0.
    pub(crate) fn excess(&self) -> Ordering {
        self.constant.cmp(&0)
    }

    // Whether the value is not as it is to be there.
    pub(crate) fn is_broken(&self) -> bool {
        self.label.is_broken_at(self.excess())
    }

    // Whether the line stands for a name.
    pub(crate) fn is_name(&self) -> bool {
        match self.label {
            Label::Name(_) => true,
            Label::Row(..) => false,
        }
    }

    // The coefficient of a column, 0 where there is no such column.
    #[inline(always)]
    pub(crate) fn coefficient(&self, column: usize) -> i128 {
        self.coefficients.get(column).copied().unwrap_or(0)
    }

    // How many columns have a coefficient other than 0.
    pub(crate) fn weight(&self) -> usize {
        self.coefficients
            .iter()
            .filter(|entry| **entry != 0)
            .count()
    }

    // Writes the coefficient of a column.
    fn set(&mut self, column: usize, coefficient: i128) {
        if let Some(entry) = self.coefficients.get_mut(column) {
            *entry = coefficient;
        }
    }

    // Turns each number but the denominator to its negative; `None` where one does not fit.
    fn negate(&mut self) -> Option<()> {
        for entry in self.coefficients.iter_mut() {
            *entry = entry.checked_neg()?;
        }
        self.constant = self.constant.checked_neg()?;
        Some(())
    }

    // Solves the line for what stands at a column, whose coefficient is not 0: what stood at the line stands at the column afterwards.
    // `None` where a number does not fit.
    pub(crate) fn solve_for(&mut self, column: usize) -> Option<()> {
        let pivot = self.coefficient(column);
        self.set(column, self.denominator.checked_neg()?);
        self.denominator = pivot.checked_abs()?;
        if 0 < pivot {
            self.negate()?;
        }
        Some(())
    }

    // Puts in for what stood at a column what the line says that was solved for it. `None` where a number does not fit.
    pub(crate) fn put_in(&mut self, column: usize, solved: &Line) -> Option<()> {
        let multiple = self.coefficient(column);
        if multiple == 0 {
            return Some(());
        }
        let common = gcd(multiple.unsigned_abs(), solved.denominator.unsigned_abs());
        let common = i128::try_from(common).ok()?;
        let own = solved.denominator.checked_div(common)?;
        let other = multiple.checked_div(common)?;
        self.set(column, 0);
        for (entry, new) in self.coefficients.iter_mut().zip(&solved.coefficients) {
            *entry = combination(own, *entry, other, *new)?;
        }
        self.constant = combination(own, self.constant, other, solved.constant)?;
        self.denominator = product(self.denominator, own)?;
        self.divide_by_content();
        Some(())
    }

    // The greatest common divisor of all numbers.
    fn content(&self) -> u128 {
        let mut content = gcd(
            self.denominator.unsigned_abs(),
            self.constant.unsigned_abs(),
        );
        for entry in &self.coefficients {
            if content == 1 {
                break;
            }
            if *entry != 0 {
                content = gcd(entry.unsigned_abs(), content);
            }
        }
        content
    }

    // Divides all numbers by their greatest common divisor.
    fn divide_by_content(&mut self) {
        let Ok(content) = i128::try_from(self.content()) else {
            return;
        };
        if content <= 1 {
            return;
        }
        for entry in self.coefficients.iter_mut() {
            if *entry != 0 {
                *entry = entry.checked_div(content).unwrap_or(0);
            }
        }
        self.constant = self.constant.checked_div(content).unwrap_or(0);
        self.denominator = self.denominator.checked_div(content).unwrap_or(1);
    }
}
