// A line of the tableau: what a column is as a sum of multiples of others.
use crate::halt::{Halt, fitting};
use bound_values::{Fraction, combination, gcd, product, quotient};
use std::alloc::Global;

// A multiple of a column.
#[derive(Clone, Copy)]
pub(crate) struct Entry {
    pub(crate) column: usize,
    pub(crate) coefficient: i128,
}

// A positive multiple of a column is the sum of the entries, which stand by rising columns; no number above 1 divides all.
#[derive(Drop)]
pub(crate) struct Line {
    pub(crate) basic: usize,
    pub(crate) denominator: i128,
    pub(crate) entries: Vec<Entry>,
}

// A column that comes to stand in a line, or no longer does.
#[derive(Clone, Copy)]
pub(crate) enum Change {
    Comes(usize),
    Goes(usize),
}

impl Line {
    // The coefficient of a column, 0 where it does not stand in the line.
    #[inline(always)]
    pub(crate) fn coefficient(&self, column: usize) -> i128 {
        let place = self
            .entries
            .binary_search_by(|entry| entry.column.cmp(&column));
        match place {
            Ok(place) => self.entries.get(place).map_or(0, |entry| entry.coefficient),
            Err(_) => 0,
        }
    }

    // By how much the column of the line changes where another changes by 1.
    pub(crate) fn slope(&self, column: usize) -> Option<Fraction> {
        Fraction::reduced(self.coefficient(column), self.denominator)
    }

    // Solves the line for a column that stands in it; the column of the line stands in it afterwards.
    pub(crate) fn solve_for(&mut self, alloc: Global, column: usize) -> Result<(), Halt> {
        let pivot = self.coefficient(column);
        let own = fitting(self.denominator.checked_neg())?;
        let mut entries = Vec::with_capacity(alloc, self.entries.len())?;
        let mut is_placed = false;
        for entry in &self.entries {
            if !is_placed && self.basic < entry.column {
                is_placed = true;
                entries.push(signed(self.basic, own, pivot)?)?;
            }
            if entry.column != column {
                entries.push(signed(entry.column, entry.coefficient, pivot)?)?;
            }
        }
        if !is_placed {
            entries.push(signed(self.basic, own, pivot)?)?;
        }
        self.entries = entries;
        self.denominator = fitting(pivot.checked_abs())?;
        self.basic = column;
        Ok(())
    }

    // Puts in for a column that stands in the line what another line says that is solved for it, and tells which columns come and go.
    pub(crate) fn put_in(
        &mut self,
        alloc: Global,
        other: &Line,
        changes: &mut Vec<Change>,
    ) -> Result<(), Halt> {
        let multiple = self.coefficient(other.basic);
        let common = gcd(multiple, other.denominator);
        let mut sum = Sum {
            own: fitting(quotient(other.denominator, common))?,
            other: fitting(quotient(multiple, common))?,
            replaced: other.basic,
            entries: Vec::with_capacity(
                alloc,
                self.entries.len().saturating_add(other.entries.len()),
            )?,
        };
        sum.merge(&self.entries, &other.entries, changes)?;
        self.denominator = fitting(product(self.denominator, sum.own))?;
        self.entries = sum.entries;
        fitting(self.divide_by_content())
    }

    // Divides all numbers by their greatest common divisor.
    fn divide_by_content(&mut self) -> Option<()> {
        let mut content = self.denominator;
        for entry in &self.entries {
            if content == 1 {
                return Some(());
            }
            content = gcd(entry.coefficient, content);
        }
        if content <= 1 {
            return Some(());
        }
        self.denominator = quotient(self.denominator, content)?;
        for entry in self.entries.iter_mut() {
            entry.coefficient = quotient(entry.coefficient, content)?;
        }
        Some(())
    }
}

// The entry of a line that is solved for a column with this coefficient: the other sides change their signs where it is positive.
fn signed(column: usize, coefficient: i128, pivot: i128) -> Result<Entry, Halt> {
    let coefficient = if 0 < pivot {
        fitting(coefficient.checked_neg())?
    } else {
        coefficient
    };
    Ok(Entry {
        column,
        coefficient,
    })
}

// A sum of multiples of two lists of entries, without a column of the first.
#[derive(Drop)]
struct Sum {
    own: i128,
    other: i128,
    replaced: usize,
    entries: Vec<Entry>,
}

impl Sum {
    // Adds up two lists by rising columns, and tells which columns come to the first and which go.
    fn merge(
        &mut self,
        own: &[Entry],
        other: &[Entry],
        changes: &mut Vec<Change>,
    ) -> Result<(), Halt> {
        let mut place = 0;
        for entry in own {
            place = self.add_before(entry.column, place, other, changes)?;
            match other.get(place) {
                Some(second) if second.column == entry.column => {
                    self.add_both(*entry, second.coefficient, changes)?;
                    place = place.saturating_add(1);
                }
                _ => self.add_own(*entry)?,
            }
        }
        self.add_before(usize::MAX, place, other, changes)?;
        Ok(())
    }

    // Adds the entries of the second list from a place on whose columns are before one, and gives the place of the next.
    fn add_before(
        &mut self,
        column: usize,
        from: usize,
        other: &[Entry],
        changes: &mut Vec<Change>,
    ) -> Result<usize, Halt> {
        for place in from..other.len() {
            match other.get(place) {
                Some(entry) if entry.column < column => {
                    self.entries.push(Entry {
                        column: entry.column,
                        coefficient: fitting(product(self.other, entry.coefficient))?,
                    })?;
                    changes.push(Change::Comes(entry.column))?;
                }
                _ => return Ok(place),
            }
        }
        Ok(from.max(other.len()))
    }

    // Adds an entry of the first list alone.
    fn add_own(&mut self, entry: Entry) -> Result<(), Halt> {
        if entry.column == self.replaced {
            return Ok(());
        }
        self.entries.push(Entry {
            column: entry.column,
            coefficient: fitting(product(self.own, entry.coefficient))?,
        })?;
        Ok(())
    }

    // Adds an entry of each list at one column.
    fn add_both(
        &mut self,
        entry: Entry,
        second: i128,
        changes: &mut Vec<Change>,
    ) -> Result<(), Halt> {
        let total = fitting(combination(self.own, entry.coefficient, self.other, second))?;
        if total == 0 {
            changes.push(Change::Goes(entry.column))?;
        } else {
            self.entries.push(Entry {
                column: entry.column,
                coefficient: total,
            })?;
        }
        Ok(())
    }
}
