//! The coefficients of rows, side by side.

use crate::names::Names;
use crate::rows::AtomRows;
use certificates::{Bound, Constraint};
use std::alloc::{AllocError, Global};

// Tables with more coefficients are not made.
const MOST: usize = 65_536;

// The coefficients of a row's names, one for each name of a table.
#[derive(Clone, Copy)]
pub(crate) struct Line<'a> {
    pub(crate) bound: Bound,
    pub(crate) coefficients: &'a [i128],
}

/// What atoms and their negations say, by the coefficients of all their names. It is for what spares searches, and no clause says anything
/// of it.
#[derive(Drop)]
pub struct Table {
    names: usize,
    // The lines of the atoms, and of their negations, one after another.
    holds: Vec<i128>,
    fails: Vec<i128>,
    bounds: Vec<(Option<Bound>, Option<Bound>)>,
}

impl Table {
    /// That of the atoms with these rows; `None` where it would be large. Its only error is want of memory.
    pub fn of(alloc: Global, atoms: &[&AtomRows]) -> Result<Option<Table>, AllocError> {
        let names = Names::of_atoms(alloc, atoms)?;
        if atoms.len().saturating_mul(names.len()) > MOST {
            return Ok(None);
        }
        let mut table = Table {
            names: names.len(),
            holds: Vec::new(alloc),
            fails: Vec::new(alloc),
            bounds: Vec::with_capacity(alloc, atoms.len())?,
        };
        for rows in atoms {
            let holds = add(&names, &rows.holds, &mut table.holds)?;
            let fails = add(&names, &rows.fails, &mut table.fails)?;
            table.bounds.push((holds, fails))?;
        }
        Ok(Some(table))
    }

    // How many names there are.
    pub(crate) fn names(&self) -> usize {
        self.names
    }

    // What an atom says, by its number.
    pub(crate) fn holds(&self, number: usize) -> Option<Line<'_>> {
        let bound = self.bounds.get(number)?.0?;
        Some(Line {
            bound,
            coefficients: self.line(&self.holds, number),
        })
    }

    // What the negation of an atom says.
    pub(crate) fn fails(&self, number: usize) -> Option<Line<'_>> {
        let bound = self.bounds.get(number)?.1?;
        Some(Line {
            bound,
            coefficients: self.line(&self.fails, number),
        })
    }

    // The line with a number.
    fn line<'a>(&self, lines: &'a [i128], number: usize) -> &'a [i128] {
        let start = number.saturating_mul(self.names);
        match lines.get(start..start.saturating_add(self.names)) {
            Some(line) => line,
            None => &[],
        }
    }
}

// Adds the line of a row, and 0 for each name where there is none; the bound of the row.
fn add(
    names: &Names,
    row: &Option<Constraint>,
    lines: &mut Vec<i128>,
) -> Result<Option<Bound>, AllocError> {
    let start = lines.len();
    lines.resize(start.saturating_add(names.len()), 0)?;
    let Some(row) = row else {
        return Ok(None);
    };
    for place in 0..row.form.places() {
        if let Some((name, coefficient)) = row.form.term(place)
            && let Some(number) = names.number(name.number)
            && let Some(written) = lines.get_mut(start.saturating_add(number))
        {
            *written = coefficient;
        }
    }
    Ok(Some(row.bound))
}
