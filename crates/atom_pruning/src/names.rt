//! The names of rows, numbered without gaps.

use crate::row_list::RowList;
use crate::rows::AtomRows;
use linear_forms::Linear;
use std::alloc::{AllocError, Global};

// The names of rows, rising and each once: a name's number is its place among them.
#[derive(Drop)]
pub(crate) struct Names {
    names: Vec<usize>,
}

impl Names {
    // The names of the rows.
    pub(crate) fn of(alloc: Global, rows: &RowList<'_>) -> Result<Names, AllocError> {
        let mut names = Vec::new(alloc);
        for place in 0..rows.len() {
            if let Some(row) = rows.get(place) {
                add_names(&mut names, &row.form)?;
            }
        }
        names.sort_unstable();
        names.dedup();
        Ok(Names { names })
    }

    // The names of the atoms with these rows.
    pub(crate) fn of_atoms(alloc: Global, atoms: &[&AtomRows]) -> Result<Names, AllocError> {
        let mut names = Vec::new(alloc);
        for rows in atoms {
            for row in rows.holds.iter().chain(&rows.fails) {
                add_names(&mut names, &row.form)?;
            }
        }
        names.sort_unstable();
        names.dedup();
        Ok(Names { names })
    }

    // How many there are.
    pub(crate) fn len(&self) -> usize {
        self.names.len()
    }

    // The number of a name, if it is one of these.
    pub(crate) fn number(&self, name: usize) -> Option<usize> {
        self.names.binary_search(&name).ok()
    }

    // Writes the coefficients of a form beside the numbers of their names.
    pub(crate) fn write_coefficients(
        &self,
        form: &Linear,
        coefficients: &mut Vec<(usize, i128)>,
    ) -> Result<(), AllocError> {
        coefficients.clear();
        for place in 0..form.places() {
            if let Some((name, coefficient)) = form.term(place)
                && let Some(number) = self.number(name.number)
            {
                coefficients.push((number, coefficient))?;
            }
        }
        Ok(())
    }
}

// Adds the names of a form.
fn add_names(names: &mut Vec<usize>, form: &Linear) -> Result<(), AllocError> {
    for place in 0..form.places() {
        if let Some((name, _)) = form.term(place) {
            names.push(name.number)?;
        }
    }
    Ok(())
}
