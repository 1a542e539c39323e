// A tableau: what stands at the lines as sums of multiples of what stands at the columns.
use crate::line::{Label, Line};
use crate::system::Row;
use std::alloc::{AllocError, Global};

// Lines over columns. In the beginning the rows of a system stand at the lines, and the names at the columns.
#[derive(Drop)]
pub(crate) struct Tableau {
    pub(crate) lines: Vec<Line>,
    pub(crate) columns: Vec<Label>,
}

impl Tableau {
    // The rows, over the names below a number.
    pub(crate) fn new(alloc: Global, rows: &[Row], names: usize) -> Result<Tableau, AllocError> {
        let mut lines = Vec::with_capacity(alloc, rows.len())?;
        for (place, row) in rows.iter().enumerate() {
            lines.push(Line::of(alloc, place, row, names)?)?;
        }
        let mut columns = Vec::with_capacity(alloc, names)?;
        for name in 0..names {
            columns.push(Label::Name(name))?;
        }
        Ok(Tableau { lines, columns })
    }

    // Exchanges what stands at a line and at a column of it whose coefficient is not 0: the line is solved for the column, which is
    // put in everywhere. `None` where there is no such line or a number does not fit.
    pub(crate) fn exchange(&mut self, place: usize, column: usize) -> Option<()> {
        let (before, rest) = self.lines.split_at_mut_checked(place)?;
        let (line, after) = rest.split_first_mut()?;
        line.solve_for(column)?;
        put_in_all(before, column, line)?;
        put_in_all(after, column, line)?;
        if let Some(label) = self.columns.get_mut(column) {
            std::mem::swap(label, &mut line.label);
        }
        Some(())
    }

    // The line of a name, if it stands at one.
    pub(crate) fn line_of(&self, name: usize) -> Option<&Line> {
        self.lines.iter().find(|line| match line.label {
            Label::Name(number) => number == name,
            Label::Row(..) => false,
        })
    }

    // The column at which a name stands, if it stands at one.
    pub(crate) fn column_of(&self, name: usize) -> Option<usize> {
        self.columns.iter().position(|label| match label {
            Label::Name(number) => *number == name,
            Label::Row(..) => false,
        })
    }
}

// Puts in for a column what a line says of it, in all of these lines.
fn put_in_all(lines: &mut [Line], column: usize, solved: &Line) -> Option<()> {
    for line in lines.iter_mut() {
        line.put_in(column, solved)?;
    }
    Some(())
}
