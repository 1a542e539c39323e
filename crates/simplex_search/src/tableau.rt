// A tableau: rows as sums of multiples of columns, over one denominator.
use crate::numbers::Step;
use crate::reduction::{Part, Reduction};
use crate::system::{Row, Sense};
use std::alloc::{AllocError, Global};
use std::cmp::Ordering;

// The row of the system that stands at a line or a column: its place, and what its value is to be.
#[derive(Clone, Copy)]
pub(crate) struct Label {
    pub(crate) place: usize,
    pub(crate) sense: Sense,
}

// The value of a row of the system, times the denominator: multiples of the columns, a constant, and a multiple of an arbitrarily
// small positive number. It is to be 0 or at most 0.
#[derive(Drop)]
pub(crate) struct Line {
    pub(crate) label: Label,
    pub(crate) coefficients: Vec<i128>,
    pub(crate) constant: i128,
    pub(crate) margin: i128,
}

impl Line {
    // The row of a part, over columns of the names.
    fn of(
        alloc: Global,
        part: Part<'_>,
        columns: &[Option<usize>],
        width: usize,
    ) -> Result<Line, AllocError> {
        let mut line = Line {
            label: Label {
                place: part.place,
                sense: part.row.sense,
            },
            coefficients: vec![in alloc; 0; width]?,
            constant: part.row.constant,
            margin: part.row.sense.margin(),
        };
        for (name, coefficient) in &part.row.terms {
            if let Some(Some(column)) = columns.get(*name) {
                line.set(*column, *coefficient);
            }
        }
        Ok(line)
    }

    // How the value compares with 0 where all columns are 0.
    pub(crate) fn excess(&self) -> Ordering {
        self.constant.cmp(&0).then(self.margin.cmp(&0))
    }

    // Whether the value is not as it is to be where all columns are 0.
    pub(crate) fn is_broken(&self) -> bool {
        self.label.sense.is_broken_at(self.excess())
    }

    // The coefficient of a column, 0 where there is no such column.
    pub(crate) fn coefficient(&self, column: usize) -> i128 {
        self.coefficients.get(column).copied().unwrap_or(0)
    }

    // Writes the coefficient of a column.
    fn set(&mut self, column: usize, coefficient: i128) {
        if let Some(entry) = self.coefficients.get_mut(column) {
            *entry = coefficient;
        }
    }

    // Turns each number to its negative; `None` where one does not fit.
    fn negate(&mut self) -> Option<()> {
        for entry in self.coefficients.iter_mut() {
            *entry = entry.checked_neg()?;
        }
        self.constant = self.constant.checked_neg()?;
        self.margin = self.margin.checked_neg()?;
        Some(())
    }

    // Takes the numbers over the new denominator of a step; `None` where one does not fit.
    fn scale(&mut self, step: Step) -> Option<()> {
        for entry in self.coefficients.iter_mut() {
            *entry = step.scaled(*entry)?;
        }
        self.constant = step.scaled(self.constant)?;
        self.margin = step.scaled(self.margin)?;
        Some(())
    }

    // Puts in for a column what a line says of it: that line's coefficient of the column is the new denominator, and afterwards
    // its row stands there, or its negative by the sign. `None` where a number does not fit.
    fn put_in(&mut self, column: usize, line: &Line, sign: i128, step: Step) -> Option<()> {
        let multiple = self.coefficient(column);
        if multiple == 0 {
            return if step.keeps_denominator() {
                Some(())
            } else {
                self.scale(step)
            };
        }
        for (entry, other) in self.coefficients.iter_mut().zip(&line.coefficients) {
            *entry = step.reduced(*entry, multiple, *other)?;
        }
        self.constant = step.reduced(self.constant, multiple, line.constant)?;
        self.margin = step.reduced(self.margin, multiple, line.margin)?;
        self.set(column, multiple.checked_mul(sign)?);
        Some(())
    }
}

// Lines over columns. A column stands for a row of the system or, where it has no label, for a name. Beside the lines stand those of the
// names whose values are wanted: they are never exchanged, and have the number of the name in place of a row's.
#[derive(Drop)]
pub(crate) struct Tableau {
    pub(crate) lines: Vec<Line>,
    pub(crate) names: Vec<Line>,
    pub(crate) columns: Vec<Option<Label>>,
    pub(crate) denominator: i128,
}

impl Tableau {
    // The rows of a reduction, over their names.
    pub(crate) fn new(alloc: Global, reduction: &Reduction<'_>) -> Result<Tableau, AllocError> {
        let columns = reduction.columns(alloc)?;
        let width = columns.iter().flatten().count();
        let mut lines = Vec::with_capacity(alloc, reduction.parts.len())?;
        for part in &reduction.parts {
            lines.push(Line::of(alloc, *part, &columns, width)?)?;
        }
        Ok(Tableau {
            lines,
            names: Vec::new(alloc),
            columns: vec![in alloc; None; width]?,
            denominator: 1,
        })
    }

    // All of these rows, over the names below a number, whose values are wanted.
    pub(crate) fn with_names(
        alloc: Global,
        rows: &[Row],
        count: usize,
    ) -> Result<Tableau, AllocError> {
        let mut columns = Vec::with_capacity(alloc, count)?;
        let mut names = Vec::with_capacity(alloc, count)?;
        for place in 0..count {
            let mut line = Line {
                label: Label {
                    place,
                    sense: Sense::Equal,
                },
                coefficients: vec![in alloc; 0; count]?,
                constant: 0,
                margin: 0,
            };
            line.set(place, 1);
            names.push(line)?;
            columns.push(Some(place))?;
        }
        Ok(Tableau {
            lines: all_lines(alloc, rows, &columns)?,
            names,
            columns: vec![in alloc; None; count]?,
            denominator: 1,
        })
    }

    // Exchanges what stands at a line and at a column of it whose coefficient is not 0: the line is solved for the column, which is
    // put in everywhere. `None` where there is no such line or a number does not fit.
    pub(crate) fn exchange(&mut self, place: usize, column: usize) -> Option<()> {
        let (before, rest) = self.lines.split_at_mut_checked(place)?;
        let (line, after) = rest.split_first_mut()?;
        let sign = line.coefficient(column).signum();
        if sign < 0 {
            line.negate()?;
        }
        let old = self.denominator;
        let new = line.coefficient(column);
        let step = Step::between(old, new);
        put_in_all(before, column, line, sign, step)?;
        put_in_all(after, column, line, sign, step)?;
        put_in_all(&mut self.names, column, line, sign, step)?;
        if 0 < sign {
            line.negate()?;
        }
        line.set(column, old.checked_mul(sign)?);
        self.denominator = new;
        if let Some(label) = self.columns.get_mut(column)
            && let Some(label) = label.replace(line.label)
        {
            line.label = label;
        }
        Some(())
    }
}

// The rows, over columns of the names.
fn all_lines(
    alloc: Global,
    rows: &[Row],
    columns: &[Option<usize>],
) -> Result<Vec<Line>, AllocError> {
    let mut lines = Vec::with_capacity(alloc, rows.len())?;
    for (place, row) in rows.iter().enumerate() {
        lines.push(Line::of(alloc, Part { place, row }, columns, columns.len())?)?;
    }
    Ok(lines)
}

// Puts in for a column what a line says of it, in all of these lines.
fn put_in_all(
    lines: &mut [Line],
    column: usize,
    line: &Line,
    sign: i128,
    step: Step,
) -> Option<()> {
    for other in lines.iter_mut() {
        other.put_in(column, line, sign, step)?;
    }
    Some(())
}
