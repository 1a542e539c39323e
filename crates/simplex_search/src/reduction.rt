// The rows that can have a multiplier other than 0, and the columns of their names.
use crate::system::{Row, Sense};
use std::alloc::{AllocError, Global};

// A row that takes part, and its place among all rows.
#[derive(Clone, Copy)]
pub(crate) struct Part<'a> {
    pub(crate) place: usize,
    pub(crate) row: &'a Row,
}

// How many rows have a multiple with a positive coefficient of a name, and how many one with a negative coefficient: an equation has
// both.
#[derive(Clone, Copy)]
struct Occurrences {
    positive: usize,
    negative: usize,
}

impl Occurrences {
    const NONE: Occurrences = Occurrences {
        positive: 0,
        negative: 0,
    };

    // Those of one row.
    fn of(sense: Sense, coefficient: i128) -> Occurrences {
        let both = sense == Sense::Equal;
        Occurrences {
            positive: usize::from(both || 0 < coefficient),
            negative: usize::from(both || coefficient < 0),
        }
    }

    // Those of both.
    fn and(self, other: Occurrences) -> Occurrences {
        Occurrences {
            positive: self.positive.saturating_add(other.positive),
            negative: self.negative.saturating_add(other.negative),
        }
    }

    // Those without some of them.
    fn without(self, other: Occurrences) -> Occurrences {
        Occurrences {
            positive: self.positive.saturating_sub(other.positive),
            negative: self.negative.saturating_sub(other.negative),
        }
    }

    // Whether no other row can cancel the name in a multiple of a row that is counted.
    fn has_no_other(self, sense: Sense, coefficient: i128) -> bool {
        match sense {
            Sense::Equal => self.positive == 1 && self.negative == 1,
            Sense::AtMost | Sense::Below if 0 < coefficient => self.negative == 0,
            Sense::AtMost | Sense::Below => self.positive == 0,
        }
    }
}

// The rows that take part, and how often each name stands in them.
#[derive(Drop)]
pub(crate) struct Reduction<'a> {
    pub(crate) parts: Vec<Part<'a>>,
    occurrences: Vec<Occurrences>,
}

impl<'a> Reduction<'a> {
    // The rows that are marked, without those whose multiplier can only be 0, since no other row cancels one of their names; the
    // names are those below a number.
    pub(crate) fn of(
        alloc: Global,
        rows: &'a [Row],
        marks: &[bool],
        names: usize,
    ) -> Result<Reduction<'a>, AllocError> {
        let mut reduction = Reduction {
            parts: marked(alloc, rows, marks)?,
            occurrences: vec![in alloc; Occurrences::NONE; names]?,
        };
        reduction.leave_out_negative();
        reduction.count();
        for _ in 0..rows.len() {
            if !reduction.leaves_out(alloc)? {
                break;
            }
        }
        Ok(reduction)
    }

    // Counts how often each name stands in the rows.
    fn count(&mut self) {
        for part in &self.parts {
            count_names(&mut self.occurrences, part.row, Change::In);
        }
    }

    // Where no constant is positive, leaves out the rows with a negative one.
    fn leave_out_negative(&mut self) {
        if self
            .parts
            .iter()
            .all(|part| part.row.greatest_constant() <= 0)
        {
            self.parts.retain(|part| part.row.constant == 0);
        }
    }

    // Leaves out the rows with a name that no other row cancels, each as soon as it is so, and says whether there were any. The others
    // stand in the opposite order then.
    fn leaves_out(&mut self, alloc: Global) -> Result<bool, AllocError> {
        let count = self.parts.len();
        let mut kept = Vec::with_capacity(alloc, count)?;
        for _ in 0..count {
            let Some(part) = self.parts.pop() else {
                break;
            };
            if can_cancel(&self.occurrences, part.row) {
                kept.push(part)?;
            } else {
                count_names(&mut self.occurrences, part.row, Change::Out);
            }
        }
        self.parts = kept;
        Ok(self.parts.len() < count)
    }

    // For each name its column, if it stands in a row.
    pub(crate) fn columns(&self, alloc: Global) -> Result<Vec<Option<usize>>, AllocError> {
        let mut columns = Vec::with_capacity(alloc, self.occurrences.len())?;
        let mut width = 0;
        for counts in &self.occurrences {
            if 0 < counts.positive || 0 < counts.negative {
                columns.push(Some(width))?;
                width += 1;
            } else {
                columns.push(None)?;
            }
        }
        Ok(columns)
    }
}

// The rows whose marks are true.
fn marked<'a>(alloc: Global, rows: &'a [Row], marks: &[bool]) -> Result<Vec<Part<'a>>, AllocError> {
    let mut parts = Vec::with_capacity(alloc, rows.len())?;
    for (place, row) in rows.iter().enumerate() {
        if marks.get(place).copied().unwrap_or(false) {
            parts.push(Part { place, row })?;
        }
    }
    Ok(parts)
}

// Whether the names of a row are counted or taken out.
#[derive(Clone, Copy)]
enum Change {
    In,
    Out,
}

// Counts the names of a row, or takes them out.
fn count_names(occurrences: &mut [Occurrences], row: &Row, change: Change) {
    for (name, coefficient) in &row.terms {
        if let Some(counts) = occurrences.get_mut(*name) {
            let own = Occurrences::of(row.sense, *coefficient);
            *counts = match change {
                Change::In => counts.and(own),
                Change::Out => counts.without(own),
            };
        }
    }
}

// Whether there is another row for each name of a row that can cancel it.
fn can_cancel(occurrences: &[Occurrences], row: &Row) -> bool {
    for (name, coefficient) in &row.terms {
        if let Some(counts) = occurrences.get(*name)
            && counts.has_no_other(row.sense, *coefficient)
        {
            return false;
        }
    }
    true
}
