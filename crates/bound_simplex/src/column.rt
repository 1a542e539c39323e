// Columns: names and sums of multiples of names, with their values and bounds.
use bound_values::Value;
use std::cmp::Ordering;

// A bound on a value, and the place of the condition that sets it.
#[derive(Clone, Copy)]
pub(crate) struct Limit {
    pub(crate) value: Value,
    pub(crate) condition: usize,
}

// Which of the two bounds.
#[derive(Clone, Copy, PartialEq, Eq)]
pub(crate) enum Side {
    Lower,
    Upper,
}

impl Side {
    // The other one.
    pub(crate) fn turned(self) -> Side {
        match self {
            Side::Lower => Side::Upper,
            Side::Upper => Side::Lower,
        }
    }

    // The bound that stops a change: this one's, or the other's where the change is turned by a negative coefficient.
    pub(crate) fn times(self, coefficient: i128) -> Side {
        if coefficient < 0 { self.turned() } else { self }
    }

    // How a value that is past the bound compares with it.
    pub(crate) fn past(self) -> Ordering {
        match self {
            Side::Lower => Ordering::Less,
            Side::Upper => Ordering::Greater,
        }
    }
}

// The nodes of a graph whose potentials have the value as their difference.
#[derive(Clone, Copy)]
pub(crate) struct Ends {
    pub(crate) upper: usize,
    pub(crate) lower: usize,
}

// A name or a sum: its value, its bounds, the line that says what it is, where there is one, the lines in which it
// stands, and the nodes whose difference it is.
#[derive(Drop)]
pub(crate) struct Column {
    pub(crate) value: Value,
    lower: Option<Limit>,
    upper: Option<Limit>,
    pub(crate) line: Option<usize>,
    pub(crate) uses: Vec<usize>,
    pub(crate) ends: Option<Ends>,
    pub(crate) is_suspect: bool,
}

impl Column {
    // A column without bounds.
    pub(crate) fn new(
        value: Value,
        line: Option<usize>,
        uses: Vec<usize>,
        ends: Option<Ends>,
    ) -> Column {
        Column {
            value,
            lower: None,
            upper: None,
            line,
            uses,
            ends,
            is_suspect: false,
        }
    }

    // One of the bounds.
    #[inline(always)]
    pub(crate) fn limit(&self, side: Side) -> Option<Limit> {
        match side {
            Side::Lower => self.lower,
            Side::Upper => self.upper,
        }
    }

    // Sets or takes away one of the bounds.
    pub(crate) fn set_limit(&mut self, side: Side, limit: Option<Limit>) {
        match side {
            Side::Lower => self.lower = limit,
            Side::Upper => self.upper = limit,
        }
    }

    // The bound on a side, where a value is past it.
    #[inline(always)]
    pub(crate) fn broken_by(&self, side: Side, value: Value) -> Option<Limit> {
        let limit = self.limit(side)?;
        if value.compare(limit.value) == side.past() {
            Some(limit)
        } else {
            None
        }
    }

    // The side on which the value is past its bound, if it is, and that bound.
    #[inline(always)]
    pub(crate) fn broken(&self) -> Option<(Side, Limit)> {
        if let Some(limit) = self.broken_by(Side::Lower, self.value) {
            return Some((Side::Lower, limit));
        }
        let limit = self.broken_by(Side::Upper, self.value)?;
        Some((Side::Upper, limit))
    }

    // Whether the value can move towards a side: it is not at the bound there.
    #[inline(always)]
    pub(crate) fn can_move(&self, side: Side) -> bool {
        match self.limit(side) {
            Some(limit) => self.value.compare(limit.value) == side.turned().past(),
            None => true,
        }
    }
}
