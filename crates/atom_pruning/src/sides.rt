//! On which sides rows have names.

use crate::table::Line;
use certificates::Bound;
use std::alloc::{AllocError, Global};

// How many rows are told from each other.
const BITS: usize = 128;

// Whether a name grows by 1 or falls by it.
#[derive(Clone, Copy, Debug, PartialEq, Eq)]
pub(crate) enum Step {
    Up,
    Down,
}

impl Step {
    // What a form gains by the step, if this is the coefficient of the name.
    #[inline(always)]
    pub(crate) fn gain(self, coefficient: i128) -> i128 {
        match self {
            Step::Up => coefficient,
            Step::Down => coefficient.saturating_neg(),
        }
    }
}

// The rows that grow and those that fall where a name does: a bit for each, both for an equation. Rows whose numbers are the same modulo 128
// share a bit, so that more seems possible.
#[derive(Clone, Copy, Debug)]
pub(crate) struct Sides {
    growing: u128,
    falling: u128,
}

impl Sides {
    pub(crate) const NONE: Sides = Sides {
        growing: 0,
        falling: 0,
    };

    // Those of each name in the rows.
    pub(crate) fn of_each(
        alloc: Global,
        names: usize,
        rows: &[Line<'_>],
    ) -> Result<Vec<Sides>, AllocError> {
        let mut each = vec![in alloc; Sides::NONE; names]?;
        for (number, row) in rows.iter().enumerate() {
            let bit = 1u128 << (number % BITS);
            for (sides, coefficient) in each.iter_mut().zip(row.coefficients) {
                sides.add(bit, row.bound, *coefficient);
            }
        }
        Ok(each)
    }

    // Adds the row with this bit.
    fn add(&mut self, bit: u128, bound: Bound, coefficient: i128) {
        let both = bound == Bound::Equal && coefficient != 0;
        if coefficient > 0 || both {
            self.growing |= bit;
        }
        if coefficient < 0 || both {
            self.falling |= bit;
        }
    }

    // Whether no row has the name.
    #[inline(always)]
    pub(crate) fn are_none(self) -> bool {
        self.growing | self.falling == 0
    }

    // The sides of the name that a step changes.
    #[inline(always)]
    pub(crate) fn by(self, step: Step) -> Sides {
        match step {
            Step::Up => self,
            Step::Down => Sides {
                growing: self.falling,
                falling: self.growing,
            },
        }
    }

    // Whether no row grows.
    #[inline(always)]
    pub(crate) fn are_free(self) -> bool {
        self.growing == 0
    }

    // Whether each row that grows by one of two steps falls by the other.
    #[inline(always)]
    pub(crate) fn may_cancel(self, other: Sides) -> bool {
        self.growing & !other.falling == 0 && other.growing & !self.falling == 0
    }
}
