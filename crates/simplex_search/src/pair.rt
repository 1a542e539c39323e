//! Multipliers of two rows.

use crate::numbers::product;
use crate::system::{Row, Sense};

// Two rows with a multiplier of each.
#[derive(Clone, Copy)]
struct Pair<'a> {
    first: (&'a Row, i128),
    second: (&'a Row, i128),
}

// Multipliers by which two rows that have names add up to a contradiction, if there are any and they fit: those by which the first name
// of the first row cancels, with either sign.
pub(crate) fn multipliers_of_two(first: &Row, second: &Row) -> Option<(i128, i128)> {
    let (_, one) = first.terms.first()?;
    let (_, other) = second.terms.first()?;
    let pair = Pair {
        first: (first, *other),
        second: (second, one.checked_neg()?),
    };
    if pair.is_contradiction() == Some(true) {
        return Some((pair.first.1, pair.second.1));
    }
    let turned = Pair {
        first: (first, other.checked_neg()?),
        second: (second, *one),
    };
    if turned.is_contradiction() == Some(true) {
        return Some((turned.first.1, turned.second.1));
    }
    None
}

impl Pair<'_> {
    // Whether the multiples are allowed, their names cancel, and their constants add up to more than 0, or to 0 with a strict row; `None`
    // where a number does not fit.
    fn is_contradiction(self) -> Option<bool> {
        if !is_allowed(self.first) || !is_allowed(self.second) || !self.cancels()? {
            return Some(false);
        }
        let constant = sum(
            product(self.first.0.constant, self.first.1),
            product(self.second.0.constant, self.second.1),
        )?;
        let strict = self.first.0.sense == Sense::Below || self.second.0.sense == Sense::Below;
        Some(constant > 0 || constant == 0 && strict)
    }

    // Whether the names cancel; `None` where a number does not fit.
    fn cancels(self) -> Option<bool> {
        let (first, second) = (&self.first.0.terms, &self.second.0.terms);
        if first.len() != second.len() {
            return Some(false);
        }
        for ((name, one), (same, other)) in first.iter().zip(second) {
            let left = sum(product(*one, self.first.1), product(*other, self.second.1))?;
            if name != same || left != 0 {
                return Some(false);
            }
        }
        Some(true)
    }
}

// Whether a row may have such a multiplier.
fn is_allowed((row, multiplier): (&Row, i128)) -> bool {
    match row.sense {
        Sense::Equal => true,
        Sense::AtMost | Sense::Below => multiplier > 0,
    }
}

// The sum, where it fits.
fn sum(a: Option<i128>, b: Option<i128>) -> Option<i128> {
    a?.checked_add(b?)
}
