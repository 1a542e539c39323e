//! Points that meet the rows of atoms.

ghost use Rattle.std.specs.Prelude.{◌≤◌};

use crate::names::Names;
use crate::row_list::RowList;
use crate::rows::AtomRows;
use certificates::{Bound, Constraint};
use simplex_search::{Point, Sense, System};
use std::alloc::{AllocError, Global};

// Whether a point is to lie on a weak bound at most, or inside it.
#[derive(Clone, Copy, PartialEq, Eq)]
enum Place {
    Inside,
    Within,
}

/// A point that meets the rows of atoms and of assumptions: they imply no atom whose negation it meets. It spares searches, and no clause
/// says anything of it.
#[derive(Drop)]
pub struct Sample {
    names: Names,
    point: Point,
}

impl Sample {
    /// A point of the assumptions and the atoms with these rows, if one is found: inside the bounds, or else within them. What the search
    /// does is taken off the effort. Its only error is want of memory.
    pub fn of(
        alloc: Global,
        assumed: &[AtomRows],
        atoms: &[AtomRows],
        effort: &mut u64,
    ) -> Result<Option<Sample>, AllocError>
        ensures { effort.new ≤ effort.old }
    {
        let rows = RowList {
            given: atoms,
            assumed,
            negated: &[],
        };
        match Sample::at(alloc, rows, Place::Inside, effort)? {
            Some(sample) => Ok(Some(sample)),
            None => Sample::at(alloc, rows, Place::Within, effort),
        }
    }

    // A point of the rows at such a place.
    fn at(
        alloc: Global,
        rows: RowList<'_>,
        wanted: Place,
        effort: &mut u64,
    ) -> Result<Option<Sample>, AllocError>
        ensures { effort.new ≤ effort.old }
    {
        let names = Names::of(alloc, &rows)?;
        let mut system = System::new(alloc, names.len());
        let mut coefficients = Vec::new(alloc);
        for place in 0..rows.len() {
            if let Some(row) = rows.get(place) {
                names.write_coefficients(&row.form, &mut coefficients)?;
                let sense = sense(row.bound, wanted);
                system.push(&coefficients, row.form.constant_part(), sense)?;
            }
        }
        let Some(point) = system.point(effort)? else {
            return Ok(None);
        };
        let sample = Sample { names, point };
        if sample.meets_all(&rows) {
            Ok(Some(sample))
        } else {
            Ok(None)
        }
    }

    /// Whether the point leaves it open that the atom with these rows is implied: it does not meet the row of its negation.
    pub fn may_show(&self, rows: &AtomRows) -> bool {
        match &rows.fails {
            Some(row) => self.meets(row) != Some(true),
            None => true,
        }
    }

    // Whether the point is known to meet all rows.
    fn meets_all(&self, rows: &RowList<'_>) -> bool {
        for place in 0..rows.len() {
            if let Some(row) = rows.get(place)
                && self.meets(row) != Some(true)
            {
                return false;
            }
        }
        true
    }

    // Whether the point meets the row; `None` where a number does not fit.
    fn meets(&self, row: &Constraint) -> Option<bool> {
        let mut number = row
            .form
            .constant_part()
            .checked_mul(self.point.denominator)?;
        let mut margin = 0i128;
        for place in 0..row.form.places() {
            if let Some((name, coefficient)) = row.form.term(place)
                && let Some((value, small)) = self.value(name.number)
            {
                number = number.checked_add(coefficient.checked_mul(value)?)?;
                margin = margin.checked_add(coefficient.checked_mul(small)?)?;
            }
        }
        let order = number.cmp(&0).then(margin.cmp(&0));
        Some(match row.bound {
            Bound::Equal => order.is_eq(),
            Bound::AtMost => order.is_le(),
            Bound::Below => order.is_lt(),
        })
    }

    // The numerator of a name: `None` where it is 0, since no row has the name.
    fn value(&self, name: usize) -> Option<(i128, i128)> {
        let number = self.names.number(name)?;
        self.point.numerators.get(number).copied()
    }
}

// What the row of a bound is to be at a point at such a place.
fn sense(bound: Bound, wanted: Place) -> Sense {
    match bound {
        Bound::Equal => Sense::Equal,
        Bound::AtMost if wanted == Place::Within => Sense::AtMost,
        Bound::AtMost | Bound::Below => Sense::Below,
    }
}
