//! The rows of atoms, by their places.

ghost use Rattle.std.specs.Prelude.{◌≡◌, ◌+◌, length};
ghost use Rattle.std.specs.Option.{option_copied};
ghost use Rattle.atom_pruning.specs.Asked.{asked_of, row_at, negations};

use crate::rows::AtomRows;
use certificates::Constraint;

// The rows of given atoms, of assumptions, and of the negations of atoms, in this order. A place is that of an atom; where the atom has
// no row, it is empty.
#[derive(Clone, Copy)]
pub(crate) struct RowList<'a> {
    pub(crate) given: &'a [AtomRows],
    pub(crate) assumed: &'a [AtomRows],
    pub(crate) negated: &'a [AtomRows],
}

impl<'a> RowList<'a> {
    // Where the rows of the negations begin.
    pub(crate) fn negations(&self) -> usize
        ensures { result ≡ negations (asked_of self.now) }
    {
        self.given.len() + self.assumed.len()
    }

    // How many places there are.
    pub(crate) fn len(&self) -> usize
        ensures { result ≡ negations (asked_of self.now) + length self.now.negated.now }
    {
        self.negations() + self.negated.len()
    }

    // The row at a place.
    pub(crate) fn get(&self, place: usize) -> Option<&'a Constraint>
        ensures { option_copied result ≡ row_at (asked_of self.now) place }
    {
        if place < self.given.len() {
            return self.given[place].holds.as_ref();
        }
        if place < self.negations() {
            return self.assumed[place - self.given.len()].holds.as_ref();
        }
        match self.negated.get(place - self.negations()) {
            Some(rows) => rows.fails.as_ref(),
            None => None,
        }
    }
}
