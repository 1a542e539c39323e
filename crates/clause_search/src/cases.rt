//! How many cases a formula has.

ghost use Rattle.formula_store.specs.Nodes.{IsId};

use crate::nodes::Places;
use crate::table::subformulas;
use formula_store::{FormulaId, Store};
use formula_tree::Shape;
use normal_atoms::{Atom, Rel};
use std::alloc::{AllocError, Global};

/// How many conjunctions are left of a formula in negation normal form where it is multiplied out, 2^64 - 1 where there are more; `None`
/// where a congruence stands in it. An atom `f <> 0` counts as two. It tells how long an elimination may take, and no clause says what it is.
/// Its time is that of the distinct subformulas, and its only error is want of memory.
pub fn case_count(alloc: Global, store: &Store, form: FormulaId) -> Result<Option<u64>, AllocError>
    requires { IsId store.now form }
{
    let ids = subformulas(store, form)?;
    let places = Places { store, ids: &ids };
    let mut counts = Vec::with_capacity(alloc, ids.len())?;
    for id in &ids {
        let cases = Cases {
            places,
            counts: &counts,
        };
        let Some(count) = cases.count(store.shape(*id)) else {
            return Ok(None);
        };
        counts.push(count)?;
    }
    Ok(counts.last().copied())
}

// The counts of the first formulas of those that have places.
#[derive(Clone, Copy)]
struct Cases<'a> {
    places: Places<'a>,
    counts: &'a [u64],
}

impl Cases<'_> {
    // That of a formula whose members have counts.
    fn count(&self, shape: &Shape<FormulaId>) -> Option<u64> {
        match shape {
            Shape::And(members) => Some(self.product(members.items())),
            Shape::Or(members) => Some(self.sum(members.items())),
            Shape::One(Atom::Congruent { .. }) => None,
            Shape::One(Atom::Compare(Rel::Differs, _)) => Some(2),
            _ => Some(1),
        }
    }

    // The product of those of members.
    fn product(&self, members: &[FormulaId]) -> u64 {
        let mut product = 1u64;
        for member in members {
            product = product.saturating_mul(self.count_of(*member));
        }
        product
    }

    // The sum of those of members.
    fn sum(&self, members: &[FormulaId]) -> u64 {
        let mut sum = 0u64;
        for member in members {
            sum = sum.saturating_add(self.count_of(*member));
        }
        sum
    }

    // That of a member, 1 where it has none.
    fn count_of(&self, member: FormulaId) -> u64 {
        match self.places.place_of(member) {
            Some(place) => self.counts.get(place).copied().unwrap_or(1),
            None => 1,
        }
    }
}
