//! Which atoms a conjunction is not shown to imply.

ghost use Rattle.std.specs.Prelude.{◌≤◌};

use crate::conjunction::Conjunction;
use crate::numbered::Numbered;
use atom_pruning::{AtomRows, Directions, Sample};
use std::alloc::{AllocError, Global};

// What is known of an atom beside a conjunction.
#[derive(Clone, Copy, Debug, PartialEq, Eq)]
enum Standing {
    // Nothing.
    Unasked,
    // Directions leave it open that it is implied.
    Open,
    // A point leaves it open too, or it is one of the conjunction's own.
    Likely,
    // No search is expected to show that it is implied.
    Doubted,
}

// A point of a conjunction, which is looked for once.
#[derive(Drop)]
enum Sampled {
    NotYet,
    Once(Option<Sample>),
}

/// Of which atoms no search is expected to show that a conjunction implies them: a direction leads to where they are false, or a point
/// of it does not meet them, or a search found nothing. Each is looked at once. It spares searches, and no clause says anything of it.
#[derive(Drop)]
pub(crate) struct Doubts {
    // None where they would spare nothing, or where there is no table.
    directions: Option<Directions>,
    sampled: Sampled,
    // What is known of each atom, by its number.
    standings: Vec<Standing>,
}

impl Doubts {
    /// Those beside the conjunction at a place. What the search for directions does is taken off the effort. Its only error is want of
    /// memory.
    pub(crate) fn of(
        alloc: Global,
        numbered: &Numbered,
        place: usize,
        effort: &mut u64,
    ) -> Result<Doubts, AllocError>
        ensures { effort.new ≤ effort.old }
    {
        let own = numbered.of(place);
        let mut doubts = Doubts {
            directions: None,
            sampled: Sampled::Once(None),
            standings: vec![in alloc; Standing::Unasked; numbered.len()]?,
        };
        for number in own {
            doubts.note(*number, Standing::Likely);
        }
        if numbered.are_several(own) {
            doubts.sampled = Sampled::NotYet;
            if let Some(table) = &numbered.table {
                let assumed = &numbered.assumed;
                doubts.directions = Some(Directions::of(alloc, table, assumed, own, effort)?);
            }
        }
        Ok(doubts)
    }

    /// Whether an atom of the other conjunction, which is the one at this place, is not expected to be shown. What the search for a point
    /// does is taken off the effort. Its only error is want of memory.
    pub(crate) fn refuse(
        &mut self,
        alloc: Global,
        assumed: &[AtomRows],
        given: &Conjunction,
        numbered: &Numbered,
        place: usize,
        other: &Conjunction,
        effort: &mut u64,
    ) -> Result<bool, AllocError>
        ensures { effort.new ≤ effort.old }
    {
        let numbers = numbered.of(place);
        if self.have_doubted(numbers) || self.turn_away(numbered, numbers, other) {
            return Ok(true);
        }
        if self.find_likely(numbers) {
            return Ok(false);
        }
        if let Sampled::NotYet = self.sampled {
            self.sampled = Sampled::Once(Sample::of(alloc, assumed, &given.rows, effort)?);
        }
        Ok(self.miss(numbers, other))
    }

    // Whether one of the atoms is doubted.
    fn have_doubted(&self, numbers: &[usize]) -> bool {
        numbers
            .iter()
            .any(|number| self.standing(*number) == Standing::Doubted)
    }

    // Whether each of the atoms is likely.
    fn find_likely(&self, numbers: &[usize]) -> bool {
        numbers
            .iter()
            .all(|number| self.standing(*number) == Standing::Likely)
    }

    // Whether a direction leads to where one of the atoms is false.
    fn turn_away(&mut self, numbered: &Numbered, numbers: &[usize], other: &Conjunction) -> bool {
        for (number, rows) in numbers.iter().zip(&other.rows) {
            if self.standing(*number) == Standing::Unasked {
                if !self.may_imply(numbered, *number, rows) {
                    self.note(*number, Standing::Doubted);
                    return true;
                }
                self.note(*number, Standing::Open);
            }
        }
        false
    }

    // Whether the directions leave it open that the atom with this number and these rows is implied.
    fn may_imply(&self, numbered: &Numbered, number: usize, rows: &AtomRows) -> bool {
        match (&self.directions, &numbered.table) {
            (Some(directions), Some(table)) => directions.may_imply(table, number),
            _ => rows.fails.is_some(),
        }
    }

    // Whether the point does not meet one of the atoms.
    fn miss(&mut self, numbers: &[usize], other: &Conjunction) -> bool {
        for (number, rows) in numbers.iter().zip(&other.rows) {
            if self.standing(*number) == Standing::Open {
                if !self.may_show(rows) {
                    self.note(*number, Standing::Doubted);
                    return true;
                }
                self.note(*number, Standing::Likely);
            }
        }
        false
    }

    // Whether the point leaves it open that the atom with these rows is implied.
    fn may_show(&self, rows: &AtomRows) -> bool {
        match &self.sampled {
            Sampled::Once(Some(sample)) => sample.may_show(rows),
            Sampled::Once(None) | Sampled::NotYet => true,
        }
    }

    /// Adds an atom that a search did not show, by its number.
    pub(crate) fn add(&mut self, number: usize) {
        self.note(number, Standing::Doubted);
    }

    // What is known of the atom with a number.
    fn standing(&self, number: usize) -> Standing {
        match self.standings.get(number) {
            Some(standing) => *standing,
            None => Standing::Likely,
        }
    }

    // Writes down what is known of the atom with a number.
    fn note(&mut self, number: usize, standing: Standing) {
        if let Some(known) = self.standings.get_mut(number) {
            *known = standing;
        }
    }
}
