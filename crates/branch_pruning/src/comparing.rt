//! Which conjunction of atoms implies which, under assumptions.

ghost use Rattle.std.specs.Prelude.{◌≡◌, ◌≤◌, ◌<◌, IfOk, OnOk, IsTrue, IsSomeAnd, List, length, ◌∷◌, []};
ghost use Rattle.logic_meaning.specs.Context.{Context as Theory};
ghost use Rattle.logic_meaning.specs.Atom.{Atom as Meant};
ghost use Rattle.atom_pruning.specs.Rows.{AreRows};
ghost use Rattle.atom_pruning.specs.Kept.{Imply};
ghost use Rattle.branch_pruning.specs.Compared.{Implies, IsCovered};

use crate::conjunction::Conjunction;
use crate::doubts::Doubts;
use crate::numbered::Numbered;
use atom_pruning::{AtomRows, are_implied};
use std::alloc::{AllocError, Global};
use std::slice;

/// What compares conjunctions under the assumptions that have these rows, as far as the effort goes.
#[derive(Drop)]
pub(crate) struct Comparer {
    pub alloc: Global,
    pub assumed: Vec<AtomRows>,
    pub numbered: Numbered,
    pub effort: u64,
}

impl Comparer {
    /// Whether a conjunction of the list that has a mark and another place is implied by the given one, if that is one. Its only error
    /// is want of memory.
    pub(crate) fn is_covered(
        &mut self,
        given: &Option<Conjunction>,
        place: usize,
        all: &[Option<Conjunction>],
        marks: &[bool],
    ) -> Result<bool, AllocError>
        requires { length marks.now ≡ length all.now }
        ensures covered { IfOk result (λ b. IsTrue b → IsSomeAnd given.now (λ k. IsCovered self.old.assumed.items k place all.now marks.now)) }
        ensures assumed { OnOk result (self.new.assumed.items ≡ self.old.assumed.items) }
        ensures effort { OnOk result (self.new.effort ≤ self.old.effort) }
    {
        let Some(given) = given else {
            return Ok(false);
        };
        let mut doubts = self.doubts(place)?;
        for (i, other) in all.iter().enumerate() {
            if i != place && marks[i] && self.implies(given, &mut doubts, i, other)? {
                return Ok(true);
            }
        }
        Ok(false)
    }

    // What is doubted beside the conjunction at a place, at first.
    fn doubts(&mut self, place: usize) -> Result<Doubts, AllocError>
        ensures assumed { OnOk result (self.new.assumed.items ≡ self.old.assumed.items) }
        ensures effort { OnOk result (self.new.effort ≤ self.old.effort) }
    {
        Doubts::of(self.alloc, &self.numbered, place, &mut self.effort)
    }

    // Whether the first conjunction, beside which these doubts stand, implies that at the place, if there is one.
    fn implies(
        &mut self,
        given: &Conjunction,
        doubts: &mut Doubts,
        place: usize,
        other: &Option<Conjunction>,
    ) -> Result<bool, AllocError>
        ensures implied { IfOk result (λ b. IsTrue b → IsSomeAnd other.now (Implies self.old.assumed.items given.now)) }
        ensures assumed { OnOk result (self.new.assumed.items ≡ self.old.assumed.items) }
        ensures effort { OnOk result (self.new.effort ≤ self.old.effort) }
    {
        match other {
            Some(other) => {
                let refused = doubts.refuse(
                    self.alloc,
                    &self.assumed,
                    given,
                    &self.numbered,
                    place,
                    other,
                    &mut self.effort,
                )?;
                if refused {
                    return Ok(false);
                }
                self.implies_each(given, doubts, other)
            }
            None => Ok(false),
        }
    }

    // Whether each atom of the other conjunction is one of the given or is shown to be implied by them.
    fn implies_each(
        &mut self,
        given: &Conjunction,
        doubts: &mut Doubts,
        other: &Conjunction,
    ) -> Result<bool, AllocError>
        ensures implied { IfOk result (λ b. IsTrue b → Implies self.old.assumed.items given.now other.now) }
        ensures assumed { OnOk result (self.new.assumed.items ≡ self.old.assumed.items) }
        ensures effort { OnOk result (self.new.effort ≤ self.old.effort) }
    {
        for (id, rows) in other.ids.iter().zip(&other.rows) {
            if given.has(*id) {
                continue;
            }
            if !self.shows(given, rows)? {
                doubts.add(self.numbered.number(*id));
                return Ok(false);
            }
        }
        Ok(true)
    }

    // Whether multipliers show that the given atoms imply the one with these rows.
    fn shows(&mut self, given: &Conjunction, rows: &AtomRows) -> Result<bool, AllocError>
        ensures implied { IfOk result (λ b. IsTrue b → (c : Theory) (ks gs us : List Meant) → AreRows c ks self.old.assumed.items → AreRows c gs given.now.rows.items → AreRows c us (rows.now ∷ []) → Imply c ks gs us) }
        ensures assumed { OnOk result (self.new.assumed.items ≡ self.old.assumed.items) }
        ensures effort { OnOk result (self.new.effort ≤ self.old.effort) }
    {
        are_implied(
            self.alloc,
            &self.assumed,
            &given.rows,
            slice::from_ref(rows),
            &mut self.effort,
        )
    }
}
