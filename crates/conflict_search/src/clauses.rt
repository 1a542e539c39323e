// Clauses by their places, and the literals by which they are watched.
use crate::trail::{Standing, Trail};
use clause_theory::Literal;
use std::alloc::{AllocError, Global};
use std::mem;

// A clause. What is learned may be given up; its place stays.
#[derive(Drop)]
pub(crate) struct Stored {
    pub(crate) literals: Vec<Literal>,
    pub(crate) origin: Origin,
}

// Whether a clause was given; or follows from others or from the rows, with its literals of so many decision levels; or was given up.
#[derive(Clone, Copy, PartialEq, Eq)]
pub(crate) enum Origin {
    Given,
    Learned(usize),
    Dropped,
}

// A clause that is watched by a literal, and another literal of it: where that holds, the clause does.
#[derive(Clone, Copy)]
struct Watch {
    place: usize,
    other: Literal,
}

// The clauses that are watched by the literals of one variable.
#[derive(Drop)]
struct Watches {
    positive: Vec<Watch>,
    negative: Vec<Watch>,
}

impl Watches {
    fn of(&mut self, holds: bool) -> &mut Vec<Watch> {
        if holds {
            &mut self.positive
        } else {
            &mut self.negative
        }
    }
}

// What a clause comes to when a literal that it is watched by fails.
#[derive(Clone, Copy)]
enum Look {
    Holds(Literal),
    Moved(Literal, Literal),
    Unit(Literal),
    Fails,
    Gone,
}

// All clauses.
#[derive(Drop)]
pub(crate) struct Clauses {
    alloc: Global,
    pub(crate) stored: Vec<Stored>,
    watches: Vec<Watches>,
}

impl Clauses {
    pub(crate) fn new(alloc: Global) -> Clauses {
        Clauses {
            alloc,
            stored: Vec::new(alloc),
            watches: Vec::new(alloc),
        }
    }

    // Adds a variable.
    pub(crate) fn add_variable(&mut self) -> Result<(), AllocError> {
        self.watches.push(Watches {
            positive: Vec::new(self.alloc),
            negative: Vec::new(self.alloc),
        })?;
        Ok(())
    }

    // Adds a clause that is not watched yet, and gives its place.
    pub(crate) fn add(
        &mut self,
        literals: Vec<Literal>,
        origin: Origin,
    ) -> Result<usize, AllocError> {
        let place = self.stored.len();
        self.stored.push(Stored { literals, origin })?;
        Ok(place)
    }

    // The literals of a clause.
    #[inline(always)]
    pub(crate) fn literals(&self, place: usize) -> &[Literal] {
        match self.stored.get(place) {
            Some(clause) => clause.literals.as_slice(),
            None => &[],
        }
    }

    // Lets a clause be watched by its first two literals.
    pub(crate) fn watch(&mut self, place: usize) -> Result<(), AllocError> {
        let (first, second) = match self.literals(place) {
            [first, second, ..] => (*first, *second),
            _ => return Ok(()),
        };
        self.add_watch(
            first,
            Watch {
                place,
                other: second,
            },
        )?;
        self.add_watch(
            second,
            Watch {
                place,
                other: first,
            },
        )
    }

    // Adds a clause to those that a literal watches.
    fn add_watch(&mut self, literal: Literal, watch: Watch) -> Result<(), AllocError> {
        if let Some(watches) = self.watches.get_mut(literal.variable) {
            watches.of(literal.holds).push(watch)?;
        }
        Ok(())
    }

    // Looks at the clauses that are watched by a literal which fails, sets the literals that are left alone, and gives the place of a
    // clause that fails, if one does.
    pub(crate) fn visit(
        &mut self,
        failing: Literal,
        trail: &mut Trail,
    ) -> Result<Option<usize>, AllocError> {
        let empty = Vec::new(self.alloc);
        let Some(watches) = self.watches.get_mut(failing.variable) else {
            return Ok(None);
        };
        let mut list = mem::replace(watches.of(failing.holds), empty);
        let mut conflict = None;
        let mut kept = 0;
        for index in 0..list.len() {
            let Some(mut watch) = list.get(index).copied() else {
                break;
            };
            if conflict.is_none() && trail.standing(watch.other) != Standing::Holds {
                match self.look(watch.place, failing, trail) {
                    Look::Holds(other) => watch.other = other,
                    Look::Moved(literal, other) => {
                        let place = watch.place;
                        self.add_watch(literal, Watch { place, other })?;
                        continue;
                    }
                    Look::Unit(literal) => trail.set(literal, Some(watch.place))?,
                    Look::Fails => conflict = Some(watch.place),
                    Look::Gone => continue,
                }
            }
            if let Some(entry) = list.get_mut(kept) {
                *entry = watch;
            }
            kept = kept.wrapping_add(1);
        }
        list.truncate(kept);
        if let Some(watches) = self.watches.get_mut(failing.variable) {
            *watches.of(failing.holds) = list;
        }
        Ok(conflict)
    }

    // What a clause comes to when one of the first two of its literals fails.
    #[inline(always)]
    fn look(&mut self, place: usize, failing: Literal, trail: &Trail) -> Look {
        let Some(clause) = self.stored.get_mut(place) else {
            return Look::Gone;
        };
        let literals = &mut clause.literals;
        if literals.first().copied() == Some(failing) {
            exchange(literals, 0, 1);
        }
        let Some(first) = literals.first().copied() else {
            return Look::Gone;
        };
        let standing = trail.standing(first);
        if standing == Standing::Holds {
            return Look::Holds(first);
        }
        for index in 2..literals.len() {
            if let Some(literal) = literals.get(index).copied()
                && trail.standing(literal) != Standing::Fails
            {
                exchange(literals, 1, index);
                return Look::Moved(literal, first);
            }
        }
        if standing == Standing::Fails {
            Look::Fails
        } else {
            Look::Unit(first)
        }
    }

    // Brings the literals that fail last to the front: those that do not fail, and then those of the highest levels.
    pub(crate) fn bring_forward(&mut self, place: usize, trail: &Trail) {
        if let Some(clause) = self.stored.get_mut(place) {
            for front in 0..2 {
                if let Some(best) = last_to_fail(&clause.literals, front, trail) {
                    exchange(&mut clause.literals, front, best);
                }
            }
        }
    }

    // Gives up a learned clause.
    pub(crate) fn drop_clause(&mut self, place: usize) {
        let empty = Vec::new(self.alloc);
        if let Some(clause) = self.stored.get_mut(place) {
            clause.origin = Origin::Dropped;
            clause.literals = empty;
        }
    }
}

// The place, from one on, of a literal that does not fail, or of the highest level.
fn last_to_fail(literals: &[Literal], from: usize, trail: &Trail) -> Option<usize> {
    let mut best = None;
    for index in from..literals.len() {
        let literal = literals.get(index).copied()?;
        let rank = match trail.standing(literal) {
            Standing::Holds => (2, 0),
            Standing::Open => (1, 0),
            Standing::Fails => (0, trail.cause(literal.variable).level),
        };
        match best {
            Some((most, _)) if rank <= most => {}
            _ => best = Some((rank, index)),
        }
    }
    Some(best?.1)
}

// Exchanges the literals at two places, where there are such.
#[inline(always)]
fn exchange(literals: &mut [Literal], one: usize, other: usize) {
    if let Some(first) = literals.get(one).copied()
        && let Some(second) = literals.get(other).copied()
    {
        if let Some(entry) = literals.get_mut(one) {
            *entry = second;
        }
        if let Some(entry) = literals.get_mut(other) {
            *entry = first;
        }
    }
}
