//! Which name goes next.

use logic_meaning::VarId;
use normal_atoms::{Atom, Rel};
use std::alloc::{AllocError, Global};
use std::collections::HashMap;

/// An equation lets its names come before those without one.
const BY_EQUATION: i64 = i64::MIN;

// How many atoms bound a name below, how many above, and whether one is an equation.
#[derive(Clone, Copy)]
struct Counts {
    lower: i64,
    upper: i64,
    equation: bool,
}

impl Counts {
    const NONE: Counts = Counts {
        lower: 0,
        upper: 0,
        equation: false,
    };

    // Counts an atom, in which the name has the coefficient.
    fn add(&mut self, relation: Rel, coefficient: i128) {
        match relation {
            Rel::Equal => self.equation = true,
            Rel::Differs => {}
            Rel::Less | Rel::AtMost if 0 < coefficient => self.upper = self.upper.saturating_add(1),
            Rel::Less | Rel::AtMost => self.lower = self.lower.saturating_add(1),
            Rel::Greater | Rel::AtLeast if 0 < coefficient => {
                self.lower = self.lower.saturating_add(1)
            }
            Rel::Greater | Rel::AtLeast => self.upper = self.upper.saturating_add(1),
        }
    }

    // How many atoms more there are where each lower bound is paired with each upper one.
    fn growth(self) -> i64 {
        if self.equation {
            return BY_EQUATION;
        }
        let pairs = self.lower.saturating_mul(self.upper);
        pairs.saturating_sub(self.lower).saturating_sub(self.upper)
    }
}

/// The places of the names, those first of which the fewest atoms come. Its only error is want of memory.
pub(crate) fn by_growth(
    alloc: Global,
    atoms: &[Atom],
    names: &[VarId],
) -> Result<Vec<usize>, AllocError> {
    let table = counts_of(alloc, atoms)?;
    let mut growths = Vec::with_capacity(alloc, names.len())?;
    for (place, name) in names.iter().enumerate() {
        let counts = table.get(&name.number).copied().unwrap_or(Counts::NONE);
        growths.push((counts.growth(), place))?;
    }
    growths.sort_unstable();
    let mut places = Vec::with_capacity(alloc, names.len())?;
    for (_, place) in growths {
        places.push(place)?;
    }
    Ok(places)
}

// How the comparisons among the atoms bound each of their names, by its number.
fn counts_of(alloc: Global, atoms: &[Atom]) -> Result<HashMap<usize, Counts>, AllocError> {
    let mut table = HashMap::new(alloc);
    for atom in atoms {
        count(&mut table, atom)?;
    }
    Ok(table)
}

// Counts how an atom bounds its names, if it is a comparison.
fn count(table: &mut HashMap<usize, Counts>, atom: &Atom) -> Result<(), AllocError> {
    let Atom::Compare(relation, form) = atom else {
        return Ok(());
    };
    for place in 0..form.places() {
        if let Some((name, coefficient)) = form.term(place) {
            let mut counts = table.get(&name.number).copied().unwrap_or(Counts::NONE);
            counts.add(*relation, coefficient);
            table.insert(name.number, counts).map_err(|_| AllocError)?;
        }
    }
    Ok(())
}
