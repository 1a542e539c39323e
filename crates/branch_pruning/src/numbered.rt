//! The atoms of conjunctions, numbered.

use crate::conjunction::Conjunction;
use atom_pruning::{AtomRows, Table};
use formula_store::FormulaId;
use std::alloc::{AllocError, Global};

/// The atoms of conjunctions, rising and each once, and the assumptions behind them: a number is a place among these. It is for what
/// spares searches, and no clause says anything of it.
#[derive(Drop)]
pub(crate) struct Numbered {
    atoms: Vec<FormulaId>,
    // The numbers of the atoms of each conjunction.
    each: Vec<Vec<usize>>,
    /// The numbers of the assumptions.
    pub assumed: Vec<usize>,
    /// What they all say, if something is to be spared by it and it is not too much.
    pub table: Option<Table>,
}

impl Numbered {
    /// The atoms of the conjunctions that are there, and the assumptions with these rows. Its only error is want of memory.
    pub(crate) fn of_all(
        alloc: Global,
        assumed: &[AtomRows],
        conjunctions: &[Option<Conjunction>],
    ) -> Result<Numbered, AllocError> {
        let atoms = atoms_of_all(alloc, conjunctions)?;
        let mut numbered = Numbered {
            assumed: numbers_from(alloc, atoms.len(), assumed.len())?,
            atoms,
            each: Vec::new(alloc),
            table: None,
        };
        for conjunction in conjunctions {
            let numbers = match conjunction {
                Some(conjunction) => numbered.numbers(alloc, &conjunction.ids)?,
                None => Vec::new(alloc),
            };
            numbered.each.push(numbers)?;
        }
        if numbered.each.iter().any(|own| numbered.are_several(own)) {
            numbered.table = numbered.table_of(alloc, assumed, conjunctions)?;
        }
        Ok(numbered)
    }

    // The numbers of the atoms.
    fn numbers(&self, alloc: Global, ids: &[FormulaId]) -> Result<Vec<usize>, AllocError> {
        let mut numbers = Vec::with_capacity(alloc, ids.len())?;
        for id in ids {
            numbers.push(self.number(*id))?;
        }
        Ok(numbers)
    }

    // What the atoms and the assumptions say.
    fn table_of(
        &self,
        alloc: Global,
        assumed: &[AtomRows],
        conjunctions: &[Option<Conjunction>],
    ) -> Result<Option<Table>, AllocError> {
        let mut rows = Vec::new(alloc);
        for (conjunction, place) in self.places(alloc)? {
            if let Some(of_one) = rows_at(conjunctions, conjunction, place) {
                rows.push(of_one)?;
            }
        }
        for of_one in assumed {
            rows.push(of_one)?;
        }
        Table::of(alloc, &rows)
    }

    // In which conjunction each atom stands, and where in it.
    fn places(&self, alloc: Global) -> Result<Vec<(usize, usize)>, AllocError> {
        let mut places = vec![in alloc; (0, 0); self.atoms.len()]?;
        for (conjunction, numbers) in self.each.iter().enumerate() {
            note_places(&mut places, conjunction, numbers);
        }
        Ok(places)
    }

    /// Whether atoms with these numbers have several rows together with the assumptions: beside one row a search takes less than what
    /// spares it.
    pub(crate) fn are_several(&self, numbers: &[usize]) -> bool {
        numbers.len().saturating_add(self.assumed.len()) > 1
    }

    /// The number of an atom; of another formula it says nothing.
    pub(crate) fn number(&self, id: FormulaId) -> usize {
        match self.atoms.binary_search(&id) {
            Ok(number) | Err(number) => number,
        }
    }

    /// The numbers of the atoms of the conjunction at a place.
    pub(crate) fn of(&self, place: usize) -> &[usize] {
        match self.each.get(place) {
            Some(numbers) => numbers,
            None => &[],
        }
    }

    /// How many atoms there are.
    pub(crate) fn len(&self) -> usize {
        self.atoms.len()
    }
}

// Notes where the atoms of a conjunction, which have these numbers, stand.
fn note_places(places: &mut Vec<(usize, usize)>, conjunction: usize, numbers: &[usize]) {
    for (place, number) in numbers.iter().enumerate() {
        if let Some(noted) = places.get_mut(*number) {
            *noted = (conjunction, place);
        }
    }
}

// The rows of an atom of a conjunction.
fn rows_at(
    conjunctions: &[Option<Conjunction>],
    conjunction: usize,
    place: usize,
) -> Option<&AtomRows> {
    match conjunctions.get(conjunction) {
        Some(Some(conjunction)) => conjunction.rows.get(place),
        Some(None) | None => None,
    }
}

// So many numbers from one on.
fn numbers_from(alloc: Global, first: usize, count: usize) -> Result<Vec<usize>, AllocError> {
    let mut numbers = Vec::with_capacity(alloc, count)?;
    for number in first..first.saturating_add(count) {
        numbers.push(number)?;
    }
    Ok(numbers)
}

// The atoms of the conjunctions, rising and each once.
fn atoms_of_all(
    alloc: Global,
    conjunctions: &[Option<Conjunction>],
) -> Result<Vec<FormulaId>, AllocError> {
    let mut atoms = Vec::new(alloc);
    for conjunction in conjunctions.iter().flatten() {
        atoms.extend_from_slice(&conjunction.ids)?;
    }
    atoms.sort_unstable();
    atoms.dedup();
    Ok(atoms)
}
