//! Lists of atoms by their sorted ids, as paths from place to place, along which those within another list are looked for.

ghost use Rattle.std.specs.Prelude.{◌≡◌, ◌++◌, ◌∷◌, [], None, true, IfOk, OnOk, OnErr};
ghost use Rattle.logic_meaning.specs.Some.{SomeOf};
ghost use Rattle.formula_store.specs.Order.{Rises};
ghost use Rattle.normal_forms.specs.Paths.{Leads, LeadsTo, Grows, Notes, CanGoOn, goes_up_to, place_at};

use formula_store::FormulaId;
use std::alloc::{AllocError, Global};
use std::collections::HashMap;

// Where each path begins.
const BEGIN: usize = 0;

/// What is known of a place.
#[derive(Clone, Copy)]
pub(crate) struct Place {
    /// The greatest atom that leads on from here.
    greatest: Option<FormulaId>,
    /// The list whose path ends here.
    list: Option<usize>,
}

impl Place {
    // Nothing leads on from here, and nothing ends here.
    const BARE: Place = Place {
        greatest: None,
        list: None,
    };

    // Whether this atom, or a greater one, leads on from here.
    fn goes_up_to(self, atom: FormulaId) -> bool
        ensures { result ≡ goes_up_to self atom }
    {
        match self.greatest {
            Some(greatest) => atom <= greatest,
            None => false,
        }
    }
}

/// A place that is come to, and the atom of a list from which on it goes on from there.
#[derive(Clone, Copy)]
pub(crate) struct Visit {
    place: usize,
    from: usize,
}

/// What a search finds.
#[derive(Clone, Copy)]
pub(crate) enum Found {
    /// No list.
    Nothing,
    /// The list with this number.
    List(usize),
    /// Nothing in so many visits.
    Unknown,
}

/// Lists of atoms as paths. The atoms of a list, sorted, lead from place to place, up to one where the list ends.
#[derive(Drop)]
pub(crate) struct Paths {
    steps: HashMap<(usize, FormulaId), usize>,
    places: HashMap<usize, Place>,
}

impl Paths {
    /// No lists.
    pub(crate) fn new(alloc: Global) -> Paths {
        Paths {
            steps: HashMap::new(alloc),
            places: HashMap::new(alloc),
        }
    }

    /// Puts in a list of atoms, which has this number.
    pub(crate) fn add(&mut self, atoms: &[FormulaId], list: usize) -> Result<(), AllocError>
        ensures grows { Grows self.old self.new }
        ensures leads { OnOk result (Leads self.new BEGIN atoms.now) }
    {
        let mut place = BEGIN;
        for atom in atoms {
            place = self.step(place, *atom)?;
        }
        let mut known = self.place(place);
        known.list = Some(list);
        self.note(place, known)
    }

    // What is known of a place.
    fn place(&self, place: usize) -> Place
        ensures { result ≡ place_at self.now place }
    {
        match self.places.get(&place) {
            Some(known) => *known,
            None => Place::BARE,
        }
    }

    // Notes what is known of a place.
    fn note(&mut self, place: usize, known: Place) -> Result<(), AllocError>
        ensures noted { OnOk result (Notes self.old self.new place known) }
        ensures unchanged { OnErr result (Grows self.old self.new) }
    {
        match self.places.insert(place, known) {
            Ok(_before) => Ok(()),
            Err(_failed) => Err(AllocError),
        }
    }

    // The place to which the atom leads from this one. It is made where there is none.
    fn step(&mut self, place: usize, atom: FormulaId) -> Result<usize, AllocError>
        ensures grows { Grows self.old self.new }
        ensures leads { IfOk result (LeadsTo self.new place atom) }
    {
        self.reach(place, atom)?;
        if let Some(next) = self.steps.get(&(place, atom)) {
            return Ok(*next);
        }
        let next = self.steps.len() + 1;
        match self.steps.insert((place, atom), next) {
            Ok(_before) => Ok(next),
            Err(_failed) => Err(AllocError),
        }
    }

    // Notes that the atom leads on from the place.
    fn reach(&mut self, place: usize, atom: FormulaId) -> Result<(), AllocError>
        ensures grows { Grows self.old self.new }
        ensures reached { OnOk result (goes_up_to (place_at self.new place) atom ≡ true) }
    {
        let mut known = self.place(place);
        if known.goes_up_to(atom) {
            return Ok(());
        }
        known.greatest = Some(atom);
        self.note(place, known)
    }

    /// A list that may be within these atoms, whose ids rise: looked for in so many visits. Where nothing is found, no list is.
    pub(crate) fn within(
        &self,
        alloc: Global,
        atoms: &[FormulaId],
        visits: usize,
    ) -> Result<Found, AllocError>
        requires { Rises atoms.now }
        ensures { IfOk result (λ found. found ≡ Found.Nothing → ¬ (CanGoOn self.now atoms.now (record { place = BEGIN; from = 0 }))) }
    {
        let begin = Visit {
            place: BEGIN,
            from: 0,
        };
        let mut waiting = vec![in alloc; begin]?;
        for _ in 0..visits {
            let Some(visit) = waiting.pop() else {
                return Ok(Found::Nothing);
            };
            if let Some(list) = self.visit(atoms, visit, &mut waiting)? {
                return Ok(Found::List(list));
            }
        }
        Ok(Found::Unknown)
    }

    // The list that ends at a place that is visited; where none does, those from there wait.
    fn visit(
        &self,
        atoms: &[FormulaId],
        visit: Visit,
        waiting: &mut Vec<Visit>,
    ) -> Result<Option<usize>, AllocError>
        requires { Rises atoms.now }
        ensures { IfOk result (λ list. list ≡ None → SomeOf (CanGoOn self.now atoms.now) (waiting.old.items ++ visit ∷ []) → SomeOf (CanGoOn self.now atoms.now) waiting.new.items) }
    {
        let place = self.place(visit.place);
        if place.list.is_some() {
            return Ok(place.list);
        }
        let Some(atom) = atoms.get(visit.from) else {
            return Ok(None);
        };
        if !place.goes_up_to(*atom) {
            return Ok(None);
        }
        let from = visit.from + 1;
        waiting.push(Visit {
            place: visit.place,
            from,
        })?;
        if let Some(next) = self.steps.get(&(visit.place, *atom)) {
            waiting.push(Visit { place: *next, from })?;
        }
        Ok(None)
    }
}
