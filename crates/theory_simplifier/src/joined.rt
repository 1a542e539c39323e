//! The atoms of a list, which merge as they come.

ghost use Rattle.std.specs.Prelude.{◌≡◌, ◌<◌, ◌++◌, ◌∷◌, [], IfOk, IfSome, IsTrue, OnOk, length, map, set, get_or, option_map};
ghost use Rattle.std.specs.List.{AllByRecursion};
ghost use Rattle.logic_meaning.specs.Some.{EachOf};
ghost use Rattle.logic_meaning.specs.declared.junction.Junction.TheVariants.{Conjunction};
ghost use Rattle.normal_atoms.specs.Atoms.{context_of, atom_of, IsWellFormed};
ghost use Rattle.logic_meaning.specs.NormalForm.{IsNormal};
ghost use Rattle.normal_atoms.specs.Computed.{IsNormalWithin, merged, merging_of};
ghost use Rattle.shape_theory.specs.AtomKit.{atom_kit};
ghost use Rattle.shape_theory.specs.Pass.{decided, with_one};
ghost use Rattle.theory_simplifier.specs.VariableParts.{part_number};
ghost use Rattle.theory_simplifier.specs.Listed.{Listed, told_by, entry_atom, IsEntry};
ghost use Rattle.theory_simplifier.specs.Partners.{IsPartner, IsNormalMerged};

use crate::part::part_number;
use crate::places::{Places, places_at, with_place};
use logic_meaning::Junction;
use normal_atoms::{Atom, Context, Merged, decides, merge_and, merge_or, negate};
use std::alloc::{AllocError, Global};
use std::collections::HashMap;
use std::marker::Model;

/// An atom of a list, and what it tells the members beside it: in an `and` that it is true, in an `or` that it is false.
#[derive(Drop)]
pub(crate) struct Entry {
    pub(crate) atom: Atom,
    pub(crate) told: Atom,
}

/// The atoms of a conjunction or a disjunction. An atom is held only against those whose variable parts have the number of its own.
#[derive(Drop)]
pub(crate) struct Joined {
    junction: Junction,
    entries: Vec<Entry>,
    places: Places,
}

impl Model for Joined {
    ghost use Rattle.std.specs.Prelude.{map};
    ghost use Rattle.std.specs.List.{AllByRecursion};
    ghost use Rattle.theory_simplifier.specs.Listed.{Listed, entry_atom, IsEntry};
    ghost use Rattle.theory_simplifier.specs.VariableParts.{part_number};
    ghost use Rattle.theory_simplifier.specs.Places.{ArePlaces};

    ghost Value = { Listed };

    ghost view = { λ l. record { junction = l.junction; atoms = map entry_atom l.entries.items } };

    ghost invariant = { λ l. AllByRecursion (IsEntry l.junction) l.entries.items × ArePlaces part_number l.places (map entry_atom l.entries.items) };
}

impl Joined {
    /// No atoms.
    pub(crate) fn new(alloc: Global, junction: Junction) -> Joined
        ensures { result ≡ record { junction = junction; atoms = [] } }
    {
        Joined {
            junction,
            entries: Vec::new(alloc),
            places: HashMap::new(alloc),
        }
    }

    /// The atoms as they are, joined by `and`.
    pub(crate) fn of(alloc: Global, atoms: &[Atom]) -> Result<Joined, AllocError>
        requires { AllByRecursion IsWellFormed atoms.now }
        ensures { IfOk result (λ l. l ≡ record { junction = Conjunction; atoms = map atom_of atoms.now }) }
    {
        let mut list = Joined::new(alloc, Junction::Conjunction);
        for atom in atoms {
            let part = part_number(alloc, atom)?;
            list = list.with_last(alloc, atom, part)?;
        }
        Ok(list)
    }

    /// The truth of the atom, whose variable part has this number, by what the atoms tell: that of the first that decides it. It takes no
    /// memory.
    pub(crate) fn decided(&self, context: Context, atom: &Atom, part: u64) -> Option<bool>
        requires well_formed { IsWellFormed atom.now }
        requires part { part ≡ part_number (atom_of atom.now) }
        requires normal { IsNormalWithin (context_of context) (atom_of atom.now) }
        requires atoms { EachOf (IsNormalWithin (context_of context)) self.now.atoms }
        ensures { result ≡ decided (atom_kit (context_of context)) (told_by self.now) (atom_of atom.now) }
    {
        if self.is_empty() {
            return None;
        }
        for place in places_at(&self.places, part) {
            let truth = decides(context, &self.entries[*place].told, atom);
            if truth.is_some() {
                return truth;
            }
        }
        None
    }

    /// The list with the atom, whose variable part has this number: it takes the place of the first with which it merges, else it comes
    /// last. `None` where the two settle the list.
    pub(crate) fn with(
        self,
        alloc: Global,
        context: Context,
        atom: &Atom,
        part: u64,
    ) -> Result<Option<Joined>, AllocError>
        requires well_formed { IsWellFormed atom.now }
        requires part { part ≡ part_number (atom_of atom.now) }
        requires normal { IsNormalWithin (context_of context) (atom_of atom.now) }
        requires atoms { EachOf (IsNormalWithin (context_of context)) self.atoms }
        ensures with { IfOk result (λ r. with_one (atom_kit (context_of context)) self.junction (atom_of atom.now) self.atoms ≡ option_map (λ (l : Listed). l.atoms) r) }
        ensures junction { IfOk result (λ r. IfSome r (λ l. l.junction ≡ self.junction)) }
        ensures normal { IfOk result (λ r. IfSome r (λ l. EachOf (IsNormalWithin (context_of context)) l.atoms)) }
    {
        let Some((place, merged)) = self.partner(alloc, context, atom, part)? else {
            let list = self.with_last(alloc, atom, part)?;
            return Ok(Some(list));
        };
        match merged {
            Merged::One(both) => {
                let list = self.with_at(alloc, place, both)?;
                Ok(Some(list))
            }
            _ => Ok(None),
        }
    }

    /// Whether there are no atoms. It takes no memory.
    pub(crate) fn is_empty(&self) -> bool
        ensures { IsTrue result → self.now.atoms ≡ [] }
    {
        self.entries.is_empty()
    }

    /// The atoms in their order. It takes no memory.
    pub(crate) fn entries(&self) -> &[Entry]
        ensures atoms { map entry_atom result.now ≡ self.now.atoms }
        ensures entries { AllByRecursion (IsEntry self.now.junction) result.now }
    {
        &self.entries
    }

    // The place of the first atom with which this one merges, and what they become.
    fn partner(
        &self,
        alloc: Global,
        context: Context,
        atom: &Atom,
        part: u64,
    ) -> Result<Option<(usize, Merged)>, AllocError>
        requires well_formed { IsWellFormed atom.now }
        requires part { part ≡ part_number (atom_of atom.now) }
        requires normal { IsNormalWithin (context_of context) (atom_of atom.now) }
        requires atoms { EachOf (IsNormalWithin (context_of context)) self.now.atoms }
        ensures { IfOk result (IsPartner (context_of context) self.now.junction (atom_of atom.now) self.now.atoms) }
    {
        for place in places_at(&self.places, part) {
            let other = &self.entries[*place].atom;
            let merged = merged(alloc, context, self.junction, other, atom)?;
            if !matches!(merged, Merged::Keep) {
                return Ok(Some((*place, merged)));
            }
        }
        Ok(None)
    }

    // The list with the atom last, whose variable part has this number.
    fn with_last(self, alloc: Global, atom: &Atom, part: u64) -> Result<Joined, AllocError>
        requires well_formed { IsWellFormed atom.now }
        requires part { part ≡ part_number (atom_of atom.now) }
        ensures { IfOk result (λ l. l ≡ record { junction = self.junction; atoms = self.atoms ++ atom_of atom.now ∷ [] }) }
    {
        let Joined {
            junction,
            mut entries,
            places,
        } = self;
        let atom = atom.copy(alloc).map_err(|_| AllocError)?;
        let entry = told_entry(alloc, junction, atom)?;
        let places = with_place(alloc, places, part, entries.len())?;
        entries.push(entry)?;
        Ok(Joined {
            junction,
            entries,
            places,
        })
    }

    // The list with the atom at the place of another of its variable part.
    fn with_at(self, alloc: Global, place: usize, atom: Atom) -> Result<Joined, AllocError>
        requires well_formed { IsWellFormed atom }
        requires place { place < length self.atoms }
        requires part { part_number (atom_of atom) ≡ part_number (get_or self.atoms place (atom_of atom)) }
        ensures { IfOk result (λ l. l ≡ record { junction = self.junction; atoms = set self.atoms place (atom_of atom) }) }
    {
        let Joined {
            junction,
            mut entries,
            places,
        } = self;
        entries[place] = told_entry(alloc, junction, atom)?;
        Ok(Joined {
            junction,
            entries,
            places,
        })
    }
}

// The atom with what it tells.
fn told_entry(alloc: Global, junction: Junction, atom: Atom) -> Result<Entry, AllocError>
    requires { IsWellFormed atom }
    ensures atom { IfOk result (λ e. entry_atom e ≡ atom_of atom) }
    ensures entry { IfOk result (IsEntry junction) }
{
    let told = match junction {
        Junction::Conjunction => atom.copy(alloc).map_err(|_| AllocError)?,
        Junction::Disjunction => negate(alloc, &atom).map_err(|_| AllocError)?,
    };
    Ok(Entry { atom, told })
}

/// What two atoms of a list become.
pub(crate) fn merged(
    alloc: Global,
    context: Context,
    junction: Junction,
    a: &Atom,
    b: &Atom,
) -> Result<Merged, AllocError>
    requires well_formed { IsWellFormed a.now }
    requires other_well_formed { IsWellFormed b.now }
    requires normal { IsNormalWithin (context_of context) (atom_of a.now) }
    requires other_normal { IsNormalWithin (context_of context) (atom_of b.now) }
    ensures merged { IfOk result (λ m. merging_of m ≡ merged (context_of context) junction (atom_of a.now) (atom_of b.now)) }
    ensures normal { IfOk result (IsNormalMerged (context_of context)) }
{
    let merged = match junction {
        Junction::Conjunction => merge_and(alloc, context, a, b),
        Junction::Disjunction => merge_or(alloc, context, a, b),
    };
    merged.map_err(|_| AllocError)
}
