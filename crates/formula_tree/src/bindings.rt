ghost use Rattle.std.specs.Prelude.{◌≡◌, ◌<◌, ◌≤◌, ℕ, [], Some, None, Err, IfErr, OnOk, OnErr, length, slice_get, option_map};
ghost use Rattle.std.specs.List.{IsDistinct};
ghost use Rattle.std.specs.Map.{keys_of};
ghost use Rattle.logic_meaning.specs.SameName.{same_name};
ghost use Rattle.logic_meaning.specs.Bindings.{bound_to, bind, most_bound};

use indexmap::IndexMap;
use logic_meaning::Name;
use std::alloc::Global;
use std::marker::Model;
use thiserror::Error;

/// At most so many names are bound.
const MOST_BOUND: usize = 256;

/// Why a name was not bound.
#[derive(Clone, Copy, Debug, PartialEq, Eq, Drop, Error)]
pub enum BindError {
    /// 256 other names are bound.
    #[error("256 names are bound")]
    Full,
    /// There is no memory left.
    #[error("out of memory")]
    Memory,
}

/// Names of formulas with what is bound to them, in the order in which they were first bound.
#[derive(Drop)]
pub struct Bindings<Id> {
    entries: IndexMap<Name, Id>,
}

impl<Id> Model for Bindings<Id> {
    ghost use Rattle.std.specs.Prelude.{List, ℕ};
    ghost use Rattle.std.specs.List.{IsDistinct};
    ghost use Rattle.std.specs.Map.{keys_of};
    ghost use Rattle.logic_meaning.specs.SameName.{same_name};

    ghost Value = { List (List ℕ × Id) };

    ghost view = { λ b. b.entries.entries };

    ghost invariant = { λ b. IsDistinct same_name (keys_of b.entries.entries) };
}

impl<Id: Copy> Bindings<Id> {
    /// Nothing is bound.
    pub fn new(alloc: Global) -> Bindings<Id>
        ensures { result ≡ [] }
    {
        Bindings {
            entries: IndexMap::new(alloc),
        }
    }

    /// What is bound to the name; `None` exactly where nothing is. It takes no memory.
    pub fn get(&self, name: &Name) -> Option<Id>
        ensures { result ≡ bound_to self.now name.now }
    {
        self.entries.get(name).copied()
    }

    /// Binds the name, in place of what was bound to it; a name that was bound keeps its place. `Full` comes exactly
    /// where 256 other names are bound, else `Memory`; both leave the bindings as they were.
    pub fn put(&mut self, name: &Name, id: Id) -> Result<(), BindError>
        ensures bound { OnOk result (self.new ≡ bind self.old name.now id) }
        ensures full { IfErr result (λ e. e ≡ BindError.Full → (bound_to self.old name.now ≡ None) × (most_bound ≤ length self.old)) }
        ensures room { OnOk result ((bound_to self.old name.now ≡ None) → length self.old < most_bound) }
        ensures unchanged { OnErr result (self.new ≡ self.old) }
    {
        if self.entries.len() >= MOST_BOUND && !self.entries.contains_key(name) {
            return Err(BindError::Full);
        }
        match self.entries.insert(*name, id) {
            Ok(_) => Ok(()),
            Err(_) => Err(BindError::Memory),
        }
    }

    /// Nothing is bound any more. It takes no memory.
    pub fn clear(&mut self)
        ensures { self.new ≡ [] }
    {
        self.entries.clear();
    }

    /// How many names are bound. It takes no memory.
    pub fn len(&self) -> usize
        ensures len { result ≡ length self.now }
        ensures distinct { IsDistinct same_name (keys_of self.now) }
    {
        self.entries.len()
    }

    /// What is bound to the name at a place, from 0 on; `None` exactly where the place isn't below the length. It takes no
    /// memory.
    pub fn bound_at(&self, place: usize) -> Option<Id>
        ensures { result ≡ option_map (λ e. e.1) (slice_get self.now place) }
    {
        let (_, id) = self.entries.get_index(place)?;
        Some(*id)
    }

    /// The name at a place, from 0 on; `None` exactly where the place isn't below the length. It takes no memory.
    pub fn name_at(&self, place: usize) -> Option<Name>
        ensures { result ≡ option_map (λ e. e.0) (slice_get self.now place) }
    {
        let (name, _) = self.entries.get_index(place)?;
        Some(*name)
    }
}
