ghost use Rattle.std.specs.Prelude.{◌≡◌, ◌≤◌, ℕ, [], Some, IfOk, IfErr, OnOk, OnErr, length, take, position, slice_get, option_map};
ghost use Rattle.logic_meaning.specs.SameName.{same_name};
ghost use Rattle.logic_meaning.specs.Names.{with_name, place};

use indexmap::IndexSet;
use logic_meaning::{Name, VarId};
use std::alloc::Global;
use std::marker::Model;
use thiserror::Error;

/// Why a name could not be numbered.
#[derive(Clone, Copy, Debug, PartialEq, Eq, Drop, Error)]
pub enum NamesError {
    /// There is no memory left.
    #[error("out of memory")]
    Memory,
}

/// The names of variables, in the order in which they were numbered, from 0 on.
#[derive(Drop)]
pub struct Names {
    names: IndexSet<Name>,
}

impl Model for Names {
    ghost use Rattle.std.specs.Prelude.{List, ℕ};
    ghost use Rattle.std.specs.List.{IsDistinct};
    ghost use Rattle.logic_meaning.specs.SameName.{same_name};

    ghost Value = { List (List ℕ) };

    ghost view = { λ n. n.names.keys };

    ghost invariant = { λ n. IsDistinct same_name n.names.keys };
}

impl Names {
    /// No names.
    pub fn new(alloc: Global) -> Names
        ensures { result ≡ [] }
    {
        Names {
            names: IndexSet::new(alloc),
        }
    }

    /// The number of the name, which is the next one where the name has none yet. Its only error is `Memory`, which
    /// leaves the names as they were.
    pub fn number(&mut self, name: &Name) -> Result<VarId, NamesError>
        ensures names { OnOk result (self.new ≡ with_name self.old name.now) }
        ensures number { IfOk result (λ v. position (same_name name.now) self.new ≡ Some v.number) }
        ensures memory { IfErr result (λ e. e ≡ NamesError.Memory) }
        ensures unchanged { OnErr result (self.new ≡ self.old) }
    {
        match self.names.insert_full(*name) {
            Ok((number, _)) => Ok(VarId { number }),
            Err(_) => Err(NamesError::Memory),
        }
    }

    /// The number of the name; `None` exactly where it has none. It takes no memory.
    pub fn find(&self, name: &Name) -> Option<VarId>
        ensures { option_map (λ v. v.number) result ≡ position (same_name name.now) self.now }
    {
        let number = self.names.get_index_of(name)?;
        Some(VarId { number })
    }

    /// The number of the name; one that has none would get the next. It takes no memory.
    pub fn place(&self, name: &Name) -> VarId
        ensures { result.number ≡ place self.now name.now }
    {
        self.find(name).unwrap_or(VarId {
            number: self.count(),
        })
    }

    /// The bytes of the name with this number; `None` exactly where no name has it. It takes no memory.
    pub fn text(&self, v: VarId) -> Option<&[u8]>
        ensures { option_map (λ t. t.now) result ≡ slice_get self.now v.number }
    {
        let name = self.names.get_index(v.number)?;
        Some(name.bytes())
    }

    /// How many names there are. It takes no memory.
    pub fn count(&self) -> usize
        ensures { result ≡ length self.now }
    {
        self.names.len()
    }

    /// Keeps the first so many names with their numbers, and forgets the others. It takes no memory.
    pub fn keep_first(&mut self, count: usize)
        requires { count ≤ length self.old }
        ensures { self.new ≡ take count self.old }
    {
        self.names.truncate(count);
    }
}
