//! How long a text is beside its names, and the places of names in it.

ghost use Rattle.std.specs.Prelude.{◌≡◌, ℕ, ◌+◌, ◌≤◌, ◌++◌, ◌∷◌, [], OnOk, IsTrue, nat_eq, position};
ghost use Rattle.text_extents.specs.Extents.{total, numbers};

use crate::error::ExtentError;
use logic_meaning::VarId;
use std::alloc::Global;

/// How many bytes of a text are of no name, and the names in the order in which they are written.
#[derive(Drop)]
pub(crate) struct Extent {
    pub bytes: u64,
    pub names: Vec<VarId>,
}

impl Extent {
    /// That of the empty text. It takes no memory.
    pub(crate) fn empty(alloc: Global) -> Extent
        ensures bytes { result.bytes ≡ 0 }
        ensures names { result.names.items ≡ [] }
    {
        Extent {
            bytes: 0,
            names: Vec::new(alloc),
        }
    }

    /// Adds bytes of no name. Its only error is `Long`.
    pub(crate) fn add(&mut self, bytes: u64) -> Result<(), ExtentError>
        ensures bytes { OnOk result (self.new.bytes ≡ self.old.bytes + bytes) }
        ensures names { OnOk result (self.new.names.items ≡ self.old.names.items) }
    {
        self.bytes = self.bytes.checked_add(bytes).ok_or(ExtentError::Long)?;
        Ok(())
    }

    /// Adds a name. Its only error is want of memory.
    pub(crate) fn name(&mut self, name: VarId) -> Result<(), ExtentError>
        ensures bytes { OnOk result (self.new.bytes ≡ self.old.bytes) }
        ensures names { OnOk result (self.new.names.items ≡ self.old.names.items ++ name ∷ []) }
    {
        self.names.push(name).map_err(|_| ExtentError::Memory)?;
        Ok(())
    }

    /// Whether a text with the other extent is no longer than one with this, whatever the names are.
    pub(crate) fn covers(mut self, other: &Extent) -> bool
        ensures { IsTrue result → (other.now.bytes ≤ self.bytes) × ((w : ℕ → ℕ) → total w (numbers other.now.names.items) ≤ total w (numbers self.names.items)) }
    {
        if self.bytes < other.bytes {
            return false;
        }
        for name in &other.names {
            let Some(place) = place_of(&self.names, *name) else {
                return false;
            };
            self.names.remove(place);
        }
        true
    }
}

// Where the name stands first.
fn place_of(names: &[VarId], name: VarId) -> Option<usize>
    ensures { result ≡ position (λ x. nat_eq x.number name.number) names.now }
{
    names.iter().position(|other| *other == name)
}
