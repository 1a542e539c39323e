//! A block over a conjunction, on the way to fewer names.

ghost use Rattle.std.specs.Prelude.{◌≡◌, ◌++◌, ℕ, drop, take, IfOk};

use crate::conjunction::copied;
use logic_meaning::VarId;
use normal_atoms::Atom;
use std::alloc::{AllocError, Global};

/// The atoms of a conjunction, the names of the block that are left, and those of them that stand in no other member.
#[derive(Drop)]
pub(crate) struct OpenBlock {
    pub(crate) atoms: Vec<Atom>,
    pub(crate) names: Vec<VarId>,
    pub(crate) movable: Vec<VarId>,
}

impl OpenBlock {
    /// An equal block. Its only error is want of memory.
    pub(crate) fn copy(&self, alloc: Global) -> Result<OpenBlock, AllocError>
        ensures atoms { IfOk result (λ o. o.atoms.items ≡ self.now.atoms.items) }
        ensures names { IfOk result (λ o. o.names.items ≡ self.now.names.items) }
        ensures movable { IfOk result (λ o. o.movable.items ≡ self.now.movable.items) }
    {
        let atoms = copies(alloc, &self.atoms)?;
        let names = copied(alloc, &self.names)?;
        let movable = copied(alloc, &self.movable)?;
        Ok(OpenBlock {
            atoms,
            names,
            movable,
        })
    }

    /// The block with its first atoms, so many, behind the others.
    pub(crate) fn turned(mut self, count: usize) -> OpenBlock
        ensures atoms { (k : ℕ) × (result.atoms.items ≡ drop k self.atoms.items ++ take k self.atoms.items) }
        ensures names { result.names.items ≡ self.names.items }
        ensures movable { result.movable.items ≡ self.movable.items }
    {
        let count = count.min(self.atoms.len());
        self.atoms.rotate_left(count);
        self
    }
}

// These atoms, held apart.
fn copies(alloc: Global, atoms: &[Atom]) -> Result<Vec<Atom>, AllocError>
    ensures { IfOk result (λ v. v.items ≡ atoms.now) }
{
    let mut copies = Vec::new(alloc);
    for atom in atoms {
        let copy = atom.copy(alloc).map_err(|_| AllocError)?;
        copies.push(copy)?;
    }
    Ok(copies)
}
