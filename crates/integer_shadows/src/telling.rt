//! A shadow that atoms are added to.

ghost use Rattle.std.specs.Prelude.{◌≡◌, IfOk, MatchBool, map};
ghost use Rattle.std.specs.List.{AllByRecursion};
ghost use Rattle.logic_meaning.specs.Context.{Integers};
ghost use Rattle.logic_meaning.specs.Some.{EachOf};
ghost use Rattle.logic_meaning.specs.Atom.{Mentions};
ghost use Rattle.logic_meaning.specs.NormalForm.{IsNormal};
ghost use Rattle.normal_atoms.specs.Atoms.{atom_of, IsWellFormed};
ghost use Rattle.integer_shadows.specs.Told.{IsWith, AreApart};

use logic_meaning::VarId;
use normal_atoms::{Atom, AtomError, Context, Normal, normal};
use shadow_theory::Shadow;
use std::alloc::{AllocError, Global};

// Whether the name stands in the atom.
pub(crate) fn mentions(atom: &Atom, name: VarId) -> bool
    ensures { MatchBool result (Mentions (atom_of atom.now) name.number) (¬ (Mentions (atom_of atom.now) name.number)) }
{
    match atom {
        Atom::Compare(_, form) => form.coefficient(name) != 0,
        Atom::Congruent { form, .. } => form.coefficient(name) != 0,
    }
}

// An equal atom. Its only error is want of memory.
fn copied(alloc: Global, atom: &Atom) -> Result<Atom, AllocError>
    ensures { IfOk result (λ a. a ≡ atom.now) }
{
    match atom.copy(alloc) {
        Ok(atom) => Ok(atom),
        Err(_) => Err(AllocError),
    }
}

// The atoms without the name, in their order.
pub(crate) fn apart(alloc: Global, atoms: &[Atom], name: VarId) -> Result<Shadow, AllocError>
    requires normal { EachOf (IsNormal Integers) (map atom_of atoms.now) }
    requires well_formed { AllByRecursion IsWellFormed atoms.now }
    ensures { IfOk result (AreApart name.number (map atom_of atoms.now)) }
{
    let mut kept = Vec::new(alloc);
    for atom in atoms {
        if !mentions(atom, name) {
            kept.push(copied(alloc, atom)?)?;
        }
    }
    Ok(Shadow::Atoms(kept))
}

// The shadow with one more atom, in normal form.
pub(crate) fn with(alloc: Global, shadow: Shadow, atom: Atom) -> Result<Shadow, AllocError>
    requires { IsWellFormed atom }
    ensures { IfOk result (λ s. IsWith shadow s (atom_of atom)) }
{
    match shadow {
        Shadow::Never => Ok(Shadow::Never),
        Shadow::Unknown => Ok(Shadow::Unknown),
        Shadow::Atoms(mut atoms) => match normal(alloc, Context::Integers, atom) {
            Ok(Normal::True) => Ok(Shadow::Atoms(atoms)),
            Ok(Normal::False) => Ok(Shadow::Never),
            Ok(Normal::One(atom)) => {
                atoms.push(atom)?;
                Ok(Shadow::Atoms(atoms))
            }
            Err(AtomError::Overflow) => Ok(Shadow::Unknown),
            Err(AtomError::Memory) => Err(AllocError),
        },
    }
}
