//! The shadow of a conjunction.

ghost use Rattle.std.specs.Prelude.{◌≡◌, [], map, filter, IfOk, IfSome};
ghost use Rattle.std.specs.List.{AllByRecursion};
ghost use Rattle.logic_meaning.specs.Context.{Fields};
ghost use Rattle.logic_meaning.specs.Some.{EachOf};
ghost use Rattle.logic_meaning.specs.NormalForm.{IsNormal};
ghost use Rattle.normal_atoms.specs.Atoms.{atom_of, IsWellFormed};
ghost use Rattle.shadow_theory.specs.Shadows.{IsShadowOf};
ghost use Rattle.field_shadows.specs.Rest.{is_without, AreRest};

use crate::crossing::Split;
use crate::equation::{put_away, shortest_equation};
use crate::hold::Hold;
use crate::normalising::normalised;
use linear_forms::LinError;
use logic_meaning::VarId;
use normal_atoms::Atom;
use shadow_theory::Shadow;
use std::alloc::{AllocError, Global};

/// The shadow of the atoms where the name goes, over the ordered fields: those without it, and then what the others say of the other
/// names, in normal form. An equation puts the name away, the one with the fewest terms; else the others go where their bounds stand on
/// one side alone, since a number far enough meets them all; else each lower bound is joined with each upper one, as Fourier and Motzkin
/// eliminate. It is not told where the name stands in `<>` between bounds, where there are more than `most` pairs of bounds, or where a
/// number passes 2^127 - 1. Its only error is want of memory.
pub fn field_shadow(
    alloc: Global,
    atoms: &[Atom],
    name: VarId,
    most: usize,
) -> Result<Shadow, AllocError>
    requires normal { EachOf (IsNormal Fields) (map atom_of atoms.now) }
    requires well_formed { AllByRecursion IsWellFormed atoms.now }
    ensures { IfOk result (IsShadowOf Fields [] name.number (map atom_of atoms.now)) }
{
    match rest(alloc, atoms, name, most) {
        Ok(Some(rest)) => {
            let kept = without(alloc, atoms, name)?;
            normalised(alloc, kept, rest)
        }
        Ok(None) | Err(LinError::Overflow) => Ok(Shadow::Unknown),
        Err(LinError::Memory) => Err(AllocError),
    }
}

// Copies of the atoms without the name, in their order.
fn without(alloc: Global, atoms: &[Atom], name: VarId) -> Result<Vec<Atom>, AllocError>
    ensures { IfOk result (λ v. v.items ≡ filter (λ a. is_without name.number (atom_of a)) atoms.now) }
{
    let mut kept = Vec::new(alloc);
    for atom in atoms {
        if let Hold::Absent = Hold::of(atom, name) {
            kept.push(atom.copy(alloc).map_err(|_| AllocError)?)?;
        }
    }
    Ok(kept)
}

// What the atoms with the name say of the other names; `None` where it is not told. `Overflow` comes only where a number passes
// 2^127 - 1, else `Memory`.
fn rest(
    alloc: Global,
    atoms: &[Atom],
    name: VarId,
    most: usize,
) -> Result<Option<Vec<Atom>>, LinError>
    requires normal { EachOf (IsNormal Fields) (map atom_of atoms.now) }
    ensures { IfOk result (λ r. IfSome r (λ v. AreRest name.number (map atom_of atoms.now) v.items)) }
{
    if let Some(equation) = shortest_equation(atoms, name) {
        return Ok(Some(put_away(alloc, atoms, name, equation)?));
    }
    let split = Split::of(alloc, atoms, name)?;
    if split.is_open() {
        return Ok(Some(Vec::new(alloc)));
    }
    if split.others || split.pairs() > most {
        return Ok(None);
    }
    Ok(Some(split.cross(alloc, name)?))
}
