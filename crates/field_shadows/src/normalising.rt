//! Atoms brought to normal form.

ghost use Rattle.std.specs.Prelude.{◌++◌, map, IfOk};
ghost use Rattle.std.specs.List.{AllByRecursion};
ghost use Rattle.formula_laws.specs.TheoryAtoms.{AtomIn};
ghost use Rattle.logic_meaning.specs.Context.{Fields};
ghost use Rattle.logic_meaning.specs.Some.{EachOf};
ghost use Rattle.logic_meaning.specs.NormalForm.{IsNormal};
ghost use Rattle.normal_atoms.specs.Atoms.{atom_of, IsWellFormed};
ghost use Rattle.field_shadows.specs.Normalised.{IsNormalised};

use normal_atoms::{Atom, AtomError, Context, Normal, normal};
use shadow_theory::Shadow;
use std::alloc::{AllocError, Global};

/// Normal atoms with others behind them, which are brought to normal form: those that are always true go, and where one is always false
/// no point meets all. It is not told where a number passes 2^127 - 1. Its only error is want of memory.
pub(crate) fn normalised(
    alloc: Global,
    mut kept: Vec<Atom>,
    others: Vec<Atom>,
) -> Result<Shadow, AllocError>
    requires kept { EachOf (IsNormal Fields) (map atom_of kept.items) }
    requires kept_well_formed { AllByRecursion IsWellFormed kept.items }
    requires in_fields { AllByRecursion (λ a. AtomIn Fields (atom_of a)) others.items }
    requires well_formed { AllByRecursion IsWellFormed others.items }
    ensures { IfOk result (IsNormalised (map atom_of kept.items ++ map atom_of others.items)) }
{
    for atom in others {
        match normal(alloc, Context::Fields, atom) {
            Ok(Normal::True) => {}
            Ok(Normal::False) => return Ok(Shadow::Never),
            Ok(Normal::One(atom)) => kept.push(atom)?,
            Err(AtomError::Overflow) => return Ok(Shadow::Unknown),
            Err(AtomError::Memory) => return Err(AllocError),
        }
    }
    Ok(Shadow::Atoms(kept))
}
