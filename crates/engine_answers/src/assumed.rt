//! Assumptions without the names of a block.

ghost use Rattle.std.specs.Prelude.{◌≡◌, IfOk};
ghost use Rattle.std.specs.List.{list_any};
ghost use Rattle.normal_atoms.specs.Atoms.{atom_of};
ghost use Rattle.logic_meaning.specs.Contained.{contains};
ghost use Rattle.engine_answers.specs.Assumed.{lacking};

use logic_meaning::VarId;
use normal_atoms::Atom;
use std::alloc::{AllocError, Global};

/// Copies of the atoms that have none of the names, in their order. Its only error is want of memory.
pub fn without_names(
    alloc: Global,
    theory: &[Atom],
    names: &[VarId],
) -> Result<Vec<Atom>, AllocError>
    ensures { IfOk result (λ v. v.items ≡ lacking names.now theory.now) }
{
    let mut left = Vec::new(alloc);
    for atom in theory {
        if has_some(atom, names) {
            continue;
        }
        let copy = atom.copy(alloc).map_err(|_| AllocError)?;
        left.push(copy)?;
    }
    Ok(left)
}

// Whether the atom has one of the names.
fn has_some(atom: &Atom, names: &[VarId]) -> bool
    ensures { result ≡ list_any (λ x. contains (atom_of atom.now) x.number) names.now }
{
    for name in names {
        if has_name(atom, *name) {
            return true;
        }
    }
    false
}

// Whether the name stands in the atom.
fn has_name(atom: &Atom, x: VarId) -> bool
    ensures { result ≡ contains (atom_of atom.now) x.number }
{
    match atom {
        Atom::Compare(_, form) | Atom::Congruent { form, .. } => {
            !form.coefficient(x).cmp(&0).is_eq()
        }
    }
}
