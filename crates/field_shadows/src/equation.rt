//! A name put away by an equation.

ghost use Rattle.std.specs.Prelude.{◌≡◌, ◌⊎◌, pos, map, Some, IfOk, MatchOption};
ghost use Rattle.std.specs.Option.{option_copied};
ghost use Rattle.logic_meaning.specs.Context.{Fields};
ghost use Rattle.logic_meaning.specs.Some.{Among, EachOf};
ghost use Rattle.logic_meaning.specs.Form.{coefficient};
ghost use Rattle.logic_meaning.specs.Atom.{Compare, Equals, form_of};
ghost use Rattle.logic_meaning.specs.NormalForm.{IsNormal};
ghost use Rattle.normal_atoms.specs.Atoms.{atom_of, relation_of};
ghost use Rattle.field_shadows.specs.Signed.{form_of_signed};
ghost use Rattle.field_shadows.specs.Equations.{IsEquation, ArePutAway};

use crate::hold::Hold;
use crate::signed::Signed;
use linear_forms::{LinError, Linear};
use logic_meaning::VarId;
use normal_atoms::{Atom, Rel};
use std::alloc::Global;

/// The form of an equation with the name that has the fewest terms, the first such one, if there is one.
pub(crate) fn shortest_equation(atoms: &[Atom], name: VarId) -> Option<&Linear>
    ensures { MatchOption result (EachOf (λ u. ¬ (IsEquation name.number u)) (map atom_of atoms.now)) (λ f. Among (map atom_of atoms.now) (Compare Equals f.now) × ¬ (coefficient name.number f.now ≡ pos 0)) }
{
    let mut best: Option<&Linear> = None;
    for atom in atoms {
        if let Hold::Equation(form) = Hold::of(atom, name) {
            best = Some(shorter(best, form));
        }
    }
    best
}

// The form with fewer terms: the second one where there is no first one, or where that has more.
fn shorter<'a>(best: Option<&'a Linear>, form: &'a Linear) -> &'a Linear
    ensures { (result.now ≡ form.now) ⊎ (option_copied best.entry ≡ Some result.now) }
{
    match best {
        Some(best) if best.places() <= form.places() => best,
        _ => form,
    }
}

/// The atoms that have the name, with it put away by the equation: a positive multiple of each, and a multiple of the equation. `Overflow`
/// comes only where a number passes 2^127 - 1, else `Memory`.
pub(crate) fn put_away(
    alloc: Global,
    atoms: &[Atom],
    name: VarId,
    equation: &Linear,
) -> Result<Vec<Atom>, LinError>
    requires named { ¬ (coefficient name.number equation.now ≡ pos 0) }
    requires normal { EachOf (IsNormal Fields) (map atom_of atoms.now) }
    ensures { IfOk result (λ v. ArePutAway name.number equation.now (map atom_of atoms.now) v.items) }
{
    let root = plain(equation);
    let mut new = Vec::new(alloc);
    for atom in atoms {
        if let Some((relation, form)) = comparison_with(atom, name) {
            let form = plain(form).cancel(alloc, name, root)?;
            new.push(Atom::Compare(relation, form))
                .map_err(|_| LinError::Memory)?;
        }
    }
    Ok(new)
}

// The relation and the form of the atom, if it has the name.
fn comparison_with(atom: &Atom, name: VarId) -> Option<(Rel, &Linear)>
    requires { IsNormal Fields (atom_of atom.now) }
    ensures { MatchOption result (coefficient name.number (form_of (atom_of atom.now)) ≡ pos 0) (λ c. atom_of atom.now ≡ Compare (relation_of c.0) c.1.now) }
{
    match atom {
        Atom::Compare(relation, form) => {
            if form.coefficient(name) == 0 {
                None
            } else {
                Some((*relation, form))
            }
        }
        // The ordered fields have no congruences.
        Atom::Congruent { .. } => unreachable!(),
    }
}

// The form with its own sign.
fn plain(form: &Linear) -> Signed<'_>
    ensures { form_of_signed result ≡ form.now }
{
    Signed {
        form,
        turned: false,
    }
}
