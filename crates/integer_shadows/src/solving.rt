//! An equation that has a name, and the other atoms where it holds.

ghost use Rattle.std.specs.Prelude.{◌≡◌, ◌⊎◌, pos, [], ◌∷◌, IfOk, IfSome, IsSomeAnd, map};
ghost use Rattle.std.specs.List.{AllByRecursion};
ghost use Rattle.exact_numbers.specs.Limit.{InLimit};
ghost use Rattle.logic_meaning.specs.Form.{coefficient};
ghost use Rattle.logic_meaning.specs.Atom.{Mentions};
ghost use Rattle.linear_forms.specs.Combinations.{IsCombination};
ghost use Rattle.normal_atoms.specs.Atoms.{atom_of, IsWellFormed};
ghost use Rattle.integer_shadows.specs.Solving.{IsEquation, IsAtomBy, IsSolvable, IsMoreBy, IsSolved, magnitude, turned_by};

use crate::forms::{combination, without};
use crate::telling::{mentions, with};
use exact_numbers::product;
use linear_forms::Linear;
use logic_meaning::VarId;
use normal_atoms::{Atom, Rel};
use shadow_theory::Shadow;
use std::alloc::{AllocError, Global};

// The absolute value.
fn magnitude(number: i128) -> i128
    requires { InLimit number }
    ensures value { result ≡ magnitude number }
    ensures within { InLimit result }
{
    if number < 0 { -number } else { number }
}

// The second number, with its sign changed unless the first is negative.
fn turned_by(by: i128, number: i128) -> i128
    requires { InLimit number }
    ensures value { result ≡ turned_by by number }
    ensures within { InLimit result }
{
    if by < 0 { number } else { -number }
}

// Whether the first form has a smaller coefficient of the name than the second, or one as small and fewer terms.
fn is_better(form: &Linear, other: &Linear, name: VarId) -> bool {
    let size = magnitude(form.coefficient(name));
    let other_size = magnitude(other.coefficient(name));
    size < other_size || (size == other_size && form.places() < other.places())
}

// The form of an equation that has the name.
fn equation_of(atom: &Atom, name: VarId) -> Option<&Linear>
    ensures { IfSome result (λ e. IsEquation name.number (atom_of atom.now ∷ []) e.now) }
{
    match atom {
        Atom::Compare(Rel::Equal, form) if form.coefficient(name) != 0 => Some(form),
        _ => None,
    }
}

// Of two forms, the better one.
fn better<'a>(best: Option<&'a Linear>, form: &'a Linear, name: VarId) -> &'a Linear
    ensures { (result.now ≡ form.now) ⊎ IsSomeAnd best.entry (λ b. result.now ≡ b.now) }
{
    match best {
        Some(best) if !is_better(form, best, name) => best,
        _ => form,
    }
}

// The equation that has the name with the smallest coefficient, and then the fewest terms.
pub(crate) fn equation(atoms: &[Atom], name: VarId) -> Option<&Linear>
    ensures { IfSome result (λ e. IsEquation name.number (map atom_of atoms.now) e.now) }
{
    let mut best = None;
    for atom in atoms {
        if let Some(form) = equation_of(atom, name) {
            best = Some(better(best, form, name));
        }
    }
    best
}

// The form times the coefficient of the name in the equation, less a multiple of the equation, so that it lacks the name. Nothing where a
// number passes 2^127 - 1.
fn solved_form(
    alloc: Global,
    equation: &Linear,
    form: &Linear,
    name: VarId,
) -> Result<Option<Linear>, AllocError>
    ensures { IfOk result (λ o. IfSome o (IsCombination (magnitude (coefficient name.number equation.now)) form.now (turned_by (coefficient name.number equation.now) (coefficient name.number form.now)) equation.now)) }
{
    let by = equation.coefficient(name);
    let turned = turned_by(by, form.coefficient(name));
    combination(alloc, magnitude(by), form, turned, equation)
}

// The atom where the equation holds. Nothing where a number passes 2^127 - 1.
fn solved_atom(
    alloc: Global,
    equation: &Linear,
    atom: &Atom,
    name: VarId,
) -> Result<Option<Atom>, AllocError>
    requires well_formed { IsWellFormed atom.now }
    requires stands { ¬ (coefficient name.number equation.now ≡ pos 0) }
    ensures well_formed { IfOk result (λ o. IfSome o IsWellFormed) }
    ensures solved { IfOk result (λ o. IfSome o (λ a. IsAtomBy name.number equation.now (atom_of atom.now) (atom_of a))) }
{
    match atom {
        Atom::Compare(relation, form) => match solved_form(alloc, equation, form, name)? {
            Some(form) => Ok(Some(Atom::Compare(*relation, form))),
            None => Ok(None),
        },
        Atom::Congruent {
            holds,
            modulus,
            form,
        } => {
            let Some(modulus) = product(magnitude(equation.coefficient(name)), *modulus) else {
                return Ok(None);
            };
            match solved_form(alloc, equation, form, name)? {
                Some(form) => Ok(Some(Atom::Congruent {
                    holds: *holds,
                    modulus,
                    form,
                })),
                None => Ok(None),
            }
        }
    }
}

// The shadow, and that some value of the name solves the equation.
fn with_solution(
    alloc: Global,
    shadow: Shadow,
    equation: &Linear,
    name: VarId,
) -> Result<Shadow, AllocError>
    requires { ¬ (coefficient name.number equation.now ≡ pos 0) }
    ensures { IfOk result (IsSolvable name.number equation.now shadow) }
{
    match without(alloc, equation, name)? {
        Some(form) => {
            let congruence = Atom::Congruent {
                holds: true,
                modulus: magnitude(equation.coefficient(name)),
                form,
            };
            with(alloc, shadow, congruence)
        }
        None => Ok(Shadow::Unknown),
    }
}

// The shadow, and an atom where the equation holds.
fn with_solved(
    alloc: Global,
    shadow: Shadow,
    equation: &Linear,
    atom: &Atom,
    name: VarId,
) -> Result<Shadow, AllocError>
    requires well_formed { IsWellFormed atom.now }
    requires stands { ¬ (coefficient name.number equation.now ≡ pos 0) }
    requires mentioned { Mentions (atom_of atom.now) name.number }
    ensures { IfOk result (IsMoreBy name.number equation.now (atom_of atom.now ∷ []) shadow) }
{
    match solved_atom(alloc, equation, atom, name)? {
        Some(atom) => with(alloc, shadow, atom),
        None => Ok(Shadow::Unknown),
    }
}

// The shadow of the atoms without the name, and the others where the equation holds.
pub(crate) fn solved(
    alloc: Global,
    shadow: Shadow,
    equation: &Linear,
    atoms: &[Atom],
    name: VarId,
) -> Result<Shadow, AllocError>
    requires well_formed { AllByRecursion IsWellFormed atoms.now }
    requires stands { ¬ (coefficient name.number equation.now ≡ pos 0) }
    ensures { IfOk result (IsSolved name.number equation.now (map atom_of atoms.now) shadow) }
{
    let mut solved = with_solution(alloc, shadow, equation, name)?;
    for atom in atoms {
        if mentions(atom, name) {
            solved = with_solved(alloc, solved, equation, atom, name)?;
        }
    }
    Ok(solved)
}
