//! The shadow of atoms over the integers.

ghost use Rattle.std.specs.Prelude.{◌≤◌, ◌≡◌, [], IfOk, IsTrue, map};
ghost use Rattle.std.specs.List.{AllByRecursion};
ghost use Rattle.logic_meaning.specs.Context.{Integers};
ghost use Rattle.logic_meaning.specs.Some.{EachOf};
ghost use Rattle.logic_meaning.specs.NormalForm.{IsNormal};
ghost use Rattle.normal_atoms.specs.Atoms.{atom_of, IsWellFormed};
ghost use Rattle.shadow_theory.specs.Shadows.{IsShadowOf};
ghost use Rattle.integer_shadows.specs.Told.{IsWellMade};
ghost use Rattle.integer_shadows.specs.Sides.{IsModulus, IsConditioned, IsShadowOfSides};

use crate::forms::without;
use crate::pairs::{Paired, settled};
use crate::sides::{Bounds, Sides, sorted};
use crate::solving::{equation, solved};
use crate::telling::{apart, with};
use exact_numbers::gcd;
use linear_forms::Linear;
use logic_meaning::VarId;
use normal_atoms::Atom;
use shadow_theory::Shadow;
use std::alloc::{AllocError, Global};

// The shadow, and the condition that some value of the name makes the form a multiple of the modulus: then the greatest common divisor of
// the modulus and the name's coefficient divides the rest of the form (Bezout).
fn with_condition(
    alloc: Global,
    shadow: Shadow,
    divisor: i128,
    class: &Linear,
    name: VarId,
) -> Result<Shadow, AllocError>
    requires { IsModulus divisor }
    ensures { IfOk result (IsConditioned name.number divisor class.now shadow) }
{
    match without(alloc, class, name)? {
        Some(form) => {
            let condition = Atom::Congruent {
                holds: true,
                modulus: divisor,
                form,
            };
            with(alloc, shadow, condition)
        }
        None => Ok(Shadow::Unknown),
    }
}

// Whether the bounds have at most so many pairs, and no form that is not to be 0.
fn are_few(bounds: &Bounds, most: usize) -> bool
    requires { ¬ (bounds.now.upper.items ≡ []) }
    ensures { IsTrue result → bounds.now.differing.items ≡ [] }
{
    bounds.differing.is_empty() && bounds.lower.len() <= most / bounds.upper.len()
}

// The shadow of bounds on both sides. Some value of the name that is in the class and meets all bounds stands between each two of them; and
// the other way round, where each gap is as large as it needs to be, the least numbers of the class that meet a lower bound meet all upper
// ones, and the greatest of these meets all.
fn between(
    alloc: Global,
    given: &[Atom],
    shadow: Shadow,
    bounds: &Bounds,
    name: VarId,
    effort: &mut u64,
) -> Result<Shadow, AllocError>
    requires given { AllByRecursion IsWellFormed given.now }
    requires made { IsWellMade shadow }
    requires modulus { IsModulus bounds.now.modulus }
    requires differing { bounds.now.differing.items ≡ [] }
    requires lower { ¬ (bounds.now.lower.items ≡ []) }
    ensures shadow { IfOk result (IsShadowOfSides name.number (map atom_of given.now) (record { shadow = shadow; bounds = bounds.now })) }
    ensures effort { effort.new ≤ effort.old }
{
    let divisor = gcd(bounds.class.coefficient(name), bounds.modulus);
    let shadow = with_condition(alloc, shadow, divisor, &bounds.class, name)?;
    let start = Paired {
        shadow,
        needs: Vec::new(alloc),
    };
    let step = bounds.modulus / divisor;
    let paired = start.with_bounds(alloc, &bounds.lower, &bounds.upper, step, name)?;
    let Paired { shadow, needs } = paired;
    settled(alloc, given, shadow, &needs, effort)
}

// The shadow of the sides. Where bounds stand on one side alone, a class of numbers has members beyond them all.
fn cast(
    alloc: Global,
    given: &[Atom],
    shadow: Shadow,
    bounds: &Bounds,
    name: VarId,
    most: usize,
    effort: &mut u64,
) -> Result<Shadow, AllocError>
    requires given { AllByRecursion IsWellFormed given.now }
    requires made { IsWellMade shadow }
    requires modulus { IsModulus bounds.now.modulus }
    ensures shadow { IfOk result (IsShadowOfSides name.number (map atom_of given.now) (record { shadow = shadow; bounds = bounds.now })) }
    ensures effort { effort.new ≤ effort.old }
{
    if bounds.lower.is_empty() || bounds.upper.is_empty() {
        let divisor = gcd(bounds.class.coefficient(name), bounds.modulus);
        return with_condition(alloc, shadow, divisor, &bounds.class, name);
    }
    if are_few(bounds, most) {
        between(alloc, given, shadow, bounds, name, effort)
    } else {
        Ok(Shadow::Unknown)
    }
}

/// The shadow of the atoms where the name goes, over the integers, at the points where the given atoms are true: atoms that are true exactly
/// where some value of the name makes all of these true, or that there is no such point; or it is not told.
///
/// An equation that has the name is solved in the other atoms. Else the congruences that have it become one, and it is not told of negated
/// congruences. Bounds on one side alone leave the congruence's condition. Of bounds on both sides each pair gives an atom, if there are at
/// most `most` pairs and no `<>` has the name, and if the atoms that are left are found to imply that a number stands between each pair.
/// What that search does is taken off the effort. It is not told either where a number passes 2^127 - 1. Its only error is want of memory.
pub fn integer_shadow(
    alloc: Global,
    given: &[Atom],
    atoms: &[Atom],
    name: VarId,
    most: usize,
    effort: &mut u64,
) -> Result<Shadow, AllocError>
    requires normal { EachOf (IsNormal Integers) (map atom_of atoms.now) }
    requires well_formed { AllByRecursion IsWellFormed atoms.now }
    requires given { AllByRecursion IsWellFormed given.now }
    ensures shadow { IfOk result (IsShadowOf Integers (map atom_of given.now) name.number (map atom_of atoms.now)) }
    ensures effort { effort.new ≤ effort.old }
{
    let shadow = apart(alloc, atoms, name)?;
    match equation(atoms, name) {
        Some(equation) => solved(alloc, shadow, equation, atoms, name),
        None => {
            let sides = sorted(alloc, shadow, atoms, name)?;
            let Sides { shadow, bounds } = sides;
            cast(alloc, given, shadow, &bounds, name, most, effort)
        }
    }
}
