// An atom with a name put at a test point of the integers, and the condition under which the point is a whole number.
ghost use Rattle.std.specs.Prelude.{◌≡◌, true, false, IfOk, IfErr, IsErrOf};
ghost use Rattle.logic_meaning.specs.Context.{Integers};
ghost use Rattle.logic_meaning.specs.IntegerPlace.{IsIntegerPlace};
ghost use Rattle.logic_meaning.specs.BothTheories.{guard_of};
ghost use Rattle.logic_meaning.specs.Steps.{atom_at, normalised};
ghost use Rattle.logic_meaning.specs.StopLimits.{atom_within};
ghost use Rattle.logic_meaning.specs.NormalForm.{normal_atom};
ghost use Rattle.normal_atoms.specs.Atoms.{atom_of, tree_of, IsWellFormed, IsWellFormedNormal};
ghost use Rattle.test_points.specs.Points.{place_of, IsTestPoint};

use crate::comparing::comparison_at;
use crate::congruence::{in_class, over_number};
use crate::error::PointError;
use crate::points::{Place, TestPoint};
use crate::substitution::unchanged;
use normal_atoms::{Atom, Context, Normal, normal};
use std::alloc::Global;

/// The atom with the point's name put at the point, in normal form (Cooper 1972); an atom without the name stays as it is.
/// `Overflow` comes exactly where a number that is formed on the way passes 2^127 - 1, else `Memory`.
pub fn substitute_integer(
    alloc: Global,
    atom: &Atom,
    point: &TestPoint,
) -> Result<Normal, PointError>
    requires well_formed { IsWellFormed atom.now }
    requires test_point { IsTestPoint point.now }
    requires place { IsIntegerPlace (place_of point.now) }
    ensures substituted { IfOk result (λ n. tree_of n ≡ atom_at Integers (normal_atom Integers) point.now.name.number (place_of point.now) (atom_of atom.now)) }
    ensures well_formed { IfOk result IsWellFormedNormal }
    ensures within { IfOk result (λ n. atom_within Integers point.now.name.number (place_of point.now) (atom_of atom.now) ≡ true) }
    ensures overflow { IsErrOf result PointError.Overflow → atom_within Integers point.now.name.number (place_of point.now) (atom_of atom.now) ≡ false }
    ensures counted { IsErrOf result PointError.Nodes → ⊥ }
{
    match atom {
        Atom::Compare(relation, form) if form.coefficient(point.name) != 0 => {
            comparison_at(alloc, Context::Integers, *relation, form, point)
        }
        Atom::Congruent {
            holds,
            modulus,
            form,
        } if form.coefficient(point.name) != 0 => match point.place {
            Place::Exact => over_number(alloc, *holds, *modulus, form, point),
            Place::Periodic => in_class(alloc, *holds, *modulus, form, point),
            _ => unreachable!(),
        },
        _ => Ok(unchanged(alloc, atom)?),
    }
}

/// The condition under which the point is a whole number, in normal form: over 1 and at a Periodic point it is true.
/// Its only error is `Memory`.
pub fn guard(alloc: Global, point: &TestPoint) -> Result<Normal, PointError>
    requires test_point { IsTestPoint point.now }
    requires place { IsIntegerPlace (place_of point.now) }
    ensures guard { IfOk result (λ n. tree_of n ≡ normalised (normal_atom Integers) (guard_of Integers (place_of point.now))) }
    ensures well_formed { IfOk result IsWellFormedNormal }
    ensures memory { IfErr result (λ e. e ≡ PointError.Memory) }
{
    if matches!(point.place, Place::Periodic) || point.over == 1 {
        return Ok(Normal::True);
    }
    let form = point.form.copy(alloc)?;
    let atom = Atom::Congruent {
        holds: true,
        modulus: point.over,
        form,
    };
    match normal(alloc, Context::Integers, atom) {
        Ok(normal) => Ok(normal),
        Err(_) => Err(PointError::Memory),
    }
}
