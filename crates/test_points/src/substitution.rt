// An atom with a name put at a test point of the ordered fields.
ghost use Rattle.std.specs.Prelude.{◌≡◌, true, false, IfOk, IsErrOf};
ghost use Rattle.logic_meaning.specs.Context.{Fields};
ghost use Rattle.formula_laws.specs.TheoryAtoms.{AtomIn};
ghost use Rattle.logic_meaning.specs.FieldsSubstitution.{IsFieldPlace};
ghost use Rattle.logic_meaning.specs.Steps.{atom_at};
ghost use Rattle.logic_meaning.specs.StopLimits.{atom_within};
ghost use Rattle.normal_atoms.specs.Atoms.{atom_of, tree_of, IsWellFormed, IsWellFormedNormal};
ghost use Rattle.logic_meaning.specs.NormalForm.{normal_atom};
ghost use Rattle.test_points.specs.Points.{place_of, IsTestPoint};

use crate::comparing::comparison_at;
use crate::error::PointError;
use crate::points::TestPoint;
use normal_atoms::{Atom, Context, Normal};
use std::alloc::{AllocError, Global};

/// The atom as it is.
pub fn unchanged(alloc: Global, atom: &Atom) -> Result<Normal, AllocError>
    ensures { IfOk result (λ n. n ≡ Normal.One atom.now) }
{
    match atom.copy(alloc) {
        Ok(atom) => Ok(Normal::One(atom)),
        Err(_) => Err(AllocError),
    }
}

/// The atom with the point's name put at the point, in normal form (Loos and Weispfenning 1993); an atom without the name
/// stays as it is. `Overflow` comes exactly where a number that is formed on the way passes 2^127 - 1, else `Memory`.
pub fn substitute_field(alloc: Global, atom: &Atom, point: &TestPoint) -> Result<Normal, PointError>
    requires well_formed { IsWellFormed atom.now }
    requires in_fields { AtomIn Fields (atom_of atom.now) }
    requires test_point { IsTestPoint point.now }
    requires place { IsFieldPlace (place_of point.now) }
    ensures substituted { IfOk result (λ n. tree_of n ≡ atom_at Fields (normal_atom Fields) point.now.name.number (place_of point.now) (atom_of atom.now)) }
    ensures well_formed { IfOk result IsWellFormedNormal }
    ensures within { IfOk result (λ n. atom_within Fields point.now.name.number (place_of point.now) (atom_of atom.now) ≡ true) }
    ensures overflow { IsErrOf result PointError.Overflow → atom_within Fields point.now.name.number (place_of point.now) (atom_of atom.now) ≡ false }
    ensures counted { IsErrOf result PointError.Nodes → ⊥ }
{
    match atom {
        Atom::Compare(relation, form) if form.coefficient(point.name) != 0 => {
            comparison_at(alloc, Context::Fields, *relation, form, point)
        }
        Atom::Compare(..) => Ok(unchanged(alloc, atom)?),
        Atom::Congruent { .. } => unreachable!(),
    }
}
