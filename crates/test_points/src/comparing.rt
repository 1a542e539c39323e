// A comparison with a name put at a test point, in both theories.
ghost use Rattle.std.specs.Prelude.{◌≡◌, pos, true, false, unsigned_abs, IfOk, IsErrOf};
ghost use Rattle.logic_meaning.specs.Form.{coefficient};
ghost use Rattle.logic_meaning.specs.Atom.{Compare};
ghost use Rattle.formula_laws.specs.TheoryAtoms.{AtomIn};
ghost use Rattle.logic_meaning.specs.BothTheories.{IsPlaceIn};
ghost use Rattle.logic_meaning.specs.StopLimits.{normal_within};
ghost use Rattle.normal_atoms.specs.Atoms.{atom_of, context_of, relation_of, tree_of, IsWellFormed, IsWellFormedNormal};
ghost use Rattle.logic_meaning.specs.NormalForm.{normal_atom};
ghost use Rattle.test_points.specs.Points.{place_of, IsTestPoint};
ghost use Rattle.test_points.specs.Substituted.{put_at, put_within, ended, ended_within};

use crate::error::PointError;
use crate::parts::form_at;
use crate::points::{Place, TestPoint};
use crate::verdict::{Verdict, beside, constant, far_out};
use linear_forms::{LinError, Linear};
use normal_atoms::{Atom, AtomError, Context, Normal, Rel, normal};
use std::alloc::Global;

/// The normal form of an atom. `Overflow` comes exactly where its constant passes 2^127 - 1, else `Memory`.
pub fn in_normal_form(alloc: Global, context: Context, atom: Atom) -> Result<Normal, PointError>
    requires well_formed { IsWellFormed atom }
    requires in_context { AtomIn (context_of context) (atom_of atom) }
    ensures normal { IfOk result (λ n. tree_of n ≡ normal_atom (context_of context) (atom_of atom)) }
    ensures well_formed { IfOk result IsWellFormedNormal }
    ensures within { IfOk result (λ n. normal_within (normal_atom (context_of context) (atom_of atom)) ≡ true) }
    ensures overflow { IsErrOf result PointError.Overflow → normal_within (normal_atom (context_of context) (atom_of atom)) ≡ false }
    ensures counted { IsErrOf result PointError.Nodes → ⊥ }
{
    match normal(alloc, context, atom) {
        Ok(normal) => Ok(normal),
        Err(AtomError::Overflow) => Err(PointError::Overflow),
        Err(AtomError::Memory) => Err(PointError::Memory),
    }
}

// The verdict on the form with the point's name put at the point's form over its number, in normal form.
fn at_end(
    alloc: Global,
    context: Context,
    verdict: Verdict,
    form: &Linear,
    point: &TestPoint,
) -> Result<Normal, PointError>
    requires { IsTestPoint point.now }
    ensures ended { IfOk result (λ n. tree_of n ≡ ended (context_of context) verdict point.now.name.number point.now.form (unsigned_abs point.now.over) form.now) }
    ensures well_formed { IfOk result IsWellFormedNormal }
    ensures within { IfOk result (λ n. ended_within (context_of context) verdict point.now.name.number point.now.form (unsigned_abs point.now.over) form.now ≡ true) }
    ensures overflow { IsErrOf result PointError.Overflow → ended_within (context_of context) verdict point.now.name.number point.now.form (unsigned_abs point.now.over) form.now ≡ false }
    ensures counted { IsErrOf result PointError.Nodes → ⊥ }
{
    match form_at(alloc, form, point.name, &point.form, point.over) {
        Ok(value) => match verdict {
            Verdict::Always => Ok(Normal::True),
            Verdict::Never => Ok(Normal::False),
            Verdict::Holds(relation) => {
                in_normal_form(alloc, context, Atom::Compare(relation, value))
            }
        },
        Err(LinError::Overflow) => Err(PointError::Overflow),
        Err(LinError::Memory) => Err(PointError::Memory),
    }
}

/// The comparison with the point's name put at the point, in normal form; the name stands in it. `Overflow` comes exactly
/// where a number that is formed on the way passes 2^127 - 1, else `Memory`.
pub fn comparison_at(
    alloc: Global,
    context: Context,
    relation: Rel,
    form: &Linear,
    point: &TestPoint,
) -> Result<Normal, PointError>
    requires test_point { IsTestPoint point.now }
    requires place { IsPlaceIn (context_of context) (place_of point.now) }
    requires stands { ¬ (coefficient point.now.name.number form.now ≡ pos 0) }
    ensures substituted { IfOk result (λ n. tree_of n ≡ put_at (context_of context) point.now.name.number (place_of point.now) (Compare (relation_of relation) form.now)) }
    ensures well_formed { IfOk result IsWellFormedNormal }
    ensures within { IfOk result (λ n. put_within (context_of context) point.now.name.number (place_of point.now) (Compare (relation_of relation) form.now) ≡ true) }
    ensures overflow { IsErrOf result PointError.Overflow → put_within (context_of context) point.now.name.number (place_of point.now) (Compare (relation_of relation) form.now) ≡ false }
    ensures counted { IsErrOf result PointError.Nodes → ⊥ }
{
    let times = form.coefficient(point.name);
    match point.place {
        Place::MinusInfinity => Ok(constant(far_out(relation, 0 < times))),
        Place::PlusInfinity => Ok(constant(far_out(relation, times < 0))),
        Place::Periodic => Ok(constant(far_out(relation, (0 < times) == (point.period < 0)))),
        Place::Exact => at_end(alloc, context, Verdict::Holds(relation), form, point),
        Place::AboveBy => at_end(alloc, context, beside(relation, 0 < times), form, point),
        Place::BelowBy => at_end(alloc, context, beside(relation, times < 0), form, point),
    }
}
