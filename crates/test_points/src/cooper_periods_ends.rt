// The numbers beside the ends of the atoms' intervals, as test points.
ghost use Rattle.std.specs.Prelude.{◌≡◌, ℕ, pos, ◌<ℤ◌, ◌<◌, ◌≤◌, ◌^◌, ◌++◌, true, false, All, map, flat_map, length, unsigned_abs, OnOk, IsErrOf};
ghost use Rattle.exact_numbers.specs.Limit.{InLimit};
ghost use Rattle.logic_meaning.specs.Form.{coefficient, scale};
ghost use Rattle.logic_meaning.specs.Some.{EachOf};
ghost use Rattle.logic_meaning.specs.Atom.{Compare, form_of};
ghost use Rattle.logic_meaning.specs.IntegersPoints.{next_points, starts_of, atom_starts};
ghost use Rattle.logic_meaning.specs.Limits.{each, place_within};
ghost use Rattle.normal_atoms.specs.Atoms.{atom_of, relation_of};
ghost use Rattle.test_points.specs.Points.{place_of, IsPointOf};
ghost use Rattle.test_points.specs.Periods.{IsReached, IsUsable};
ghost use Rattle.test_points.specs.Starts.{beside_end, beside_atom};

use crate::ends::{quotient, seen};
use crate::error::PointError;
use crate::parts::rest;
use crate::points::TestPoint;
use crate::runs::{first_number, push_run, scaled, signed};
use crate::scales::Period;
use crate::starts::first_step;
use exact_numbers::sum;
use linear_forms::{LinError, Linear};
use logic_meaning::{Side, VarId};
use normal_atoms::{Atom, Rel};
use std::alloc::Global;

// Puts the numbers beside an end last, as many as the span; the end is a multiple of a form, and the relation is as the side
// sees it. `Nodes` comes only where there is an end and the span passes 64 bits.
fn push_end(
    alloc: Global,
    points: &mut Vec<TestPoint>,
    x: VarId,
    side: Side,
    relation: Rel,
    end: Linear,
    factor: i128,
    period: &Period,
) -> Result<(), PointError>
    requires positive { pos 0 <ℤ factor }
    requires within { InLimit factor }
    requires usable { IsUsable period.now }
    requires well_formed { All (IsPointOf x) points.old.items }
    ensures places { OnOk result (map place_of points.new.items ≡ map place_of points.old.items ++ beside_end side (unsigned_abs period.now.scale) (unsigned_abs period.now.span) (relation_of relation) (scale factor end)) }
    ensures well_formed { OnOk result (All (IsPointOf x) points.new.items) }
    ensures within { OnOk result (each place_within (beside_end side (unsigned_abs period.now.scale) (unsigned_abs period.now.span) (relation_of relation) (scale factor end)) ≡ true) }
    ensures overflow { IsErrOf result PointError.Overflow → each place_within (beside_end side (unsigned_abs period.now.scale) (unsigned_abs period.now.span) (relation_of relation) (scale factor end)) ≡ false }
    ensures many { IsErrOf result PointError.Nodes → 2 ^ 64 ≤ length (beside_end side (unsigned_abs period.now.scale) (unsigned_abs period.now.span) (relation_of relation) (scale factor end)) }
{
    let number = signed(side, end.constant_part());
    let Some(step) = first_step(relation) else {
        return Ok(());
    };
    let Ok(count) = u64::try_from(period.span) else {
        return Err(PointError::Nodes);
    };
    let Some(first) = first_number(factor, number, step) else {
        return Err(PointError::Overflow);
    };
    let Some(_last) = sum(first, period.span - 1) else {
        return Err(PointError::Overflow);
    };
    match scaled(alloc, end, factor) {
        Ok(form) => Ok(push_run(alloc, points, x, side, &form, first, count, period.scale)?),
        Err(LinError::Overflow) => Err(PointError::Overflow),
        Err(LinError::Memory) => Err(PointError::Memory),
    }
}

// The sides of an end: the relation as the side sees it, and the form of which the end is a positive multiple.
fn push_comparison(
    alloc: Global,
    points: &mut Vec<TestPoint>,
    relation: Rel,
    form: &Linear,
    x: VarId,
    side: Side,
    period: &Period,
) -> Result<(), PointError>
    requires usable { IsUsable period.now }
    requires reached { IsReached (unsigned_abs period.now.scale) (coefficient x.number form.now) }
    requires well_formed { All (IsPointOf x) points.old.items }
    ensures places { OnOk result (map place_of points.new.items ≡ map place_of points.old.items ++ beside_atom side (unsigned_abs period.now.scale) (unsigned_abs period.now.span) x.number (Compare (relation_of relation) form.now)) }
    ensures well_formed { OnOk result (All (IsPointOf x) points.new.items) }
    ensures within { OnOk result (each place_within (beside_atom side (unsigned_abs period.now.scale) (unsigned_abs period.now.span) x.number (Compare (relation_of relation) form.now)) ≡ true) }
    ensures overflow { IsErrOf result PointError.Overflow → each place_within (beside_atom side (unsigned_abs period.now.scale) (unsigned_abs period.now.span) x.number (Compare (relation_of relation) form.now)) ≡ false }
    ensures many { IsErrOf result PointError.Nodes → 2 ^ 64 ≤ length (beside_atom side (unsigned_abs period.now.scale) (unsigned_abs period.now.span) x.number (Compare (relation_of relation) form.now)) }
{
    let times = form.coefficient(x);
    if times == 0 {
        return Ok(());
    }
    let factor = quotient(period.scale, times.abs());
    let end = rest(alloc, form, x, 0 < times)?;
    let relation = seen(side, relation, times < 0);
    push_end(alloc, points, x, side, relation, end, factor, period)
}

// Puts the numbers beside the end of an atom's interval last, if there is one that lies to the side. `Nodes` comes only where
// there is one and the span passes 64 bits.
pub(crate) fn push_atom(
    alloc: Global,
    points: &mut Vec<TestPoint>,
    atom: &Atom,
    x: VarId,
    side: Side,
    period: &Period,
) -> Result<(), PointError>
    requires usable { IsUsable period.now }
    requires reached { IsReached (unsigned_abs period.now.scale) (coefficient x.number (form_of (atom_of atom.now))) }
    requires well_formed { All (IsPointOf x) points.old.items }
    ensures places { OnOk result (map place_of points.new.items ≡ map place_of points.old.items ++ beside_atom side (unsigned_abs period.now.scale) (unsigned_abs period.now.span) x.number (atom_of atom.now)) }
    ensures well_formed { OnOk result (All (IsPointOf x) points.new.items) }
    ensures within { OnOk result (each place_within (beside_atom side (unsigned_abs period.now.scale) (unsigned_abs period.now.span) x.number (atom_of atom.now)) ≡ true) }
    ensures overflow { IsErrOf result PointError.Overflow → each place_within (beside_atom side (unsigned_abs period.now.scale) (unsigned_abs period.now.span) x.number (atom_of atom.now)) ≡ false }
    ensures many { IsErrOf result PointError.Nodes → 2 ^ 64 ≤ length (beside_atom side (unsigned_abs period.now.scale) (unsigned_abs period.now.span) x.number (atom_of atom.now)) }
{
    match atom {
        Atom::Compare(relation, form) => {
            push_comparison(alloc, points, *relation, form, x, side, period)
        }
        Atom::Congruent { .. } => Ok(()),
    }
}

// Puts the numbers beside the ends of all atoms last. `Nodes` comes only where there are more than 64 bits count.
pub(crate) fn push_atoms(
    alloc: Global,
    points: &mut Vec<TestPoint>,
    atoms: &[Atom],
    x: VarId,
    side: Side,
    period: &Period,
) -> Result<(), PointError>
    requires usable { IsUsable period.now }
    requires reached { EachOf (λ a. IsReached (unsigned_abs period.now.scale) (coefficient x.number (form_of a))) (map atom_of atoms.now) }
    requires well_formed { All (IsPointOf x) points.old.items }
    ensures places { OnOk result (map place_of points.new.items ≡ map place_of points.old.items ++ flat_map (beside_atom side (unsigned_abs period.now.scale) (unsigned_abs period.now.span) x.number) (map atom_of atoms.now)) }
    ensures well_formed { OnOk result (All (IsPointOf x) points.new.items) }
    ensures within { OnOk result (each place_within (flat_map (beside_atom side (unsigned_abs period.now.scale) (unsigned_abs period.now.span) x.number) (map atom_of atoms.now)) ≡ true) }
    ensures overflow { IsErrOf result PointError.Overflow → each place_within (flat_map (beside_atom side (unsigned_abs period.now.scale) (unsigned_abs period.now.span) x.number) (map atom_of atoms.now)) ≡ false }
    ensures many { IsErrOf result PointError.Nodes → 2 ^ 64 ≤ length (flat_map (beside_atom side (unsigned_abs period.now.scale) (unsigned_abs period.now.span) x.number) (map atom_of atoms.now)) }
{
    for atom in atoms {
        match push_atom(alloc, points, atom, x, side, period) {
            Ok(()) => {}
            Err(error) => return Err(error),
        }
    }
    Ok(())
}
