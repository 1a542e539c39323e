// Test points of the integers, and how many there are.
ghost use Rattle.std.specs.Prelude.{◌≡◌, pos, ◌<ℤ◌, ◌<◌, ◌≤◌, ◌^◌, ◌+◌, ◌*◌, ◌/◌, ◌++◌, unsigned_abs, count_by, true, false, All, map, MatchOption, IfOk, IsErrOf};
ghost use Rattle.logic_meaning.specs.IntegersPoints.{integer_points_of, integer_count_of};
ghost use Rattle.logic_meaning.specs.Answer.{same_place};
ghost use Rattle.logic_meaning.specs.Distinct.{distinct};
ghost use Rattle.formula_laws.specs.StandsOnce.{StandsOnce};
ghost use Rattle.logic_meaning.specs.Limits.{each, place_within};
ghost use Rattle.normal_atoms.specs.Atoms.{atom_of, IsWellFormed};
ghost use Rattle.test_points.specs.Points.{place_of, IsPointOf};
ghost use Rattle.test_points.specs.Starts.{has_end};
ghost use Rattle.test_points.specs.Periods.{IsPeriodOf};

use crate::cooper_periods_ends::push_atoms;
use crate::distinct::distinct_points;
use crate::ends::quotient;
use crate::error::PointError;
use crate::points::TestPoint;
use crate::runs::push_classes;
use crate::scales::Period;
use crate::starts::has_end;
use logic_meaning::{Side, VarId};
use normal_atoms::Atom;
use std::alloc::{AllocError, Global};

// How many of the atoms have an end that lies to the side.
fn ends_count(atoms: &[Atom], x: VarId, side: Side) -> usize
    ensures { result ≡ count_by (λ a. has_end side x.number (atom_of a)) atoms.now }
{
    atoms.iter().filter(|atom| has_end(atom, x, side)).count()
}

// So many numbers beside each end, and the residue classes: `None` exactly where there are more than `u64::MAX`.
fn total(ends: usize, span: i128, scale: i128) -> Option<u64>
    requires span { pos 0 <ℤ span }
    requires scale { pos 0 <ℤ scale }
    ensures { MatchOption result (2 ^ 64 ≤ unsigned_abs span / unsigned_abs scale + unsigned_abs span * ends) (λ n. n ≡ unsigned_abs span / unsigned_abs scale + unsigned_abs span * ends) }
{
    let span = span.unsigned_abs();
    let beside_ends = span.checked_mul(ends as u128)?;
    let all = beside_ends.checked_add(span / scale.unsigned_abs())?;
    u64::try_from(all).ok()
}

/// How many test points of `x` the atoms give, each of which stands once; equal points are counted as often as they are
/// formed. `None` comes exactly where there are more than `u64::MAX`. No point is formed.
pub fn points_count(atoms: &[Atom], x: VarId, period: &Period, side: Side) -> Option<u64>
    requires well_formed { All IsWellFormed atoms.now }
    requires once { StandsOnce (map atom_of atoms.now) }
    requires period { IsPeriodOf x.number (map atom_of atoms.now) period.now }
    ensures { MatchOption result (2 ^ 64 ≤ integer_count_of side x.number (map atom_of atoms.now)) (λ n. n ≡ integer_count_of side x.number (map atom_of atoms.now)) }
{
    total(ends_count(atoms, x, side), period.span, period.scale)
}

// The residue classes, each of which stands once, and behind them the numbers beside the ends, each once.
fn with_ends(
    alloc: Global,
    x: VarId,
    mut classes: Vec<TestPoint>,
    ends: Vec<TestPoint>,
) -> Result<Vec<TestPoint>, AllocError>
    requires classes { All (IsPointOf x) classes.items }
    requires ends { All (IsPointOf x) ends.items }
    ensures places { IfOk result (λ v. map place_of v.items ≡ map place_of classes.items ++ distinct same_place (map place_of ends.items)) }
    ensures well_formed { IfOk result (λ v. All (IsPointOf x) v.items) }
{
    let mut ends = distinct_points(alloc, x, ends)?;
    classes.append(&mut ends)?;
    Ok(classes)
}

/// The test points of `x` in the atoms, each of which stands once; so does each point (Cooper 1972): the residue classes of
/// the period towards the infinity of the side, and then the numbers next to the ends of the atoms' intervals that lie to
/// the side, over the scale.
///
/// `Nodes` comes exactly where `points_count` gives more than `limit`, before any point is formed; else `Overflow` exactly
/// where a number of a point passes 2^127 - 1, else `Memory`.
pub fn integer_points(
    alloc: Global,
    atoms: &[Atom],
    x: VarId,
    period: &Period,
    side: Side,
    limit: u64,
) -> Result<Vec<TestPoint>, PointError>
    requires well_formed { All IsWellFormed atoms.now }
    requires once { StandsOnce (map atom_of atoms.now) }
    requires period { IsPeriodOf x.number (map atom_of atoms.now) period.now }
    ensures points { IfOk result (λ v. map place_of v.items ≡ integer_points_of side x.number (map atom_of atoms.now)) }
    ensures well_formed { IfOk result (λ v. All (IsPointOf x) v.items) }
    ensures few { IfOk result (λ v. integer_count_of side x.number (map atom_of atoms.now) ≤ limit) }
    ensures within { IfOk result (λ v. each place_within (integer_points_of side x.number (map atom_of atoms.now)) ≡ true) }
    ensures many { IsErrOf result PointError.Nodes → limit < integer_count_of side x.number (map atom_of atoms.now) }
    ensures few_first { IsErrOf result PointError.Overflow → integer_count_of side x.number (map atom_of atoms.now) ≤ limit }
    ensures overflow { IsErrOf result PointError.Overflow → each place_within (integer_points_of side x.number (map atom_of atoms.now)) ≡ false }
{
    match points_count(atoms, x, period, side) {
        Some(count) if count <= limit => {}
        _ => return Err(PointError::Nodes),
    }
    let Ok(classes) = u64::try_from(quotient(period.span, period.scale)) else {
        return Err(PointError::Nodes);
    };
    let mut points = Vec::new(alloc);
    push_classes(alloc, &mut points, x, side, classes)?;
    let mut ends = Vec::new(alloc);
    match push_atoms(alloc, &mut ends, atoms, x, side, period) {
        Ok(()) => Ok(with_ends(alloc, x, points, ends)?),
        Err(error) => Err(error),
    }
}
