//! Over the integers: how many test points a name has on a side, and the name and the side with the fewest.

ghost use Rattle.std.specs.Prelude.{◌≡◌, ◌⊎◌, ◌<◌, ◌≤◌, ℕ, false, map, All, MatchOption, IfOk, IfSome, IsErrOf, IsTrue, Some};
ghost use Rattle.logic_meaning.specs.Some.{Among, EachOf};
ghost use Rattle.logic_meaning.specs.Limits.{each, place_within};
ghost use Rattle.formula_laws.specs.StandsOnce.{StandsOnce};
ghost use Rattle.logic_meaning.specs.Context as meaning;
ghost use Rattle.logic_meaning.specs.IntegersPoints.{integer_points_of, integer_count_of};
ghost use Rattle.normal_atoms.specs.Atoms.{atom_of, IsWellFormed};
ghost use Rattle.test_points.specs.Points.{place_of, IsPointOf};
ghost use Rattle.test_points.specs.Periods.{IsPeriodOf};
ghost use Rattle.branch_points.specs.Counts.{SpanPasses, IsCount, IsCandidate, CountsAtMost, HasAtMost, IsBeaten};

use crate::error::ChoiceError;
use logic_meaning::{Side, VarId};
use normal_atoms::{Atom, Context};
use std::alloc::Global;
use test_points::{Period, TestPoint, integer_points, period, points_count};

/// A name and a side, the scale and the span of the name, and how many points are formed there, or `None` for more than `u64::MAX`.
#[derive(Clone, Copy)]
pub(crate) struct Candidate {
    pub(crate) name: VarId,
    pub(crate) side: Side,
    pub(crate) period: Period,
    pub(crate) count: Option<u64>,
}

/// The first of the names, and of its sides, with the fewest points, or `None` where the span of each name passes 2^127 - 1.
pub(crate) fn fewest(atoms: &[Atom], left: &[VarId]) -> Option<Candidate>
    requires well_formed { All IsWellFormed atoms.now }
    requires once { StandsOnce (map atom_of atoms.now) }
    ensures found { IfSome result (λ k. Among left.now k.name × IsCandidate (map atom_of atoms.now) k) }
    ensures least { EachOf (IsBeaten Context.Integers (map atom_of atoms.now) result) left.now }
{
    let mut best = None;
    for name in left {
        best = fewer(best, cheaper_side(atoms, *name));
    }
    best
}

// The one with fewer points, the first where both have as many.
fn fewer(first: Option<Candidate>, second: Option<Candidate>) -> Option<Candidate>
    ensures one { (result ≡ first) ⊎ (result ≡ second) }
    ensures least { (n : ℕ) → HasAtMost first n ⊎ HasAtMost second n → HasAtMost result n }
{
    match (first, second) {
        (Some(one), Some(other)) if is_below(other.count, one.count) => second,
        (None, _) => second,
        (Some(_), _) => first,
    }
}

// Whether the first count is below the second.
fn is_below(first: Option<u64>, second: Option<u64>) -> bool
    ensures below { (n : ℕ) → IsTrue result → CountsAtMost second n → CountsAtMost first n }
    ensures not_below { (n : ℕ) → ¬ (IsTrue result) → CountsAtMost first n → CountsAtMost second n }
{
    match (first, second) {
        (Some(first), Some(second)) => first < second,
        (Some(_), None) => true,
        (None, _) => false,
    }
}

// The name with the side on which it has fewer points, the lower where both have as many, or `None` where its span passes
// 2^127 - 1.
fn cheaper_side(atoms: &[Atom], x: VarId) -> Option<Candidate>
    requires well_formed { All IsWellFormed atoms.now }
    requires once { StandsOnce (map atom_of atoms.now) }
    ensures found { IfSome result (λ k. (k.name ≡ x) × IsCandidate (map atom_of atoms.now) k) }
    ensures least { IsBeaten Context.Integers (map atom_of atoms.now) result x }
{
    let period = period_of(atoms, x)?;
    let lower = on_side(atoms, x, period, Side::Lower);
    let upper = on_side(atoms, x, period, Side::Upper);
    fewer(Some(lower), Some(upper))
}

// The scale and the span of the name, or `None` where the span passes 2^127 - 1.
fn period_of(atoms: &[Atom], x: VarId) -> Option<Period>
    requires { All IsWellFormed atoms.now }
    ensures { MatchOption result (SpanPasses meaning.Integers x.number (map atom_of atoms.now)) (IsPeriodOf x.number (map atom_of atoms.now)) }
{
    match period(atoms, x) {
        Ok(period) => Some(period),
        Err(_) => None,
    }
}

// The name, of which the scale and the span are given, with a side.
fn on_side(atoms: &[Atom], x: VarId, period: Period, side: Side) -> Candidate
    requires well_formed { All IsWellFormed atoms.now }
    requires once { StandsOnce (map atom_of atoms.now) }
    requires period { IsPeriodOf x.number (map atom_of atoms.now) period }
    ensures name { result.name ≡ x }
    ensures side { result.side ≡ side }
    ensures candidate { IsCandidate (map atom_of atoms.now) result }
{
    Candidate {
        name: x,
        side,
        period,
        count: points_count(atoms, x, &period, side),
    }
}

/// Whether the count is at most so many.
pub(crate) fn is_within(count: Option<u64>, most: u64) -> bool
    ensures within { (n : ℕ) → IsTrue result → IsCount count n → n ≤ most }
    ensures exact { (m n : ℕ) → IsTrue result → IsCount count m → CountsAtMost count n → m ≤ n }
    ensures beyond { (n : ℕ) → ¬ (IsTrue result) → CountsAtMost count n → most < n }
{
    match count {
        Some(count) => count <= most,
        None => false,
    }
}

/// The points of the candidate, of which there are at most so many.
pub(crate) fn points_of(
    alloc: Global,
    atoms: &[Atom],
    chosen: Candidate,
    most: u64,
) -> Result<Vec<TestPoint>, ChoiceError>
    requires well_formed { All IsWellFormed atoms.now }
    requires once { StandsOnce (map atom_of atoms.now) }
    requires period { IsPeriodOf chosen.name.number (map atom_of atoms.now) chosen.period }
    ensures points { IfOk result (λ v. map place_of v.items ≡ integer_points_of chosen.side chosen.name.number (map atom_of atoms.now)) }
    ensures well_formed { IfOk result (λ v. All (IsPointOf chosen.name) v.items) }
    ensures nodes { IsErrOf result ChoiceError.Nodes → most < integer_count_of chosen.side chosen.name.number (map atom_of atoms.now) }
    ensures overflow { IsErrOf result ChoiceError.Overflow → each place_within (integer_points_of chosen.side chosen.name.number (map atom_of atoms.now)) ≡ false }
{
    Ok(integer_points(alloc, atoms, chosen.name, &chosen.period, chosen.side, most)?)
}
