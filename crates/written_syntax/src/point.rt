ghost use Rattle.std.specs.Prelude.{◌≡◌, ◌↔◌, ◌⊎◌, ℤ, pos, ◌<ℤ◌, IsTrue, IfOk, OnOk, OnErr, IfErr, MatchOption};
ghost use Rattle.std.specs.List.{AllByRecursion};
ghost use Rattle.exact_numbers.specs.Limit.{InLimit, PastLimit};
ghost use Rattle.exact_numbers.specs.Divides.{Divides, lcm_of};
ghost use Rattle.exact_numbers.specs.Division.{IsLcm};
ghost use Rattle.exact_numbers.specs.Fraction.{frac_of};
ghost use Rattle.logic_meaning.specs.Some.{SomeOf};
ghost use Rattle.written_syntax.specs.Proper.{IsProperEntry, AreProperEntries};
ghost use Rattle.language_meaning.specs.Point.{NamesTwice, IsZeroBelow, IsPast, IsBroken, lowest_below, IsLeastDenominator, DenominatorPasses, IsScaled};
ghost use Rattle.written_syntax.specs.PointNumbers.{IsLowestValue, IsReady, SetsNumber, AreNumbers};
ghost use Rattle.written_syntax.specs.PointFaults.{PutFault, IsChecked, CheckFault};

use exact_numbers::{Fraction, lcm, residue};
use language_meaning::{Literal, PointEntry};
use logic_meaning::Name;
use std::alloc::{AllocError, Global};
use std::collections::{BTreeMap, BTreeSet};
use std::marker::Model;
use thiserror::Error;

/// A rational point: a whole number for some names, over one positive denominator. Each other name has 0.
#[derive(Drop)]
pub struct Point {
    numbers: BTreeMap<Name, i128>,
    denominator: i128,
    ghost positive: { pos 0 <ℤ denominator },
}

impl Model for Point {
    ghost use Rattle.std.specs.Prelude.{List, ℕ, ℤ, pos, ◌<ℤ◌, IfSome};
    ghost use Rattle.exact_numbers.specs.Limit.{InLimit};
    ghost use Rattle.written_syntax.specs.PointNumbers.{Numbers, number_of};

    ghost Value = { Numbers };

    ghost view = { λ p. record { numbers = p.numbers.entries; denominator = p.denominator; positive = p.positive } };

    ghost invariant = { λ p. InLimit p.denominator × ((name : List ℕ) → IfSome (number_of name p.numbers.entries) InLimit) };
}

impl Point {
    ghost use Rattle.std.specs.Prelude.{OnErr, unwrap_or};
    ghost use Rattle.language_meaning.specs.Point.{IsPointOf};
    ghost use Rattle.written_syntax.specs.PointNumbers.{point_of, number_of};
    ghost use Rattle.written_syntax.specs.PointFaults.{IsFaultless, FaultOf};

    /// The point that the entries mean. With `whole`, each value has to be a whole number.
    pub fn of(alloc: Global, entries: &[PointEntry], whole: bool) -> Result<Point, PointFault>
        requires { AreProperEntries entries.now }
        ensures point { IfOk result (λ p. IsPointOf entries.now (point_of p)) }
        ensures faultless { OnOk result (IsFaultless entries.now whole) }
        ensures fault { IfErr result (FaultOf entries.now whole) }
    {
        check_entries(alloc, entries, whole)?;
        let denominator = least_denominator(entries)?;
        let numbers = numbers_over(alloc, entries, denominator)?;
        Ok(Point {
            numbers,
            denominator,
        })
    }

    /// The denominator, which is positive. It takes no memory.
    pub fn denominator(&self) -> i128
        ensures value { result ≡ self.now.denominator }
        ensures positive { pos 0 <ℤ self.now.denominator }
        ensures within { InLimit self.now.denominator }
    {
        self.denominator
    }

    /// The number of a name over the denominator, which is 0 where the point says nothing of it. It takes no memory.
    pub fn numerator(&self, name: &Name) -> i128
        ensures value { result ≡ unwrap_or (number_of name.now self.now.numbers) (pos 0) }
        ensures within { InLimit result }
    {
        self.numbers.get(name).copied().unwrap_or(0)
    }
}

/// Why entries mean no point. The first of these causes is answered.
#[derive(Clone, Copy, Debug, PartialEq, Eq, Error)]
pub enum PointFault {
    #[error("a name stands twice")]
    Double,
    #[error("a denominator is 0")]
    ZeroBelow,
    #[error("a value is not whole")]
    NotWhole,
    #[error("a number passes 2^127 - 1")]
    Overflow,
    #[error("out of memory")]
    Memory,
}

/// Whether a name stands twice.
fn names_twice(alloc: Global, entries: &[PointEntry]) -> Result<bool, AllocError>
    ensures { IfOk result (λ twice. IsTrue twice ↔ NamesTwice entries.now) }
{
    let mut seen = BTreeSet::new(alloc);
    for entry in entries {
        if !seen.insert(entry.name)? {
            return Ok(true);
        }
    }
    Ok(false)
}

/// Whether the denominator is 0.
fn is_zero_below(entry: &PointEntry) -> bool
    ensures { IsTrue result ↔ IsZeroBelow entry.now }
{
    matches!(entry.below, Literal::Fits(0))
}

/// Whether the value is a fraction of two literals within the limit, and not whole.
fn is_broken(entry: &PointEntry) -> bool
    requires proper { IsProperEntry entry.now }
    requires divided { ¬ (IsZeroBelow entry.now) }
    ensures { IsTrue result ↔ IsBroken entry.now }
{
    match (entry.above, entry.below) {
        (Literal::Fits(above), Literal::Fits(below)) => residue(above, below) != 0,
        _ => false,
    }
}

/// Whether the denominator of some entry is 0.
fn has_zero_below(entries: &[PointEntry]) -> bool
    ensures { IsTrue result ↔ SomeOf IsZeroBelow entries.now }
{
    for entry in entries {
        if is_zero_below(entry) {
            return true;
        }
    }
    false
}

/// Whether the value of some entry is a fraction of two literals within the limit, and not whole.
fn has_broken(entries: &[PointEntry]) -> bool
    requires { AllByRecursion (λ e. IsProperEntry e × (¬ (IsZeroBelow e))) entries.now }
    ensures { IsTrue result ↔ SomeOf IsBroken entries.now }
{
    for entry in entries {
        if is_broken(entry) {
            return true;
        }
    }
    false
}

/// The value in lowest terms, or `None` where a literal is above the limit.
fn value_of(entry: &PointEntry) -> Option<Fraction>
    requires proper { IsProperEntry entry.now }
    requires divided { ¬ (IsZeroBelow entry.now) }
    ensures { MatchOption result (IsPast entry.now) (λ v. IsLowestValue entry.now (frac_of v)) }
{
    match (entry.above, entry.below) {
        (Literal::Fits(above), Literal::Fits(below)) => Some(Fraction::reduced(above, below)),
        _ => None,
    }
}

/// The least common multiple of a number and the denominator of the value in lowest terms, or `None` where it or a
/// literal passes the limit.
fn multiple_with(common: i128, entry: &PointEntry) -> Option<i128>
    requires positive { pos 0 <ℤ common }
    requires proper { IsProperEntry entry.now }
    requires divided { ¬ (IsZeroBelow entry.now) }
    ensures { MatchOption result (IsPast entry.now ⊎ PastLimit (lcm_of common (lowest_below entry.now)))
        (λ m. IsLcm common (lowest_below entry.now) m × InLimit m × (¬ (IsPast entry.now))) }
{
    lcm(common, value_of(entry)?.denominator)
}

/// The least common multiple of the denominators in lowest terms, or `None` where it or a literal passes the limit.
fn common_denominator(entries: &[PointEntry]) -> Option<i128>
    requires proper { AreProperEntries entries.now }
    requires divided { ¬ (SomeOf IsZeroBelow entries.now) }
    ensures { MatchOption result (DenominatorPasses entries.now)
        (λ d. IsLeastDenominator entries.now d × InLimit d × (¬ (SomeOf IsPast entries.now))) }
{
    let mut common = 1;
    for entry in entries {
        common = multiple_with(common, entry)?;
    }
    Some(common)
}

/// The least common multiple of the denominators in lowest terms.
fn least_denominator(entries: &[PointEntry]) -> Result<i128, PointFault>
    requires proper { AreProperEntries entries.now }
    requires divided { ¬ (SomeOf IsZeroBelow entries.now) }
    ensures ok { IfOk result (λ d. IsLeastDenominator entries.now d × InLimit d × (¬ (SomeOf IsPast entries.now))) }
    ensures fault { IfErr result (λ fault. (fault ≡ PointFault.Overflow) × DenominatorPasses entries.now) }
{
    common_denominator(entries).ok_or(PointFault::Overflow)
}

/// The number that stands over a common denominator for the entry's value, or `None` where it passes the limit.
fn number_over(entry: &PointEntry, denominator: i128) -> Option<i128>
    requires proper { IsProperEntry entry.now }
    requires divided { ¬ (IsZeroBelow entry.now) }
    requires fits { ¬ (IsPast entry.now) }
    requires positive { pos 0 <ℤ denominator }
    requires common { Divides (lowest_below entry.now) denominator }
    ensures { MatchOption result
        ((number : ℤ) × IsScaled denominator entry.now number × PastLimit number)
        (λ number. IsScaled denominator entry.now number × InLimit number) }
{
    value_of(entry)?.scaled(denominator)
}

/// Sets the number of the entry's name. An `Err` changes nothing.
fn put_number(
    numbers: &mut BTreeMap<Name, i128>,
    entry: &PointEntry,
    denominator: i128,
) -> Result<(), PointFault>
    requires positive { pos 0 <ℤ denominator }
    requires ready { IsReady denominator entry.now }
    ensures ok { OnOk result ((number : ℤ) × IsScaled denominator entry.now number × InLimit number
        × SetsNumber numbers.old.entries numbers.new.entries entry.now.name number) }
    ensures fault { IfErr result (λ fault. PutFault denominator entry.now fault) }
    ensures err { OnErr result (numbers.new.entries ≡ numbers.old.entries) }
{
    let number = number_over(entry, denominator).ok_or(PointFault::Overflow)?;
    numbers
        .insert(entry.name, number)
        .map_err(|_| PointFault::Memory)?;
    Ok(())
}

/// The numbers of the entries over the denominator.
fn numbers_over(
    alloc: Global,
    entries: &[PointEntry],
    denominator: i128,
) -> Result<BTreeMap<Name, i128>, PointFault>
    requires positive { pos 0 <ℤ denominator }
    requires ready { AllByRecursion (IsReady denominator) entries.now }
    requires single { ¬ (NamesTwice entries.now) }
    ensures ok { IfOk result (λ numbers. AreNumbers entries.now denominator numbers.entries) }
    ensures fault { IfErr result (λ fault. SomeOf (λ e. PutFault denominator e fault) entries.now) }
{
    let mut numbers = BTreeMap::new(alloc);
    for entry in entries {
        put_number(&mut numbers, entry, denominator)?;
    }
    Ok(numbers)
}

/// Whether no name stands twice, no denominator is 0 and, with `whole`, each value is a whole number.
fn check_entries(alloc: Global, entries: &[PointEntry], whole: bool) -> Result<(), PointFault>
    requires { AreProperEntries entries.now }
    ensures ok { OnOk result (IsChecked entries.now whole) }
    ensures fault { IfErr result (CheckFault entries.now whole) }
{
    if names_twice(alloc, entries).map_err(|_| PointFault::Memory)? {
        return Err(PointFault::Double);
    }
    if has_zero_below(entries) {
        return Err(PointFault::ZeroBelow);
    }
    if whole && has_broken(entries) {
        return Err(PointFault::NotWhole);
    }
    Ok(())
}
