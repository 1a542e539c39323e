//! Lists of atoms that come one after another, and what absorption leaves of them.

ghost use Rattle.std.specs.Prelude.{◌≡◌, ◌≤◌, [], List, false, true, take, length, IfOk, OnOk, IsTrue};
ghost use Rattle.logic_meaning.specs.PlainForms.{of_none};
ghost use Rattle.normal_forms.specs.Paths.{Grows};
ghost use Rattle.normal_forms.specs.Atoms.{some_within, add, add_all};
ghost use Rattle.normal_forms.specs.Sieves.{swept, first_only, IsSortedOf, ArePaths};

use crate::absorption::{Lines, is_within, some_within};
use crate::paths::{Found, Paths};
use formula_store::FormulaId;
use formula_tree::Ids;
use std::alloc::{AllocError, Global};
use std::marker::Model;
use std::mem;

// From so many lists on, paths pay: before that all lists are looked at one by one.
const MANY: usize = 512;

// Where there are paths, so many lists at most are looked at one by one.
const FEW: usize = 16;

/// Lists of atoms that came one after another, but for those in which an earlier one is within.
#[derive(Drop)]
pub(crate) struct Sieve {
    alloc: Global,
    lines: Lines,
    // The first lists, as paths, and how many they are.
    paths: Paths,
    count: usize,
}

impl Model for Sieve {
    ghost use Rattle.normal_forms.specs.Sieves.{Sifted, IsSifted};

    ghost Value = { Sifted };

    ghost view = { λ s. record { lines = s.lines.items; count = s.count } };

    ghost invariant = { λ s. IsSifted s.paths (record { lines = s.lines.items; count = s.count }) };
}

impl Sieve {
    /// No lists.
    pub(crate) fn new(alloc: Global) -> Sieve
        ensures { result.lines ≡ [] }
    {
        Sieve {
            alloc,
            lines: Vec::new(alloc),
            paths: Paths::new(alloc),
            count: 0,
        }
    }

    /// No lists, or one without atoms.
    pub(crate) fn of_constant(alloc: Global, bare: bool) -> Result<Sieve, AllocError>
        ensures { IfOk result (λ sieve. swept sieve.lines ≡ of_none bare) }
    {
        let mut sieve = Sieve::new(alloc);
        if bare {
            sieve.add(Ids::of(Vec::new(alloc)))?;
        }
        Ok(sieve)
    }

    /// Adds a list, unless an earlier one is within it.
    pub(crate) fn add(&mut self, line: Ids<FormulaId>) -> Result<(), AllocError>
        ensures first { OnOk result (self.new.lines ≡ first_only self.old.lines line) }
        ensures added { OnOk result (swept self.new.lines ≡ add (swept self.old.lines) line) }
    {
        if self.has_within(line.items())? {
            return Ok(());
        }
        self.lines.push(line)?;
        let few = if self.count == 0 { MANY } else { FEW };
        if few <= self.lines.len() - self.count {
            put_among(self.alloc, &mut self.paths, &self.lines, self.count)?;
            self.count = self.lines.len();
        }
        Ok(())
    }

    /// Adds lists one after another.
    pub(crate) fn add_all(&mut self, more: Lines) -> Result<(), AllocError>
        ensures { OnOk result (swept self.new.lines ≡ add_all (swept self.old.lines) more.items) }
    {
        for line in more {
            self.add(line)?;
        }
        Ok(())
    }

    // Whether some list is within this one.
    fn has_within(&self, line: &[FormulaId]) -> Result<bool, AllocError>
        ensures { IfOk result (λ has. has ≡ some_within self.now.lines line.now) }
    {
        let known = match self.found(line)? {
            Found::Nothing => self.count,
            Found::List(number) => {
                if self.is_list_within(number, line) {
                    return Ok(true);
                }
                0
            }
            Found::Unknown => 0,
        };
        Ok(some_within(&self.lines[known..], line))
    }

    // Whether the list with this number is within this one.
    fn is_list_within(&self, number: usize, line: &[FormulaId]) -> bool
        ensures { IsTrue result → some_within self.now.lines line.now ≡ true }
    {
        match self.lines.get(number) {
            Some(other) => is_within(other.items(), line),
            None => false,
        }
    }

    // What is found along the paths that may be within this list. Where that is nothing, none of the first lists is.
    fn found(&self, line: &[FormulaId]) -> Result<Found, AllocError>
        ensures { IfOk result (λ found. found ≡ Found.Nothing → some_within (take self.now.count self.now.lines) line.now ≡ false) }
    {
        if self.count == 0 {
            return Ok(Found::Nothing);
        }
        let atoms = sorted(self.alloc, line)?;
        self.paths.within(self.alloc, &atoms, self.count)
    }

    /// Takes out what is left of the lists, and leaves none.
    pub(crate) fn take_lines(&mut self) -> Result<Lines, AllocError>
        ensures taken { IfOk result (λ lines. lines.items ≡ swept self.old.lines) }
        ensures none { self.new.lines ≡ [] }
    {
        let none = Sieve::new(self.alloc);
        mem::replace(self, none).into_lines()
    }

    /// What is left of the lists: those in which no other one is within.
    pub(crate) fn into_lines(self) -> Result<Lines, AllocError>
        ensures { IfOk result (λ lines. lines.items ≡ swept self.lines) }
    {
        let Sieve {
            alloc,
            mut lines,
            ..
        } = self;
        let mut later = Sieve::new(alloc);
        while let Some(line) = lines.pop() {
            later.add(line)?;
        }
        let Sieve {
            lines: mut left,
            ..
        } = later;
        left.reverse();
        Ok(left)
    }
}

// Puts the lists from one on among the paths, where those before it are.
fn put_among(
    alloc: Global,
    paths: &mut Paths,
    lines: &[Ids<FormulaId>],
    from: usize,
) -> Result<(), AllocError>
    requires within { from ≤ length lines.now }
    requires paths { ArePaths paths.old (take from lines.now) }
    ensures paths { OnOk result (ArePaths paths.new lines.now) }
    ensures grows { Grows paths.old paths.new }
{
    for number in from..lines.len() {
        let atoms = sorted(alloc, lines[number].items())?;
        paths.add(&atoms, number)?;
    }
    Ok(())
}

// The atoms of a list, each once, sorted by their ids.
fn sorted(alloc: Global, line: &[FormulaId]) -> Result<Vec<FormulaId>, AllocError>
    ensures { IfOk result (λ atoms. IsSortedOf line.now atoms.items) }
{
    let mut atoms = Vec::from_slice(alloc, line)?;
    atoms.sort_unstable();
    atoms.dedup();
    Ok(atoms)
}
