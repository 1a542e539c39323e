//! Which rows are refuted together.

ghost use Rattle.std.specs.Prelude.{◌≡◌, ◌<◌, ◌≤◌, ℕ, true, false, IfOk, IfSome, OnOk, IsTrue, length, map, slice_index_or};
ghost use Rattle.logic_meaning.specs.Point.{Point};
ghost use Rattle.linear_theory.specs.Meeting.{Meets, MeetsAll};
ghost use Rattle.certificates.specs.Constraints.{constraint_of};
ghost use Rattle.atom_pruning.specs.Asked.{asked_of, negations, MeetsMarked, AreRefuted, AreEnoughFor, AreMarks};

use crate::combination::Combination;
use crate::names::Names;
use crate::row_list::RowList;
use certificates::{Bound, Constraint};
use simplex_search::{Sense, System};
use std::alloc::{AllocError, Global};

// Rows with the system in which multipliers of them are looked for: which of them is asked about is told by marks.
#[derive(Drop)]
pub(crate) struct Question<'a> {
    alloc: Global,
    rows: RowList<'a>,
    system: System,
}

impl<'a> Question<'a> {
    // The rows, over names that are numbered without gaps.
    pub(crate) fn new(alloc: Global, rows: RowList<'a>) -> Result<Question<'a>, AllocError>
        ensures { IfOk result (λ q. asked_of q.rows ≡ asked_of rows.entry) }
    {
        let names = Names::of(alloc, &rows)?;
        let mut system = System::new(alloc, names.len());
        let mut coefficients = Vec::new(alloc);
        for place in 0..rows.len() {
            push_row(&mut system, &names, rows.get(place), &mut coefficients)?;
        }
        Ok(Question {
            alloc,
            rows,
            system,
        })
    }

    // Marks for the rows of the given atoms and of the assumptions.
    pub(crate) fn marks(&self) -> Result<Vec<bool>, AllocError>
        ensures marks { IfOk result (λ v. AreMarks (asked_of self.now.rows) v.items) }
        ensures marked { IfOk result (λ v. (k : ℕ) → k < negations (asked_of self.now.rows) → slice_index_or v.items k false ≡ true) }
    {
        let mut marks = vec![in self.alloc; true; self.rows.negations()]?;
        marks.resize(self.rows.len(), false)?;
        Ok(marks)
    }

    // Marks for the rows of the first given atoms, so many, and of the assumptions.
    pub(crate) fn first_marks(&self, first: usize) -> Result<Vec<bool>, AllocError>
        ensures marks { IfOk result (λ v. AreMarks (asked_of self.now.rows) v.items) }
        ensures marked { IfOk result (λ v. (k : ℕ) → k < first → k < length self.now.rows.given.now → slice_index_or v.items k false ≡ true) }
    {
        let given = self.rows.given.len();
        let mut marks = vec![in self.alloc; true; first.min(given)]?;
        marks.resize(given, false)?;
        marks.resize(self.rows.negations(), true)?;
        marks.resize(self.rows.len(), false)?;
        Ok(marks)
    }

    // Whether multipliers are found by which no point meets the marked rows. What the search does is taken off the effort.
    pub(crate) fn refutes(&self, marks: &[bool], effort: &mut u64) -> Result<bool, AllocError>
        ensures refuted { IfOk result (λ b. IsTrue b → AreRefuted (asked_of self.now.rows) marks.now) }
        ensures effort { effort.new ≤ effort.old }
    {
        match self.system.multipliers(marks, effort)? {
            Some(multipliers) => self.combination(marks, &multipliers)?.refutes(self.alloc),
            None => Ok(false),
        }
    }

    // The same, and where no multipliers are found, marks atoms whose rows are marked and that are found not to be implied by the others.
    pub(crate) fn surveys(
        &self,
        marks: &[bool],
        needed: &mut [bool],
        effort: &mut u64,
    ) -> Result<bool, AllocError>
        ensures refuted { IfOk result (λ b. IsTrue b → AreRefuted (asked_of self.now.rows) marks.now) }
        ensures effort { effort.new ≤ effort.old }
    {
        let negations = self.rows.negations();
        match self.system.survey(marks, negations, needed, effort)? {
            Some(multipliers) => self.combination(marks, &multipliers)?.refutes(self.alloc),
            None => Ok(false),
        }
    }

    // Whether the marked rows are refuted with the negation of the atom at a place, so that they imply it; not where it has no row.
    pub(crate) fn implies(
        &self,
        place: usize,
        marks: &mut Vec<bool>,
        effort: &mut u64,
    ) -> Result<bool, AllocError>
        requires place { place < length self.now.rows.negated.now }
        requires marks { AreMarks (asked_of self.now.rows) marks.old.items }
        ensures implied { IfOk result (λ b. IsTrue b → AreEnoughFor (asked_of self.now.rows) marks.old.items place) }
        ensures marks { OnOk result (marks.new.items ≡ marks.old.items) }
        ensures effort { effort.new ≤ effort.old }
    {
        if self.rows.negated[place].fails.is_none() {
            return Ok(false);
        }
        let negation = self.rows.negations() + place;
        marks[negation] = true;
        let refuted = self.refutes(marks, effort)?;
        marks[negation] = false;
        Ok(refuted)
    }

    // The marked rows with a multiplier that is not 0.
    fn combination(&self, marks: &[bool], multipliers: &[i128]) -> Result<Combination, AllocError>
        ensures { IfOk result (λ c. (p : Point ℕ) → MeetsMarked p (asked_of self.now.rows) marks.now → MeetsAll p (map constraint_of c.constraints.items)) }
    {
        let mut combination = Combination::new(self.alloc);
        for (place, multiplier) in multipliers.iter().enumerate() {
            if *multiplier != 0
                && let Some(row) = self.marked(place, marks)
            {
                combination.add(self.alloc, row, *multiplier)?;
            }
        }
        Ok(combination)
    }

    // The row at a place, if it is marked.
    fn marked(&self, place: usize, marks: &[bool]) -> Option<&'a Constraint>
        ensures { IfSome result (λ r. (p : Point ℕ) → MeetsMarked p (asked_of self.now.rows) marks.now → Meets p (constraint_of r.now)) }
    {
        match marks.get(place) {
            Some(true) => self.rows.get(place),
            Some(false) | None => None,
        }
    }
}

// Adds a row to the system behind the others; where there is none, one that every point meets.
fn push_row(
    system: &mut System,
    names: &Names,
    row: Option<&Constraint>,
    coefficients: &mut Vec<(usize, i128)>,
) -> Result<(), AllocError> {
    match row {
        None => system.push(&[], 0, Sense::AtMost),
        Some(row) => {
            names.write_coefficients(&row.form, coefficients)?;
            let sense = match row.bound {
                Bound::Equal => Sense::Equal,
                Bound::AtMost => Sense::AtMost,
                Bound::Below => Sense::Below,
            };
            system.push(coefficients, row.form.constant_part(), sense)
        }
    }
}
