// Linear inequalities and equations, and the search for multipliers of them.
ghost use Rattle.std.specs.Prelude.{◌≡◌, ◌+◌, ◌≤◌, vec_len, OnOk, OnErr, IfOk, IfSome};

use crate::corner::Negations;
use crate::numbers::gcd;
use crate::pair::multipliers_of_two;
use crate::reduction::Reduction;
use crate::search::{Outcome, spend};
use crate::tableau::Tableau;
use std::alloc::{AllocError, Global};
use std::cmp::Ordering;
use std::marker::Model;

/// What the value of a form is to be: 0, at most 0, or below 0.
#[derive(Clone, Copy, Debug, PartialEq, Eq)]
pub enum Sense {
    Equal,
    AtMost,
    Below,
}

impl Sense {
    // Whether a value that compares with 0 like this is not as it is to be.
    pub(crate) fn is_broken_at(self, excess: Ordering) -> bool {
        match self {
            Sense::Equal => excess.is_ne(),
            Sense::AtMost | Sense::Below => excess.is_gt(),
        }
    }

    // The multiple of an arbitrarily small positive number that is added to a form, so that the sum is to be at most 0.
    pub(crate) fn margin(self) -> i128 {
        match self {
            Sense::Equal | Sense::AtMost => 0,
            Sense::Below => 1,
        }
    }
}

// A linear form, by the coefficients of its names that are not 0 and its constant, and what its value is to be.
#[derive(Debug, Drop)]
pub(crate) struct Row {
    pub(crate) terms: Vec<(usize, i128)>,
    pub(crate) constant: i128,
    pub(crate) sense: Sense,
}

impl Row {
    // Whether the row has no name and every point meets it.
    fn is_nothing(&self) -> bool {
        self.terms.is_empty() && self.constant == 0 && self.sense != Sense::Below
    }

    // The greatest constant that an allowed multiple by 1 or -1 has.
    pub(crate) fn greatest_constant(&self) -> i128 {
        match self.sense {
            Sense::Equal => self.constant.saturating_abs(),
            Sense::AtMost | Sense::Below => self.constant,
        }
    }
}

/// Rows over the names below a number, for which multipliers are looked for: what contracts see of them is how many they are.
#[derive(Debug, Drop)]
pub struct System {
    alloc: Global,
    names: usize,
    rows: Vec<Row>,
}

impl Model for System {
    ghost use Rattle.std.specs.Prelude.{ℕ, vec_len};

    ghost Value = { ℕ };

    ghost view = { λ s. vec_len s.rows };
}

impl System {
    /// No rows, over the names below `names`.
    pub fn new(alloc: Global, names: usize) -> System
        ensures { result ≡ 0 }
    {
        System {
            alloc,
            names,
            rows: Vec::new(alloc),
        }
    }

    /// Adds a row behind the others: the coefficients of its names, each name once, its constant, and what its value is to be. A
    /// name at or past the number of names is left out.
    pub fn push(
        &mut self,
        coefficients: &[(usize, i128)],
        constant: i128,
        sense: Sense,
    ) -> Result<(), AllocError>
        ensures added { OnOk result (self.new ≡ self.old + 1) }
        ensures kept { OnErr result (self.new ≡ self.old) }
    {
        let names = self.names;
        let terms = coefficients
            .iter()
            .filter(|(name, times)| *name < names && *times != 0)
            .copied()
            .collect(self.alloc)?;
        self.rows.push(Row {
            terms,
            constant,
            sense,
        })?;
        Ok(())
    }

    /// How many rows there are.
    pub fn len(&self) -> usize
        ensures { result ≡ self.now }
    {
        self.rows.len()
    }

    /// Multipliers of the rows that are marked, one for each row and 0 where it is not marked or past the marks, by which they
    /// may add up to a contradiction: the names cancel, and the constants add up to more than 0, or to 0 with a strict row
    /// among them. `None` where none were found: there are none then, or the effort does not suffice, or a number passes 128
    /// bits. The effort is what the search may spend, 1 for a row and 1 for an entry of the tableau at each pivot; what it
    /// spends is taken off.
    ///
    /// It solves rows for the names, and then rows that are not met: those that are missed most, and after many pivots the first
    /// (Bland, "New finite pivoting rules for the simplex method", 1977). The numbers are whole, over one denominator (Bareiss,
    /// "Sylvester's identity and multistep integer-preserving Gaussian elimination", 1968).
    pub fn multipliers(
        &self,
        wanted: &[bool],
        effort: &mut u64,
    ) -> Result<Option<Vec<i128>>, AllocError>
        ensures shape { IfOk result (λ found. IfSome found (λ v. vec_len v ≡ self.now)) }
        ensures effort { effort.new ≤ effort.old }
    {
        if let Some((first, second)) = self.two_marked(wanted) {
            return self.multipliers_of(first, second);
        }
        let Some(mut tableau) = self.tableau(wanted, effort)? else {
            return Ok(None);
        };
        match tableau.outcome(effort) {
            Some(Outcome::Contradiction(place)) => self.multipliers_at(&tableau, place),
            Some(Outcome::Met) | None => Ok(None),
        }
    }

    // The places of the rows that are marked and say something, if they are two.
    fn two_marked(&self, wanted: &[bool]) -> Option<(usize, usize)> {
        let mut one = None;
        let mut two = None;
        for (place, (row, mark)) in self.rows.iter().zip(wanted).enumerate() {
            if *mark && !row.is_nothing() {
                match (one, two) {
                    (None, _) => one = Some(place),
                    (Some(first), None) => two = Some((first, place)),
                    (Some(_), Some(_)) => return None,
                }
            }
        }
        two
    }

    // The multipliers of all rows where those at two places alone are marked, which takes no search.
    fn multipliers_of(&self, first: usize, second: usize) -> Result<Option<Vec<i128>>, AllocError>
        ensures shape { IfOk result (λ found. IfSome found (λ v. vec_len v ≡ self.now)) }
    {
        let (Some(one), Some(other)) = (self.rows.get(first), self.rows.get(second)) else {
            return Ok(None);
        };
        let Some((of_one, of_other)) = multipliers_of_two(one, other) else {
            return Ok(None);
        };
        let mut multipliers = vec![in self.alloc; 0; self.rows.len()]?;
        write(&mut multipliers, first, of_one);
        write(&mut multipliers, second, of_other);
        divide_by_content(&mut multipliers);
        Ok(Some(multipliers))
    }

    /// The same; and where all rows that are marked are found to be met at some point, marks rows of them that the others do not imply:
    /// those for which it sees a point that meets the others and the negation. The negations stand behind the rows, in their order, from
    /// a place on.
    pub fn survey(
        &self,
        wanted: &[bool],
        negations: usize,
        needed: &mut [bool],
        effort: &mut u64,
    ) -> Result<Option<Vec<i128>>, AllocError>
        ensures shape { IfOk result (λ found. IfSome found (λ v. vec_len v ≡ self.now)) }
        ensures effort { effort.new ≤ effort.old }
    {
        let Some(mut tableau) = self.tableau(wanted, effort)? else {
            return Ok(None);
        };
        match tableau.outcome(effort) {
            Some(Outcome::Contradiction(place)) => self.multipliers_at(&tableau, place),
            Some(Outcome::Met) => {
                if tableau.spend(effort).is_some() {
                    let negations = Negations {
                        rows: &self.rows,
                        first: negations,
                        distance: tableau.distance(),
                    };
                    tableau.mark_needed(negations, needed);
                }
                Ok(None)
            }
            None => Ok(None),
        }
    }

    // The tableau in which multipliers of the rows that are marked are looked for, if one of them can have one and the effort suffices.
    fn tableau(&self, wanted: &[bool], effort: &mut u64) -> Result<Option<Tableau>, AllocError>
        ensures { effort.new ≤ effort.old }
    {
        if spend(effort, self.rows.len() as u64).is_none() {
            return Ok(None);
        }
        let reduction = Reduction::of(self.alloc, &self.rows, wanted, self.names)?;
        if reduction.parts.is_empty() {
            return Ok(None);
        }
        Ok(Some(Tableau::new(self.alloc, &reduction)?))
    }

    // The multipliers of all rows by which a line is a contradiction, if they fit.
    fn multipliers_at(
        &self,
        tableau: &Tableau,
        place: usize,
    ) -> Result<Option<Vec<i128>>, AllocError>
        ensures shape { IfOk result (λ found. IfSome found (λ v. vec_len v ≡ self.now)) }
    {
        let mut multipliers = vec![in self.alloc; 0; self.rows.len()]?;
        if tableau.write_multipliers(place, &mut multipliers).is_none() {
            return Ok(None);
        }
        divide_by_content(&mut multipliers);
        Ok(Some(multipliers))
    }

    /// A point that may meet all rows, by the same search; to be checked. `None` where the rows are a contradiction, or where the effort
    /// does not suffice.
    pub fn point(&self, effort: &mut u64) -> Result<Option<Point>, AllocError>
        ensures { effort.new ≤ effort.old }
    {
        if spend(effort, self.rows.len() as u64).is_none() {
            return Ok(None);
        }
        let mut tableau = Tableau::with_names(self.alloc, &self.rows, self.names)?;
        if let Some(Outcome::Contradiction(_)) = tableau.outcome(effort) {
            return Ok(None);
        }
        let mut numerators = Vec::with_capacity(self.alloc, self.names)?;
        for line in &tableau.names {
            numerators.push((line.constant, line.margin))?;
        }
        Ok(Some(Point {
            numerators,
            denominator: tableau.denominator,
        }))
    }
}

/// A point, by the numerators of the names over one denominator, which is positive: each is a number and a multiple of an arbitrarily small
/// positive number.
#[derive(Drop)]
pub struct Point {
    pub numerators: Vec<(i128, i128)>,
    pub denominator: i128,
}

// Writes a number to a place, if there is one.
fn write(numbers: &mut [i128], place: usize, number: i128) {
    if let Some(written) = numbers.get_mut(place) {
        *written = number;
    }
}

// Divides the numbers by their greatest common divisor, if it fits.
fn divide_by_content(numbers: &mut [i128]) {
    let mut content = 0;
    for number in numbers.iter() {
        content = gcd(*number, content);
    }
    let Ok(content) = i128::try_from(content) else {
        return;
    };
    for number in numbers.iter_mut() {
        *number = number.checked_div(content).unwrap_or(*number);
    }
}
