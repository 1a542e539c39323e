//! Directions in which rows are met for ever.

ghost use Rattle.std.specs.Prelude.{◌≤◌};

use crate::sides::{Sides, Step};
use crate::table::{Line, Table};
use certificates::Bound;
use std::alloc::{AllocError, Global};

const STEPS: [Step; 2] = [Step::Up, Step::Down];

// The numbers of two names, with a step of each.
#[derive(Clone, Copy, Debug)]
struct Direction {
    first: (usize, Step),
    second: (usize, Step),
}

impl Direction {
    // What a form with these coefficients gains; a number of the same sign where it does not fit.
    #[inline(always)]
    fn gain(self, coefficients: &[i128]) -> i128 {
        let first = gain_at(self.first, coefficients);
        first.saturating_add(gain_at(self.second, coefficients))
    }
}

/// Directions of one name or of two, each by 1 up or down, in which a point that meets rows can go on for ever and meets them: the rows
/// imply no atom that is false from some point on. They spare searches, and no clause says anything of them.
#[derive(Drop)]
pub struct Directions {
    // Where the rows have each name.
    sides: Vec<Sides>,
    // Those of two names of which one alone does not do.
    joint: Vec<Direction>,
}

impl Directions {
    /// Those of the assumptions and the atoms with these numbers in the table, taken together. What looking for them costs, twice the
    /// square of the names for each row at most, is taken off the effort; where it does not suffice, none of two names are looked for. Its
    /// only error is want of memory.
    pub fn of(
        alloc: Global,
        table: &Table,
        assumed: &[usize],
        atoms: &[usize],
        effort: &mut u64,
    ) -> Result<Directions, AllocError>
        ensures { effort.new ≤ effort.old }
    {
        let mut rows = Vec::new(alloc);
        for number in atoms.iter().chain(assumed) {
            if let Some(row) = table.holds(*number) {
                rows.push(row)?;
            }
        }
        let mut directions = Directions {
            sides: Sides::of_each(alloc, table.names(), &rows)?,
            joint: Vec::new(alloc),
        };
        if let Some(left) = effort.checked_sub(cost(table.names(), rows.len())) {
            *effort = left;
            directions.look_at_all(&rows)?;
        }
        Ok(directions)
    }

    // Looks at each two names.
    fn look_at_all(&mut self, rows: &[Line<'_>]) -> Result<(), AllocError> {
        for first in 0..self.sides.len() {
            let sides = self.sides_of(first);
            if !sides.are_none() {
                for step in &STEPS {
                    self.look_beside((first, *step), sides.by(*step), rows)?;
                }
            }
        }
        Ok(())
    }

    // Looks at a step of a name, whose sides are these, and each step of the names after it.
    fn look_beside(
        &mut self,
        first: (usize, Step),
        sides: Sides,
        rows: &[Line<'_>],
    ) -> Result<(), AllocError> {
        for second in first.0.saturating_add(1)..self.sides.len() {
            let other = self.sides_of(second);
            for step in &STEPS {
                let others = other.by(*step);
                let direction = Direction {
                    first,
                    second: (second, *step),
                };
                if sides.may_cancel(others)
                    && !(sides.are_free() && others.are_free())
                    && none_grows(rows, direction)
                {
                    self.joint.push(direction)?;
                }
            }
        }
        Ok(())
    }

    // The sides of a name.
    fn sides_of(&self, name: usize) -> Sides {
        match self.sides.get(name) {
            Some(sides) => *sides,
            None => Sides::NONE,
        }
    }

    /// Whether the directions leave it open that the atoms imply the one with this number in the table: none leads to where it is false.
    pub fn may_imply(&self, table: &Table, atom: usize) -> bool {
        let Some(negation) = table.fails(atom) else {
            return false;
        };
        negation.bound == Bound::Equal
            || !self.leads_away_by_one(negation.coefficients)
                && !self.leads_away_by_two(negation.coefficients)
    }

    // Whether a step of one name leads to where a form with these coefficients is negative.
    fn leads_away_by_one(&self, coefficients: &[i128]) -> bool {
        for (coefficient, sides) in coefficients.iter().zip(&self.sides) {
            if *coefficient > 0 && sides.by(Step::Down).are_free()
                || *coefficient < 0 && sides.by(Step::Up).are_free()
            {
                return true;
            }
        }
        false
    }

    // Whether steps of two names lead there.
    fn leads_away_by_two(&self, coefficients: &[i128]) -> bool {
        self.joint
            .iter()
            .any(|direction| direction.gain(coefficients) < 0)
    }
}

// What it costs to look at each two of so many names beside so many rows.
fn cost(names: usize, rows: usize) -> u64 {
    let names = names as u64;
    names
        .saturating_mul(names)
        .saturating_mul(2)
        .saturating_mul(rows as u64)
}

// Whether no row grows in the direction.
fn none_grows(rows: &[Line<'_>], direction: Direction) -> bool {
    for row in rows {
        let gain = direction.gain(row.coefficients);
        if gain > 0 || gain < 0 && row.bound == Bound::Equal {
            return false;
        }
    }
    true
}

// What a form with these coefficients gains by a step of a name.
#[inline(always)]
fn gain_at((number, step): (usize, Step), coefficients: &[i128]) -> i128 {
    match coefficients.get(number) {
        Some(coefficient) => step.gain(*coefficient),
        None => 0,
    }
}
