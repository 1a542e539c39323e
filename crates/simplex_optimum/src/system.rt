// Linear equations and inequalities, and the search for the least value of a name.
ghost use Rattle.std.specs.Prelude.{◌≤◌};

use crate::outcome::Optimum;
use crate::search::End;
use crate::tableau::Tableau;
use std::alloc::{AllocError, Global};

/// What the value of a form is to be: 0, or at most 0.
#[derive(Clone, Copy, Debug, PartialEq, Eq)]
pub enum Sense {
    Equal,
    AtMost,
}

// A linear form, by the coefficients of its names and its constant, and what its value is to be.
#[derive(Debug, Drop)]
pub(crate) struct Row {
    pub(crate) terms: Vec<(usize, i128)>,
    pub(crate) constant: i128,
    pub(crate) sense: Sense,
}

/// Rows over the names below a number.
#[derive(Debug, Drop)]
pub struct System {
    alloc: Global,
    names: usize,
    rows: Vec<Row>,
}

impl System {
    /// No rows, over the names below `names`.
    pub fn new(alloc: Global, names: usize) -> System {
        System {
            alloc,
            names,
            rows: Vec::new(alloc),
        }
    }

    /// Adds a row behind the others: the coefficients of its names, each name once, its constant, and what its value is to be. A name
    /// at or past the number of names is left out.
    pub fn push(
        &mut self,
        terms: Vec<(usize, i128)>,
        constant: i128,
        sense: Sense,
    ) -> Result<(), AllocError> {
        self.rows.push(Row {
            terms,
            constant,
            sense,
        })?;
        Ok(())
    }

    /// What is found of the least value of a name. `None` where the effort does not suffice, or a number passes 128 bits. The effort is
    /// what the search may spend, 1 for an entry of the tableau at each pivot; what it spends is taken off.
    ///
    /// It solves rows for the names, then rows that are not met, and then exchanges columns that lower the target for the rows that stop
    /// them (Dantzig, "Maximization of a linear function of variables subject to linear inequalities", 1951): the steepest, and after
    /// many pivots the first (Bland, "New finite pivoting rules for the simplex method", 1977). Each line of the tableau is divided by the
    /// greatest common divisor of its numbers.
    pub fn least(&self, target: usize, effort: &mut u64) -> Result<Option<Optimum>, AllocError>
        ensures { effort.new ≤ effort.old }
    {
        let mut tableau = Tableau::new(self.alloc, &self.rows, self.names)?;
        match tableau.end(target, effort) {
            Some(end) => self.optimum(&tableau, target, end),
            None => Ok(None),
        }
    }

    // What a tableau shows at the end of the search; `None` where a number does not fit.
    fn optimum(
        &self,
        tableau: &Tableau,
        target: usize,
        end: End,
    ) -> Result<Option<Optimum>, AllocError> {
        let rows = self.rows.len();
        match end {
            End::Contradiction(place) => {
                let multipliers = tableau.contradiction(self.alloc, rows, place)?;
                Ok(multipliers.map(|multipliers| Optimum::Contradiction(multipliers)))
            }
            End::Unbounded(column, way) => {
                let point = tableau.point(self.alloc, self.names)?;
                let steps = tableau.steps(self.alloc, self.names, column, way)?;
                Ok(steps.map(|steps| Optimum::Unbounded { point, steps }))
            }
            End::Least => {
                let point = tableau.point(self.alloc, self.names)?;
                let multipliers = tableau.bound(self.alloc, rows, target)?;
                Ok(multipliers.map(|multipliers| Optimum::Least { point, multipliers }))
            }
        }
    }
}
