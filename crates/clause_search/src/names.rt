//! The names of rows, numbered without gaps.

use crate::variables::Variable;
use certificates::{Bound as Sense, Constraint};
use conflict_search::{Bound, Row, Term};
use linear_forms::Linear;
use logic_meaning::VarId;
use std::alloc::{AllocError, Global};

// The numbers of names, rising.
#[derive(Drop)]
pub(crate) struct Names {
    numbers: Vec<usize>,
}

impl Names {
    // Those of the rows of variables.
    pub(crate) fn of(alloc: Global, variables: &[Variable]) -> Result<Names, AllocError> {
        let mut numbers = Vec::new(alloc);
        for variable in variables {
            if let Some(row) = variable.row(true) {
                add_names(&row.form, &mut numbers)?;
            }
            if let Some(row) = variable.row(false) {
                add_names(&row.form, &mut numbers)?;
            }
        }
        numbers.sort()?;
        numbers.dedup();
        Ok(Names { numbers })
    }

    // How many there are.
    pub(crate) fn len(&self) -> usize {
        self.numbers.len()
    }

    // The name at a place.
    pub(crate) fn name(&self, place: usize) -> Option<VarId> {
        let number = *self.numbers.get(place)?;
        Some(VarId { number })
    }

    // The terms of a form, each name by its place; `None` where one has none.
    fn terms(&self, alloc: Global, form: &Linear) -> Result<Option<Vec<Term>>, AllocError> {
        let mut terms = Vec::with_capacity(alloc, form.places())?;
        for place in 0..form.places() {
            if let Some((name, coefficient)) = form.term(place) {
                let Ok(name) = self.numbers.binary_search(&name.number) else {
                    return Ok(None);
                };
                terms.push(Term { name, coefficient })?;
            }
        }
        Ok(Some(terms))
    }

    // Writes the coefficients of a form, each beside the place of its name. A name that has none is left out.
    pub(crate) fn write_coefficients(
        &self,
        form: &Linear,
        coefficients: &mut Vec<(usize, i128)>,
    ) -> Result<(), AllocError> {
        coefficients.clear();
        for place in 0..form.places() {
            if let Some((name, coefficient)) = form.term(place)
                && let Ok(place) = self.numbers.binary_search(&name.number)
            {
                coefficients.push((place, coefficient))?;
            }
        }
        Ok(())
    }

    // A constraint as the search has it.
    pub(crate) fn row(
        &self,
        alloc: Global,
        constraint: &Constraint,
    ) -> Result<Option<Row>, AllocError> {
        let Some(terms) = self.terms(alloc, &constraint.form)? else {
            return Ok(None);
        };
        let bound = match constraint.bound {
            Sense::Equal => Bound::Equal,
            Sense::AtMost => Bound::AtMost,
            Sense::Below => Bound::Below,
        };
        Ok(Some(Row {
            terms,
            constant: constraint.form.constant_part(),
            bound,
        }))
    }
}

// Adds the numbers of the names of a form.
fn add_names(form: &Linear, numbers: &mut Vec<usize>) -> Result<(), AllocError> {
    for place in 0..form.places() {
        if let Some((name, _)) = form.term(place) {
            numbers.push(name.number)?;
        }
    }
    Ok(())
}
