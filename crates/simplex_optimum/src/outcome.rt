// What is found, in numbers that can be checked.
use crate::line::{Label, Line};
use crate::numbers::gcd;
use crate::search::Way;
use crate::tableau::Tableau;
use std::alloc::{AllocError, Global};

/// A numerator over a denominator.
#[derive(Clone, Copy, Debug, PartialEq, Eq)]
pub struct Ratio {
    pub numerator: i128,
    pub denominator: i128,
}

/// What is found of a target under rows. The values and the steps are those of the names, in their order.
#[derive(Debug, Drop)]
pub enum Optimum {
    /// Multipliers by which the rows add up to a contradiction: the names cancel, and the constants add up to more than 0.
    Contradiction(Vec<i128>),
    /// A point that meets the rows, and steps that it can go on for ever: the rows stay met, and the target falls.
    Unbounded {
        point: Vec<Ratio>,
        steps: Vec<Ratio>,
    },
    /// A point at which the target is least, and multipliers of the rows and of the strict inequality that the target, times the
    /// denominator of its value in lowest terms, is below the numerator: by them they add up to 0 < 0.
    Least {
        point: Vec<Ratio>,
        multipliers: Vec<i128>,
    },
}

impl Ratio {
    const ZERO: Ratio = Ratio {
        numerator: 0,
        denominator: 1,
    };
}

impl Tableau {
    // The value of each name below a number, where all columns are 0.
    pub(crate) fn point(&self, alloc: Global, names: usize) -> Result<Vec<Ratio>, AllocError> {
        let mut values = vec![in alloc; Ratio::ZERO; names]?;
        for line in &self.lines {
            write(&mut values, line, line.constant);
        }
        Ok(values)
    }

    // How far each name below a number moves where a column moves by 1; `None` where a number does not fit.
    pub(crate) fn steps(
        &self,
        alloc: Global,
        names: usize,
        column: usize,
        way: Way,
    ) -> Result<Option<Vec<Ratio>>, AllocError> {
        let one = match way {
            Way::Up => 1,
            Way::Down => -1,
        };
        let mut steps = vec![in alloc; Ratio::ZERO; names]?;
        if let Some(Label::Name(name)) = self.columns.get(column)
            && let Some(step) = steps.get_mut(*name)
        {
            step.numerator = one;
        }
        for line in &self.lines {
            let Some(change) = line.coefficient(column).checked_mul(one) else {
                return Ok(None);
            };
            write(&mut steps, line, change);
        }
        Ok(Some(steps))
    }

    // The multipliers of so many rows by which the line at a place is a contradiction; `None` where one does not fit.
    pub(crate) fn contradiction(
        &self,
        alloc: Global,
        rows: usize,
        place: usize,
    ) -> Result<Option<Vec<i128>>, AllocError> {
        let mut multipliers = vec![in alloc; 0; rows]?;
        let Some(line) = self.lines.get(place) else {
            return Ok(None);
        };
        let sign = if line.excess().is_lt() { -1 } else { 1 };
        if self
            .write_multipliers(line, sign, &mut multipliers)
            .is_none()
        {
            return Ok(None);
        }
        Ok(Some(multipliers))
    }

    // The multipliers of so many rows, and behind them of the strict inequality, by which no point has a lower value of the target;
    // `None` where one does not fit.
    pub(crate) fn bound(
        &self,
        alloc: Global,
        rows: usize,
        target: usize,
    ) -> Result<Option<Vec<i128>>, AllocError> {
        let mut multipliers = vec![in alloc; 0; rows]?;
        let Some(line) = self.line_of(target) else {
            return Ok(None);
        };
        let common = gcd(
            line.denominator.unsigned_abs(),
            line.constant.unsigned_abs(),
        );
        let Ok(common) = i128::try_from(common) else {
            return Ok(None);
        };
        if self.write_multipliers(line, 1, &mut multipliers).is_none() {
            return Ok(None);
        }
        multipliers.push(common)?;
        Ok(Some(multipliers))
    }

    // Writes the multipliers of rows by which a line, times its denominator and the sign, is its constant; `None` where one does not
    // fit.
    fn write_multipliers(&self, line: &Line, sign: i128, multipliers: &mut [i128]) -> Option<()> {
        if let Label::Row(place, _) = line.label {
            *multipliers.get_mut(place)? = line.denominator.checked_mul(sign)?;
        }
        for (label, coefficient) in self.columns.iter().zip(&line.coefficients) {
            if let Label::Row(place, _) = label {
                *multipliers.get_mut(*place)? = coefficient.checked_mul(sign.checked_neg()?)?;
            }
        }
        Some(())
    }
}

// Writes a number over the denominator of a line to the place of the name that stands at it, if there is one.
fn write(ratios: &mut [Ratio], line: &Line, numerator: i128) {
    if let Label::Name(name) = line.label
        && let Some(ratio) = ratios.get_mut(name)
    {
        ratio.numerator = numerator;
        ratio.denominator = line.denominator;
    }
}
