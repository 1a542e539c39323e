// The search for a line that is a contradiction.
ghost use Rattle.std.specs.Prelude.{◌≡◌, ◌+◌, ◌<◌, ◌≤◌, OnSome};

use crate::system::Sense;
use crate::tableau::{Label, Line, Tableau};
use std::cmp::Ordering;

// Which lines and columns are exchanged: the greatest, which mostly takes few exchanges, or those whose rows come first, which ends.
#[derive(Clone, Copy)]
enum Rule {
    Greatest,
    First,
}

impl Rule {
    // The rank of a line, if it is not met where all columns are 0.
    fn line_rank(self, line: &Line) -> Option<(i128, i128)> {
        if !line.is_broken() {
            return None;
        }
        Some(match self {
            Rule::Greatest => (line.constant, line.margin),
            Rule::First => (-(line.label.place as i128), 0),
        })
    }

    // The rank of a column with a coefficient, if a line with this excess can be met by it.
    fn column_rank(
        self,
        label: Option<Label>,
        coefficient: i128,
        excess: Ordering,
    ) -> Option<i128> {
        if !can_give(label, coefficient, excess) {
            return None;
        }
        Some(match self {
            Rule::Greatest => coefficient.saturating_abs(),
            Rule::First => -(label?.place as i128),
        })
    }
}

// Whether a multiple of what stands at a column can take such an excess away: a name has any value, the value of an inequality can
// fall below 0, and that of an equation stays 0.
fn can_give(label: Option<Label>, coefficient: i128, excess: Ordering) -> bool {
    match label {
        Some(label) if label.sense == Sense::Equal => false,
        Some(_) => coefficient.cmp(&0) == excess,
        None => coefficient != 0,
    }
}

// What a search comes to: a line that is not met whatever the columns are, or that all lines are met where they are 0.
#[derive(Clone, Copy)]
pub(crate) enum Outcome {
    Contradiction(usize),
    Met,
}

impl Tableau {
    // Exchanges lines for columns until the outcome is seen; `None` where the effort does not suffice, or where a number does not fit.
    pub(crate) fn outcome(&mut self, effort: &mut u64) -> Option<Outcome>
        ensures { effort.new ≤ effort.old }
    {
        for column in 0..self.columns.len() {
            self.solve_for(column, effort)?;
        }
        self.meet_lines(effort)
    }

    // The same for lines in which no name stands: exchanges lines that are not met for columns by which they can be met.
    fn meet_lines(&mut self, effort: &mut u64) -> Option<Outcome>
        ensures { effort.new ≤ effort.old }
    {
        let mut patience = self.lines.len();
        loop {
            if let Some(place) = self.contradictory_line() {
                return Some(Outcome::Contradiction(place));
            }
            let rule = if patience == 0 {
                Rule::First
            } else {
                Rule::Greatest
            };
            patience = patience.saturating_sub(1);
            let Some((place, column)) = self.next_exchange(rule) else {
                return Some(Outcome::Met);
            };
            self.spend(effort)?;
            self.exchange(place, column)?;
        }
    }

    // Takes what one exchange costs off the effort; `None` where it does not suffice.
    pub(crate) fn spend(&self, effort: &mut u64) -> Option<()>
        ensures falls { OnSome result (effort.new < effort.old) }
        ensures never_grows { effort.new ≤ effort.old }
    {
        let lines = (self.lines.len() as u64).saturating_add(self.names.len() as u64);
        let entries = lines.saturating_mul(self.columns.len() as u64);
        spend(effort, entries.max(1))
    }

    // Solves a line for a name's column, if the name stands in one, and leaves the line out.
    fn solve_for(&mut self, column: usize, effort: &mut u64) -> Option<()>
        ensures { effort.new ≤ effort.old }
    {
        if let Some(place) = self.line_with(column) {
            self.spend(effort)?;
            self.exchange(place, column)?;
            if place < self.lines.len() {
                self.lines.remove(place);
            }
        }
        Some(())
    }

    // Of the lines in which a column stands an equation, or that with the greatest constant.
    fn line_with(&self, column: usize) -> Option<usize> {
        let ranks = self.lines.iter().enumerate().filter_map(|(place, line)| {
            if line.coefficient(column) == 0 {
                None
            } else {
                Some((line.label.sense == Sense::Equal, line.constant, place))
            }
        });
        Some(ranks.max()?.2)
    }

    // A line that is not met whatever the columns are.
    fn contradictory_line(&self) -> Option<usize> {
        self.lines
            .iter()
            .position(|line| line.is_broken() && !self.can_meet(line))
    }

    // Whether some column can take the excess of a line away.
    fn can_meet(&self, line: &Line) -> bool {
        let excess = line.excess();
        self.columns.iter().zip(&line.coefficients).any(|(label, coefficient)| can_give(
            *label,
            *coefficient,
            excess,
        ))
    }

    // A line that is not met and a column by which it can be met, if there are such.
    fn next_exchange(&self, rule: Rule) -> Option<(usize, usize)> {
        let lines = self.lines.iter().enumerate();
        let (_, place) = lines
            .filter_map(|(place, line)| Some((rule.line_rank(line)?, place)))
            .max()?;
        let line = self.lines.get(place)?;
        let excess = line.excess();
        let columns = self.columns.iter().zip(&line.coefficients).enumerate();
        let (_, column) = columns
            .filter_map(|(column, (label, coefficient))| {
                Some((rule.column_rank(*label, *coefficient, excess)?, column))
            })
            .max()?;
        Some((place, column))
    }

    // Writes the multipliers of rows by which a line is a contradiction; `None` where one does not fit.
    pub(crate) fn write_multipliers(&self, place: usize, multipliers: &mut [i128]) -> Option<()> {
        let line = self.lines.get(place)?;
        let sign = if line.excess().is_lt() { -1 } else { 1 };
        *multipliers.get_mut(line.label.place)? = self.denominator.checked_mul(sign)?;
        for (label, coefficient) in self.columns.iter().zip(&line.coefficients) {
            if let Some(label) = label {
                *multipliers.get_mut(label.place)? = coefficient.checked_mul(-sign)?;
            }
        }
        Some(())
    }
}

// Takes a cost off the effort; `None` where it does not suffice.
pub(crate) fn spend(effort: &mut u64, cost: u64) -> Option<()>
    ensures spent { OnSome result (effort.new + cost ≡ effort.old) }
    ensures never_grows { effort.new ≤ effort.old }
{
    *effort = effort.checked_sub(cost)?;
    Some(())
}
