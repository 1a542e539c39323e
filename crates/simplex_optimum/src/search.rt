// The search: first for a point that meets all rows, then for one at which a name is least.
ghost use Rattle.std.specs.Prelude.{◌<◌, ◌≤◌, OnSome};

use crate::line::{Label, Line};
use crate::numbers::compare_sizes;
use crate::system::Sense;
use crate::tableau::Tableau;
use std::cmp::Ordering;

// Which exchange is made where there are several: the steepest, which mostly takes few exchanges, or that whose rows come first, which
// ends.
#[derive(Clone, Copy)]
enum Rule {
    Steepest,
    First,
}

// A column by which a line can be met: its coefficients in that line and in the target's.
#[derive(Clone, Copy)]
struct Candidate {
    column: usize,
    label: Label,
    coefficient: i128,
    cost: i128,
}

impl Rule {
    // The steepest exchange first, and after so many of them those that come first.
    fn of(patience: usize) -> Rule {
        if patience == 0 {
            Rule::First
        } else {
            Rule::Steepest
        }
    }

    // Whether a broken line goes before another: one that is farther from being met does.
    fn prefers_line(self, line: &Line, other: Option<(usize, &Line)>) -> bool {
        let Some((_, other)) = other else {
            return true;
        };
        match self {
            Rule::Steepest => {
                let one = (line.constant, line.denominator);
                compare_sizes(one, (other.constant, other.denominator)) == Some(Ordering::Greater)
            }
            Rule::First => line.label.place() < other.label.place(),
        }
    }

    // Whether a column goes before another: one by which the target changes less does, and then one with a greater coefficient. So the
    // target stays least for the lines that are met, where it is.
    fn prefers_column(self, one: Candidate, other: Option<Candidate>) -> bool {
        let Some(other) = other else {
            return true;
        };
        match self {
            Rule::Steepest => {
                let change = (one.cost, one.coefficient);
                match compare_sizes(change, (other.cost, other.coefficient)) {
                    Some(Ordering::Less) => true,
                    Some(Ordering::Equal) => {
                        other.coefficient.saturating_abs() < one.coefficient.saturating_abs()
                    }
                    Some(Ordering::Greater) | None => false,
                }
            }
            Rule::First => one.label.place() < other.label.place(),
        }
    }

    // The rank of a column that lowers the target by this coefficient.
    fn rank(self, label: Label, coefficient: i128) -> i128 {
        match self {
            Rule::Steepest => coefficient.saturating_abs(),
            Rule::First => -(label.place() as i128),
        }
    }
}

// Which way what stands at a column is moved from 0.
#[derive(Clone, Copy, PartialEq, Eq)]
pub(crate) enum Way {
    Up,
    Down,
}

// What a search comes to.
#[derive(Clone, Copy)]
pub(crate) enum End {
    // The line at a place is broken whatever the columns are.
    Contradiction(usize),
    // All lines are met where a column moves on for ever, and the target falls.
    Unbounded(usize, Way),
    // All lines are met where the columns are 0, and the target is least there.
    Least,
}

impl Tableau {
    // Exchanges lines for columns until the end is seen; `None` where the effort does not suffice, or where a number does not fit.
    pub(crate) fn end(&mut self, target: usize, effort: &mut u64) -> Option<End>
        ensures { effort.new ≤ effort.old }
    {
        for column in 0..self.columns.len() {
            self.solve_for(column, effort)?;
        }
        match self.meet(target, effort)? {
            Some(place) => Some(End::Contradiction(place)),
            None => self.lower(target, effort),
        }
    }

    // Takes what one exchange costs off the effort; `None` where it does not suffice.
    fn spend(&self, effort: &mut u64) -> Option<()>
        ensures falls { OnSome result (effort.new < effort.old) }
        ensures never_grows { effort.new ≤ effort.old }
    {
        let entries = (self.lines.len() as u64).saturating_mul(self.columns.len() as u64);
        *effort = effort.checked_sub(entries.max(1))?;
        Some(())
    }

    // Solves a row for the name at a column, if the name stands in one.
    fn solve_for(&mut self, column: usize, effort: &mut u64) -> Option<()>
        ensures { effort.new ≤ effort.old }
    {
        if let Some(place) = self.line_with(column) {
            self.spend(effort)?;
            self.exchange(place, column)?;
        }
        Some(())
    }

    // Of the lines of rows in which a column stands, that with the fewest columns, an equation first.
    fn line_with(&self, column: usize) -> Option<usize> {
        let ranks = self.lines.iter().enumerate().filter_map(|(place, line)| {
            let Label::Row(_, sense) = line.label else {
                return None;
            };
            if line.coefficient(column) == 0 {
                return None;
            }
            Some((line.weight(), sense != Sense::Equal, place))
        });
        Some(ranks.min()?.2)
    }

    // Exchanges lines that are not met for columns by which they can be met. The place of a line that cannot be, if there is one.
    fn meet(&mut self, target: usize, effort: &mut u64) -> Option<Option<usize>>
        ensures { effort.new ≤ effort.old }
    {
        let mut patience = self.lines.len();
        loop {
            if let Some(place) = self.contradictory_line() {
                return Some(Some(place));
            }
            let Some((place, column)) = self.next_meeting(target, Rule::of(patience)) else {
                return Some(None);
            };
            patience = patience.saturating_sub(1);
            self.spend(effort)?;
            self.exchange(place, column)?;
        }
    }

    // A line that is not met whatever the columns are.
    fn contradictory_line(&self) -> Option<usize> {
        self.lines
            .iter()
            .position(|line| line.is_broken() && !self.can_meet(line))
    }

    // Whether some column can take the excess of a line away.
    fn can_meet(&self, line: &Line) -> bool {
        let excess = line.excess();
        let mut columns = self.columns.iter().zip(&line.coefficients);
        columns.any(|(label, coefficient)| label.can_take(*coefficient, excess))
    }

    // A line that is not met and a column by which it can be met, if there are such.
    fn next_meeting(&self, target: usize, rule: Rule) -> Option<(usize, usize)> {
        let (place, line) = self.broken_line(rule)?;
        let column = self.meeting_column(line, self.line_of(target), rule)?;
        Some((place, column))
    }

    // The line that is not met and goes before the others.
    fn broken_line(&self, rule: Rule) -> Option<(usize, &Line)> {
        let mut found: Option<(usize, &Line)> = None;
        for (place, line) in self.lines.iter().enumerate() {
            if line.is_broken() && rule.prefers_line(line, found) {
                found = Some((place, line));
            }
        }
        found
    }

    // The column by which the line can be met and that goes before the others.
    fn meeting_column(&self, line: &Line, target: Option<&Line>, rule: Rule) -> Option<usize> {
        let excess = line.excess();
        let mut found: Option<Candidate> = None;
        for (column, label) in self.columns.iter().enumerate() {
            let candidate = Candidate {
                column,
                label: *label,
                coefficient: line.coefficient(column),
                cost: target.map_or(0, |target| target.coefficient(column)),
            };
            if label.can_take(candidate.coefficient, excess)
                && rule.prefers_column(candidate, found)
            {
                found = Some(candidate);
            }
        }
        Some(found?.column)
    }

    // The same where all lines are met: exchanges columns whose move lowers the target for the lines that stop it.
    fn lower(&mut self, target: usize, effort: &mut u64) -> Option<End>
        ensures { effort.new ≤ effort.old }
    {
        let mut patience = self.lines.len();
        loop {
            let Some((column, way)) = self.next_lowering(target, Rule::of(patience)) else {
                return Some(End::Least);
            };
            let Some(place) = self.first_stop(column, way) else {
                return Some(End::Unbounded(column, way));
            };
            patience = patience.saturating_sub(1);
            self.spend(effort)?;
            self.exchange(place, column)?;
        }
    }

    // A column whose move lowers the target, if there is one, and which way.
    fn next_lowering(&self, target: usize, rule: Rule) -> Option<(usize, Way)> {
        if let Some(column) = self.column_of(target) {
            return Some((column, Way::Down));
        }
        let line = self.line_of(target)?;
        let columns = self.columns.iter().zip(&line.coefficients).enumerate();
        let ranks = columns.filter_map(|(column, (label, coefficient))| {
            if label.can_take(*coefficient, Ordering::Greater) {
                Some((rule.rank(*label, *coefficient), column))
            } else {
                None
            }
        });
        let (_, column) = ranks.max()?;
        if line.coefficient(column) < 0 {
            Some((column, Way::Up))
        } else {
            Some((column, Way::Down))
        }
    }

    // The line that is no longer met first where a column is moved.
    fn first_stop(&self, column: usize, way: Way) -> Option<usize> {
        let mut first: Option<(usize, &Line)> = None;
        for (place, line) in self.lines.iter().enumerate() {
            if stops(line, column, way) && is_sooner(line, first, column) {
                first = Some((place, line));
            }
        }
        Some(first?.0)
    }
}

// Whether the line is no longer met somewhere where a column is moved.
fn stops(line: &Line, column: usize, way: Way) -> bool {
    let coefficient = line.coefficient(column);
    match line.label {
        Label::Name(_) => false,
        Label::Row(_, Sense::Equal) => coefficient != 0,
        Label::Row(_, Sense::AtMost) => match way {
            Way::Up => 0 < coefficient,
            Way::Down => coefficient < 0,
        },
    }
}

// Whether a line stops a move sooner than another. Where both stop it at once, that whose row comes first.
fn is_sooner(line: &Line, other: Option<(usize, &Line)>, column: usize) -> bool {
    let Some((_, other)) = other else {
        return true;
    };
    let one = (line.constant, line.coefficient(column));
    match compare_sizes(one, (other.constant, other.coefficient(column))) {
        Some(Ordering::Less) => true,
        Some(Ordering::Equal) => line.label.place() < other.label.place(),
        Some(Ordering::Greater) | None => false,
    }
}
