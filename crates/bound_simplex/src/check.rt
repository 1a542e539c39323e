// Conditions that come into force, and the search for values that meet them.
use crate::column::{Ends, Limit, Side};
use crate::halt::{Halt, fitting};
use crate::line::{Entry, Line};
use crate::row::Demand;
use crate::tableau::{Method, Simplex};
use bound_values::{Fraction, Value};
use difference_graph::{Added, Edge};
use std::alloc::AllocError;
use std::mem;

/// What a check comes to: the values meet all conditions in force; these conditions, by their places, are not met together; or a number
/// or the effort does not suffice.
#[derive(Debug, Drop)]
pub enum Verdict {
    Met,
    Refuted(Vec<usize>),
    Spent,
}

// How a column is chosen that a line is solved for: by the lines in which it stands, which mostly is quick, or the first, which ends.
#[derive(Clone, Copy)]
enum Rule {
    Fewest,
    First,
}

// How many exchanges are made by the quick rule.
const PATIENCE: usize = 200;

// The verdict of a calculation, memory being the only error.
fn without_halt(outcome: Result<Verdict, Halt>) -> Result<Verdict, AllocError> {
    match outcome {
        Ok(verdict) => Ok(verdict),
        Err(Halt::Memory(error)) => Err(error),
        Err(Halt::Spent) => Ok(Verdict::Spent),
    }
}

// Takes a cost off the effort; `Halt::Spent` where it does not suffice.
fn spend(effort: &mut u64, cost: usize) -> Result<(), Halt> {
    *effort = fitting(effort.checked_sub(cost as u64))?;
    Ok(())
}

impl Simplex {
    /// Puts a condition in force, and tells whether it and one in force contradict each other at once.
    pub fn enforce(&mut self, place: usize) -> Result<Verdict, AllocError> {
        let outcome = self.put_in_force(place);
        self.noted(outcome)
    }

    /// Looks for values that meet the conditions in force: those that are in the way are found by the line that fails. Columns are
    /// exchanged for others by few uses, and after many exchanges by their order (Bland, "New finite pivoting rules for the simplex
    /// method", 1977). The effort falls by the entries of the tableau that are touched.
    pub fn check(&mut self, effort: &mut u64) -> Result<Verdict, AllocError> {
        if self.is_spent {
            return Ok(Verdict::Spent);
        }
        if self.method == Method::Graph {
            return Ok(Verdict::Met);
        }
        let outcome = self.meet(effort);
        self.noted(outcome)
    }

    // The verdict, and that the values are lost where it is none.
    fn noted(&mut self, outcome: Result<Verdict, Halt>) -> Result<Verdict, AllocError> {
        let verdict = without_halt(outcome)?;
        if let Verdict::Spent = verdict {
            self.is_spent = true;
        }
        Ok(verdict)
    }

    // Puts a condition in force.
    fn put_in_force(&mut self, place: usize) -> Result<Verdict, Halt> {
        let Some(asked) = self.asked.get(place).copied() else {
            return Ok(Verdict::Met);
        };
        match asked.demand {
            Demand::Nothing => Ok(Verdict::Met),
            Demand::Never => self.refuted_by(&[place]),
            Demand::AtLeast(value) => self.bound(asked.column, Side::Lower, value, place),
            Demand::AtMost(value) => self.bound(asked.column, Side::Upper, value, place),
            Demand::Exactly(value) => {
                match self.bound(asked.column, Side::Lower, value, place)? {
                    Verdict::Met => self.bound(asked.column, Side::Upper, value, place),
                    refuted => Ok(refuted),
                }
            }
        }
    }

    // That some conditions are not met together.
    fn refuted_by(&self, places: &[usize]) -> Result<Verdict, Halt> {
        Ok(Verdict::Refuted(Vec::from_slice(self.alloc, places)?))
    }

    // Sets a bound where it says more than that in force.
    fn bound(
        &mut self,
        place: usize,
        side: Side,
        value: Value,
        condition: usize,
    ) -> Result<Verdict, Halt> {
        let Some(column) = self.columns.get(place) else {
            return Ok(Verdict::Met);
        };
        if let Some(limit) = column.limit(side)
            && value.compare(limit.value) != side.turned().past()
        {
            return Ok(Verdict::Met);
        }
        if let Some(limit) = column.broken_by(side.turned(), value) {
            return self.refuted_by(&[condition, limit.condition]);
        }
        let ends = column.ends;
        self.set_limit(place, side, Limit { value, condition })?;
        match (self.method, ends) {
            (Method::Graph, Some(ends)) => self.add_edge(ends, side, value, condition),
            _ => {
                self.bring_back(place, side, value)?;
                Ok(Verdict::Met)
            }
        }
    }

    // Adds a bound to the graph.
    fn add_edge(
        &mut self,
        ends: Ends,
        side: Side,
        value: Value,
        condition: usize,
    ) -> Result<Verdict, Halt> {
        let (from, to, weight) = match side {
            Side::Upper => (ends.lower, ends.upper, value),
            Side::Lower => (ends.upper, ends.lower, fitting(Value::ZERO.minus(value))?),
        };
        let edge = Edge {
            from,
            to,
            weight,
            tag: condition,
        };
        match self.graph.add(edge)? {
            Added::Kept => Ok(Verdict::Met),
            Added::Cycle(conditions) => Ok(Verdict::Refuted(conditions)),
            Added::Overflow => Err(Halt::Spent),
        }
    }

    // Brings a column whose value is past a bound back to it, or notes that it is to be brought.
    fn bring_back(&mut self, place: usize, side: Side, bound: Value) -> Result<(), Halt> {
        let Some(column) = self.columns.get(place) else {
            return Ok(());
        };
        if column.value.compare(bound) != side.past() {
            return Ok(());
        }
        if column.line.is_some() {
            return Ok(self.suspect(place)?);
        }
        self.move_to(place, bound)
    }

    // Finds values by the tableau from now on.
    pub(crate) fn use_tableau(&mut self) -> Result<(), Halt> {
        self.method = Method::Tableau;
        for place in 0..self.columns.len() {
            if let Some(column) = self.columns.get(place)
                && let Some((side, limit)) = column.broken()
            {
                self.bring_back(place, side, limit.value)?;
            }
        }
        Ok(())
    }

    // Notes that a column that a line is solved for may be past a bound.
    fn suspect(&mut self, place: usize) -> Result<(), AllocError> {
        if let Some(column) = self.columns.get_mut(place)
            && !column.is_suspect
        {
            column.is_suspect = true;
            self.suspects.push(place)?;
        }
        Ok(())
    }

    // Gives a column that no line is solved for a value, and those that are solved in it theirs.
    fn move_to(&mut self, place: usize, value: Value) -> Result<(), Halt> {
        let Some(column) = self.columns.get_mut(place) else {
            return Ok(());
        };
        let change = fitting(value.minus(column.value))?;
        column.value = value;
        let uses = self.take_uses(place);
        for line in &uses {
            self.move_line(*line, place, change)?;
        }
        self.give_uses(place, uses);
        Ok(())
    }

    // Changes the value of the column that a line is solved for, by the change of one that stands in it.
    fn move_line(&mut self, line: usize, moved: usize, change: Value) -> Result<(), Halt> {
        let Some(line) = self.lines.get(line) else {
            return Ok(());
        };
        let basic = line.basic;
        let slope = fitting(line.slope(moved))?;
        if let Some(column) = self.columns.get_mut(basic) {
            column.value = fitting(column.value.plus(fitting(change.times(slope))?))?;
        }
        Ok(self.suspect(basic)?)
    }

    // Exchanges columns until all bounds are met, or a line shows that they cannot be.
    fn meet(&mut self, effort: &mut u64) -> Result<Verdict, Halt> {
        let mut patience = PATIENCE;
        for _ in 0..u64::MAX {
            let Some((place, side, limit)) = self.first_broken() else {
                return Ok(Verdict::Met);
            };
            let rule = if patience == 0 {
                Rule::First
            } else {
                Rule::Fewest
            };
            patience = patience.saturating_sub(1);
            spend(effort, 1)?;
            let Some(line) = self.solved(place) else {
                return Err(Halt::Spent);
            };
            match self.entering(line, side, rule) {
                Some(entry) => self.exchange(place, limit.value, entry, effort)?,
                None => return Ok(Verdict::Refuted(self.reasons(line, side, limit)?)),
            }
        }
        Err(Halt::Spent)
    }

    // The first column that is past a bound, the side and the bound. Those that are not are suspected no longer.
    fn first_broken(&mut self) -> Option<(usize, Side, Limit)> {
        let mut first: Option<(usize, Side, Limit)> = None;
        let mut kept = 0;
        for index in 0..self.suspects.len() {
            let place = self.suspects.get(index).copied()?;
            let column = self.columns.get_mut(place)?;
            let broken = if column.line.is_some() {
                column.broken()
            } else {
                None
            };
            column.is_suspect = broken.is_some();
            if let Some((side, limit)) = broken {
                if let Some(entry) = self.suspects.get_mut(kept) {
                    *entry = place;
                }
                kept = kept.wrapping_add(1);
                if first.is_none_or(|(other, _, _)| place < other) {
                    first = Some((place, side, limit));
                }
            }
        }
        self.suspects.truncate(kept);
        first
    }

    // A column of a line by which the one that it is solved for can come back to a bound on a side.
    fn entering(&self, line: &Line, side: Side, rule: Rule) -> Option<Entry> {
        let mut best: Option<(usize, Entry)> = None;
        for entry in &line.entries {
            let Some(column) = self.columns.get(entry.column) else {
                continue;
            };
            if !column.can_move(side.turned().times(entry.coefficient)) {
                continue;
            }
            match rule {
                Rule::First => return Some(*entry),
                Rule::Fewest => {
                    if best.is_none_or(|(fewest, _)| column.uses.len() < fewest) {
                        best = Some((column.uses.len(), *entry));
                    }
                }
            }
        }
        Some(best?.1)
    }

    // The conditions by which a line fails: that of the bound that is not met, and those that keep the columns of the line where they are.
    fn reasons(&self, line: &Line, side: Side, limit: Limit) -> Result<Vec<usize>, Halt> {
        let mut reasons = Vec::with_capacity(self.alloc, line.entries.len().saturating_add(1))?;
        reasons.push(limit.condition)?;
        for entry in &line.entries {
            let column = fitting(self.columns.get(entry.column))?;
            let stop = fitting(column.limit(side.turned().times(entry.coefficient)))?;
            reasons.push(stop.condition)?;
        }
        Ok(reasons)
    }

    // Gives a column that a line is solved for a value by moving one that stands there, and exchanges the two.
    fn exchange(
        &mut self,
        place: usize,
        value: Value,
        entry: Entry,
        effort: &mut u64,
    ) -> Result<(), Halt> {
        let column = fitting(self.columns.get_mut(place))?;
        let line = fitting(column.line)?;
        let change = fitting(value.minus(column.value))?;
        let denominator = fitting(self.lines.get(line))?.denominator;
        let inverse = fitting(Fraction::reduced(denominator, entry.coefficient))?;
        let moved = fitting(self.columns.get(entry.column))?.value;
        let target = fitting(moved.plus(fitting(change.times(inverse))?))?;
        self.move_to(entry.column, target)?;
        self.pivot(line, entry.column, effort)
    }

    // Solves a line for a column that stands in it, and puts it in everywhere.
    fn pivot(&mut self, place: usize, column: usize, effort: &mut u64) -> Result<(), Halt> {
        let uses = self.take_uses(column);
        let mut line = self.take_line(place)?;
        let leaving = line.basic;
        line.solve_for(self.alloc, column)?;
        let mut changes = Vec::new(self.alloc);
        for other in &uses {
            if *other != place
                && let Some(changed) = self.lines.get_mut(*other)
            {
                changes.clear();
                changed.put_in(self.alloc, &line, &mut changes)?;
                spend(effort, changed.entries.len())?;
                self.note_changes(*other, &changes)?;
            }
        }
        if let Some(written) = self.lines.get_mut(place) {
            *written = line;
        }
        if let Some(left) = self.columns.get_mut(leaving) {
            left.line = None;
            left.uses = uses;
        }
        if let Some(entered) = self.columns.get_mut(column) {
            entered.line = Some(place);
        }
        self.suspect(column)?;
        Ok(())
    }

    // Takes a line out; what stands in its place is to be written over.
    fn take_line(&mut self, place: usize) -> Result<Line, Halt> {
        let empty = Line {
            basic: 0,
            denominator: 1,
            entries: Vec::new(self.alloc),
        };
        Ok(mem::replace(fitting(self.lines.get_mut(place))?, empty))
    }

    /// Whether some condition on the column of this one asks for a single value.
    pub fn is_beside_equation(&self, place: usize) -> bool {
        let Some(asked) = self.asked.get(place) else {
            return false;
        };
        for other in self.conditions_on(asked.column) {
            if let Some(other) = self.asked.get(*other)
                && let Demand::Exactly(_) = other.demand
            {
                return true;
            }
        }
        false
    }

    /// A condition in force that a condition contradicts by itself, if there is one.
    pub fn opponent(&self, place: usize) -> Option<usize> {
        let asked = self.asked.get(place)?;
        let column = self.columns.get(asked.column)?;
        let limit = match asked.demand {
            Demand::Nothing | Demand::Never => None,
            Demand::AtLeast(value) => column.broken_by(Side::Upper, value),
            Demand::AtMost(value) => column.broken_by(Side::Lower, value),
            Demand::Exactly(value) => match column.broken_by(Side::Upper, value) {
                Some(limit) => Some(limit),
                None => column.broken_by(Side::Lower, value),
            },
        };
        Some(limit?.condition)
    }
}
