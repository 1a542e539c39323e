// The search.
use crate::analysis::{Analysis, Known};
use crate::clauses::{Clauses, Origin};
use crate::order::Order;
use crate::pace::Pace;
use crate::trail::{Standing, Trail};
use bound_simplex::{Domain, Row, Simplex, Verdict};
use clause_theory::Literal;
use std::alloc::{AllocError, Global};

/// What the search comes to next.
#[derive(Debug, Drop)]
pub enum Step {
    /// A clause that follows by unit steps along these clauses, each named by its place; it stands at the next place from now on.
    Learned {
        literals: Vec<Literal>,
        hints: Vec<usize>,
    },
    /// The empty clause follows by unit steps along these.
    Contradiction {
        hints: Vec<usize>,
    },
    /// The rows of these literals are not met together. The search goes on once the clause of their negations is added.
    Refuted {
        literals: Vec<Literal>,
    },
    /// The name's value was to be whole and is not. The search goes on once a variable is added for the row that it is at most that, and
    /// the row of the opposite.
    Split {
        name: usize,
        at_most: i128,
    },
    /// All clauses hold, and these numbers for the names over the positive denominator meet the rows in force.
    Found {
        numerators: Vec<i128>,
        denominator: i128,
    },
    /// The effort did not suffice, a number passed 128 bits, or what was asked for was not added.
    Spent,
}

// The conditions of the literals of a variable.
#[derive(Drop)]
struct Conditions {
    positive: Vec<usize>,
    negative: Vec<usize>,
}

// Whether the search waits for a clause or a variable.
#[derive(Clone, Copy, PartialEq, Eq)]
enum Awaited {
    Nothing,
    Clause,
    Variable,
}

/// A search for signs of the variables at which all clauses hold and for a point that meets the rows of the literals that hold then. It
/// learns a clause from each conflict (Marques-Silva and Sakallah, "GRASP: a search algorithm for propositional satisfiability", 1999), and asks a
/// simplex method for the rows. No clause says what it finds: its steps are to be checked.
#[derive(Drop)]
pub struct Search {
    alloc: Global,
    domain: Domain,
    simplex: Simplex,
    trail: Trail,
    clauses: Clauses,
    order: Order,
    analysis: Analysis,
    conditions: Vec<Conditions>,
    owners: Vec<Literal>,
    fresh: Vec<usize>,
    settled: usize,
    conflict: Option<usize>,
    enforced: usize,
    depths: Vec<usize>,
    units: usize,
    compared: Option<usize>,
    awaited: Awaited,
    favoured: Option<usize>,
    pace: Pace,
    probed: usize,
    learned: usize,
    most_learned: usize,
}

// How many learned clauses are kept at first.
const MOST_LEARNED: usize = 1000;

// A learned clause of so many levels or fewer is never given up.
const CLOSE: usize = 3;

// What a round costs of the effort: it takes about as long as so many entries of the tableau.
const ROUND: u64 = 64;

impl Search {
    /// No variables, clauses and rows; the names have whole values, or any of an ordered field.
    pub fn new(alloc: Global, whole: bool) -> Search {
        let domain = if whole { Domain::Whole } else { Domain::Field };
        Search {
            alloc,
            domain,
            simplex: Simplex::new(alloc, domain),
            trail: Trail::new(alloc),
            clauses: Clauses::new(alloc),
            order: Order::new(alloc),
            analysis: Analysis::new(alloc),
            conditions: Vec::new(alloc),
            owners: Vec::new(alloc),
            fresh: Vec::new(alloc),
            settled: 0,
            conflict: None,
            enforced: 0,
            depths: Vec::new(alloc),
            units: 0,
            compared: None,
            awaited: Awaited::Nothing,
            favoured: None,
            pace: Pace::new(),
            probed: 0,
            learned: 0,
            most_learned: MOST_LEARNED,
        }
    }

    /// Adds a variable, and gives its number.
    pub fn variable(&mut self) -> Result<usize, AllocError> {
        let variable = self.trail.variables();
        self.trail.add()?;
        self.clauses.add_variable()?;
        self.analysis.add_variable()?;
        self.order.add()?;
        self.conditions.push(Conditions {
            positive: Vec::new(self.alloc),
            negative: Vec::new(self.alloc),
        })?;
        if self.awaited == Awaited::Variable {
            self.favoured = Some(variable);
            self.awaited = Awaited::Nothing;
        }
        Ok(variable)
    }

    /// Adds a clause, and gives its place.
    pub fn clause(&mut self, literals: &[Literal]) -> Result<usize, AllocError> {
        let literals = distinct(self.alloc, literals)?;
        let origin = if self.awaited == Awaited::Clause {
            self.awaited = Awaited::Nothing;
            self.learned = self.learned.saturating_add(1);
            Origin::Learned(literals.len())
        } else {
            Origin::Given
        };
        let place = self.clauses.add(literals, origin)?;
        self.fresh.push(place)?;
        Ok(place)
    }

    /// Lets a row be in force while a literal of a variable that was added holds.
    pub fn attach(&mut self, literal: Literal, row: Row) -> Result<(), AllocError> {
        if self.trail.standing(literal) == Standing::Holds {
            self.back_to(0)?;
            self.enforced = 0;
        }
        let condition = self.simplex.add(&row)?;
        self.owners.push(literal)?;
        if let Some(conditions) = self.conditions.get_mut(literal.variable) {
            if literal.holds {
                conditions.positive.push(condition)?;
            } else {
                conditions.negative.push(condition)?;
            }
        }
        Ok(())
    }

    /// Searches on until there is something to tell. What the search does is taken off the effort.
    pub fn step(&mut self, effort: &mut u64) -> Result<Step, AllocError> {
        if self.awaited != Awaited::Nothing {
            return Ok(Step::Spent);
        }
        for _ in 0..u64::MAX {
            if let Some(step) = self.advance(effort)? {
                return Ok(step);
            }
        }
        Ok(Step::Spent)
    }

    // Does one round: unit steps, the rows, and a decision.
    fn advance(&mut self, effort: &mut u64) -> Result<Option<Step>, AllocError> {
        let Some(left) = effort.checked_sub(ROUND) else {
            return Ok(Some(Step::Spent));
        };
        *effort = left;
        self.look_for_conflict()?;
        if self.trail.level() == 0
            && let Some(step) = self.next_unit()?
        {
            return Ok(Some(step));
        }
        if let Some(place) = self.conflict {
            return self.learn(place);
        }
        if let Some(step) = self.meet_rows(effort)? {
            return Ok(Some(step));
        }
        if let Some(step) = self.next_opposed()? {
            return Ok(Some(step));
        }
        if self.pace.is_over() {
            self.back_to(0)?;
            return Ok(None);
        }
        if self.trail.level() == 0 && self.most_learned < self.learned {
            self.give_up_clauses()?;
        }
        self.decide()
    }

    // Settles new clauses and sets what follows by unit steps, until a clause fails.
    fn look_for_conflict(&mut self) -> Result<(), AllocError> {
        for _ in 0..u64::MAX {
            if self.conflict.is_some() {
                return Ok(());
            }
            if let Some(place) = self.fresh.get(self.settled).copied() {
                self.settled = self.settled.saturating_add(1);
                self.settle(place)?;
                continue;
            }
            self.fresh.clear();
            self.settled = 0;
            let Some(literal) = self.trail.next() else {
                return Ok(());
            };
            self.conflict = self.clauses.visit(literal.turned(), &mut self.trail)?;
        }
        Ok(())
    }

    // Lets a new clause be watched, and sets the literal that is left alone; or notes that it fails.
    fn settle(&mut self, place: usize) -> Result<(), AllocError> {
        self.clauses.bring_forward(place, &self.trail);
        let (first, second) = match self.clauses.literals(place) {
            [] => {
                self.back_to(0)?;
                self.conflict = Some(place);
                return Ok(());
            }
            [only] => (*only, None),
            [first, second, ..] => (*first, Some(*second)),
        };
        let level = match second {
            None => 0,
            Some(second) if self.trail.standing(second) != Standing::Fails => {
                return self.clauses.watch(place);
            }
            Some(second) => self.trail.cause(second.variable).level,
        };
        self.clauses.watch(place)?;
        match self.trail.standing(first) {
            Standing::Holds if second.is_some() => {}
            Standing::Holds if self.trail.cause(first.variable).level == 0 => {
                self.trail.set_clause(first.variable, place);
            }
            Standing::Holds | Standing::Open => {
                self.back_to(level)?;
                if self.trail.is_open(first.variable) {
                    self.trail.set(first, Some(place))?;
                }
            }
            Standing::Fails => self.settle_failing(place, first, level)?,
        }
        Ok(())
    }

    // The same of a clause whose literals all fail, by its literal of the highest level and the level of the next one.
    fn settle_failing(
        &mut self,
        place: usize,
        first: Literal,
        level: usize,
    ) -> Result<(), AllocError> {
        let highest = self.trail.cause(first.variable).level;
        if level < highest {
            self.back_to(level)?;
            return self.trail.set(first, Some(place));
        }
        self.back_to(highest)?;
        self.conflict = Some(place);
        Ok(())
    }

    // At level 0, the clause of the next literal alone that holds by a longer clause.
    fn next_unit(&mut self) -> Result<Option<Step>, AllocError> {
        for _ in self.units..self.trail.literals.len() {
            let Some(literal) = self.trail.literals.get(self.units).copied() else {
                return Ok(None);
            };
            self.units = self.units.saturating_add(1);
            let Some(cause) = self.trail.cause(literal.variable).clause else {
                continue;
            };
            if self.clauses.literals(cause).len() == 1 {
                continue;
            }
            let hints = self.hints_at_zero(cause, Some(literal.variable))?;
            let mut literals = Vec::new(self.alloc);
            literals.push(literal)?;
            let place = self.clauses.add(literals.clone()?, Origin::Learned(1))?;
            self.trail.set_clause(literal.variable, place);
            return Ok(Some(Step::Learned { literals, hints }));
        }
        Ok(None)
    }

    // The unit clauses of the literals of a clause, but for one variable, and the clause.
    fn hints_at_zero(&self, place: usize, except: Option<usize>) -> Result<Vec<usize>, AllocError> {
        let literals = self.clauses.literals(place);
        let mut hints = Vec::with_capacity(self.alloc, literals.len().saturating_add(1))?;
        for literal in literals {
            if Some(literal.variable) != except
                && let Some(clause) = self.trail.cause(literal.variable).clause
            {
                hints.push(clause)?;
            }
        }
        hints.push(place)?;
        Ok(hints)
    }

    // Learns from a clause that fails.
    fn learn(&mut self, place: usize) -> Result<Option<Step>, AllocError> {
        if self.trail.level() == 0 {
            let hints = self.hints_at_zero(place, None)?;
            return Ok(Some(Step::Contradiction { hints }));
        }
        self.conflict = None;
        self.pace.count();
        let known = Known {
            clauses: &self.clauses,
            trail: &self.trail,
        };
        let lesson = self.analysis.lesson(known, &mut self.order, place)?;
        self.order.age();
        self.back_to(lesson.level)?;
        let literals = lesson.literals.clone()?;
        let first = literals.first().copied();
        let learned = self
            .clauses
            .add(lesson.literals, Origin::Learned(lesson.spread))?;
        self.learned = self.learned.saturating_add(1);
        self.clauses.watch(learned)?;
        if let Some(first) = first {
            self.trail.set(first, Some(learned))?;
        }
        Ok(Some(Step::Learned {
            literals,
            hints: lesson.hints,
        }))
    }

    // Takes back the decisions above a level.
    fn back_to(&mut self, level: usize) -> Result<(), AllocError> {
        if self.trail.level() <= level {
            return Ok(());
        }
        let begin = self.trail.begin_of(level.saturating_add(1));
        for _ in begin..self.trail.literals.len() {
            if let Some(variable) = self.trail.pop(begin) {
                self.order.put(variable)?;
            }
        }
        self.trail.cut(level);
        if let Some(depth) = self.depths.get(level).copied() {
            self.simplex.undo(depth);
        }
        self.depths.truncate(level);
        self.enforced = self.enforced.min(self.trail.literals.len());
        Ok(())
    }

    // Puts the rows of the literals that hold in force, and checks them.
    fn meet_rows(&mut self, effort: &mut u64) -> Result<Option<Step>, AllocError> {
        for _ in self.enforced..self.trail.literals.len() {
            let Some(literal) = self.trail.literals.get(self.enforced).copied() else {
                break;
            };
            for place in 0..self.conditions_of(literal).len() {
                if let Some(condition) = self.conditions_of(literal).get(place).copied() {
                    let verdict = self.simplex.enforce(condition)?;
                    if let Some(step) = self.told(verdict)? {
                        return Ok(Some(step));
                    }
                }
            }
            self.enforced = self.enforced.saturating_add(1);
        }
        let verdict = self.simplex.check(effort)?;
        self.told(verdict)
    }

    // The conditions of a literal.
    fn conditions_of(&self, literal: Literal) -> &[usize] {
        match self.conditions.get(literal.variable) {
            Some(conditions) if literal.holds => conditions.positive.as_slice(),
            Some(conditions) => conditions.negative.as_slice(),
            None => &[],
        }
    }

    // The step that a verdict is, if it is one.
    fn told(&mut self, verdict: Verdict) -> Result<Option<Step>, AllocError> {
        match verdict {
            Verdict::Met => Ok(None),
            Verdict::Spent => Ok(Some(Step::Spent)),
            Verdict::Refuted(places) => Ok(Some(self.refuted(&places)?)),
        }
    }

    // That conditions are not met together, by their literals.
    fn refuted(&mut self, places: &[usize]) -> Result<Step, AllocError> {
        let mut literals = Vec::with_capacity(self.alloc, places.len())?;
        for place in places {
            if let Some(literal) = self.owners.get(*place) {
                literals.push(*literal)?;
            }
        }
        self.awaited = Awaited::Clause;
        Ok(Step::Refuted {
            literals: distinct(self.alloc, &literals)?,
        })
    }

    // A literal that is open, and one that holds, whose rows contradict each other.
    fn next_opposed(&mut self) -> Result<Option<Step>, AllocError> {
        for _ in 0..u64::MAX {
            if self.compared.is_none() {
                self.compared = self.simplex.next_changed();
            }
            let Some(column) = self.compared else {
                return Ok(None);
            };
            if let Some((one, other)) = self.opposed_at(column) {
                return Ok(Some(self.refuted(&[one, other])?));
            }
            self.compared = None;
        }
        Ok(None)
    }

    // Such conditions on a column.
    fn opposed_at(&self, column: usize) -> Option<(usize, usize)> {
        for place in self.simplex.conditions_on(column) {
            if let Some(literal) = self.owners.get(*place)
                && self.trail.is_open(literal.variable)
                && let Some(other) = self.simplex.opponent(*place)
            {
                return Some((other, *place));
            }
        }
        None
    }

    // Sets the sign of a variable, or tells what is found where all have signs.
    fn decide(&mut self) -> Result<Option<Step>, AllocError> {
        if self.probed < self.owners.len() {
            return self.probe();
        }
        let Some(variable) = self.next_open() else {
            return Ok(Some(self.found()?));
        };
        let literal = self.trail.preferred(variable);
        self.assume(literal)?;
        Ok(None)
    }

    // Tries the next literal alone that bounds a form for which single values are asked: where it fails, its opposite is learned, a bound
    // on all of those values.
    fn probe(&mut self) -> Result<Option<Step>, AllocError> {
        if self.trail.level() != 0 {
            self.back_to(0)?;
        } else if let Some(literal) = self.next_probe() {
            self.assume(literal)?;
        }
        Ok(None)
    }

    // The next literal that is to be tried, if there is one.
    fn next_probe(&mut self) -> Option<Literal> {
        for place in self.probed..self.owners.len() {
            self.probed = place.saturating_add(1);
            let literal = self.owners.get(place).copied()?;
            if self.trail.is_open(literal.variable) && self.simplex.is_beside_equation(place) {
                return Some(literal);
            }
        }
        None
    }

    // Decides that a literal holds.
    fn assume(&mut self, literal: Literal) -> Result<(), AllocError> {
        self.depths.push(self.simplex.depth())?;
        self.trail.begin_level()?;
        self.trail.set(literal, None)
    }

    // The variable that is to be decided, if one is open.
    fn next_open(&mut self) -> Option<usize> {
        if let Some(variable) = self.favoured.take()
            && self.trail.is_open(variable)
        {
            return Some(variable);
        }
        for _ in 0..u64::MAX {
            let variable = self.order.pop()?;
            if self.trail.is_open(variable) {
                return Some(variable);
            }
        }
        None
    }

    // What is found where all variables have signs and all rows in force are met.
    fn found(&mut self) -> Result<Step, AllocError> {
        if self.domain == Domain::Whole
            && let Some(gap) = self.simplex.gap()
        {
            self.awaited = Awaited::Variable;
            return Ok(Step::Split {
                name: gap.name,
                at_most: gap.below,
            });
        }
        match self.simplex.point()? {
            Some(point) => Ok(Step::Found {
                numerators: point.numerators,
                denominator: point.denominator,
            }),
            None => Ok(Step::Spent),
        }
    }

    // Gives up half of the learned clauses whose literals are of many levels, at level 0.
    fn give_up_clauses(&mut self) -> Result<(), AllocError> {
        let mut ranks = Vec::new(self.alloc);
        for (place, clause) in self.clauses.stored.iter().enumerate() {
            if let Origin::Learned(spread) = clause.origin
                && CLOSE < spread
                && 2 < clause.literals.len()
            {
                ranks.push((spread, usize::MAX.wrapping_sub(place)))?;
            }
        }
        ranks.sort_unstable();
        for (_, place) in ranks.iter().skip(ranks.len() / 2) {
            self.clauses.drop_clause(usize::MAX.wrapping_sub(*place));
            self.learned = self.learned.saturating_sub(1);
        }
        self.most_learned = self.most_learned.saturating_add(MOST_LEARNED / 8);
        Ok(())
    }
}

// The literals, each once.
fn distinct(alloc: Global, literals: &[Literal]) -> Result<Vec<Literal>, AllocError> {
    let mut sorted = Vec::from_slice(alloc, literals)?;
    sorted.sort_unstable_by_key(|literal| (literal.variable, literal.holds));
    let mut distinct: Vec<Literal> = Vec::with_capacity(alloc, sorted.len())?;
    for literal in &sorted {
        if distinct.last().copied() != Some(*literal) {
            distinct.push(*literal)?;
        }
    }
    Ok(distinct)
}
