// What is learned from a clause that fails.
use crate::clauses::Clauses;
use crate::order::Order;
use crate::trail::Trail;
use clause_theory::Literal;
use std::alloc::{AllocError, Global};
use std::mem;

// The clauses and the literals that hold.
#[derive(Clone, Copy)]
pub(crate) struct Known<'a> {
    pub(crate) clauses: &'a Clauses,
    pub(crate) trail: &'a Trail,
}

// A clause that follows from others by unit steps along the hints, the level at which its first literal is set by it, and of how many
// levels its literals are.
#[derive(Drop)]
pub(crate) struct Lesson {
    pub(crate) literals: Vec<Literal>,
    pub(crate) hints: Vec<usize>,
    pub(crate) level: usize,
    pub(crate) spread: usize,
}

// What is known of a variable in the analysis of a conflict: nothing; that its literal stands in the clause or was replaced by others;
// that its literal follows from the clause's.
#[derive(Clone, Copy, PartialEq, Eq)]
enum Mark {
    Unknown,
    Read,
    Implied,
}

// The state of an analysis: marks, the literals of lower levels, and the places on the trail of what was replaced by its cause.
#[derive(Drop)]
pub(crate) struct Analysis {
    alloc: Global,
    marks: Vec<Mark>,
    marked: Vec<usize>,
    lower: Vec<Literal>,
    used: Vec<usize>,
    stamps: Vec<u64>,
    stamp: u64,
}

impl Analysis {
    pub(crate) fn new(alloc: Global) -> Analysis {
        Analysis {
            alloc,
            marks: Vec::new(alloc),
            marked: Vec::new(alloc),
            lower: Vec::new(alloc),
            used: Vec::new(alloc),
            stamps: Vec::new(alloc),
            stamp: 0,
        }
    }

    // Adds a variable.
    pub(crate) fn add_variable(&mut self) -> Result<(), AllocError> {
        self.marks.push(Mark::Unknown)?;
        self.stamps.push(0)?;
        Ok(())
    }

    // What is learned from a clause that fails and has a literal of the current level, which is not 0: the clause of the first unique
    // implication point, without literals that follow from the others (Sörensson and Biere, "Minimizing learned clauses", 2009).
    pub(crate) fn lesson(
        &mut self,
        known: Known<'_>,
        order: &mut Order,
        conflict: usize,
    ) -> Result<Lesson, AllocError> {
        self.forget();
        let first = self.resolve(known, order, conflict)?;
        let mut literals = Vec::with_capacity(self.alloc, self.lower.len().saturating_add(1))?;
        if let Some(literal) = first {
            literals.push(literal.turned())?;
        }
        self.stamp_levels(known);
        let lower = mem::replace(&mut self.lower, Vec::new(self.alloc));
        for literal in &lower {
            if !self.is_implied(known, *literal)? {
                literals.push(*literal)?;
            }
        }
        let hints = self.hints(known, conflict)?;
        let level = bring_highest(&mut literals, known.trail);
        let spread = self.spread(&literals, known.trail);
        Ok(Lesson {
            literals,
            hints,
            level,
            spread,
        })
    }

    // Forgets the last analysis.
    fn forget(&mut self) {
        for variable in &self.marked {
            if let Some(mark) = self.marks.get_mut(*variable) {
                *mark = Mark::Unknown;
            }
        }
        self.marked.clear();
        self.lower.clear();
        self.used.clear();
    }

    // Replaces literals of the current level by their causes until one is left, and gives that.
    fn resolve(
        &mut self,
        known: Known<'_>,
        order: &mut Order,
        conflict: usize,
    ) -> Result<Option<Literal>, AllocError> {
        let mut open = self.read(known, order, conflict)?;
        for position in (0..known.trail.literals.len()).rev() {
            let Some(literal) = known.trail.literals.get(position).copied() else {
                return Ok(None);
            };
            if self.mark(literal.variable) == Mark::Unknown {
                continue;
            }
            if open <= 1 {
                return Ok(Some(literal));
            }
            self.used.push(position)?;
            open = open.saturating_sub(1);
            if let Some(clause) = known.trail.cause(literal.variable).clause {
                open = open.saturating_add(self.read(known, order, clause)?);
            }
        }
        Ok(None)
    }

    // Reads the literals of a clause, and tells how many new ones of the current level there are.
    fn read(
        &mut self,
        known: Known<'_>,
        order: &mut Order,
        place: usize,
    ) -> Result<usize, AllocError> {
        let mut open: usize = 0;
        for literal in known.clauses.literals(place) {
            if self.mark(literal.variable) != Mark::Unknown {
                continue;
            }
            self.set_mark(literal.variable, Mark::Read)?;
            let cause = known.trail.cause(literal.variable);
            if cause.level == 0 {
                self.used.push(cause.position)?;
                continue;
            }
            order.raise(literal.variable);
            if cause.level == known.trail.level() {
                open = open.saturating_add(1);
            } else {
                self.lower.push(*literal)?;
            }
        }
        Ok(open)
    }

    #[inline(always)]
    fn mark(&self, variable: usize) -> Mark {
        self.marks.get(variable).copied().unwrap_or(Mark::Read)
    }

    fn set_mark(&mut self, variable: usize, mark: Mark) -> Result<(), AllocError> {
        if let Some(entry) = self.marks.get_mut(variable) {
            *entry = mark;
            self.marked.push(variable)?;
        }
        Ok(())
    }

    // Stamps the levels of the literals of lower levels.
    fn stamp_levels(&mut self, known: Known<'_>) {
        self.stamp = self.stamp.wrapping_add(1);
        for literal in &self.lower {
            let level = known.trail.cause(literal.variable).level;
            if let Some(entry) = self.stamps.get_mut(level) {
                *entry = self.stamp;
            }
        }
    }

    // Whether a literal fails because others of the clause do; then the places of the causes are noted.
    fn is_implied(&mut self, known: Known<'_>, literal: Literal) -> Result<bool, AllocError> {
        let (marked, used) = (self.marked.len(), self.used.len());
        let mut stack = Vec::new(self.alloc);
        stack.push(literal.variable)?;
        for _ in 0..u64::MAX {
            let Some(variable) = stack.pop() else {
                return Ok(true);
            };
            if !self.explain(known, variable, &mut stack)? {
                break;
            }
        }
        for variable in self.marked.iter().skip(marked) {
            if let Some(mark) = self.marks.get_mut(*variable) {
                *mark = Mark::Unknown;
            }
        }
        self.marked.truncate(marked);
        self.used.truncate(used);
        Ok(false)
    }

    // Puts the variables of the cause of one onto a stack, those that are not known to follow; whether they may.
    fn explain(
        &mut self,
        known: Known<'_>,
        variable: usize,
        stack: &mut Vec<usize>,
    ) -> Result<bool, AllocError> {
        let cause = known.trail.cause(variable);
        let Some(clause) = cause.clause else {
            return Ok(false);
        };
        self.used.push(cause.position)?;
        for literal in known.clauses.literals(clause) {
            if literal.variable == variable || self.mark(literal.variable) != Mark::Unknown {
                continue;
            }
            let cause = known.trail.cause(literal.variable);
            if cause.level == 0 {
                self.set_mark(literal.variable, Mark::Read)?;
                self.used.push(cause.position)?;
            } else if cause.clause.is_some() && self.is_stamped(cause.level) {
                self.set_mark(literal.variable, Mark::Implied)?;
                stack.push(literal.variable)?;
            } else {
                return Ok(false);
            }
        }
        Ok(true)
    }

    // Whether a level is stamped.
    fn is_stamped(&self, level: usize) -> bool {
        self.stamps.get(level).copied() == Some(self.stamp)
    }

    // The causes of what was replaced, in the order of the trail, and the clause that fails.
    fn hints(&mut self, known: Known<'_>, conflict: usize) -> Result<Vec<usize>, AllocError> {
        self.used.sort_unstable();
        let mut hints = Vec::with_capacity(self.alloc, self.used.len().saturating_add(1))?;
        for position in &self.used {
            if let Some(literal) = known.trail.literals.get(*position)
                && let Some(clause) = known.trail.cause(literal.variable).clause
            {
                hints.push(clause)?;
            }
        }
        hints.push(conflict)?;
        Ok(hints)
    }

    // Of how many levels literals are.
    fn spread(&mut self, literals: &[Literal], trail: &Trail) -> usize {
        self.stamp = self.stamp.wrapping_add(1);
        let mut count: usize = 0;
        for literal in literals {
            let level = trail.cause(literal.variable).level;
            if let Some(entry) = self.stamps.get_mut(level)
                && *entry != self.stamp
            {
                *entry = self.stamp;
                count = count.saturating_add(1);
            }
        }
        count
    }
}

// Brings the literal of the highest level behind the first one to the second place, and gives that level, 0 where there is none.
fn bring_highest(literals: &mut Vec<Literal>, trail: &Trail) -> usize {
    let mut highest = 0;
    let mut place = 1;
    for (index, literal) in literals.iter().enumerate().skip(1) {
        let level = trail.cause(literal.variable).level;
        if highest < level {
            highest = level;
            place = index;
        }
    }
    if let Some(moved) = literals.get(place).copied()
        && let Some(second) = literals.get(1).copied()
    {
        if let Some(entry) = literals.get_mut(1) {
            *entry = moved;
        }
        if let Some(entry) = literals.get_mut(place) {
            *entry = second;
        }
    }
    highest
}
