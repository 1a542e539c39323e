// The literals that hold, in the order in which they came to.
use clause_theory::Literal;
use std::alloc::{AllocError, Global};

// How a literal stands.
#[derive(Clone, Copy, PartialEq, Eq)]
pub(crate) enum Standing {
    Holds,
    Fails,
    Open,
}

// Where and why a variable was set: its decision level, its place on the trail, and the clause that set it, if one did.
#[derive(Clone, Copy)]
pub(crate) struct Cause {
    pub(crate) level: usize,
    pub(crate) position: usize,
    pub(crate) clause: Option<usize>,
}

// The literals that hold, where each decision level begins, and the sign that each variable had last, which at first is that it holds.
#[derive(Drop)]
pub(crate) struct Trail {
    signs: Vec<Option<bool>>,
    causes: Vec<Cause>,
    last: Vec<bool>,
    pub(crate) literals: Vec<Literal>,
    levels: Vec<usize>,
    next: usize,
}

impl Trail {
    pub(crate) fn new(alloc: Global) -> Trail {
        Trail {
            signs: Vec::new(alloc),
            causes: Vec::new(alloc),
            last: Vec::new(alloc),
            literals: Vec::new(alloc),
            levels: Vec::new(alloc),
            next: 0,
        }
    }

    // Adds a variable.
    pub(crate) fn add(&mut self) -> Result<(), AllocError> {
        self.signs.push(None)?;
        self.causes.push(Cause {
            level: 0,
            position: 0,
            clause: None,
        })?;
        self.last.push(true)?;
        Ok(())
    }

    // How many variables there are.
    pub(crate) fn variables(&self) -> usize {
        self.signs.len()
    }

    // How many decisions hold.
    #[inline(always)]
    pub(crate) fn level(&self) -> usize {
        self.levels.len()
    }

    #[inline(always)]
    pub(crate) fn standing(&self, literal: Literal) -> Standing {
        match self.signs.get(literal.variable).copied().flatten() {
            None => Standing::Open,
            Some(sign) if sign == literal.holds => Standing::Holds,
            Some(_) => Standing::Fails,
        }
    }

    // Whether a variable is not set.
    #[inline(always)]
    pub(crate) fn is_open(&self, variable: usize) -> bool {
        self.signs.get(variable).copied().flatten().is_none()
    }

    // Where and why a variable was set.
    #[inline(always)]
    pub(crate) fn cause(&self, variable: usize) -> Cause {
        self.causes.get(variable).copied().unwrap_or(Cause {
            level: 0,
            position: 0,
            clause: None,
        })
    }

    // Names another clause as what set a variable.
    pub(crate) fn set_clause(&mut self, variable: usize, clause: usize) {
        if let Some(cause) = self.causes.get_mut(variable) {
            cause.clause = Some(clause);
        }
    }

    // The literal with the sign that the variable had last.
    pub(crate) fn preferred(&self, variable: usize) -> Literal {
        Literal {
            variable,
            holds: self.last.get(variable).copied().unwrap_or(false),
        }
    }

    // Begins a decision level.
    pub(crate) fn begin_level(&mut self) -> Result<(), AllocError> {
        self.levels.push(self.literals.len())?;
        Ok(())
    }

    // Makes an open literal hold.
    pub(crate) fn set(
        &mut self,
        literal: Literal,
        clause: Option<usize>,
    ) -> Result<(), AllocError> {
        let cause = Cause {
            level: self.levels.len(),
            position: self.literals.len(),
            clause,
        };
        self.literals.push(literal)?;
        if let Some(sign) = self.signs.get_mut(literal.variable) {
            *sign = Some(literal.holds);
        }
        if let Some(entry) = self.causes.get_mut(literal.variable) {
            *entry = cause;
        }
        Ok(())
    }

    // The next literal that is to be propagated.
    #[inline(always)]
    pub(crate) fn next(&mut self) -> Option<Literal> {
        let literal = self.literals.get(self.next).copied()?;
        self.next = self.next.saturating_add(1);
        Some(literal)
    }

    // Where a level above 0 begins on the trail.
    pub(crate) fn begin_of(&self, level: usize) -> usize {
        let place = level.saturating_sub(1);
        self.levels
            .get(place)
            .copied()
            .unwrap_or(self.literals.len())
    }

    // Takes back the last literal, if it was set from a place on.
    pub(crate) fn pop(&mut self, from: usize) -> Option<usize> {
        if self.literals.len() <= from {
            return None;
        }
        let literal = self.literals.pop()?;
        if let Some(sign) = self.signs.get_mut(literal.variable) {
            *sign = None;
        }
        if let Some(last) = self.last.get_mut(literal.variable) {
            *last = literal.holds;
        }
        Some(literal.variable)
    }

    // Forgets the levels above one, whose literals have been taken back.
    pub(crate) fn cut(&mut self, level: usize) {
        self.levels.truncate(level);
        self.next = self.next.min(self.literals.len());
    }
}
