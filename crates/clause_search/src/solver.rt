//! Clauses over variables, and the search over them.

ghost use Rattle.std.specs.Prelude.{◌≡◌, IfOk, OnOk};
ghost use Rattle.normal_atoms.specs.Atoms.{IsWellFormed};
ghost use Rattle.linear_forms.specs.Combinations.{IsLinear};
ghost use Rattle.clause_search.specs.Solvers.{IsSound, IsTold};
ghost use Rattle.clause_search.specs.Soundness.{Question};

use crate::names::Names;
use crate::refuting::lemma;
use crate::table::Table;
use crate::variables::{Meaning, Variable};
use clause_theory::{Clause, Literal, follows};
use conflict_search::{Search, Step};
use formula_tree::Values;
use linear_forms::{LinError, Linear};
use logic_meaning::VarId;
use normal_atoms::{Atom, Context, Rel};
use std::alloc::{AllocError, Global};

// So many signs are written while the search changes one entry of its tables.
const SIGNS_PER_ENTRY: u64 = 16;

// What a split costs of the effort: where names have no bounds, splits may go on for ever.
const SPLIT_EFFORT: u64 = 50_000;

// What a step of the solver comes to.
#[derive(Drop)]
pub(crate) enum Turn {
    // It goes on.
    Further,
    // The formula is true nowhere.
    Nowhere,
    // It may be true at this point.
    Candidate(Values),
    // Nothing more is found.
    Nothing,
}

// Clauses that hold wherever a formula is true, and a search that has the same variables and clauses.
#[derive(Drop)]
pub(crate) struct Solver {
    alloc: Global,
    context: Context,
    table: Table,
    names: Names,
    search: Search,
}

impl Solver {
    // Begins with these variables and clauses.
    pub(crate) fn new(alloc: Global, context: Context, table: Table) -> Result<Solver, AllocError>
        ensures table { IfOk result (λ s. s.table ≡ table) }
        ensures context { IfOk result (λ s. s.context ≡ context) }
    {
        let names = Names::of(alloc, &table.variables)?;
        let search = loaded(alloc, context, &names, &table)?;
        Ok(Solver {
            alloc,
            context,
            table,
            names,
            search,
        })
    }

    // Takes one step of the search, and what its check costs off the effort: a sign is written for each variable.
    pub(crate) fn turn(&mut self, effort: &mut u64) -> Result<Turn, AllocError>
        ensures sound { OnOk result ((q : Question) → IsSound q self.old → IsSound q self.new) }
        ensures told { (q : Question) → IsSound q self.old → IfOk result (IsTold q) }
    {
        *effort = effort.saturating_sub(self.table.variables.len() as u64 / SIGNS_PER_ENTRY);
        match self.search.step(effort)? {
            Step::Learned { literals, hints } => self.learn(literals, &hints),
            Step::Contradiction { hints } => self.contradiction(&hints),
            Step::Refuted { literals } => self.refute(&literals, effort),
            Step::Split { name, at_most } => {
                *effort = effort.saturating_sub(SPLIT_EFFORT);
                self.split(name, at_most)
            }
            Step::Found {
                numerators,
                denominator,
            } => self.candidate(&numerators, denominator),
            Step::Spent => Ok(Turn::Nothing),
        }
    }

    // Takes a clause that the search has learned, if it follows along the hints.
    fn learn(&mut self, literals: Vec<Literal>, hints: &[usize]) -> Result<Turn, AllocError>
        ensures sound { OnOk result ((q : Question) → IsSound q self.old → IsSound q self.new) }
        ensures told { (q : Question) → IfOk result (IsTold q) }
    {
        if !follows(
            self.alloc,
            &self.table.clauses,
            self.table.variables.len(),
            hints,
            &literals,
        )? {
            return Ok(Turn::Nothing);
        }
        self.table.clauses.push(Clause { literals })?;
        Ok(Turn::Further)
    }

    // The formula is true nowhere, if the empty clause follows along the hints.
    fn contradiction(&self, hints: &[usize]) -> Result<Turn, AllocError>
        ensures { (q : Question) → IsSound q self.now → IfOk result (IsTold q) }
    {
        if follows(
            self.alloc,
            &self.table.clauses,
            self.table.variables.len(),
            hints,
            &[],
        )? {
            Ok(Turn::Nowhere)
        } else {
            Ok(Turn::Nothing)
        }
    }

    // Takes the clause that not all of these literals hold, if their rows are refuted.
    fn refute(&mut self, literals: &[Literal], effort: &mut u64) -> Result<Turn, AllocError>
        ensures sound { OnOk result ((q : Question) → IsSound q self.old → IsSound q self.new) }
        ensures told { (q : Question) → IfOk result (IsTold q) }
    {
        match lemma(
            self.alloc,
            &self.table.variables,
            &self.names,
            literals,
            effort,
        )? {
            None => Ok(Turn::Nothing),
            Some(clause) => {
                self.search.clause(&clause.literals)?;
                self.table.clauses.push(clause)?;
                Ok(Turn::Further)
            }
        }
    }

    // Adds the atom that a name is at most a number, of which the search needs one side or the other.
    fn split(&mut self, place: usize, at_most: i128) -> Result<Turn, AllocError>
        ensures sound { OnOk result ((q : Question) → IsSound q self.old → IsSound q self.new) }
        ensures told { (q : Question) → IfOk result (IsTold q) }
    {
        let (Some(name), Some(constant)) = (self.names.name(place), at_most.checked_neg()) else {
            return Ok(Turn::Nothing);
        };
        let form = form_of(self.alloc, name)?.with_constant(constant);
        self.add(Atom::Compare(Rel::AtMost, form))?;
        Ok(Turn::Further)
    }

    // Adds a variable for an atom, with both its rows.
    fn add(&mut self, atom: Atom) -> Result<(), AllocError>
        requires { IsWellFormed atom }
        ensures { OnOk result ((q : Question) → IsSound q self.old → IsSound q self.new) }
    {
        let place = self.table.add(self.alloc, self.context, atom)?;
        self.search.variable()?;
        if let Some(variable) = self.table.variables.get(place) {
            attach(
                self.alloc,
                &mut self.search,
                &self.names,
                variable,
                place,
                true,
            )?;
            attach(
                self.alloc,
                &mut self.search,
                &self.names,
                variable,
                place,
                false,
            )?;
        }
        Ok(())
    }

    // The point at which the search has found all its clauses to hold.
    fn candidate(&self, numerators: &[i128], denominator: i128) -> Result<Turn, AllocError>
        ensures { (q : Question) → IfOk result (IsTold q) }
    {
        if denominator <= 0 {
            return Ok(Turn::Nothing);
        }
        let mut values = Values::new(self.alloc, denominator);
        for (place, numerator) in numerators.iter().enumerate() {
            if let Some(name) = self.names.name(place)
                && let Err(_) = values.put(name, *numerator)
            {
                return Err(AllocError);
            }
        }
        Ok(Turn::Candidate(values))
    }
}

// The form that is a name.
fn form_of(alloc: Global, name: VarId) -> Result<Linear, AllocError>
    ensures { IfOk result IsLinear }
{
    match Linear::variable(alloc, name) {
        Ok(form) => Ok(form),
        Err(LinError::Overflow | LinError::Memory) => Err(AllocError),
    }
}

// A search with the variables of a table and its clauses. It has the rows of formulas that are true, since they are in negation normal form, and
// both rows of an atom beside them.
fn loaded(
    alloc: Global,
    context: Context,
    names: &Names,
    table: &Table,
) -> Result<Search, AllocError> {
    let mut search = Search::new(alloc, context == Context::Integers);
    for (place, variable) in table.variables.iter().enumerate() {
        search.variable()?;
        attach(alloc, &mut search, names, variable, place, true)?;
        if let Meaning::Beside(_) = variable.meaning {
            attach(alloc, &mut search, names, variable, place, false)?;
        }
    }
    for clause in &table.clauses {
        search.clause(&clause.literals)?;
    }
    Ok(search)
}

// Tells the search which row is in force where a variable has the sign.
fn attach(
    alloc: Global,
    search: &mut Search,
    names: &Names,
    variable: &Variable,
    place: usize,
    holds: bool,
) -> Result<(), AllocError> {
    if let Some(row) = variable.row(holds)
        && let Some(row) = names.row(alloc, row)?
    {
        let literal = Literal {
            variable: place,
            holds,
        };
        search.attach(literal, row)?;
    }
    Ok(())
}
