//! The commands that say what the formulas of a script are about.

ghost use Rattle.std.specs.Prelude.{◌≡◌};
ghost use Rattle.program_meaning.specs.SmtState.{State, theory_of};
ghost use Rattle.smt_language.specs.Trees.{Choose, Declare};
ghost use Rattle.normal_atoms.specs.Atoms.{context_of};
ghost use Rattle.smtlib_front.specs.Represents.{Represents};
ghost use Rattle.smtlib_front.specs.Steps.{Does};

use crate::kept::Kept;
use crate::smt::Smt;
use normal_atoms::Context;
use program_meaning::{SmtError, SmtReply};
use smt_language::{Sort, SortedName};
use smt_resolver::are_numbers;

impl Smt {
    /// Chooses the logic, once.
    pub(crate) fn choose(&mut self, sort: Sort) -> Result<SmtReply, SmtError>
        ensures does { (s : State) → Represents self.old s → Does s self.old.limits.nodes (Choose sort) result self.new }
        ensures limits { self.new.limits ≡ self.old.limits }
    {
        if self.logic.is_some() {
            return Err(SmtError::Mode);
        }
        self.logic = Some(theory_of(sort));
        Ok(SmtReply::Nothing)
    }

    /// Declares a name of the sort of the logic.
    pub(crate) fn declare(&mut self, name: &SortedName) -> Result<SmtReply, SmtError>
        ensures does { (s : State) → Represents self.old s → Does s self.old.limits.nodes (Declare name.now) result self.new }
        ensures limits { self.new.limits ≡ self.old.limits }
    {
        let Some(context) = self.logic else {
            return Err(SmtError::Mode);
        };
        if self.declared.find(&name.name).is_some() {
            return Err(SmtError::Declared);
        }
        if !are_numbers(context, &[*name]) {
            return Err(SmtError::Sort);
        }
        if let Err(_failed) = self.declared.number(&name.name) {
            return Err(SmtError::Memory);
        }
        self.kept = Kept::Nothing;
        Ok(SmtReply::Nothing)
    }
}

/// The theory of the numbers of a sort.
fn theory_of(sort: Sort) -> Context
    ensures { context_of result ≡ theory_of sort }
{
    match sort {
        Sort::Real => Context::Fields,
        Sort::Int => Context::Integers,
    }
}
