//! The command that adds a formula.

ghost use Rattle.std.specs.Prelude.{◌≡◌};
ghost use Rattle.program_meaning.specs.SmtState.{State};
ghost use Rattle.smt_meaning.specs.Proper.{IsProper};
ghost use Rattle.smt_tokens.specs.CodeTrees.{expression_tree};
ghost use Rattle.smt_language.specs.Trees.{Assert};
ghost use Rattle.smtlib_front.specs.Represents.{Represents};
ghost use Rattle.smtlib_front.specs.Steps.{Does};

use crate::kept::Kept;
use crate::smt::Smt;
use program_meaning::{SmtError, SmtReply};
use smt_resolver::{Setting, asserted};
use smt_tokens::Expression;

impl Smt {
    /// Adds what the expression means to what is asserted.
    pub(crate) fn assert(&mut self, expression: &Expression) -> Result<SmtReply, SmtError>
        requires proper { IsProper (expression_tree expression.now) }
        ensures does { (s : State) → Represents self.old s → Does s self.old.limits.nodes (Assert (expression_tree expression.now)) result self.new }
        ensures limits { self.new.limits ≡ self.old.limits }
    {
        let Some(context) = self.logic else {
            return Err(SmtError::Mode);
        };
        let setting = Setting {
            alloc: self.alloc,
            context,
            declared: &self.declared,
            limit: self.limits.nodes,
        };
        let id = asserted(&setting, expression, &mut self.store)?;
        if let Err(_failed) = self.asserted.push(id) {
            return Err(SmtError::Memory);
        }
        self.kept = Kept::Nothing;
        Ok(SmtReply::Nothing)
    }
}
