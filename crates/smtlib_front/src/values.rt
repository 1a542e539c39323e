//! The command that asks for the values of names.

ghost use Rattle.std.specs.Prelude.{◌≡◌, not, is_some, position};
ghost use Rattle.std.specs.List.{list_any};
ghost use Rattle.language_meaning.specs.Value.{same_name};
ghost use Rattle.program_meaning.specs.SmtState.{State};
ghost use Rattle.smt_language.specs.Trees.{Values};
ghost use Rattle.smtlib_front.specs.Represents.{Represents};
ghost use Rattle.smtlib_front.specs.Steps.{Does};

use crate::kept::Kept;
use crate::smt::Smt;
use crate::smt_texts_values::values_text;
use formula_tree::Names;
use logic_meaning::Name;
use program_meaning::{SmtError, SmtReply};
use redlog_printer::PrintError;

impl Smt {
    /// Tells the values of these names, which the last check left.
    pub(crate) fn values(&self, asked: &[Name]) -> Result<SmtReply, SmtError>
        ensures { (s : State) → Represents self.now s → Does s self.now.limits.nodes (Values asked.now) result self.now }
    {
        if self.logic.is_none() {
            return Err(SmtError::Mode);
        }
        let values = match &self.kept {
            Kept::Nothing => return Err(SmtError::Mode),
            Kept::TooLarge => None,
            Kept::Values(values) => Some(values),
        };
        if has_undeclared(&self.declared, asked) {
            return Err(SmtError::Undeclared);
        }
        let Some(values) = values else {
            return Err(SmtError::Overflow);
        };
        match values_text(self.alloc, &self.declared, values, asked) {
            Ok(line) => Ok(SmtReply::Printed(line)),
            Err(PrintError::Text) => Err(SmtError::Text),
            Err(PrintError::Memory) => Err(SmtError::Memory),
        }
    }
}

/// Whether one of the names is not declared.
fn has_undeclared(declared: &Names, asked: &[Name]) -> bool
    ensures { result ≡ list_any (λ x. not (is_some (position (same_name x) declared.now))) asked.now }
{
    asked.iter().any(|name| declared.find(name).is_none())
}
