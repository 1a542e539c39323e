//! A formula that is a command.

ghost use Rattle.std.specs.Prelude.{◌≡◌, Some, None, IfOk, IfErr};
ghost use Rattle.language_meaning.specs.Holes.{command_alone};
ghost use Rattle.written_syntax.specs.CodeTrees.{whole_formula, whole_command};

use crate::tree::{Formula, InnerCommand};
use std::mem;

impl Formula {
    /// The command that the formula is, or the formula where it is none.
    #[tactic(auto, using(crate::proofs::TreeEquations::wholes))]
    pub fn into_command(mut self) -> Result<InnerCommand, Formula>
        ensures command { IfOk result (λ c. command_alone (whole_formula self).tree (whole_formula self).inner ≡ Some (whole_command c)) }
        ensures other { IfErr result (λ f. f ≡ self) }
        ensures none { IfErr result (λ f. command_alone (whole_formula self).tree (whole_formula self).inner ≡ None) }
    {
        match &mut self {
            Formula::Computed(command) => {
                Ok(mem::replace(&mut **command, InnerCommand::Nnf(Formula::True)))
            }
            _ => Err(self),
        }
    }
}
