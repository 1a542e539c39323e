//! Which theory a command is for.

ghost use Rattle.std.specs.Prelude.{◌≡◌, IfErr, OnOk};
ghost use Rattle.logic_meaning.specs.Context.{Fields, Integers};
ghost use Rattle.normal_atoms.specs.Atoms.{context_of};

use normal_atoms::Context;
use program_meaning::StatementError;

/// Whether the theory is that of the ordered fields.
pub fn check_fields(context: Context) -> Result<(), StatementError>
    ensures fields { OnOk result (context_of context ≡ Fields) }
    ensures integers { IfErr result (λ e. (e ≡ StatementError.Context) × (context_of context ≡ Integers)) }
{
    match context {
        Context::Fields => Ok(()),
        Context::Integers => Err(StatementError::Context),
    }
}
