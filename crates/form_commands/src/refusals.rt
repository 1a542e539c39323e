//! The words of refusals.

ghost use Rattle.std.specs.Prelude.{◌≡◌};
ghost use Rattle.form_commands.specs.Refusals.{static_refusal as refusal_of_static, forms_refusal as refusal_of_forms, print_refusal as refusal_of_print, measured_refusal as refusal_of_measured};

use crate::error::FormsError;
use language_meaning::StaticError;
use program_meaning::StatementError;
use reference_engine::Measured;
use session_state::PrintError;

/// A refusal of a formula that is not resolved.
pub fn static_refusal(error: StaticError) -> StatementError
    ensures { result ≡ refusal_of_static error }
{
    match error {
        StaticError::Unbound => StatementError::Unbound,
        StaticError::FormulaAsTerm => StatementError::FormulaAsTerm,
        StaticError::Nonlinear => StatementError::Nonlinear,
        StaticError::Division => StatementError::Division,
        StaticError::CongruenceContext => StatementError::CongruenceContext,
        StaticError::Modulus => StatementError::Modulus,
        StaticError::Depth => StatementError::Depth,
        StaticError::Overflow => StatementError::Overflow,
        StaticError::Memory => StatementError::Memory,
    }
}

/// A refusal of a form that is not made.
pub fn forms_refusal(error: FormsError) -> StatementError
    ensures { result ≡ refusal_of_forms error }
{
    match error {
        FormsError::Overflow => StatementError::Overflow,
        FormsError::Nodes => StatementError::Nodes,
        FormsError::Memory => StatementError::Memory,
    }
}

/// A refusal of the printer.
pub fn print_refusal(error: PrintError) -> StatementError
    ensures { result ≡ refusal_of_print error }
{
    match error {
        PrintError::Text => StatementError::Text,
        PrintError::Memory => StatementError::Memory,
    }
}

/// A refusal of an elimination.
pub fn measured_refusal(error: Measured) -> StatementError
    ensures { result ≡ refusal_of_measured error }
{
    match error {
        Measured::Overflow => StatementError::Overflow,
        Measured::Nodes => StatementError::Nodes,
        Measured::Memory => StatementError::Memory,
    }
}
