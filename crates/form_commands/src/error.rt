ghost use Rattle.std.specs.Prelude.{◌≡◌};
ghost use Rattle.form_commands.specs.Faults.{measured_error as error_of_measured};

use reference_engine::Measured;
use thiserror::Error;

/// Why a form is not made.
#[derive(Clone, Copy, Debug, PartialEq, Eq, Drop, Error)]
pub enum FormsError {
    /// A number passes 2^127 - 1.
    #[error("a number passes the limit")]
    Overflow,
    /// What is counted passes the limit of nodes.
    #[error("the formula is too large")]
    Nodes,
    /// There is no memory left.
    #[error("out of memory")]
    Memory,
}

/// What stops an elimination.
pub(crate) fn measured_error(error: Measured) -> FormsError
    ensures { result ≡ error_of_measured error }
{
    match error {
        Measured::Overflow => FormsError::Overflow,
        Measured::Nodes => FormsError::Nodes,
        Measured::Memory => FormsError::Memory,
    }
}
