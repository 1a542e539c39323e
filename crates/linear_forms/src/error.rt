// The errors of linear forms.
ghost use Rattle.std.specs.Prelude.{◌≡◌};
ghost use Rattle.linear_forms.specs.declared.error.LinError.TheVariants.{Memory};

use std::alloc::AllocError;
use thiserror::Error;

/// Why a linear form could not be made.
#[derive(Clone, Copy, Debug, PartialEq, Eq, Drop, Error)]
pub enum LinError {
    /// A number of the form passes 2^127 - 1.
    #[error("a number passes the limit")]
    Overflow,
    /// There is no memory left.
    #[error("out of memory")]
    Memory,
}

impl From<AllocError> for LinError {
    ghost from_gives = { λ _ e. e ≡ Memory };

    fn from(_error: AllocError) -> LinError {
        LinError::Memory
    }
}
