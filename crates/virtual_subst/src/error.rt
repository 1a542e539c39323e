ghost use Rattle.std.specs.Prelude.{◌≡◌};
ghost use Rattle.virtual_subst.specs.declared.error.SubstError.TheVariants.{Memory};

use std::alloc::AllocError;
use thiserror::Error;

/// Why a test point was not put into a formula.
#[derive(Clone, Copy, Debug, PartialEq, Eq, Drop, Error)]
pub enum SubstError {
    /// A number passes 2^127 - 1.
    #[error("a number passes the limit")]
    Overflow,
    /// There is no memory left.
    #[error("out of memory")]
    Memory,
}

impl From<AllocError> for SubstError {
    ghost from_gives = { λ _ e. e ≡ Memory };

    fn from(_error: AllocError) -> SubstError {
        SubstError::Memory
    }
}
