// The errors of atoms.
ghost use Rattle.std.specs.Prelude.{◌≡◌};
ghost use Rattle.normal_atoms.specs.declared.error.AtomError.TheVariants.{Memory};

use std::alloc::AllocError;
use thiserror::Error;

/// Why an atom could not be made.
#[derive(Clone, Copy, Debug, PartialEq, Eq, Drop, Error)]
pub enum AtomError {
    /// The constant of the normal form passes 2^127 - 1.
    #[error("a number passes the limit")]
    Overflow,
    /// There is no memory left.
    #[error("out of memory")]
    Memory,
}

impl From<AllocError> for AtomError {
    ghost from_gives = { λ _ e. e ≡ Memory };

    fn from(_error: AllocError) -> AtomError {
        AtomError::Memory
    }
}
