ghost use Rattle.std.specs.Prelude.{◌≡◌};
ghost use Rattle.theory_simplifier.specs.declared.error.SimplError.TheVariants.{Memory};

use std::alloc::AllocError;
use thiserror::Error;

/// Why a formula was not simplified.
#[derive(Clone, Copy, Debug, PartialEq, Eq, Drop, Error)]
pub enum SimplError {
    /// The tree of the formula has more nodes than the limit.
    #[error("the formula is too large")]
    Nodes,
    /// There is no memory left.
    #[error("out of memory")]
    Memory,
}

impl From<AllocError> for SimplError {
    ghost from_gives = { λ _ e. e ≡ Memory };

    fn from(_error: AllocError) -> SimplError {
        SimplError::Memory
    }
}
