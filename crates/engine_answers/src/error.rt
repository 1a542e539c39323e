ghost use Rattle.std.specs.Prelude.{◌≡◌};
ghost use Rattle.engine_answers.specs.declared.error.SampleError.TheVariants.{Memory};

use std::alloc::AllocError;
use thiserror::Error;

/// Why a case has no concrete sample.
#[derive(Clone, Copy, Debug, PartialEq, Eq, Drop, Error)]
pub enum SampleError {
    /// A number passes 2^127 - 1.
    #[error("a number passes the limit")]
    Overflow,
    /// There is no memory left.
    #[error("out of memory")]
    Memory,
}

impl From<AllocError> for SampleError {
    ghost from_gives = { λ _ e. e ≡ Memory };

    fn from(_error: AllocError) -> SampleError {
        SampleError::Memory
    }
}
