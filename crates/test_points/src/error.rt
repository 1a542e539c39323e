// The errors of test points.
ghost use Rattle.std.specs.Prelude.{◌≡◌};
ghost use Rattle.test_points.specs.declared.error.PointError.TheVariants.{Memory};

use std::alloc::AllocError;
use thiserror::Error;

/// Why a list of test points, or what an atom becomes at one, could not be made.
#[derive(Clone, Copy, Debug, PartialEq, Eq, Drop, Error)]
pub enum PointError {
    /// A number passes 2^127 - 1.
    #[error("a number passes the limit")]
    Overflow,
    /// There are more test points than the limit that was given.
    #[error("too many points")]
    Nodes,
    /// There is no memory left.
    #[error("out of memory")]
    Memory,
}

impl From<AllocError> for PointError {
    ghost from_gives = { λ _ e. e ≡ Memory };

    fn from(_error: AllocError) -> PointError {
        PointError::Memory
    }
}
