//! Why no test points were chosen.

ghost use Rattle.std.specs.Prelude.{◌≡◌};
ghost use Rattle.branch_points.specs.declared.error.ChoiceError.TheVariants.{Memory};
ghost use Rattle.branch_points.specs.Counts.{choice_of};

use std::alloc::AllocError;
use test_points::PointError;
use thiserror::Error;

/// Why no test points were chosen for a branch.
#[derive(Clone, Copy, Debug, PartialEq, Eq, Drop, Error)]
pub enum ChoiceError {
    /// A number passes 2^127 - 1.
    #[error("a number passes the limit")]
    Overflow,
    /// Each name has more test points on each side than the number that was given.
    #[error("too many points")]
    Nodes,
    /// There is no memory left.
    #[error("out of memory")]
    Memory,
}

impl From<AllocError> for ChoiceError {
    ghost from_gives = { λ _ e. e ≡ Memory };

    fn from(_error: AllocError) -> ChoiceError {
        ChoiceError::Memory
    }
}

impl From<PointError> for ChoiceError {
    ghost from_gives = { λ p e. e ≡ choice_of p };

    fn from(error: PointError) -> ChoiceError {
        match error {
            PointError::Overflow => ChoiceError::Overflow,
            PointError::Nodes => ChoiceError::Nodes,
            PointError::Memory => ChoiceError::Memory,
        }
    }
}
