ghost use Rattle.std.specs.Prelude.{◌≡◌};
ghost use Rattle.branch_rounds.specs.declared.error.RoundError.TheVariants.{Overflow, Nodes, Memory};
ghost use Rattle.branch_points.specs.declared.error.ChoiceError.TheVariants as choice;

use branch_points::ChoiceError;
use std::alloc::AllocError;
use thiserror::Error;

/// Why the branches of a block are not told.
#[derive(Clone, Copy, Debug, PartialEq, Eq, Drop, Error)]
pub enum RoundError {
    /// A number passes 2^127 - 1.
    #[error("a number passes the limit")]
    Overflow,
    /// The steps cost more than is left.
    #[error("the steps cost too much")]
    Nodes,
    /// There is no memory left.
    #[error("out of memory")]
    Memory,
}

impl From<AllocError> for RoundError {
    ghost from_gives = { λ _ e. e ≡ Memory };

    fn from(_error: AllocError) -> RoundError {
        RoundError::Memory
    }
}

// The word of a choice of points.
pub(crate) fn of_choice(error: ChoiceError) -> RoundError
    ensures overflow { result ≡ Overflow → error ≡ choice.Overflow }
    ensures nodes { result ≡ Nodes → error ≡ choice.Nodes }
    ensures memory { result ≡ Memory → error ≡ choice.Memory }
{
    match error {
        ChoiceError::Overflow => RoundError::Overflow,
        ChoiceError::Nodes => RoundError::Nodes,
        ChoiceError::Memory => RoundError::Memory,
    }
}
