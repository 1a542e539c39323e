ghost use Rattle.std.specs.Prelude.{◌≡◌};
ghost use Rattle.formula_store.specs.declared.error.StoreError.TheVariants as store;
ghost use Rattle.formula_store.specs.declared.error.EvalStop.TheVariants as stop;
ghost use Rattle.formula_store.specs.declared.error.Unfold.TheVariants as large;

use std::alloc::AllocError;
use thiserror::Error;

/// Why a call on a store gave nothing.
#[derive(Clone, Copy, Debug, PartialEq, Eq, Drop, Error)]
pub enum StoreError {
    /// There is no memory left.
    #[error("out of memory")]
    Memory,
}

impl From<AllocError> for StoreError {
    ghost from_gives = { λ _ e. e ≡ store.Memory };

    fn from(_error: AllocError) -> StoreError {
        StoreError::Memory
    }
}

/// Why the truth of a formula was not told.
#[derive(Clone, Copy, Debug, PartialEq, Eq, Drop, Error)]
pub enum EvalStop {
    /// A number formed for the value of an atom passes 2^127 - 1.
    #[error("a number passes the limit")]
    Overflow,
    /// There is no memory left.
    #[error("out of memory")]
    Memory,
}

impl From<AllocError> for EvalStop {
    ghost from_gives = { λ _ e. e ≡ stop.Memory };

    fn from(_error: AllocError) -> EvalStop {
        EvalStop::Memory
    }
}

/// Why a formula was not unfolded.
#[derive(Clone, Copy, Debug, PartialEq, Eq, Drop, Error)]
pub enum Unfold {
    /// The tree has more nodes than the limit.
    #[error("the formula is too large")]
    Large,
    /// There is no memory left.
    #[error("out of memory")]
    Memory,
}

impl From<AllocError> for Unfold {
    ghost from_gives = { λ _ e. e ≡ large.Memory };

    fn from(_error: AllocError) -> Unfold {
        Unfold::Memory
    }
}
