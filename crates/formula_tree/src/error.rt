ghost use Rattle.std.specs.Prelude.{◌≡◌};
ghost use Rattle.formula_tree.specs.declared.error.FormError.TheVariants.{Memory};

use std::alloc::AllocError;
use thiserror::Error;

/// Why a formula has no normal form of some kind.
#[derive(Clone, Copy, Debug, PartialEq, Eq, Drop, Error)]
pub enum FormError {
    /// A quantifier stands in the formula.
    #[error("a quantifier stands in the formula")]
    Quantified,
    /// A number passes 2^127 - 1.
    #[error("a number passes the limit")]
    Overflow,
    /// The measure of the formula passes the limit of nodes.
    #[error("the formula is too large")]
    Nodes,
    /// There is no memory left.
    #[error("out of memory")]
    Memory,
}

impl From<AllocError> for FormError {
    ghost from_gives = { λ _ e. e ≡ Memory };

    fn from(_error: AllocError) -> FormError {
        FormError::Memory
    }
}
