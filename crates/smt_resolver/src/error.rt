ghost use Rattle.std.specs.Prelude.{◌≡◌};
ghost use Rattle.smt_resolver.specs.declared.error.AssertError.TheVariants.{Memory};
ghost use Rattle.smt_resolver.specs.AssertionWords.{of_assertion};

use program_meaning::SmtError;
use std::alloc::AllocError;
use thiserror::Error;

/// Why an assertion is refused. The causes are ordered as they are looked for.
#[derive(Clone, Copy, Debug, PartialEq, Eq, PartialOrd, Ord, Drop, Error)]
pub enum AssertError {
    /// A symbol is neither declared nor bound.
    #[error("a symbol is not declared")]
    Undeclared,
    /// A term stands for a formula or the reverse, or what stands is not of the logic.
    #[error("a term or a formula is of another sort")]
    Sort,
    /// The formula with each `let` written out has more nodes than the limit.
    #[error("the formula has too many nodes")]
    Nodes,
    /// A product of what is not constant.
    #[error("a product of names")]
    Nonlinear,
    /// A quotient by what is no constant other than 0.
    #[error("a quotient by no constant other than 0")]
    Division,
    /// The formula is higher than 512.
    #[error("the formula is too high")]
    Depth,
    /// A number passes 2^127 - 1.
    #[error("a number passes the limit")]
    Overflow,
    /// There is no memory left.
    #[error("out of memory")]
    Memory,
}

impl From<AllocError> for AssertError {
    ghost from_gives = { λ _ e. e ≡ Memory };

    fn from(_error: AllocError) -> AssertError {
        AssertError::Memory
    }
}

impl From<AssertError> for SmtError {
    ghost from_gives = { λ r e. e ≡ of_assertion r };

    fn from(error: AssertError) -> SmtError {
        match error {
            AssertError::Undeclared => SmtError::Undeclared,
            AssertError::Sort => SmtError::Sort,
            AssertError::Nodes => SmtError::Nodes,
            AssertError::Nonlinear => SmtError::Nonlinear,
            AssertError::Division => SmtError::Division,
            AssertError::Depth => SmtError::Depth,
            AssertError::Overflow => SmtError::Overflow,
            AssertError::Memory => SmtError::Memory,
        }
    }
}
