// The errors of certificates.
ghost use Rattle.std.specs.Prelude.{◌≡◌};
ghost use Rattle.certificates.specs.Stops.{error_of};
ghost use Rattle.certificates.specs.declared.error.CertError.TheVariants.{Memory};

use linear_forms::LinError;
use std::alloc::{AllocError, AllocFailed};
use thiserror::Error;

/// Why a certificate could not be found or checked.
#[derive(Clone, Copy, Debug, PartialEq, Eq, Drop, Error)]
pub enum CertError {
    /// A product or sum passes 2^127 - 1.
    #[error("a number passes the limit")]
    Overflow,
    /// The rows of the search pass their limit.
    #[error("the limit of rows is passed")]
    Nodes,
    /// There is no memory left.
    #[error("out of memory")]
    Memory,
}

impl From<LinError> for CertError {
    ghost from_gives = { λ given e. e ≡ error_of given };

    fn from(error: LinError) -> CertError {
        match error {
            LinError::Overflow => CertError::Overflow,
            LinError::Memory => CertError::Memory,
        }
    }
}

impl From<AllocError> for CertError {
    ghost from_gives = { λ _ e. e ≡ Memory };

    fn from(_error: AllocError) -> CertError {
        CertError::Memory
    }
}

impl<T: Drop> From<AllocFailed<T>> for CertError {
    ghost from_gives = { λ _ e. e ≡ Memory };

    fn from(_error: AllocFailed<T>) -> CertError {
        CertError::Memory
    }
}
