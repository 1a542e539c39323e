// Why a calculation stops.
use std::alloc::{AllocError, AllocFailed};

// Memory is wanting, or a number or the effort does not suffice.
#[derive(Drop)]
pub(crate) enum Halt {
    Memory(AllocError),
    Spent,
}

impl From<AllocError> for Halt {
    fn from(error: AllocError) -> Halt {
        Halt::Memory(error)
    }
}

impl<T: Drop> From<AllocFailed<T>> for Halt {
    fn from(error: AllocFailed<T>) -> Halt {
        Halt::Memory(AllocError::from(error))
    }
}

// The number, where it fits.
#[inline(always)]
pub(crate) fn fitting<T: Drop>(number: Option<T>) -> Result<T, Halt> {
    number.ok_or(Halt::Spent)
}
