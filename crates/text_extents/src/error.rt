use thiserror::Error;

/// Why the extent of a text is not told.
#[derive(Clone, Copy, Debug, PartialEq, Eq, Drop, Error)]
pub(crate) enum ExtentError {
    /// It has 2^64 bytes or more.
    #[error("the text is too long")]
    Long,
    /// There is no memory left.
    #[error("out of memory")]
    Memory,
}
