use thiserror::Error;

/// Why a text was not made.
#[derive(Clone, Copy, Debug, PartialEq, Eq, Drop, Error)]
pub enum PrintError {
    /// The text is longer than 32 MiB.
    #[error("the text is too long")]
    Text,
    /// There is no memory left.
    #[error("out of memory")]
    Memory,
}
