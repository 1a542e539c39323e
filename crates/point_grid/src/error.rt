// Why there is no grid, or not all its truths.
use thiserror::Error;

/// Why there is no grid, or not all truths at its points.
#[derive(Clone, Copy, Debug, PartialEq, Eq, Drop, Error)]
pub enum GridError {
    /// A number passes 2^127 - 1.
    #[error("a number passes the limit")]
    Overflow,
    /// The grid has more than 1,000,000 points.
    #[error("the grid has too many points")]
    Points,
    /// There is no memory left.
    #[error("out of memory")]
    Memory,
}
