// Why not all pieces have an answer.
use thiserror::Error;

/// Why not all pieces have an answer.
#[derive(Clone, Copy, Debug, PartialEq, Eq, Drop, Error)]
pub enum FanError<S> {
    /// The worker stopped at this piece, and at none before it.
    #[error("the worker stopped at a piece")]
    Piece { piece: usize, stop: S },
    /// There is no memory left.
    #[error("out of memory")]
    Memory,
}
