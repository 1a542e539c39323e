// What is passed before each piece, and says which work is shared out.
use std::sync::atomic::{AtomicBool, Ordering};

/// From how many nodes on, those of all points together, work is shared out.
const SHARED_FROM: u64 = 2_000;

/// Says which work is shared out to threads, and is passed just before a piece is worked on, by the thread that works on it.
/// Nothing is promised of which work that is, nor of when a piece is passed.
pub trait Gate {
    /// Passes before this piece.
    fn pass(&self, piece: usize);

    /// Whether work of so many nodes, those of all points together, is shared out.
    fn shares(&self, nodes: u64) -> bool;
}

/// Is passed at once. The first work about which it is asked is shared out, whatever its size; later work from the size on at
/// which threads pay.
#[derive(Debug, Drop)]
pub struct OpenGate {
    begun: AtomicBool,
}

impl OpenGate {
    /// The gate of a run, which was asked about no work yet.
    pub fn new() -> OpenGate {
        OpenGate {
            begun: AtomicBool::new(false),
        }
    }
}

impl Gate for OpenGate {
    fn pass(&self, _piece: usize) {}

    fn shares(&self, nodes: u64) -> bool {
        let is_first = !self.begun.swap(true, Ordering::SeqCst);
        is_first || SHARED_FROM <= nodes
    }
}
