//! Whether a statement is worked on by two threads at once.

use program_meaning::Status;
use qe_io::{MemorySink, MemorySource};
use qe_parallel::{Gate, OpenGate};
use redlog_run::run_gated;
use std::alloc::AllocError;
use std::sync::atomic::{AtomicBool, Ordering};
use std::thread::Threads;

/// An elimination with two test points, which are wanted in its cases.
pub(crate) const ELIMINATION: &[u8] = b"rlqea ex(x,x>a and x<b);";

/// A grid of 2,000 points, in two pieces.
pub(crate) const GRID: &[u8] = b"rlgrid(x>0,{x,1,2000,1});";

/// So many bytes a read gives, and the sink takes: more than a line of the grid.
const ROOM: usize = 4096;

/// Asks for two threads.
const WORD: &str = "--workers=2";

/// How often a piece looks whether the other one has come.
const LOOKS: u32 = 100_000_000;

/// A gate at which the pieces 0 and 1 wait for each other, for a while. It shares out what that of a run does.
#[derive(Drop)]
struct Meeting {
    open: OpenGate,
    first: AtomicBool,
    second: AtomicBool,
    missed: AtomicBool,
}

impl Gate for Meeting {
    fn pass(&self, piece: usize) {
        match piece {
            0 => self.meet(&self.first, &self.second),
            1 => self.meet(&self.second, &self.first),
            _ => {}
        }
    }

    fn shares(&self, nodes: u64) -> bool {
        self.open.shares(nodes)
    }
}

impl Meeting {
    /// Comes, and waits for the other.
    fn meet(&self, own: &AtomicBool, other: &AtomicBool) {
        own.store(true, Ordering::SeqCst);
        for _ in 0..LOOKS {
            if other.load(Ordering::SeqCst) {
                return;
            }
        }
        self.missed.store(true, Ordering::SeqCst);
    }

    /// Whether both came, and neither waited in vain.
    fn is_held(&self) -> bool {
        let missed = self.missed.load(Ordering::SeqCst);
        self.first.load(Ordering::SeqCst) && self.second.load(Ordering::SeqCst) && !missed
    }
}

/// Whether two pieces of the script are worked on at once by two threads.
pub(crate) fn at_once<R: Threads + Sync + AllocGlobal>(
    rt: &R,
    script: &[u8],
) -> Result<bool, AllocError> {
    let alloc = rt.alloc();
    let gate = Meeting {
        open: OpenGate::new(),
        first: AtomicBool::new(false),
        second: AtomicBool::new(false),
        missed: AtomicBool::new(false),
    };
    let mut words = Vec::new(alloc);
    words.push(WORD.to_string(alloc)?)?;
    let bytes = script.to_vec(alloc)?;
    let mut source = MemorySource::new(bytes, ROOM, Vec::new(alloc));
    let Ok(mut sink) = MemorySink::new(alloc, ROOM, Vec::new(alloc)) else {
        return Err(AllocError);
    };
    let status = run_gated(rt, alloc, &words, &mut source, &mut sink, &gate);
    Ok(status == Status::Done && gate.is_held())
}
