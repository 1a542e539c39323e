//! Pieces shared out to threads.

ghost use Rattle.std.specs.Prelude.{◌≡◌};

use qe_parallel::{FanError, Gate, OpenGate, Worker, fan_out};
use std::alloc::{AllocError, Global};
use std::fmt::Write;
use std::sync::atomic::{AtomicBool, Ordering};
use std::thread::Threads;

/// How often a piece looks whether the other one has come.
const LOOKS: u32 = 100_000_000;

/// Answers each piece with its number, and stops at some.
#[derive(Drop)]
struct Numbers<'a> {
    count: usize,
    stops: &'a [usize],
}

impl Worker for Numbers<'_> {
    type Out = usize;

    type Stop = usize;

    ghost pieces = { λ w. w.count };

    ghost answers = { λ _ piece out. out ≡ piece };

    ghost stops = { λ _ piece stop. stop ≡ piece };

    fn answer(&self, piece: usize) -> Result<usize, usize> {
        if self.stops.contains(&piece) {
            return Err(piece);
        }
        Ok(piece)
    }
}

/// What so many pieces give, worked on by so many threads, where the worker stops at some of them.
pub(crate) fn told<R: Threads + Sync>(
    rt: &R,
    alloc: Global,
    pieces: usize,
    workers: usize,
    stops: &[usize],
) -> Option<String> {
    let worker = Numbers {
        count: pieces,
        stops,
    };
    match fan_out(rt, alloc, &worker, pieces, workers.max(1), &OpenGate::new()) {
        Ok(outs) => text_of(alloc, &outs).ok(),
        Err(FanError::Piece { piece, .. }) => format!(in alloc; "stops at {piece}").ok(),
        Err(FanError::Memory) => None,
    }
}

// The numbers, with blanks between them.
fn text_of(alloc: Global, outs: &[usize]) -> Result<String, AllocError> {
    let mut text = String::new(alloc);
    for (place, number) in outs.iter().enumerate() {
        if place > 0 {
            text.push(' ')?;
        }
        text.push_str(&format!(in alloc; "{number}")?)?;
    }
    Ok(text)
}

/// A gate at which the pieces 0 and 1 wait for each other, for a while.
#[derive(Drop)]
struct Meeting {
    first: AtomicBool,
    second: AtomicBool,
    missed: AtomicBool,
}

impl Gate for Meeting {
    fn pass(&self, piece: usize) {
        match piece {
            0 => self.meet(&self.first, &self.second),
            1 => self.meet(&self.second, &self.first),
            _ => {}
        }
    }

    fn shares(&self, _nodes: u64) -> bool {
        true
    }
}

impl Meeting {
    // Comes, and waits for the other.
    fn meet(&self, own: &AtomicBool, other: &AtomicBool) {
        own.store(true, Ordering::SeqCst);
        for _ in 0..LOOKS {
            if other.load(Ordering::SeqCst) {
                return;
            }
        }
        self.missed.store(true, Ordering::SeqCst);
    }
}

/// Whether two pieces are worked on at once by two threads.
pub(crate) fn at_once<R: Threads + Sync>(rt: &R, alloc: Global) -> Option<String> {
    let gate = Meeting {
        first: AtomicBool::new(false),
        second: AtomicBool::new(false),
        missed: AtomicBool::new(false),
    };
    let worker = Numbers {
        count: 2,
        stops: &[],
    };
    let met = match fan_out(rt, alloc, &worker, 2, 2, &gate) {
        Ok(_) => !gate.missed.load(Ordering::SeqCst),
        Err(_) => return None,
    };
    let text = if met {
        "they meet"
    } else {
        "they miss each other"
    };
    text.to_string(alloc).ok()
}
