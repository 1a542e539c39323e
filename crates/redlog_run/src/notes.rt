ghost use Rattle.std.specs.Prelude.{◌≡◌, ◌≤◌, ◌<◌, ℕ, List, length, take, IfOk, OnOk, OnErr};
ghost use Rattle.program_meaning.specs.Streams.{Took, Rose};

use program_meaning::{Sink, WriteFailed};
use qe_io::{Refusal, Teller};
use reader_notes::add_note;
use std::cell::Cell;

/// Notes on refusals for standard error. They are held until the lines before them are written.
#[derive(Drop)]
pub struct Notes<'a, R> {
    rt: &'a R,
    held: Cell<String>,
}

impl<'a, R: Eprint + AllocGlobal> Notes<'a, R> {
    /// No notes yet. It takes no memory.
    pub fn new(rt: &'a R) -> Notes<'a, R> {
        Notes {
            rt,
            held: Cell::new(String::new(rt.alloc())),
        }
    }

    /// Prints the notes that are held. Those that standard error does not take are dropped.
    pub fn print(&self) {
        let held = self.held.replace(String::new(self.rt.alloc()));
        if !held.is_empty() {
            let _ = self.rt.eprint(held.as_str());
        }
    }
}

impl<R: Eprint + AllocGlobal> Teller for Notes<'_, R> {
    /// Holds a note on the refusal. Where memory does not suffice for it, there is none.
    fn tell(&self, refusal: &Refusal<'_>) {
        let alloc = self.rt.alloc();
        let mut held = self.held.replace(String::new(alloc));
        let _ = add_note(alloc, refusal, &mut held);
        self.held.set(held);
    }
}

/// A sink behind whose lines the notes on them are printed.
#[derive(Drop)]
pub struct NotedSink<'a, K, R> {
    inner: K,
    notes: &'a Notes<'a, R>,
}

impl<'a, K: Sink, R: Eprint + AllocGlobal> NotedSink<'a, K, R> {
    /// This sink, and these notes behind what it takes.
    pub fn new(inner: K, notes: &'a Notes<'a, R>) -> NotedSink<'a, K, R>
        ensures { result.inner ≡ inner }
    {
        NotedSink { inner, notes }
    }
}

impl<K: Sink, R: Eprint + AllocGlobal> Sink for NotedSink<'_, K, R> {
    ghost wrote = { λ s. K.wrote s.inner };

    ghost faults = { λ s. K.faults s.inner };

    fn write(&mut self, piece: &[u8]) -> Result<usize, WriteFailed> {
        let taken = self.inner.write(piece);
        self.notes.print();
        taken
    }
}
