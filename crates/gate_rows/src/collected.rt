//! The notes on refusals, kept as text.

use qe_io::{Refusal, Teller};
use reader_notes::add_note;
use std::alloc::Global;
use std::cell::Cell;

/// Keeps the notes on the refusals that it is told.
#[derive(Drop)]
pub(crate) struct Collected {
    alloc: Global,
    text: Cell<String>,
}

impl Collected {
    /// No notes.
    pub(crate) fn new(alloc: Global) -> Collected {
        Collected {
            alloc,
            text: Cell::new(String::new(alloc)),
        }
    }

    /// The notes, of which none is kept then.
    pub(crate) fn text(&self) -> String {
        self.text.replace(String::new(self.alloc))
    }
}

impl Teller for Collected {
    fn tell(&self, refusal: &Refusal<'_>) {
        let mut text = self.text();
        let _ = add_note(self.alloc, refusal, &mut text);
        self.text.set(text);
    }
}
