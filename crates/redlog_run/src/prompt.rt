use redlog_tokens::is_blank;
use std::io::{self, Read};

/// Where the script comes from: a stream, or a person at a terminal, who is prompted.
#[derive(Clone, Copy, Debug, PartialEq, Eq)]
pub enum Origin {
    Stream,
    Terminal,
}

/// What the bytes so far leave open: nothing, or a statement, which awaits its end mark; outside or inside a comment.
#[derive(Clone, Copy)]
struct Open {
    is_begun: bool,
    is_comment: bool,
}

/// A reader before each of whose reads a prompt is printed on standard error, where it is a terminal's: the number of the next statement, or a
/// shorter one where an end mark is awaited.
#[derive(Drop)]
pub struct Prompted<'a, R, I> {
    rt: &'a R,
    input: I,
    origin: Origin,
    number: u64,
    open: Open,
}

impl<'a, R: Eprint, I: Read> Prompted<'a, R, I> {
    /// A reader of which nothing was read. It takes no memory.
    pub fn new(rt: &'a R, input: I, origin: Origin) -> Prompted<'a, R, I> {
        Prompted {
            rt,
            input,
            origin,
            number: 1,
            open: Open {
                is_begun: false,
                is_comment: false,
            },
        }
    }

    /// Prints the prompt. One that standard error does not take is dropped.
    fn prompt(&self) {
        let number = self.number;
        let _ = if self.open.is_begun {
            eprint!(self.rt; "> ")
        } else {
            eprint!(self.rt; "{number}: ")
        };
    }

    /// Takes bytes that were read.
    fn take(&mut self, bytes: &[u8]) {
        for byte in bytes {
            self.take_byte(*byte);
        }
    }

    /// Takes a byte that was read.
    fn take_byte(&mut self, byte: u8) {
        if self.open.is_comment {
            self.open.is_comment = byte != b'\n';
            return;
        }
        match byte {
            b'%' => self.open.is_comment = true,
            b';' | b'$' => {
                self.open.is_begun = false;
                self.number = self.number.saturating_add(1);
            }
            _ if is_blank(byte) => (),
            _ => self.open.is_begun = true,
        }
    }
}

impl<R: Eprint, I: Read> Read for Prompted<'_, R, I> {
    fn read(&mut self, into: &mut [u8]) -> io::Result<usize> {
        if self.origin == Origin::Stream {
            return self.input.read(into);
        }
        self.prompt();
        let count = self.input.read(into)?;
        if count == 0 {
            let _ = eprintln!(self.rt; "");
        }
        self.take(&into[..count]);
        Ok(count)
    }
}
