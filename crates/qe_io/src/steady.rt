ghost use Rattle.std.specs.Prelude.{◌≡◌, ◌≤◌, ◌<◌, Some, None, Ok, length, take, min, IfOk};
ghost use Rattle.program_meaning.specs.Streams.{Gave, IsAtEnd};

use crate::copy::copy_front;
use program_meaning::{ReadFailed, Sink, Source, WriteFailed};
use std::marker::Model;

/// A source over bytes in memory that never fails.
#[derive(Drop)]
pub struct SteadySource {
    bytes: Vec<u8>,
    next: usize,
}

impl Model for SteadySource {
    ghost use Rattle.std.specs.Prelude.{List, ℕ, ◌≤◌, drop, vec_len};

    ghost Value = { List ℕ };

    ghost view = { λ s. drop s.next s.bytes.items };

    ghost invariant = { λ s. s.next ≤ vec_len s.bytes };
}

impl SteadySource {
    /// A source of these bytes. It takes no memory.
    pub fn new(bytes: Vec<u8>) -> SteadySource
        ensures { result ≡ bytes.items }
    {
        SteadySource { bytes, next: 0 }
    }
}

impl Source for SteadySource {
    ghost left = { λ s. Some s };

    ghost faults = { λ _. 0 };

    fn read(&mut self, into: &mut [u8]) -> Result<usize, ReadFailed>
        requires { 0 < length into.old }
        ensures count { IfOk result (λ n. n ≤ length into.new) }
        ensures bytes { IfOk result (λ n. Gave (Some self.old) (Some self.new) (take n into.new)) }
        ensures end { IfOk result (λ n. n ≡ 0 → IsAtEnd (Some self.old)) }

        // It gives as many bytes as it may, and never fails.
        ensures gives { result ≡ Ok (min (length into.old) (length self.old)) }
    {
        let count = into.len().min(self.bytes.len() - self.next);
        copy_front(&self.bytes[self.next..], into, count);
        self.next += count;
        Ok(count)
    }
}

/// A sink that takes all bytes, keeps none and never fails.
#[derive(Drop)]
pub struct SteadySink;

impl SteadySink {
    /// The sink. It takes no memory.
    pub fn new() -> SteadySink {
        SteadySink
    }
}

impl Sink for SteadySink {
    ghost wrote = { λ _. None };

    ghost faults = { λ _. 0 };

    fn write(&mut self, piece: &[u8]) -> Result<usize, WriteFailed>
        requires { 0 < length piece.now }
        ensures takes { result ≡ Ok (length piece.now) }
    {
        Ok(piece.len())
    }
}
