ghost use Rattle.std.specs.Prelude.{◌≡◌, ℕ, ◌+◌, ◌-◌, ◌≤◌, ◌<◌, ◌==◌, ◌||◌, [], length, take, drop, min, IfOk, OnOk, OnErr, Some, is_err, vec_len};
ghost use Rattle.program_meaning.specs.Streams.{Gave, IsAtEnd, Took, Rose};
ghost use Rattle.qe_io.specs.Memory.{counted, is_failing};

use crate::copy::copy_front;
use program_meaning::{ReadFailed, Sink, Source, WriteFailed};
use std::alloc::Global;
use std::marker::Model;
use thiserror::Error;

/// A source over bytes in memory. It fails at exactly the calls that it is told to fail at.
#[derive(Drop)]
pub struct MemorySource {
    bytes: Vec<u8>,
    next: usize,
    piece: usize,
    failing: Vec<u64>,
    calls: u64,
    faults: u64,
}

impl Model for MemorySource {
    ghost use Rattle.std.specs.Prelude.{◌≤◌, drop, vec_len};
    ghost use Rattle.qe_io.specs.Memory.{MemoryBytes};

    ghost Value = { MemoryBytes };

    ghost view = { λ s. record { left = drop s.next s.bytes.items; piece = s.piece; failing = s.failing.items; calls = s.calls; faults = s.faults } };

    ghost invariant = { λ s. (s.next ≤ vec_len s.bytes) × (1 ≤ s.piece) };
}

impl MemorySource {
    /// A source of these bytes that gives at most `piece` of them in a call, and fails at exactly the calls,
    /// numbered from 0, whose number is in `failing`. It takes no memory.
    pub fn new(bytes: Vec<u8>, piece: usize, failing: Vec<u64>) -> MemorySource
        requires { 1 ≤ piece }
        ensures bytes { result.left ≡ bytes.items }
        ensures piece { result.piece ≡ piece }
        ensures failing { result.failing ≡ failing.items }
        ensures calls { result.calls ≡ 0 }
        ensures faults { result.faults ≡ 0 }
    {
        MemorySource {
            bytes,
            next: 0,
            piece,
            failing,
            calls: 0,
            faults: 0,
        }
    }
}

impl Source for MemorySource {
    ghost left = { λ s. Some s.left };

    ghost faults = { λ s. s.faults };

    fn read(&mut self, into: &mut [u8]) -> Result<usize, ReadFailed>
        requires { 0 < length into.old }
        ensures count { IfOk result (λ n. n ≤ length into.new) }
        ensures bytes { IfOk result (λ n. Gave (Some self.old.left) (Some self.new.left) (take n into.new)) }
        ensures end { IfOk result (λ n. n ≡ 0 → IsAtEnd (Some self.old.left)) }
        ensures no_fault { OnOk result (self.new.faults ≡ self.old.faults) }
        ensures fault { OnErr result (Rose self.old.faults self.new.faults) }
        ensures err { OnErr result (Some self.new.left ≡ Some self.old.left) }

        // It fails at exactly the calls that it was told to fail at, and else gives as many bytes as it may.
        ensures fails { is_err result ≡ is_failing self.old.failing self.old.calls }
        ensures gives { IfOk result (λ n. n ≡ min self.old.piece (min (length into.old) (length self.old.left))) }
        ensures calls { self.new.calls ≡ counted self.old.calls }
        ensures failed { OnErr result (self.new.faults ≡ counted self.old.faults) }
        ensures piece { self.new.piece ≡ self.old.piece }
        ensures failing { self.new.failing ≡ self.old.failing }
    {
        let fails = self.failing.contains(&self.calls);
        self.calls = self.calls.saturating_add(1);
        if fails {
            self.faults = self.faults.saturating_add(1);
            return Err(ReadFailed);
        }
        let count = self.piece.min(into.len()).min(self.bytes.len() - self.next);
        copy_front(&self.bytes[self.next..], into, count);
        self.next += count;
        Ok(count)
    }
}

/// Why a sink in memory was not made.
#[derive(Clone, Copy, Debug, PartialEq, Eq, Error)]
pub enum SinkError {
    #[error("out of memory")]
    Memory,
}

/// A sink in memory, with room for so many bytes. It fails at exactly the calls that it is told to fail at, and
/// where the room is full.
#[derive(Drop)]
pub struct MemorySink {
    bytes: Vec<u8>,
    room: usize,
    failing: Vec<u64>,
    calls: u64,
    faults: u64,
}

impl Model for MemorySink {
    ghost use Rattle.std.specs.Prelude.{◌≤◌, vec_len, vec_capacity};
    ghost use Rattle.qe_io.specs.Memory.{MemoryRoom};

    ghost Value = { MemoryRoom };

    ghost view = { λ s. record { wrote = s.bytes.items; room = s.room; failing = s.failing.items; calls = s.calls; faults = s.faults } };

    ghost invariant = { λ s. (vec_len s.bytes ≤ s.room) × (s.room ≤ vec_capacity s.bytes) };
}

impl MemorySink {
    /// A sink with room for so many bytes, for which it takes the memory. It fails at exactly the calls, numbered
    /// from 0, whose number is in `failing`, and where the room is full.
    pub fn new(alloc: Global, room: usize, failing: Vec<u64>) -> Result<MemorySink, SinkError>
        ensures wrote { IfOk result (λ s. s.wrote ≡ []) }
        ensures room { IfOk result (λ s. s.room ≡ room) }
        ensures failing { IfOk result (λ s. s.failing ≡ failing.items) }
        ensures calls { IfOk result (λ s. s.calls ≡ 0) }
        ensures faults { IfOk result (λ s. s.faults ≡ 0) }
    {
        let bytes = Vec::with_capacity(alloc, room).map_err(|_| SinkError::Memory)?;
        Ok(MemorySink {
            bytes,
            room,
            failing,
            calls: 0,
            faults: 0,
        })
    }

    /// The bytes taken so far. It takes no memory.
    pub fn written(&self) -> &[u8]
        ensures { result.now ≡ self.now.wrote }
    {
        &self.bytes
    }
}

impl Sink for MemorySink {
    ghost wrote = { λ s. Some s.wrote };

    ghost faults = { λ s. s.faults };

    fn write(&mut self, piece: &[u8]) -> Result<usize, WriteFailed>
        requires { 0 < length piece.now }
        ensures some { IfOk result (λ n. 1 ≤ n) }
        ensures count { IfOk result (λ n. n ≤ length piece.now) }
        ensures bytes { IfOk result (λ n. Took (Some self.old.wrote) (Some self.new.wrote) (take n piece.now)) }
        ensures no_fault { OnOk result (self.new.faults ≡ self.old.faults) }
        ensures fault { OnErr result (Rose self.old.faults self.new.faults) }
        ensures err { OnErr result (Some self.new.wrote ≡ Some self.old.wrote) }

        // It fails at exactly the calls that it was told to fail at and where the room is full, and else takes what fits.
        ensures fails { is_err result ≡ (is_failing self.old.failing self.old.calls || (length self.old.wrote == self.old.room)) }
        ensures takes { IfOk result (λ n. n ≡ min (length piece.now) (self.old.room - length self.old.wrote)) }
        ensures calls { self.new.calls ≡ counted self.old.calls }
        ensures failed { OnErr result (self.new.faults ≡ counted self.old.faults) }
        ensures room { self.new.room ≡ self.old.room }
        ensures failing { self.new.failing ≡ self.old.failing }
    {
        let fails = self.failing.contains(&self.calls) || self.bytes.len() == self.room;
        self.calls = self.calls.saturating_add(1);
        if fails {
            self.faults = self.faults.saturating_add(1);
            return Err(WriteFailed);
        }
        let count = piece.len().min(self.room - self.bytes.len());
        self.bytes.extend_from_slice(&piece[..count]).unwrap();
        Ok(count)
    }
}
