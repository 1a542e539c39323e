ghost use Rattle.std.specs.Prelude.{◌≡◌, ℕ, ◌+◌, ◌<◌, ◌≤◌, ◌^◌, Bool, true, false, List, [], ◌++◌, length, take, OnOk, OnErr, IfOk, IfSome, IfNone};
ghost use Rattle.redlog_tokens.specs.Pieces.{IsKept, HasBytes, Follows, CutsOff, IsLast};
ghost use Rattle.language_meaning.specs.OpenPiece.{IsOpen};
ghost use Rattle.language_meaning.specs.Pieces.{HasNoTokenFrom};

use crate::span::{Passed, front_of};
use std::alloc::{AllocError, Global};
use std::marker::Model;
use std::mem;

/// A piece of at most so many bytes is held.
pub const PIECE_LIMIT: u64 = 4_194_304;

/// A piece of a script, from its first token through its end mark: the offset of that token, and the bytes where they are within the limit.
#[derive(Drop)]
pub struct Cut {
    pub offset: u64,
    pub bytes: Option<Vec<u8>>,
}

/// Cuts a script into its pieces while its bytes come. It holds the bytes of one piece, from its first token on, and none of a piece past the limit.
#[derive(Drop)]
pub struct Splitter {
    alloc: Global,
    bytes: Vec<u8>,
    fed: u64,
    start: u64,
    comment: bool,
    whole: bool,
}

impl Model for Splitter {
    ghost use Rattle.std.specs.Prelude.{◌≤◌};
    ghost use Rattle.redlog_tokens.specs.Pieces.{Held};

    ghost Value = { Held };

    ghost view = { λ s. record { bytes = s.bytes.items; fed = s.fed; start = s.start; comment = s.comment; whole = s.whole } };

    ghost invariant = { λ s. s.start ≤ s.fed };
}

impl Splitter {
    /// A splitter that was fed nothing. It takes no memory.
    pub fn new(alloc: Global) -> Splitter
        ensures none { result.whole ≡ false }
        ensures fed { result.fed ≡ 0 }
        ensures follows { Follows [] 0 result }
    {
        Splitter {
            alloc,
            bytes: Vec::new(alloc),
            fed: 0,
            start: 0,
            comment: false,
            whole: false,
        }
    }

    /// Takes the bytes through the first end mark, or all of them where there is none, and gives their number. After an `Err`, which is
    /// for want of memory, it has taken nothing.
    pub fn feed(&mut self, bytes: &[u8]) -> Result<usize, AllocError>
        requires none { self.old.whole ≡ false }
        requires few { self.old.fed + length bytes.now < 2 ^ 64 }
        ensures follows { IfOk result (λ n. (fed : List ℕ) (from : ℕ) → Follows fed from self.old → Follows (fed ++ take n bytes.now) from self.new) }
        ensures all { IfOk result (λ n. self.new.whole ≡ false → n ≡ length bytes.now) }
        ensures some { IfOk result (λ n. 0 < length bytes.now → 0 < n) }
        ensures within { IfOk result (λ n. n ≤ length bytes.now) }
        ensures count { IfOk result (λ n. self.new.fed ≡ self.old.fed + n) }
        ensures err { OnErr result (self.new ≡ self.old) }
    {
        let inside = front_of(Passed::Inside, self.comment, bytes);
        let whole = inside.length < bytes.len();
        let taken = if whole {
            inside.length + 1
        } else {
            inside.length
        };
        let blanks = if self.start < self.fed {
            0
        } else {
            front_of(Passed::Between, self.comment, &bytes[..taken]).length
        };
        keep(
            &mut self.bytes,
            self.fed - self.start,
            &bytes[blanks..taken],
        )?;
        self.start += blanks as u64;
        self.fed += taken as u64;
        self.comment = inside.comment;
        self.whole = whole;
        Ok(taken)
    }

    /// Hands out the piece that an end mark has ended. None where no mark has come since the last one. It takes no memory.
    pub fn next(&mut self) -> Option<Cut>
        ensures cut { IfSome result (λ cut. (fed : List ℕ) (from : ℕ) → Follows fed from self.old → CutsOff fed from cut × Follows fed (length fed) self.new) }
        ensures taken { self.new.whole ≡ false }
        ensures fed { self.new.fed ≡ self.old.fed }
        ensures none { IfNone result ((self.old.whole ≡ false) × (self.new ≡ self.old) × ((fed : List ℕ) (from : ℕ) → Follows fed from self.old → IsOpen fed from)) }
    {
        if !self.whole {
            return None;
        }
        let offset = self.start;
        let bytes = mem::replace(&mut self.bytes, Vec::new(self.alloc));
        let bytes = within_limit(bytes, self.fed - self.start);
        self.start = self.fed;
        self.whole = false;
        Some(Cut { offset, bytes })
    }

    /// Hands out the last piece, which no end mark ends. None where no token stands after the piece before. It takes no memory.
    pub fn finish(self) -> Option<Cut>
        requires none { self.whole ≡ false }
        ensures last { IfSome result (λ cut. (fed : List ℕ) (from : ℕ) → Follows fed from self → IsLast fed from cut) }
        ensures none { IfNone result ((fed : List ℕ) (from : ℕ) → Follows fed from self → HasNoTokenFrom fed from) }
    {
        if self.start == self.fed {
            return None;
        }
        let offset = self.start;
        let bytes = within_limit(self.bytes, self.fed - self.start);
        Some(Cut { offset, bytes })
    }

    /// Takes the buffer of a cut back, so that the next piece needs none of its own. It takes no memory.
    pub fn reuse(&mut self, cut: Cut)
        ensures { self.new ≡ self.old }
    {
        let Some(mut buffer) = cut.bytes else { return };
        if self.bytes.is_empty() {
            buffer.clear();
            self.bytes = buffer;
        }
    }
}

/// Keeps more bytes of a piece that has so many, or none where it passes the limit. After an `Err` the bytes are as before.
fn keep(bytes: &mut Vec<u8>, count: u64, more: &[u8]) -> Result<(), AllocError>
    requires { count + length more.now < 2 ^ 64 }
    ensures kept { OnOk result ((piece : List ℕ) → length piece ≡ count → IsKept piece bytes.old.items → IsKept (piece ++ more.now) bytes.new.items) }
    ensures err { OnErr result (bytes.new.items ≡ bytes.old.items) }
{
    if count + more.len() as u64 > PIECE_LIMIT {
        bytes.clear();
        return Ok(());
    }
    bytes.extend_from_slice(more)
}

/// What is held of a piece of so many bytes, where it is within the limit.
fn within_limit(bytes: Vec<u8>, count: u64) -> Option<Vec<u8>>
    ensures { (piece : List ℕ) → length piece ≡ count → IsKept piece bytes.items → HasBytes piece result }
{
    if count > PIECE_LIMIT {
        None
    } else {
        Some(bytes)
    }
}
