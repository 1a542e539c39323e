ghost use Rattle.std.specs.Prelude.{ℕ, ◌≡◌, ◌≤◌, ◌<◌, List, Option, length, take, IfOk, OnOk, OnErr};
ghost use Rattle.program_meaning.specs.Streams.{Gave, IsAtEnd, Took, Rose};

use thiserror::Error;

/// A read failed.
#[derive(Clone, Copy, Debug, PartialEq, Eq, Error)]
#[error("the read failed")]
pub struct ReadFailed;

/// A write failed.
#[derive(Clone, Copy, Debug, PartialEq, Eq, Error)]
#[error("the write failed")]
pub struct WriteFailed;

/// Where bytes come from.
pub trait Source {
    /// The bytes still to come, where the source tells them.
    ghost left: { Self → Option (List ℕ) };

    /// How many reads have failed. It never falls.
    ghost faults: { Self → ℕ };

    /// Reads the next bytes into the front of the slice, and gives their number, which is 0 exactly at the end.
    /// After an `Err` the bytes still to come are the same, and the slice may hold anything.
    fn read(&mut self, into: &mut [u8]) -> Result<usize, ReadFailed>
        requires { 0 < length into.old }
        ensures count { IfOk result (λ n. n ≤ length into.new) }
        ensures bytes { IfOk result (λ n. Gave (left self.old) (left self.new) (take n into.new)) }
        ensures end { IfOk result (λ n. n ≡ 0 → IsAtEnd (left self.old)) }
        ensures no_fault { OnOk result (faults self.new ≡ faults self.old) }
        ensures fault { OnErr result (Rose (faults self.old) (faults self.new)) }
        ensures err { OnErr result (left self.new ≡ left self.old) };
}

/// Where bytes go.
pub trait Sink {
    /// The bytes taken so far, where the sink tells them.
    ghost wrote: { Self → Option (List ℕ) };

    /// How many writes have failed. It never falls.
    ghost faults: { Self → ℕ };

    /// Takes bytes from the front of the piece, one at least, and gives their number. An `Err` takes none.
    fn write(&mut self, piece: &[u8]) -> Result<usize, WriteFailed>
        requires { 0 < length piece.now }
        ensures some { IfOk result (λ n. 1 ≤ n) }
        ensures count { IfOk result (λ n. n ≤ length piece.now) }
        ensures bytes { IfOk result (λ n. Took (wrote self.old) (wrote self.new) (take n piece.now)) }
        ensures no_fault { OnOk result (faults self.new ≡ faults self.old) }
        ensures fault { OnErr result (Rose (faults self.old) (faults self.new)) }
        ensures err { OnErr result (wrote self.new ≡ wrote self.old) };
}
