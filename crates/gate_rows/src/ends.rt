//! Both ends of a run: a source of a script that gives so many bytes in a read, and a sink with so much room, of which some calls fail.

use crate::collected::Collected;
use qe_io::{MemorySink, MemorySource};
use qe_parallel::OpenGate;
use redlog_run::{Team, run_told};
use std::alloc::{AllocError, Global};
use std::thread::Threads;

/// How the script comes and its lines go.
#[derive(Drop)]
pub(crate) struct Ends {
    /// The bytes that the source gives in one read, at least one.
    pub(crate) piece: usize,
    /// The numbers of the reads that fail.
    pub(crate) reads: Vec<u64>,
    /// The numbers of the writes that fail.
    pub(crate) writes: Vec<u64>,
    /// The bytes that the sink takes.
    pub(crate) room: usize,
}

/// What a script is answered with.
#[derive(Drop)]
pub(crate) struct Answer {
    pub(crate) lines: Vec<u8>,
    pub(crate) status: u8,
    /// The notes on its refusals.
    pub(crate) notes: String,
}

impl Ends {
    /// 4,096 bytes in a read, room for 1 MiB, and no call that fails.
    pub(crate) fn new(alloc: Global) -> Ends {
        Ends {
            piece: 4096,
            reads: Vec::new(alloc),
            writes: Vec::new(alloc),
            room: 1_048_576,
        }
    }

    /// So many bytes in a read, and the rest as here.
    pub(crate) fn in_pieces(&self, piece: usize) -> Result<Ends, AllocError> {
        Ok(Ends {
            piece,
            reads: self.reads.clone()?,
            writes: self.writes.clone()?,
            room: self.room,
        })
    }

    /// The read of this number fails, and the rest as here.
    pub(crate) fn failing_at(&self, read: u64) -> Result<Ends, AllocError> {
        let mut ends = self.in_pieces(self.piece)?;
        ends.reads.push(read)?;
        Ok(ends)
    }

    /// What the script is answered with between these ends, under the words.
    pub(crate) fn answer<R: Threads + Sync + AllocGlobal>(
        &self,
        rt: &R,
        words: &[String],
        script: &[u8],
    ) -> Result<Answer, AllocError> {
        let alloc = rt.alloc();
        let bytes = script.to_vec(alloc)?;
        let mut source = MemorySource::new(bytes, self.piece.max(1), self.reads.clone()?);
        let Ok(mut sink) = MemorySink::new(alloc, self.room, self.writes.clone()?) else {
            return Err(AllocError);
        };
        let notes = Collected::new(alloc);
        let team = Team {
            rt,
            gate: &OpenGate::new(),
            teller: &notes,
        };
        let status = run_told(&team, alloc, words, &mut source, &mut sink);
        Ok(Answer {
            lines: sink.written().to_vec(alloc)?,
            status: status.number(),
            notes: notes.text(),
        })
    }
}

impl Answer {
    /// Whether both are the same.
    pub(crate) fn is_same(&self, other: &Answer) -> bool {
        self.status == other.status
            && self.lines.as_slice() == other.lines.as_slice()
            && self.notes.as_str() == other.notes.as_str()
    }
}
