ghost use Rattle.std.specs.Prelude.{◌≡◌, ℕ, ◌+◌, ◌<◌, ◌≤◌, ◌^◌, List, [], false, length, Option, IfOk, IfErr, OnOk};
ghost use Rattle.program_meaning.specs.Ends.{ends};
ghost use Rattle.qe_io.specs.Stops.{AnswerCause};
ghost use Rattle.redlog_run.specs.Script.{IsWritten, AnswersBytes, AnswersLast, stream_status};
ghost use Rattle.redlog_run.specs.Steps.{ClaimOfSource};

use crate::answer::{Answering, answer_last, answer_next, begin};
use crate::team::Team;
use crate::write::{pace_of, write_due, write_lines};
use program_meaning::{Sink, Source, Status};
use qe_io::{AnswerStop, StreamStop, Teller, write_all};
use qe_parallel::Gate;
use smtlib_front::Limits;
use std::alloc::Global;
use std::thread::Threads;

/// A script is at most so long, in bytes.
const SCRIPT_LIMIT: usize = 1_099_511_627_776;

/// At most so many bytes are read at once.
const READ_SIZE: usize = 16_384;

/// Answers the script of the source: each piece as soon as it is read.
pub fn answer_source<R: Threads + Sync, S: Source, K: Sink, G: Gate + Sync, T: Teller>(
    team: &Team<'_, R, G, T>,
    alloc: Global,
    limits: Limits,
    source: &mut S,
    sink: &mut K,
) -> Status
    requires { 1 ≤ limits.workers }
    ensures { ClaimOfSource limits.nodes
        (ends (S.left source.old) (S.faults source.old) (K.wrote sink.old) (K.faults sink.old))
        (ends (S.left source.new) (S.faults source.new) (K.wrote sink.new) (K.faults sink.new)) result }
{
    stream_status(answer_reads(team, alloc, limits, source, sink))
}

/// Answers what one read after another gives, to the end of the source or of the script, and says whether some line is a refusal.
fn answer_reads<R: Threads + Sync, S: Source, K: Sink, G: Gate + Sync, T: Teller>(
    team: &Team<'_, R, G, T>,
    alloc: Global,
    limits: Limits,
    source: &mut S,
    sink: &mut K,
) -> Result<bool, StreamStop>
    requires { 1 ≤ limits.workers }
    ensures { ClaimOfSource limits.nodes
        (ends (S.left source.old) (S.faults source.old) (K.wrote sink.old) (K.faults sink.old))
        (ends (S.left source.new) (S.faults source.new) (K.wrote sink.new) (K.faults sink.new)) (stream_status result) }
{
    let mut answering = begin(alloc, limits);
    let mut buffer = [0u8; READ_SIZE];
    let mut left = SCRIPT_LIMIT;
    for _turn in 0..SCRIPT_LIMIT + 1 {
        let Ok(count) = source.read(&mut buffer) else {
            return Err(StreamStop::Read);
        };
        if count == 0 {
            let refused = answer_end(team, sink, answering)?;
            return Ok(refused);
        }
        let given = &buffer[..count];
        let few = count.min(left);
        if answer_bytes(team, sink, &mut answering, &given[..few])? {
            return Ok(answering.answers.refused);
        }
        if few < count {
            return Err(StreamStop::Long);
        }
        left -= few;
    }
    unreachable!()
}

/// Answers the pieces that end in these bytes and writes their lines, and says whether a statement ended the script.
fn answer_bytes<R: Threads + Sync, K: Sink, G: Gate + Sync, T: Teller>(
    team: &Team<'_, R, G, T>,
    sink: &mut K,
    answering: &mut Answering,
    bytes: &[u8],
) -> Result<bool, AnswerStop>
    requires none { answering.old.splitter.whole ≡ false }
    requires few { answering.old.splitter.fed + length bytes.now < 2 ^ 64 }
    requires quiet { answering.old.answers.lines.items ≡ [] }
    ensures answers { (limit : ℕ) (before : List ℕ) (first : Option (List ℕ)) → IsWritten limit before first (K.wrote sink.old) answering.old
        → AnswersBytes limit before bytes.now first (K.wrote sink.new) answering.new result }
    ensures none { OnOk result (answering.new.splitter.whole ≡ false) }
    ensures count { IfOk result (λ ended. ended ≡ false → answering.new.splitter.fed ≡ answering.old.splitter.fed + length bytes.now) }
    ensures quiet { OnOk result (answering.new.answers.lines.items ≡ []) }
    ensures no_fault { OnOk result (K.faults sink.new ≡ K.faults sink.old) }
    ensures stop { IfErr result (AnswerCause (K.faults sink.old) (K.faults sink.new)) }
{
    let pace = pace_of(bytes);
    let mut taken = 0;
    while taken < bytes.len() {
        let step = answer_next(team, answering, &bytes[..taken], &bytes[taken..])?;
        if step.ends {
            write_lines(sink, &mut answering.answers)?;
            return Ok(true);
        }
        write_due(sink, &mut answering.answers, pace)?;
        taken += step.taken;
    }
    write_lines(sink, &mut answering.answers)?;
    Ok(false)
}

/// Answers the last piece, and writes its line.
fn answer_end<R: Threads + Sync, K: Sink, G: Gate + Sync, T: Teller>(
    team: &Team<'_, R, G, T>,
    sink: &mut K,
    answering: Answering,
) -> Result<bool, AnswerStop>
    requires none { answering.splitter.whole ≡ false }
    requires quiet { answering.answers.lines.items ≡ [] }
    ensures answers { (limit : ℕ) (script : List ℕ) (first : Option (List ℕ)) → IsWritten limit script first (K.wrote sink.old) answering
        → AnswersLast limit script first (K.wrote sink.new) result }
    ensures no_fault { OnOk result (K.faults sink.new ≡ K.faults sink.old) }
    ensures stop { IfErr result (AnswerCause (K.faults sink.old) (K.faults sink.new)) }
{
    let answers = answer_last(team, answering)?;
    write_all(sink, &answers.lines)?;
    Ok(answers.refused)
}

/// The status with which a script of the source ends.
pub fn stream_status(end: Result<bool, StreamStop>) -> Status
    ensures { result ≡ stream_status end }
{
    match end {
        Ok(false) => Status::Done,
        Ok(true) => Status::Refused,
        Err(StreamStop::Read) => Status::ReadFault,
        Err(StreamStop::Long) => Status::ScriptLong,
        Err(StreamStop::Answer(AnswerStop::Write)) => Status::WriteFault,
        Err(StreamStop::Answer(AnswerStop::Memory)) => Status::Memory,
    }
}
