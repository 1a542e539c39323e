ghost use Rattle.std.specs.Prelude.{◌≡◌, [], ◌∷◌, OnOk, OnErr};
ghost use Rattle.program_meaning.specs.Streams.{Took, Rose};
ghost use Rattle.program_meaning.specs.Ends.{TookFront};
ghost use Rattle.redlog_run.specs.Script.{Written, HoldsOrWrote, pace_of};

use crate::answer::Answers;
use program_meaning::{Sink, Status, WriteFailed};
use qe_io::write_all;

/// Writes the text of an answer. The status is Done, or Refused where some line of the answer is a refusal, or WriteFault.
pub fn write_answer<K: Sink>(sink: &mut K, text: &[u8], refused: bool) -> Status
    ensures { Written (K.wrote sink.old) (K.wrote sink.new) (K.faults sink.old) (K.faults sink.new) text.now refused result }
{
    match write_all(sink, text) {
        Ok(()) if refused => Status::Refused,
        Ok(()) => Status::Done,
        Err(_) => Status::WriteFault,
    }
}

/// Writes the lines, and holds none after. After an `Err` some bytes in front were written.
pub fn write_lines<K: Sink>(sink: &mut K, answers: &mut Answers) -> Result<(), WriteFailed>
    ensures wrote { OnOk result (Took (K.wrote sink.old) (K.wrote sink.new) answers.old.lines.items) }
    ensures quiet { OnOk result (answers.new.lines.items ≡ []) }
    ensures refused { answers.new.refused ≡ answers.old.refused }
    ensures no_fault { OnOk result (K.faults sink.new ≡ K.faults sink.old) }
    ensures fault { OnErr result (Rose (K.faults sink.old) (K.faults sink.new)) }
    ensures front { OnErr result (TookFront (K.wrote sink.old) (K.wrote sink.new) answers.old.lines.items) }
{
    write_all(sink, &answers.lines)?;
    answers.lines.clear();
    Ok(())
}

/// When the lines of the pieces that a read ends are written: each before the next piece is answered, or all together.
#[derive(Clone, Copy, Debug, PartialEq, Eq)]
pub enum Pace {
    Each,
    Together,
}

/// Lines are held back up to so many bytes.
const MOST_HELD: usize = 16_384;

/// The pace of the pieces that end in these bytes. Before a command, which begins with `rl` and may take long, no line is held back.
pub fn pace_of(bytes: &[u8]) -> Pace
    ensures { result ≡ pace_of bytes.now }
{
    match bytes.split_first() {
        Some((first, rest)) => pace_after(*first, rest),
        None => Pace::Together,
    }
}

/// The pace of these bytes behind another one.
fn pace_after(first: u8, bytes: &[u8]) -> Pace
    ensures { result ≡ pace_of (first ∷ bytes.now) }
{
    let mut before = first;
    'bytes: for byte in bytes {
        if before == b'r' && *byte == b'l' {
            return Pace::Each;
        }
        before = *byte;
    }
    Pace::Together
}

/// Writes the lines where they are due, and holds none after; else it holds them all. After an `Err` some bytes in front were written.
pub fn write_due<K: Sink>(
    sink: &mut K,
    answers: &mut Answers,
    pace: Pace,
) -> Result<(), WriteFailed>
    ensures wrote { OnOk result (HoldsOrWrote (K.wrote sink.old) (K.wrote sink.new) answers.old answers.new) }
    ensures refused { answers.new.refused ≡ answers.old.refused }
    ensures no_fault { OnOk result (K.faults sink.new ≡ K.faults sink.old) }
    ensures fault { OnErr result (Rose (K.faults sink.old) (K.faults sink.new)) }
    ensures front { OnErr result (TookFront (K.wrote sink.old) (K.wrote sink.new) answers.old.lines.items) }
{
    match pace {
        Pace::Together if answers.lines.len() < MOST_HELD => Ok(()),
        _ => write_lines(sink, answers),
    }
}
