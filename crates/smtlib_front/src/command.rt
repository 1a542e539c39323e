ghost use Rattle.std.specs.Prelude.{◌≡◌, ◌≢◌, IfOk, IfErr, OnOk};
ghost use Rattle.qe_io.specs.Stops.{AnswerCause};
ghost use Rattle.program_meaning.specs.SmtRun.{line_of};
ghost use Rattle.program_meaning.specs.SmtState.{State};
ghost use Rattle.program_meaning.specs.Texts.{refusal_text};
ghost use Rattle.program_meaning.specs.SmtWords.{word_of};
ghost use Rattle.smtlib_front.specs.Represents.{Represents};
ghost use Rattle.smtlib_front.specs.SmtAnswersSteps.{AnswersSo};

use crate::smt::Smt;
use program_meaning::{Sink, SmtError, SmtReply};
use qe_io::{AnswerStop, write_all};
use qe_parallel::Gate;
use std::alloc::{AllocError, Global};
use std::thread::Threads;

/// What becomes of a command.
#[derive(Clone, Copy, Debug, PartialEq, Eq)]
pub enum Step {
    /// It is answered.
    Accepted,
    /// It is refused, for this cause.
    Refused(SmtError),
    /// It ends the script.
    Last,
}

/// Answers the command at this offset, and writes its line, if it has one.
pub fn answer_command<R: Threads + Sync, G: Gate + Sync, K: Sink>(
    rt: &R,
    gate: &G,
    alloc: Global,
    smt: &mut Smt,
    command: &[u8],
    offset: usize,
    sink: &mut K,
) -> Result<Step, AnswerStop>
    requires state { (s : State) × Represents smt.old s }
    ensures answers { (s : State) → Represents smt.old s → AnswersSo s smt.old.limits.nodes command.now offset (K.wrote sink.old) (K.wrote sink.new) smt.new result }
    ensures limits { smt.new.limits ≡ smt.old.limits }
    ensures no_fault { OnOk result (K.faults sink.new ≡ K.faults sink.old) }
    ensures stop { IfErr result (AnswerCause (K.faults sink.old) (K.faults sink.new)) }
{
    match smt.command(rt, command, gate) {
        Ok(SmtReply::Finished) => Ok(Step::Last),
        Ok(SmtReply::Nothing) => Ok(Step::Accepted),
        Ok(SmtReply::Printed(text)) => {
            write_all(sink, &line_of(text)?)?;
            Ok(Step::Accepted)
        }
        Err(error) => {
            write_all(sink, &refusal_line(alloc, error, offset)?)?;
            Ok(Step::Refused(error))
        }
    }
}

/// The line of this text, with its newline.
fn line_of(text: Vec<u8>) -> Result<Vec<u8>, AllocError>
    ensures { IfOk result (λ line. line.items ≡ line_of text.items) }
{
    let mut line = text;
    line.push(b'\n')?;
    Ok(line)
}

/// The line of a refusal of the command at this offset, with its newline. Want of memory is no refusal.
fn refusal_line(alloc: Global, error: SmtError, offset: usize) -> Result<Vec<u8>, AllocError>
    ensures cause { OnOk result (error ≢ SmtError.Memory) }
    ensures line { IfOk result (λ line. line.items ≡ line_of (refusal_text (word_of error) offset)) }
{
    if error == SmtError::Memory {
        return Err(AllocError);
    }
    let word = error.word();
    let line = format!(in alloc; "(error \"{word} at {offset}\")\n")?;
    Ok(line.into_bytes())
}
