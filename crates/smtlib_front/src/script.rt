ghost use Rattle.std.specs.Prelude.{◌≡◌, ◌≤◌, IfErr, OnOk};
ghost use Rattle.program_meaning.specs.Ends.{ends};
ghost use Rattle.qe_io.specs.Stops.{AnswerCause};
ghost use Rattle.smtlib_front.specs.Stops.{SmtFaults, SmtOutcome};
ghost use Rattle.smtlib_front.specs.SmtAnswersSteps.{AnswersScript};

use crate::command::{Step, answer_command};
use crate::reading::read_whole;
use crate::smt::Smt;
use engine_answers::Limits;
use program_meaning::{Sink, Source};
use qe_io::{AnswerStop, Cause, Place, Places, Refusal, StreamStop, Teller};
use qe_parallel::Gate;
use smt_tokens::smt_cuts;
use std::alloc::Global;
use std::thread::Threads;

/// Answers the script in SMT-LIB that the source gives to its end, and says whether some line is a refusal. An elimination is worked on by
/// as many threads of the runtime as the limits say; each passes the gate before a piece. The teller is told of each refusal, behind its line.
pub fn answer_smt<R: Threads + Sync, G: Gate + Sync, T: Teller, S: Source, K: Sink>(
    rt: &R,
    gate: &G,
    teller: &T,
    alloc: Global,
    limits: Limits,
    source: &mut S,
    sink: &mut K,
) -> Result<bool, StreamStop>
    requires { 1 ≤ limits.workers }
    ensures outcome { SmtOutcome limits.nodes
        (ends (S.left source.old) (S.faults source.old) (K.wrote sink.old) (K.faults sink.old))
        (ends (S.left source.new) (S.faults source.new) (K.wrote sink.new) (K.faults sink.new)) result }
    ensures faults { SmtFaults
        (ends (S.left source.old) (S.faults source.old) (K.wrote sink.old) (K.faults sink.old))
        (ends (S.left source.new) (S.faults source.new) (K.wrote sink.new) (K.faults sink.new)) result }
{
    let script = read_whole(alloc, source)?;
    let refused = answer_script(rt, gate, teller, alloc, limits, &script, sink)?;
    Ok(refused)
}

/// Answers the commands of a script in turn, each in the state that the one before left, until one of them ends it.
fn answer_script<R: Threads + Sync, G: Gate + Sync, T: Teller, K: Sink>(
    rt: &R,
    gate: &G,
    teller: &T,
    alloc: Global,
    limits: Limits,
    script: &[u8],
    sink: &mut K,
) -> Result<bool, AnswerStop>
    requires { 1 ≤ limits.workers }
    ensures answers { AnswersScript limits.nodes script.now (K.wrote sink.old) (K.wrote sink.new) result }
    ensures no_fault { OnOk result (K.faults sink.new ≡ K.faults sink.old) }
    ensures stop { IfErr result (AnswerCause (K.faults sink.old) (K.faults sink.new)) }
{
    let cuts = smt_cuts(alloc, script)?;
    let mut smt = Smt::new(alloc, limits);
    let mut refused = false;
    let mut places = Places::from(Place::FIRST);
    'cuts: for cut in &cuts {
        let command = &script[cut.start..cut.end];
        match answer_command(rt, gate, alloc, &mut smt, command, cut.start, sink)? {
            Step::Accepted => (),
            Step::Refused(error) => {
                refused = true;
                teller.tell(&Refusal {
                    bytes: Some(command),
                    place: places.reach(script, cut.start),
                    cause: Cause::Command(error),
                });
            }
            Step::Last => return Ok(refused),
        }
    }
    Ok(refused)
}
