ghost use Rattle.std.specs.Prelude.{◌≤◌};
ghost use Rattle.program_meaning.specs.Ends.{ends};
ghost use Rattle.redlog_run.specs.Steps.{ClaimOfSmt};

use crate::stream::stream_status;
use crate::team::Team;
use program_meaning::{Sink, Source, Status};
use qe_io::Teller;
use qe_parallel::Gate;
use smtlib_front::{Limits, answer_smt};
use std::alloc::Global;
use std::thread::Threads;

/// Answers the script in SMT-LIB of the source: each command in turn, once the script is read whole.
pub fn answer_smt_source<R: Threads + Sync, S: Source, K: Sink, G: Gate + Sync, T: Teller>(
    team: &Team<'_, R, G, T>,
    alloc: Global,
    limits: Limits,
    source: &mut S,
    sink: &mut K,
) -> Status
    requires { 1 ≤ limits.workers }
    ensures { ClaimOfSmt limits.nodes
        (ends (S.left source.old) (S.faults source.old) (K.wrote sink.old) (K.faults sink.old))
        (ends (S.left source.new) (S.faults source.new) (K.wrote sink.new) (K.faults sink.new)) result }
{
    stream_status(answer_smt(team.rt, team.gate, team.teller, alloc, limits, source, sink))
}
