ghost use Rattle.std.specs.Prelude.{◌≡◌, ◌≤◌, IfOk};
ghost use Rattle.program_meaning.specs.OptionIds.{AreInRange};
ghost use Rattle.program_meaning.specs.Claim.{Claim};
ghost use Rattle.redlog_run.specs.ClaimUnder.{ClaimUnder};
ghost use Rattle.program_meaning.specs.Ends.{ends};
ghost use Rattle.program_meaning.specs.Outcome.{node_limit};
ghost use Rattle.redlog_run.specs.Workers.{worker_limit};
ghost use Rattle.redlog_run.specs.Steps.{ClaimOfGenerated, IsTally};

use crate::answer::answer_script;
use crate::count::tally;
use crate::reading::options_of;
use crate::script::generated;
use crate::smt::answer_smt_source;
use crate::stream::answer_source;
use crate::team::Team;
use crate::words::are_valid;
use crate::write::write_answer;
use program_meaning::{Language, Options, Sink, Source, Status};
use qe_io::{Nobody, Teller};
use qe_parallel::Gate;
use smtlib_front::Limits;
use std::alloc::{AllocError, Global};
use std::thread::Threads;

/// The limit of nodes where none is given.
const NODES: u64 = 1_000_000;

/// How many threads work on an elimination where no number is given.
const WORKERS: usize = 4;

/// From how many nodes on, those of all points together, the points of an elimination are shared out.
const SHARED_FROM: u64 = 1_000_000;

/// The gate of a run: it is passed at once, and shares out what is large enough to pay for threads.
#[derive(Clone, Copy, Debug)]
pub(crate) struct RunGate;

impl Gate for RunGate {
    fn pass(&self, _piece: usize) {}

    fn shares(&self, nodes: u64) -> bool {
        SHARED_FROM <= nodes
    }
}

/// Reads a script from the source and writes the lines of its answers to the sink, under the words
/// `[--nodes n] [--workers n] [--generate n | --smt]`: the first gives the limit of nodes; the second how many threads work on an
/// elimination, at most, which changes no line; under the third the script is a generated one, nothing is read, and one line says how
/// many of its answers are true, false and refusals; and under the last the script is one in SMT-LIB. What is promised is the claim of
/// `specs/Claim.antt`.
pub fn run<R: Threads + Sync, S: Source, K: Sink>(
    rt: &R,
    alloc: Global,
    words: &[String],
    source: &mut S,
    sink: &mut K,
) -> Status
    ensures { Claim words.now
        (ends (S.left source.old) (S.faults source.old) (K.wrote sink.old) (K.faults sink.old))
        (ends (S.left source.new) (S.faults source.new) (K.wrote sink.new) (K.faults sink.new)) result }
{
    run_gated(rt, alloc, words, source, sink, &RunGate)
}

/// The same, where the gate is passed before each piece of an elimination that is shared out to threads.
pub fn run_gated<R: Threads + Sync, S: Source, K: Sink, G: Gate + Sync>(
    rt: &R,
    alloc: Global,
    words: &[String],
    source: &mut S,
    sink: &mut K,
    gate: &G,
) -> Status
    ensures { Claim words.now
        (ends (S.left source.old) (S.faults source.old) (K.wrote sink.old) (K.faults sink.old))
        (ends (S.left source.new) (S.faults source.new) (K.wrote sink.new) (K.faults sink.new)) result }
{
    let team = Team {
        rt,
        gate,
        teller: &Nobody,
    };
    run_told(&team, alloc, words, source, sink)
}

/// The same, where the teller is told of each refusal, behind its line.
pub fn run_told<R: Threads + Sync, S: Source, K: Sink, G: Gate + Sync, T: Teller>(
    team: &Team<'_, R, G, T>,
    alloc: Global,
    words: &[String],
    source: &mut S,
    sink: &mut K,
) -> Status
    ensures { Claim words.now
        (ends (S.left source.old) (S.faults source.old) (K.wrote sink.old) (K.faults sink.old))
        (ends (S.left source.new) (S.faults source.new) (K.wrote sink.new) (K.faults sink.new)) result }
{
    if !are_valid(words) {
        return Status::Usage;
    }
    match options_of(alloc, words) {
        Ok(options) => answer_under(team, alloc, options, source, sink),
        Err(_) => Status::Memory,
    }
}

/// Answers under these options.
fn answer_under<R: Threads + Sync, S: Source, K: Sink, G: Gate + Sync, T: Teller>(
    team: &Team<'_, R, G, T>,
    alloc: Global,
    options: Options,
    source: &mut S,
    sink: &mut K,
) -> Status
    requires { AreInRange options }
    ensures { ClaimUnder options
        (ends (S.left source.old) (S.faults source.old) (K.wrote sink.old) (K.faults sink.old))
        (ends (S.left source.new) (S.faults source.new) (K.wrote sink.new) (K.faults sink.new)) result }
{
    let limits = limits_of(options);
    match options.language {
        Language::SmtLib => answer_smt_source(team, alloc, limits, source, sink),
        Language::Redlog => match options.generate {
            Some(count) => answer_generated(team, alloc, limits, count, sink),
            None => answer_source(team, alloc, limits, source, sink),
        },
    }
}

/// The limits of the session.
fn limits_of(options: Options) -> Limits
    requires { AreInRange options }
    ensures nodes { result.nodes ≡ node_limit options }
    ensures workers { result.workers ≡ worker_limit options }
    ensures some { 1 ≤ result.workers }
{
    let nodes = match options.nodes {
        Some(nodes) => nodes as u64,
        None => NODES,
    };
    let workers = match options.workers {
        Some(workers) => workers as usize,
        None => WORKERS,
    };
    Limits { nodes, workers }
}

/// Answers the generated script with this number of statements in each theory, and writes the line that counts its answers.
fn answer_generated<R: Threads + Sync, K: Sink, G: Gate + Sync, T: Teller>(
    team: &Team<'_, R, G, T>,
    alloc: Global,
    limits: Limits,
    count: u32,
    sink: &mut K,
) -> Status
    requires { 1 ≤ limits.workers }
    ensures { ClaimOfGenerated limits.nodes count (K.wrote sink.old) (K.wrote sink.new) (K.faults sink.old) (K.faults sink.new) result }
{
    match tallied(team, alloc, limits, count) {
        Ok((line, refused)) => write_answer(sink, &line, refused),
        Err(_) => Status::Memory,
    }
}

/// The line that counts the answers of the generated script, and whether one of them is a refusal.
fn tallied<R: Threads + Sync, G: Gate + Sync, T: Teller>(
    team: &Team<'_, R, G, T>,
    alloc: Global,
    limits: Limits,
    count: u32,
) -> Result<(Vec<u8>, bool), AllocError>
    requires { 1 ≤ limits.workers }
    ensures { IfOk result (λ r. IsTally limits.nodes count r.0.items r.1) }
{
    let script = generated(alloc, count)?;
    let answers = answer_script(team, alloc, limits, &script)?;
    let line = tally(alloc, &answers.lines)?;
    Ok((line, answers.refused))
}
