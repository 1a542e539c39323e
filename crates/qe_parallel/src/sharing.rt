// Pieces in runs of neighbours, a thread each.
ghost use Rattle.std.specs.Prelude.{ℕ, ◌≤◌, ◌<◌};
ghost use Rattle.std.specs.Thread.{IsSync};
ghost use Rattle.qe_parallel.specs.Fanned.{Fanned};

use crate::error::FanError;
use crate::gate::Gate;
use crate::worker::Worker;
use std::alloc::Global;
use std::thread::{Threads, join};

/// The answers of the worker to the pieces from 0 on, in their order, worked on by at most so many threads at once.
///
/// `Piece` comes only where the worker stopped at that piece with that stop, and then each piece before it has an answer; else
/// `Memory`. The gate is passed just before each piece. Where no thread can be made, the pieces are worked on one after another.
pub fn fan_out<R: Threads + Sync, W: Worker + Sync, G: Gate + Sync>(
    rt: &R,
    alloc: Global,
    worker: &W,
    pieces: usize,
    workers: usize,
    gate: &G,
) -> Result<Vec<W::Out>, FanError<W::Stop>>
    requires pieces { pieces ≤ W.pieces worker.now }
    requires workers { 1 ≤ workers }
    ensures { Fanned (W.answers worker.now) (W.stops worker.now) 0 pieces result }
{
    run(rt, alloc, worker, 0, pieces, workers, gate)
}

// The same of the pieces from one up to another.
fn run<R: Threads + Sync, W: Worker + Sync, G: Gate + Sync>(
    rt: &R,
    alloc: Global,
    worker: &W,
    from: usize,
    to: usize,
    workers: usize,
    gate: &G,
) -> Result<Vec<W::Out>, FanError<W::Stop>>
    requires order { from ≤ to }
    requires pieces { to ≤ W.pieces worker.now }
    ensures { Fanned (W.answers worker.now) (W.stops worker.now) from to result }
{
    let workers = workers.min(to - from);
    if workers < 2 {
        return in_turn(alloc, worker, from, to, gate);
    }
    let first_workers = workers / 2;
    let second_workers = workers - first_workers;
    let length = (to - from).div_ceil(workers);
    let middle = from + length.saturating_mul(first_workers).min(to - from);
    let (first, second) = join(
        rt,
        || -> Result<Vec<W::Out>, FanError<W::Stop>>
            requires { IsSync R.row × IsSync W.row × IsSync G.row × (from ≤ middle) × (middle ≤ W.pieces worker.now) }
            ensures { Fanned (W.answers worker.entry.now) (W.stops worker.entry.now) from middle result }
        { run(rt, alloc, worker, from, middle, first_workers, gate) },
        || -> Result<Vec<W::Out>, FanError<W::Stop>>
            requires { IsSync R.row × IsSync W.row × IsSync G.row × (middle ≤ to) × (to ≤ W.pieces worker.now) }
            ensures { Fanned (W.answers worker.entry.now) (W.stops worker.entry.now) middle to result }
        { run(rt, alloc, worker, middle, to, second_workers, gate) },
    );
    joined(worker, from, middle, to, first, second)
}

// The pieces one after another.
fn in_turn<W: Worker, G: Gate>(
    alloc: Global,
    worker: &W,
    from: usize,
    to: usize,
    gate: &G,
) -> Result<Vec<W::Out>, FanError<W::Stop>>
    requires order { from ≤ to }
    requires pieces { to ≤ W.pieces worker.now }
    ensures { Fanned (W.answers worker.now) (W.stops worker.now) from to result }
{
    let mut outs = Vec::new(alloc);
    for piece in from..to {
        gate.pass(piece);
        let out = match worker.answer(piece) {
            Ok(out) => out,
            Err(stop) => return Err(FanError::Piece { piece, stop }),
        };
        if let Err(_failed) = outs.push(out) {
            return Err(FanError::Memory);
        }
    }
    Ok(outs)
}

// What two runs of neighbours give together. The answers of the second follow those of the first.
fn joined<W: Worker>(
    worker: &W,
    from: usize,
    middle: usize,
    to: usize,
    first: Result<Vec<W::Out>, FanError<W::Stop>>,
    second: Result<Vec<W::Out>, FanError<W::Stop>>,
) -> Result<Vec<W::Out>, FanError<W::Stop>>
    requires begin { from ≤ middle }
    requires end { middle ≤ to }
    requires first { Fanned (W.answers worker.now) (W.stops worker.now) from middle first }
    requires second { Fanned (W.answers worker.now) (W.stops worker.now) middle to second }
    ensures { Fanned (W.answers worker.now) (W.stops worker.now) from to result }
{
    let mut outs = match first {
        Ok(outs) => outs,
        Err(error) => return Err(error),
    };
    let mut more = match second {
        Ok(more) => more,
        Err(error) => return Err(error),
    };
    if let Err(_failed) = outs.append(&mut more) {
        return Err(FanError::Memory);
    }
    Ok(outs)
}
