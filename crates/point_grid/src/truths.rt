//! The truth of a formula without quantifiers at each point of a grid, shared out to threads.

ghost use Rattle.std.specs.Prelude.{◌≡◌, ◌≤◌, flat_map, IfOk, IsErrOf};
ghost use Rattle.logic_meaning.specs.Shape.{IsQuantifierFree};
ghost use Rattle.formula_store.specs.Nodes.{tree, IsId};
ghost use Rattle.formula_store.specs.Truths.{IsWholeWhereAsked};
ghost use Rattle.qe_parallel.specs.Fanned.{AnswerAll};
ghost use Rattle.program_meaning.specs.Scales.{size};
ghost use Rattle.program_meaning.specs.Frames.{points_of};
ghost use Rattle.point_grid.specs.Truths.{IsTruthAt, IsTruthList};
ghost use Rattle.program_meaning.specs.PointPasses.{SomePointPasses};

use crate::error::GridError;
use crate::grid::Grid;
use formula_store::{EvalStop, FormulaId, Store};
use linear_forms::Values;
use qe_parallel::{FanError, Gate, Worker, fan_out};
use std::alloc::{AllocError, Global};
use std::marker::Model;
use std::thread::Threads;

// So many neighbouring points have the pieces, the last one fewer.
const RUN_LENGTH: usize = 1000;

/// A formula to be evaluated at the points of a grid.
#[derive(Drop)]
struct Points<'a> {
    alloc: Global,
    store: &'a Store,
    root: FormulaId,
    grid: &'a Grid,
}

impl<'a> Model for Points<'a> {
    ghost use Rattle.point_grid.specs.Truths.{Task, IsTask};

    ghost Value = { Task };

    ghost view = { λ p. record { nodes = p.store.now; root = p.root; grid = p.grid.now } };

    ghost invariant = { λ p. IsTask (record { nodes = p.store.now; root = p.root; grid = p.grid.now }) };
}

impl Worker for Points<'_> {
    ghost use Rattle.std.specs.Prelude.{◌≡◌};
    ghost use Rattle.formula_store.specs.Nodes.{tree};
    ghost use Rattle.program_meaning.specs.Scales.{size};
    ghost use Rattle.point_grid.specs.Truths.{run_length, AreRun};
    ghost use Rattle.program_meaning.specs.PointPasses.{SomePointPasses};
    ghost use Rattle.std.specs.Int.{div_ceil};
    ghost use Rattle.formula_store.specs.declared.error.EvalStop.TheVariants.{Overflow};

    type Out = Vec<bool>;

    type Stop = EvalStop;

    ghost pieces = { λ t. div_ceil (size t.grid.scales) run_length };

    ghost answers = { λ t piece out. AreRun t piece out.items };

    ghost stops = { λ t piece stop. stop ≡ Overflow → SomePointPasses (tree t.nodes t.root) t.grid };

    fn answer(&self, piece: usize) -> Result<Vec<bool>, EvalStop> {
        let count = self.grid.len();
        let from = piece * RUN_LENGTH;
        let to = from + (count - from).min(RUN_LENGTH);
        truths_between(self.alloc, self.store, self.root, self.grid, from, to)
    }
}

// The truths at the points from one up to another. The numbers are put in place from point to point.
fn truths_between(
    alloc: Global,
    store: &Store,
    root: FormulaId,
    grid: &Grid,
    from: usize,
    to: usize,
) -> Result<Vec<bool>, EvalStop>
    requires id { IsId store.now root }
    requires free { IsQuantifierFree (tree store.now root) }
    requires whole { IsWholeWhereAsked (tree store.now root) grid.now.denominator }
    requires order { from ≤ to }
    requires inside { to ≤ size grid.now.scales }
    ensures truths { IfOk result (λ truths. AnswerAll (IsTruthAt (record { nodes = store.now; root = root; grid = grid.now })) from to truths.items) }
    ensures overflow { IsErrOf result EvalStop.Overflow → SomePointPasses (tree store.now root) grid.now }
{
    let mut values = Values::new(alloc, grid.denominator());
    let mut truths = Vec::new(alloc);
    for index in from..to {
        grid.put_point(index, &mut values)?;
        let truth = store.truth(root, &values)?;
        if let Err(_failed) = truths.push(truth) {
            return Err(EvalStop::Memory);
        }
    }
    Ok(truths)
}

// The lists, one after the other.
fn joined(alloc: Global, runs: &[Vec<bool>]) -> Result<Vec<bool>, AllocError>
    ensures { IfOk result (λ truths. truths.items ≡ flat_map (λ run. run.items) runs.now) }
{
    let mut truths = Vec::new(alloc);
    for run in runs {
        truths.extend_from_slice(run)?;
    }
    Ok(truths)
}

/// The truth of a formula without quantifiers at each point of a grid, in their order, by at most so many threads at once. The
/// pieces of the work are runs of 1,000 neighbouring points, each distinct subformula evaluated once at a point. `Overflow` comes
/// only where a number formed for the value of an atom of the formula passes 2^127 - 1 at a point of the grid; else it is want of
/// memory.
pub fn grid_truth<R: Threads + Sync, G: Gate + Sync>(
    rt: &R,
    alloc: Global,
    store: &Store,
    id: FormulaId,
    grid: &Grid,
    workers: usize,
    gate: &G,
) -> Result<Vec<bool>, GridError>
    requires id { IsId store.now id }
    requires free { IsQuantifierFree (tree store.now id) }
    requires whole { IsWholeWhereAsked (tree store.now id) grid.now.denominator }
    requires workers { 1 ≤ workers }
    ensures truths { IfOk result (λ truths. IsTruthList (tree store.now id) (points_of grid.now) truths.items) }
    ensures overflow { IsErrOf result GridError.Overflow → SomePointPasses (tree store.now id) grid.now }
    ensures points { ¬ (IsErrOf result GridError.Points) }
{
    let worker = Points {
        alloc,
        store,
        root: id,
        grid,
    };
    match fan_out(
        rt,
        alloc,
        &worker,
        grid.len().div_ceil(RUN_LENGTH),
        workers,
        gate,
    ) {
        Ok(runs) => joined(alloc, &runs).map_err(|_| GridError::Memory),
        Err(
            FanError::Piece {
                stop: EvalStop::Overflow,
                ..
            },
        ) => Err(GridError::Overflow),
        Err(_) => Err(GridError::Memory),
    }
}
