//! Many test points put into one formula of a store, shared out to threads.

ghost use Rattle.std.specs.Prelude.{◌∷◌, [], All, length, ◌≤◌};
ghost use Rattle.logic_meaning.specs.Plain.{IsPlain};
ghost use Rattle.formula_laws.specs.Equivalence.{InContext};
ghost use Rattle.normal_atoms.specs.Atoms.{context_of};
ghost use Rattle.formula_store.specs.Nodes.{tree, IsId};
ghost use Rattle.qe_parallel.specs.Fanned.{Fanned};
ghost use Rattle.virtual_subst.specs.Shared.{IsAtPlace};
ghost use Rattle.virtual_subst.specs.Phases.{IsPutAtPiece, StopsAtPiece};

use crate::error::SubstError;
use crate::substitution::substitute_listed;
use formula_store::{Delta, FormulaId, Store, StoreError};
use normal_atoms::Context;
use qe_parallel::{FanError, Gate, Worker, fan_out};
use std::alloc::Global;
use std::marker::Model;
use std::thread::Threads;
use test_points::TestPoint;

/// Test points to be put into one formula, each of which is a piece of work.
#[derive(Drop)]
struct Points<'a> {
    alloc: Global,
    store: &'a Store,
    context: Context,
    ids: &'a [FormulaId],
    root: FormulaId,
    points: &'a [TestPoint],
}

impl<'a> Model for Points<'a> {
    ghost use Rattle.virtual_subst.specs.Phases.{Phase, IsPhase};

    ghost Value = { Phase };

    ghost view = { λ p. record { nodes = p.store.now; context = p.context; root = p.root; points = p.points.now } };

    ghost invariant = { λ p. IsPhase (record { nodes = p.store.now; context = p.context; root = p.root; points = p.points.now }) p.ids.now };
}

impl Worker for Points<'_> {
    type Out = Delta;

    type Stop = SubstError;

    ghost pieces = { λ p. length p.points };

    ghost answers = { IsPutAtPiece };

    ghost stops = { StopsAtPiece };

    fn answer(&self, piece: usize) -> Result<Delta, SubstError> {
        substitute_listed(
            self.alloc,
            self.store,
            self.context,
            self.ids,
            self.root,
            &self.points[piece],
        )
    }
}

/// Each of the points put into the formula, as `substitute_shared` does it, by at most so many threads at once, which only read
/// the store: what is made at a point, in the order of the points. `Piece` with `Overflow` comes only where a number that is
/// formed for an atom at that point passes 2^127 - 1; else it is want of memory.
pub fn substitute_all<R: Threads + Sync, G: Gate + Sync>(
    rt: &R,
    alloc: Global,
    store: &Store,
    context: Context,
    branch: FormulaId,
    points: &[TestPoint],
    workers: usize,
    gate: &G,
) -> Result<Vec<Delta>, FanError<SubstError>>
    requires id { IsId store.now branch }
    requires plain { IsPlain (tree store.now branch) }
    requires in_context { InContext (context_of context) (tree store.now branch) }
    requires places { All (IsAtPlace context) points.now }
    requires workers { 1 ≤ workers }
    ensures { Fanned (IsPutAtPiece (record { nodes = store.now; context = context; root = branch; points = points.now })) (StopsAtPiece (record { nodes = store.now; context = context; root = branch; points = points.now })) 0 (length points.now) result }
{
    let ids = match store.subformulas(branch) {
        Ok(ids) => ids,
        Err(StoreError::Memory) => return Err(FanError::Memory),
    };
    let worker = Points {
        alloc,
        store,
        context,
        ids: &ids,
        root: branch,
        points,
    };
    fan_out(rt, alloc, &worker, points.len(), workers, gate)
}
