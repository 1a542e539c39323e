//! A test point put into a formula of a store, one distinct subformula after another.

ghost use Rattle.std.specs.Prelude.{◌≡◌, ◌∷◌, [], MatchResult};
ghost use Rattle.logic_meaning.specs.Plain.{IsPlain};
ghost use Rattle.formula_laws.specs.Equivalence.{InContext};
ghost use Rattle.normal_atoms.specs.Atoms.{context_of};
ghost use Rattle.formula_store.specs.Nodes.{tree, IsId};
ghost use Rattle.formula_store.specs.Order.{IsOrder};
ghost use Rattle.nnf_trees.specs.Placed.{all_within};
ghost use Rattle.test_points.specs.Points.{place_of};
ghost use Rattle.virtual_subst.specs.Shared.{Stops, IsAtPlace, IsPutAt};

use crate::atoms::At;
use crate::error::SubstError;
use crate::putting::put_in;
use crate::truths::Truths;
use formula_store::{Delta, FormulaId, Overlay, Store, StoreError};
use normal_atoms::Context;
use std::alloc::Global;
use test_points::TestPoint;

/// The formula with the point's name put at the point (Loos and Weispfenning 1993, Cooper 1972): each atom in normal form, and
/// the whole folded, each distinct subformula once. The point's guard is not joined to it. `Overflow` comes exactly where a
/// number that is formed for an atom passes 2^127 - 1, else `Memory`.
pub fn substitute_shared(
    alloc: Global,
    store: &Store,
    context: Context,
    id: FormulaId,
    point: &TestPoint,
) -> Result<Delta, SubstError>
    requires id { IsId store.now id }
    requires plain { IsPlain (tree store.now id) }
    requires in_context { InContext (context_of context) (tree store.now id) }
    requires place { IsAtPlace context point.now }
    ensures { MatchResult result (IsPutAt context point.now store.now id) (λ e. Stops e (all_within (context_of context) point.now.name.number (place_of point.now) (tree store.now id))) }
{
    match store.subformulas(id) {
        Ok(ids) => substitute_listed(alloc, store, context, &ids, id, point),
        Err(StoreError::Memory) => Err(SubstError::Memory),
    }
}

/// As `substitute_shared`, for a caller that has the list of the distinct subformulas, members first, which serves all points.
pub fn substitute_listed(
    alloc: Global,
    store: &Store,
    context: Context,
    ids: &[FormulaId],
    root: FormulaId,
    point: &TestPoint,
) -> Result<Delta, SubstError>
    requires id { IsId store.now root }
    requires listed { IsOrder store.now (root ∷ []) ids.now }
    requires plain { IsPlain (tree store.now root) }
    requires in_context { InContext (context_of context) (tree store.now root) }
    requires place { IsAtPlace context point.now }
    ensures { MatchResult result (IsPutAt context point.now store.now root) (λ e. Stops e (all_within (context_of context) point.now.name.number (place_of point.now) (tree store.now root))) }
{
    let mut overlay = Overlay::over(alloc, store);
    let truths = Truths::of(&mut overlay)?;
    match put_in(
        alloc,
        At { context, point },
        truths,
        &mut overlay,
        ids,
        root,
    ) {
        Ok(id) => Ok(overlay.finish(id)),
        Err(error) => Err(error),
    }
}
