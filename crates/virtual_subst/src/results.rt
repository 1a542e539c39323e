//! A formula of a store at a test point, taken into the store.

ghost use Rattle.std.specs.Prelude.{◌≡◌, IfOk, IfErr, false};
ghost use Rattle.logic_meaning.specs.Plain.{IsPlain};
ghost use Rattle.formula_laws.specs.Equivalence.{InContext};
ghost use Rattle.logic_meaning.specs.Steps.{result_at};
ghost use Rattle.normal_atoms.specs.Atoms.{context_of};
ghost use Rattle.logic_meaning.specs.NormalForm.{normal_atom};
ghost use Rattle.formula_tree.specs.Makers.{IsMade, Keeps};
ghost use Rattle.formula_store.specs.Nodes.{tree, IsId};
ghost use Rattle.nnf_trees.specs.Placed.{put, all_within};
ghost use Rattle.test_points.specs.Points.{place_of};
ghost use Rattle.virtual_subst.specs.Shared.{IsAtPlace};

use crate::error::SubstError;
use crate::guards::with_guard;
use crate::substitution::substitute_shared;
use formula_store::{FormulaId, Store};
use normal_atoms::Context;
use std::alloc::Global;
use test_points::TestPoint;

/// The formula with the point's name put at the point (Loos and Weispfenning 1993, Cooper 1972): each atom in normal form, over
/// the integers joined with the point's guard, and folded. `Overflow` comes only where a number that is formed for an atom
/// passes 2^127 - 1, else `Memory`. The formulas of the store stay.
pub fn result_shared(
    alloc: Global,
    store: &mut Store,
    context: Context,
    id: FormulaId,
    point: &TestPoint,
) -> Result<FormulaId, SubstError>
    requires id { IsId store.old id }
    requires plain { IsPlain (tree store.old id) }
    requires in_context { InContext (context_of context) (tree store.old id) }
    requires place { IsAtPlace context point.now }
    ensures made { IfOk result (λ r. IsMade (IsId store.new) (tree store.new) r (result_at (context_of context) (normal_atom (context_of context)) point.now.name.number (place_of point.now) (tree store.old id))) }
    ensures overflow { IfErr result (λ e. e ≡ SubstError.Overflow → all_within (context_of context) point.now.name.number (place_of point.now) (tree store.old id) ≡ false) }
    ensures kept { Keeps (IsId store.old) (tree store.old) (IsId store.new) (tree store.new) }
{
    match put_in_store(alloc, store, context, id, point) {
        Ok(put) => Ok(with_guard(alloc, store, context, put, point)?),
        Err(error) => Err(error),
    }
}

// The formula with the point's name put at the point, without the point's guard.
fn put_in_store(
    alloc: Global,
    store: &mut Store,
    context: Context,
    id: FormulaId,
    point: &TestPoint,
) -> Result<FormulaId, SubstError>
    requires id { IsId store.old id }
    requires plain { IsPlain (tree store.old id) }
    requires in_context { InContext (context_of context) (tree store.old id) }
    requires place { IsAtPlace context point.now }
    ensures made { IfOk result (λ r. IsMade (IsId store.new) (tree store.new) r (put (context_of context) point.now.name.number (place_of point.now) (tree store.old id))) }
    ensures overflow { IfErr result (λ e. e ≡ SubstError.Overflow → all_within (context_of context) point.now.name.number (place_of point.now) (tree store.old id) ≡ false) }
    ensures kept { Keeps (IsId store.old) (tree store.old) (IsId store.new) (tree store.new) }
{
    match substitute_shared(alloc, store, context, id, point) {
        Ok(delta) => match store.absorb(delta) {
            Ok(made) => Ok(made),
            Err(_) => Err(SubstError::Memory),
        },
        Err(error) => Err(error),
    }
}
