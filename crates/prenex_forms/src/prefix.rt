//! A prefix of quantifiers, made before a formula of a store.

ghost use Rattle.std.specs.Prelude.{◌≡◌, IfOk};
ghost use Rattle.formula_tree.specs.Makers.{IsMade, Keeps};
ghost use Rattle.formula_store.specs.Nodes.{IsId, tree};
ghost use Rattle.reference_engine.specs.Shared.{quantified_shape};
ghost use Rattle.logic_meaning.specs.Front.{block, prefixed};
ghost use Rattle.prenex_forms.specs.Places.{kind_at, level_names, levels_of};

use crate::front::Place;
use formula_store::{FormulaId, Store};
use formula_tree::{Maker, Shape};
use logic_meaning::{Quantifier, VarId};
use std::alloc::AllocError;

// The formula under a quantifier.
fn quantified(quantifier: Quantifier, name: VarId, id: FormulaId) -> Shape<FormulaId>
    ensures { result ≡ quantified_shape quantifier name id }
{
    match quantifier {
        Quantifier::Exists => Shape::Ex(name, id),
        Quantifier::ForAll => Shape::All(name, id),
    }
}

// The kind of the block with this number, where the kinds take turns from this one on.
fn kind_at(kind: Quantifier, level: u64) -> Quantifier
    ensures { result ≡ kind_at kind level }
{
    if level % 2 == 0 {
        kind
    } else {
        kind.turned(true)
    }
}

// The formula behind one block.
fn with_block(
    store: &mut Store,
    places: &[Place],
    level: u64,
    quantifier: Quantifier,
    mut id: FormulaId,
) -> Result<FormulaId, AllocError>
    requires { IsId store.old id }
    ensures made { IfOk result (λ r. IsMade (IsId store.new) (tree store.new) r (block quantifier (level_names level places.now) (tree store.old id))) }
    ensures kept { Keeps (IsId store.old) (tree store.old) (IsId store.new) (tree store.new) }
{
    let mut left = places.len();
    while left > 0 {
        left -= 1;
        let place = places[left];
        if place.level as u64 == level {
            id = store.make(quantified(quantifier, place.name, id))?;
        }
    }
    Ok(id)
}

/// The formula behind so many blocks of these places, of which the first has this kind. Its only error is want of memory; the
/// formulas of the store stay.
pub(crate) fn with_prefix(
    store: &mut Store,
    places: &[Place],
    blocks: u64,
    kind: Quantifier,
    mut id: FormulaId,
) -> Result<FormulaId, AllocError>
    requires { IsId store.old id }
    ensures made { IfOk result (λ r. IsMade (IsId store.new) (tree store.new) r (prefixed kind (levels_of 0 blocks places.now) (tree store.old id))) }
    ensures kept { Keeps (IsId store.old) (tree store.old) (IsId store.new) (tree store.new) }
{
    let mut level = blocks;
    while level > 0 {
        level -= 1;
        id = with_block(store, places, level, kind_at(kind, level), id)?;
    }
    Ok(id)
}
