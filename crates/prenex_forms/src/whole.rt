//! Quantifiers in front of a formula that is put into a store.

ghost use Rattle.std.specs.Prelude.{◌≡◌, IfOk};
ghost use Rattle.formula_tree.specs.Makers.{IsMade, Keeps};
ghost use Rattle.formula_store.specs.Nodes.{IsId, tree};
ghost use Rattle.nnf_trees.specs.Nnfs.{nnf_of, IsProper};
ghost use Rattle.logic_meaning.specs.Shape.{blocks_from};
ghost use Rattle.logic_meaning.specs.Blocks.{blocks as blocks_in, matrix};
ghost use Rattle.logic_meaning.specs.Front.{in_front, prefixed};

use crate::front::{blocks_from, stripped};
use crate::prefix::with_prefix;
use formula_store::{FormulaId, Store};
use logic_meaning::Quantifier;
use nnf_trees::Nnf;
use reference_engine::share;
use std::alloc::{AllocError, Global};

/// The formula with its quantifiers in front, in as few blocks as their nesting allows. Its only error is want of memory; the
/// formulas of the store stay.
pub(crate) fn in_front(alloc: Global, store: &mut Store, f: Nnf) -> Result<FormulaId, AllocError>
    requires { IsProper f }
    ensures made { IfOk result (λ r. IsMade (IsId store.new) (tree store.new) r (in_front (nnf_of f))) }
    ensures kept { Keeps (IsId store.old) (tree store.old) (IsId store.new) (tree store.new) }
{
    let existential = blocks_from(&f, Quantifier::Exists).ok_or(AllocError)?;
    let universal = blocks_from(&f, Quantifier::ForAll).ok_or(AllocError)?;
    if universal < existential {
        behind(alloc, store, f, Quantifier::ForAll, universal)
    } else {
        behind(alloc, store, f, Quantifier::Exists, existential)
    }
}

// The formula behind its prefix, of so many blocks of which the first has this kind.
fn behind(
    alloc: Global,
    store: &mut Store,
    f: Nnf,
    kind: Quantifier,
    count: u64,
) -> Result<FormulaId, AllocError>
    requires proper { IsProper f }
    requires count { count ≡ blocks_from (nnf_of f) kind }
    ensures made { IfOk result (λ r. IsMade (IsId store.new) (tree store.new) r (prefixed kind (blocks_in (nnf_of f) kind) (matrix (nnf_of f)))) }
    ensures kept { Keeps (IsId store.old) (tree store.old) (IsId store.new) (tree store.new) }
{
    let mut places = Vec::new(alloc);
    let matrix = stripped(alloc, f, kind, 0, &mut places)?;
    let id = share(alloc, store, matrix)?;
    with_prefix(store, &places, count, kind, id)
}
