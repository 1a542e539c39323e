//! The leading block of a formula, with the matrix behind it.

ghost use Rattle.std.specs.Prelude.{◌≡◌, IfOk};
ghost use Rattle.logic_meaning.specs.Reference.{normal_tree, turned};
ghost use Rattle.formula_tree.specs.Makers.{IsMade, Keeps};
ghost use Rattle.formula_store.specs.Nodes.{tree, IsId};
ghost use Rattle.engine_answers.specs.Blocks.{is_asked, IsLeadingBlock};

use crate::chain::{leading, split};
use formula_store::{FormulaId, Store, nnf};
use logic_meaning::{Quantifier, VarId};
use short_answers::negation;
use std::alloc::{AllocError, Global};

/// The longest chain of one quantifier with which the negation normal form of a formula begins, each name once, from the outside
/// in, and the formula whose cases are asked: what stands behind the chain, or for `all` its negation.
#[derive(Drop)]
pub struct LeadingBlock {
    pub quantifier: Quantifier,
    pub names: Vec<VarId>,
    pub matrix: FormulaId,
}

/// The leading block of a formula; one without a leading quantifier has an empty block of `ex`. Its only error is want of memory.
/// The formulas of the store stay.
pub fn leading_block(
    alloc: Global,
    store: &mut Store,
    id: FormulaId,
) -> Result<LeadingBlock, AllocError>
    requires { IsId store.old id }
    ensures block { IfOk result (IsLeadingBlock (tree store.old id) store.new) }
    ensures kept { Keeps (IsId store.old) (tree store.old) (IsId store.new) (tree store.new) }
{
    let form = normal(alloc, store, id)?;
    let quantifier = leading(store, form);
    let (chain, inner) = split(alloc, store, form, quantifier)?;
    let mut names = Vec::new(alloc);
    names.extend_from_slice(chain.as_slice())?;
    let matrix = asked(alloc, store, quantifier, inner)?;
    Ok(LeadingBlock {
        quantifier,
        names,
        matrix,
    })
}

// The negation normal form of the formula.
fn normal(alloc: Global, store: &mut Store, id: FormulaId) -> Result<FormulaId, AllocError>
    requires { IsId store.old id }
    ensures made { IfOk result (λ r. IsMade (IsId store.new) (tree store.new) r (normal_tree (tree store.old id))) }
    ensures kept { Keeps (IsId store.old) (tree store.old) (IsId store.new) (tree store.new) }
{
    nnf(alloc, store, id, None).map_err(|_| AllocError)
}

/// The formula for a block of `ex`; for one of `all`, whose cases are those of its negation, the negation normal form of the
/// formula's negation. Its only error is want of memory. The formulas of the store stay.
pub fn asked(
    alloc: Global,
    store: &mut Store,
    quantifier: Quantifier,
    id: FormulaId,
) -> Result<FormulaId, AllocError>
    requires { IsId store.old id }
    ensures made { IfOk result (λ r. IsMade (IsId store.new) (tree store.new) r (turned (is_asked quantifier) (tree store.old id))) }
    ensures kept { Keeps (IsId store.old) (tree store.old) (IsId store.new) (tree store.new) }
{
    match quantifier {
        Quantifier::Exists => Ok(id),
        Quantifier::ForAll => negation(alloc, store, id),
    }
}
