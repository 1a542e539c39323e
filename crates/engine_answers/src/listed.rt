//! Branches and leaves as the cases of a block.

ghost use Rattle.std.specs.Prelude.{◌≡◌, IfOk, map, not};
ghost use Rattle.logic_meaning.specs.Some.{EachOf};
ghost use Rattle.engine_answers.specs.Blocks.{is_asked};
ghost use Rattle.formula_tree.specs.Makers.{Keeps};
ghost use Rattle.formula_store.specs.Nodes.{tree, IsId};
ghost use Rattle.reference_engine.specs.Case.{leaf_case};
ghost use Rattle.reference_engine.specs.Stand.{AreSound};
ghost use Rattle.engine_answers.specs.Listed.{told_case, told_branch, AreShared};

use crate::block::LeadingBlock;
use crate::case_tree::{Case, CaseTree};
use branch_rounds::Branch;
use formula_store::{FormulaId, Store};
use logic_meaning::Quantifier;
use reference_engine::{Leaf, share};
use std::alloc::{AllocError, Global};

/// The cases of the block, over this matrix. It takes no memory.
pub(crate) fn case_tree(block: LeadingBlock, matrix: FormulaId, cases: Vec<Case>) -> CaseTree
    ensures { result ≡ record { universal = not (is_asked block.quantifier); block = block.names; matrix = matrix; cases = cases } }
{
    CaseTree {
        universal: is_universal(block.quantifier),
        block: block.names,
        matrix,
        cases,
    }
}

// Whether the block is one of `all`.
fn is_universal(quantifier: Quantifier) -> bool
    ensures { result ≡ not (is_asked quantifier) }
{
    match quantifier {
        Quantifier::Exists => false,
        Quantifier::ForAll => true,
    }
}

/// The branches as cases: what is left is the guard, and the points are the answers.
pub(crate) fn of_branches(alloc: Global, branches: Vec<Branch>) -> Result<Vec<Case>, AllocError>
    ensures { IfOk result (λ v. map told_case v.items ≡ map told_branch branches.items) }
{
    let mut cases = Vec::new(alloc);
    for branch in branches {
        let guard = branch.formula();
        let answers = branch.into_answers();
        cases.push(Case { guard, answers })?;
    }
    Ok(cases)
}

/// The leaves as cases, with their formulas shared. The formulas of the store stay.
pub(crate) fn of_leaves(
    alloc: Global,
    store: &mut Store,
    leaves: Vec<Leaf>,
) -> Result<Vec<Case>, AllocError>
    requires { AreSound leaves.items }
    ensures shared { IfOk result (λ v. AreShared store.new (map leaf_case leaves.items) v.items) }
    ensures kept { Keeps (IsId store.old) (tree store.old) (IsId store.new) (tree store.new) }
{
    let mut cases = Vec::new(alloc);
    for leaf in leaves {
        let Leaf { formula, points } = leaf;
        let Ok(guard) = share(alloc, store, formula) else {
            return Err(AllocError);
        };
        let answers = points;
        cases.push(Case { guard, answers })?;
    }
    Ok(cases)
}
