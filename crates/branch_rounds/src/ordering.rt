//! In which order branches are worked on.

ghost use Rattle.std.specs.Prelude.{◌≡◌, ◌++◌, IfOk, OnOk, map, reverse};
ghost use Rattle.logic_meaning.specs.Some.{EachOf};
ghost use Rattle.formula_store.specs.Nodes.{IsId};
ghost use Rattle.branch_rounds.specs.Turns.{ArePutOn};

use crate::branch::Branch;
use formula_store::Store;
use std::alloc::{AllocError, Global};
use std::cmp::Reverse;

// A branch, and how many nodes its formula has.
#[derive(Drop)]
struct Counted {
    nodes: u64,
    branch: Branch,
}

/// Puts the branches last, those with the fewest nodes at the end, and of those with as many the first one. Its only error is want of
/// memory.
pub(crate) fn put_on_top(
    alloc: Global,
    store: &Store,
    open: &mut Vec<Branch>,
    next: Vec<Branch>,
) -> Result<(), AllocError>
    requires { EachOf (λ b. IsId store.now b.formula) next.items }
    ensures { OnOk result (ArePutOn open.old.items next.items open.new.items) }
{
    let mut counted = with_nodes(alloc, store, next)?;
    counted.sort_by_key(|one| Reverse(one.nodes))?;
    for Counted { branch, .. } in counted {
        open.push(branch)?;
    }
    Ok(())
}

// The branches with their nodes, the last one first.
fn with_nodes(
    alloc: Global,
    store: &Store,
    mut branches: Vec<Branch>,
) -> Result<Vec<Counted>, AllocError>
    requires { EachOf (λ b. IsId store.now b.formula) branches.items }
    ensures { IfOk result (λ v. map (λ one. one.branch) v.items ≡ reverse branches.items) }
{
    branches.reverse();
    let mut counted = Vec::new(alloc);
    for branch in branches {
        let nodes = store.facts(branch.formula()).nodes;
        counted.push(Counted { nodes, branch })?;
    }
    Ok(counted)
}
