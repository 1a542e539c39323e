//! The branches of a block without those that others cover.

ghost use Rattle.std.specs.Prelude.{◌≡◌, ◌≤◌, IfOk};
ghost use Rattle.logic_meaning.specs.Some.{EachOf};
ghost use Rattle.formula_store.specs.Nodes.{IsId};
ghost use Rattle.branch_pruning.specs.FromAtomPruning.{marked as marked_of};
ghost use Rattle.branch_rounds.specs.Worked.{IsWork};
ghost use Rattle.branch_rounds.specs.Thinned.{AreThinned};

use crate::branch::{Branch, formulas_of};
use crate::work::Work;
use branch_pruning::uncovered;
use formula_store::Store;
use std::alloc::{AllocError, Global};

impl Work<'_> {
    /// The branches without those that imply another under the assumptions, as far as certificates are found that show it. Its only error
    /// is want of memory.
    pub(crate) fn thinned(
        &self,
        store: &Store,
        branches: Vec<Branch>,
        effort: &mut u64,
    ) -> Result<Vec<Branch>, AllocError>
        requires work { IsWork self.now }
        requires ids { EachOf (λ b. IsId store.now b.formula) branches.items }
        ensures thinned { IfOk result (λ v. AreThinned self.now store.now branches.items v.items) }
    {
        let formulas = formulas_of(self.alloc, &branches)?;
        let marks = uncovered(
            self.alloc,
            store,
            self.context,
            self.assumed,
            &formulas,
            effort,
        )?;
        let kept = marked(self.alloc, branches, &marks)?;
        Ok(kept)
    }
}

// The branches that are marked, in their order.
fn marked(alloc: Global, branches: Vec<Branch>, marks: &[bool]) -> Result<Vec<Branch>, AllocError>
    ensures { IfOk result (λ v. v.items ≡ marked_of marks.now branches.items) }
{
    let mut kept = Vec::new(alloc);
    let mut marks = marks.iter();
    for branch in branches {
        if let Some(true) = marks.next() {
            kept.push(branch)?;
        }
    }
    Ok(kept)
}
