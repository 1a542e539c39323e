//! The other way: the cases of the reference elimination.

ghost use Rattle.std.specs.Prelude.{◌≡◌, ℕ, IfOk, IfErr, map};
ghost use Rattle.logic_meaning.specs.Every.{Every};
ghost use Rattle.logic_meaning.specs.Measured.{done};
ghost use Rattle.normal_atoms.specs.Atoms.{context_of, atom_of};
ghost use Rattle.logic_meaning.specs.NormalForm.{IsNormal};
ghost use Rattle.logic_meaning.specs.Reference.{reference};
ghost use Rattle.logic_meaning.specs.Cases.{reference_cases};
ghost use Rattle.reference_engine.specs.Case.{leaf_case};
ghost use Rattle.reference_engine.specs.Stand.{AreSound};
ghost use Rattle.reference_engine.specs.Told.{StopsWith};
ghost use Rattle.formula_tree.specs.Makers.{Keeps};
ghost use Rattle.formula_store.specs.Nodes.{tree, IsId};
ghost use Rattle.engine_answers.specs.CaseTrees.{IsCaseTreeOf};

use crate::block::leading_block;
use crate::case_tree::CaseTree;
use crate::listed::{case_tree, of_leaves};
use crate::task::Task;
use formula_store::{FormulaId, Store};
use reference_engine::{Leaf, Measured, case_leaves, eliminate_shared, unfolded_form};

impl Task<'_> {
    /// The cases of the reference elimination, or what stops it, or `Memory`. The formulas of the store stay.
    pub(crate) fn by_reference(
        &self,
        store: &mut Store,
        id: FormulaId,
    ) -> Result<CaseTree, Measured>
        requires id { IsId store.old id }
        requires normal { Every (IsNormal (context_of self.now.context)) (tree store.old id) }
        ensures cases { IfOk result (IsCaseTreeOf (context_of self.now.context) (map atom_of self.now.theory.now) (tree store.old id) store.new) }
        ensures stops { IfErr result (λ e. StopsWith e (reference (context_of self.now.context) self.now.limits.nodes (tree store.old id))) }
        ensures kept { Keeps (IsId store.old) (tree store.old) (IsId store.new) (tree store.new) }
    {
        let leaves = self.leaves(store, id)?;
        let block = leading_block(self.alloc, store, id)?;
        let matrix = eliminate_shared(
            self.alloc,
            store,
            self.context,
            block.matrix,
            self.limits.nodes,
        )?;
        let cases = of_leaves(self.alloc, store, leaves)?;
        Ok(case_tree(block, matrix, cases))
    }

    // The leaves of the reference elimination.
    fn leaves(&self, store: &mut Store, id: FormulaId) -> Result<Vec<Leaf>, Measured>
        requires id { IsId store.old id }
        requires normal { Every (IsNormal (context_of self.now.context)) (tree store.old id) }
        ensures cases { IfOk result (λ v. (cost : ℕ) × (reference_cases (context_of self.now.context) self.now.limits.nodes (tree store.old id) ≡ done (map leaf_case v.items, cost))) }
        ensures sound { IfOk result (λ v. AreSound v.items) }
        ensures stops { IfErr result (λ e. StopsWith e (reference_cases (context_of self.now.context) self.now.limits.nodes (tree store.old id))) }
        ensures kept { Keeps (IsId store.old) (tree store.old) (IsId store.new) (tree store.new) }
    {
        match unfolded_form(self.alloc, store, id, self.limits.nodes) {
            Ok(form) => case_leaves(self.alloc, &form, self.context, self.limits.nodes),
            Err(error) => Err(error),
        }
    }
}
