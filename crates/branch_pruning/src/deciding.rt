//! An atom that the assumptions decide.

ghost use Rattle.std.specs.Prelude.{IfOk, OnOk};
ghost use Rattle.normal_atoms.specs.Atoms.{context_of};
ghost use Rattle.formula_tree.specs.Makers.{Keeps};
ghost use Rattle.formula_store.specs.Nodes.{tree, IsId};
ghost use Rattle.branch_pruning.specs.Cuts.{AreOfAtoms, IsDecidedTo, IsIn, StaysAt};

use crate::cutting::Cutter;
use atom_pruning::{AtomRows, Pruned, may_be_decided};
use formula_store::{FormulaId, Store};
use formula_tree::{Maker, Shape};
use normal_atoms::Atom;
use std::alloc::AllocError;
use std::slice;

impl Cutter {
    /// The formula, or the constant that stands for it where it is an atom that the assumptions decide. Its only error is want of memory.
    pub(crate) fn decided(
        &mut self,
        store: &mut Store,
        id: FormulaId,
    ) -> Result<FormulaId, AllocError>
        requires id { IsId store.old id }
        requires assumed { AreOfAtoms (context_of self.old.context) self.old.assumed.items }
        ensures decided { IfOk result (IsIn (IsDecidedTo (context_of self.old.context) self.old.assumed.items) (tree store.old id) store.new) }
        ensures stays { OnOk result (StaysAt self.old self.new) }
        ensures kept { Keeps (IsId store.old) (tree store.old) (IsId store.new) (tree store.new) }
    {
        let rows = match store.shape(id) {
            Shape::One(atom) if self.may_decide(atom) => {
                AtomRows::of(self.alloc, self.context, atom)?
            }
            _ => return Ok(id),
        };
        match self.needed(slice::from_ref(&rows))? {
            Pruned::Impossible => Ok(store.make(Shape::False)?),
            Pruned::Marked(marks) => {
                if marks[0] {
                    Ok(id)
                } else {
                    Ok(store.make(Shape::True)?)
                }
            }
        }
    }

    // Whether a search is expected to find something of an atom under the assumptions.
    fn may_decide(&self, atom: &Atom) -> bool {
        self.effort != 0
            && self.assumed.len() >= 2
            && may_be_decided(self.context, &self.assumed, atom)
    }
}
