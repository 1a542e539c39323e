//! The constants of a store or of an overlay.

ghost use Rattle.std.specs.Prelude.{◌≡◌, IfOk};
ghost use Rattle.formula_tree.specs.Makers.{Keeps};
ghost use Rattle.formula_store.specs.Nodes.{tree, IsId, Front};
ghost use Rattle.virtual_subst.specs.Shared.{AreTruths, truth_in};

use formula_store::{FormulaId, Formulas};
use formula_tree::Shape;
use std::alloc::AllocError;

/// The ids of `true` and of `false`, so that neither is sought anew for each atom that becomes one.
#[derive(Clone, Copy)]
pub(crate) struct Truths {
    yes: FormulaId,
    no: FormulaId,
}

impl Truths {
    /// Those of a store or of an overlay, in which they are made where they are not there.
    pub(crate) fn of<M: Formulas>(formulas: &mut M) -> Result<Truths, AllocError>
        ensures truths { IfOk result (AreTruths (M.nodes formulas.new)) }
        ensures kept { Keeps (IsId (M.nodes formulas.old)) (tree (M.nodes formulas.old)) (IsId (M.nodes formulas.new)) (tree (M.nodes formulas.new)) }
        ensures front { Front (M.nodes formulas.old) (M.nodes formulas.new) }
        ensures base { M.base formulas.new ≡ M.base formulas.old }
    {
        let yes = formulas.add(Shape::True)?;
        let no = formulas.add(Shape::False)?;
        Ok(Truths { yes, no })
    }

    /// The constant of this truth.
    pub(crate) fn constant(self, truth: bool) -> FormulaId
        ensures { result ≡ truth_in self truth }
    {
        if truth { self.yes } else { self.no }
    }
}
