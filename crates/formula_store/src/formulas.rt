//! What stores and overlays have in common.

ghost use Rattle.std.specs.Prelude.{◌≡◌, ◌<◌, [], Some, IfOk, slice_get};
ghost use Rattle.formula_tree.specs.Makers.{IsMade, Keeps};
ghost use Rattle.formula_tree.specs.Shapes.{AllIds, IsProperShape, tree_over};
ghost use Rattle.formula_store.specs.Nodes.{tree, IsId, AreNodes, Front};
ghost use Rattle.formula_store.specs.Layers.{all};

use crate::id::FormulaId;
use crate::overlay::Overlay;
use crate::store::Store;
use formula_tree::{Maker, Shape};
use std::alloc::AllocError;

/// What keeps each formula once, under one id: a store, or an overlay of one.
pub trait Formulas {
    ghost use Rattle.std.specs.Prelude.{List};
    ghost use Rattle.formula_tree.specs.declared.shape.Shape.{Shape as Node};
    ghost use Rattle.formula_store.specs.declared.id.FormulaId.{FormulaId as Id};

    ghost nodes: { Self → List (Node Id) };

    /// The formulas below, which are only read.
    ghost base: { Self → List (Node Id) };

    /// The top of the formula: its shape over the ids of its members, whose numbers are smaller. It takes no memory.
    fn top(&self, id: FormulaId) -> &Shape<FormulaId>
        requires { IsId (nodes self.now) id }
        ensures node { slice_get (nodes self.now) id.number ≡ Some result.now }
        ensures tree { tree (nodes self.now) id ≡ tree_over (tree (nodes self.now)) result.now }
        ensures ids { AllIds (λ member. member.number < id.number) result.now }
        ensures proper { IsProperShape result.now }
        ensures nodes { AreNodes (nodes self.now) };

    /// The id of the formula of this shape, an old one where the formula is there.
    fn add(&mut self, shape: Shape<FormulaId>) -> Result<FormulaId, AllocError>
        requires ids { AllIds (IsId (nodes self.old)) shape }
        requires proper { IsProperShape shape }
        ensures made { IfOk result (λ id. IsMade (IsId (nodes self.new)) (tree (nodes self.new)) id (tree_over (tree (nodes self.old)) shape)) }
        ensures kept { Keeps (IsId (nodes self.old)) (tree (nodes self.old)) (IsId (nodes self.new)) (tree (nodes self.new)) }
        ensures front { Front (nodes self.old) (nodes self.new) }
        ensures base { base self.new ≡ base self.old };
}

impl Formulas for Store {
    ghost nodes = { λ s. s };

    ghost base = { λ s. [] };

    fn top(&self, id: FormulaId) -> &Shape<FormulaId> {
        self.shape(id)
    }

    fn add(&mut self, shape: Shape<FormulaId>) -> Result<FormulaId, AllocError> {
        self.make(shape).map_err(|_| AllocError)
    }
}

impl Formulas for Overlay<'_> {
    ghost nodes = { all };

    ghost base = { λ o. o.below };

    fn top(&self, id: FormulaId) -> &Shape<FormulaId> {
        self.shape(id)
    }

    fn add(&mut self, shape: Shape<FormulaId>) -> Result<FormulaId, AllocError> {
        self.make(shape).map_err(|_| AllocError)
    }
}
