//! New ids in place of old ones.

ghost use Rattle.std.specs.Prelude.{◌≡◌, ◌≤◌, ◌<◌, ◌+◌, IfOk, length, map};
ghost use Rattle.std.specs.List.{AllByRecursion};
ghost use Rattle.formula_tree.specs.Makers.{IsMade, Keeps};
ghost use Rattle.formula_tree.specs.Shapes.{AllIds, IsProperShape, moved, tree_over};
ghost use Rattle.formula_store.specs.Changes.{Grows};
ghost use Rattle.formula_store.specs.Copies.{ported};
ghost use Rattle.formula_store.specs.Nodes.{tree, IsId};

use crate::id::FormulaId;
use crate::store::Store;
use formula_tree::{Ids, Maker, Shape};
use std::alloc::{AllocError, Global};

/// The first so many ids stay, and a table has the new ones of the others, in order.
#[derive(Clone, Copy)]
pub(crate) struct Port<'a> {
    pub(crate) begun: usize,
    pub(crate) ids: &'a [FormulaId],
}

impl Port<'_> {
    /// The new id. It takes no memory.
    pub(crate) fn id(&self, id: FormulaId) -> FormulaId
        requires { id.number < self.now.begun + length self.now.ids.now }
        ensures { result ≡ ported self.now.begun self.now.ids.now id }
    {
        if id.number < self.begun {
            id
        } else {
            self.ids[id.number - self.begun]
        }
    }

    /// The new ids.
    pub(crate) fn ids(&self, alloc: Global, ids: &[FormulaId]) -> Result<Vec<FormulaId>, AllocError>
        requires { AllByRecursion (λ id. id.number < self.now.begun + length self.now.ids.now) ids.now }
        ensures { IfOk result (λ v. v.items ≡ map (ported self.now.begun self.now.ids.now) ids.now) }
    {
        let mut found = Vec::new(alloc);
        for id in ids {
            found.push(self.id(*id))?;
        }
        Ok(found)
    }

    /// The shape over the new ids.
    pub(crate) fn shape(
        &self,
        alloc: Global,
        shape: &Shape<FormulaId>,
    ) -> Result<Shape<FormulaId>, AllocError>
        requires { AllIds (λ id. id.number < self.now.begun + length self.now.ids.now) shape.now }
        ensures { IfOk result (λ s. s ≡ moved (ported self.now.begun self.now.ids.now) shape.now) }
    {
        match shape {
            Shape::True => Ok(Shape::True),
            Shape::False => Ok(Shape::False),
            Shape::One(atom) => Ok(Shape::One(atom.copy(alloc).map_err(|_| AllocError)?)),
            Shape::And(ids) => Ok(Shape::And(Ids::of(self.ids(alloc, ids.items())?))),
            Shape::Or(ids) => Ok(Shape::Or(Ids::of(self.ids(alloc, ids.items())?))),
            Shape::Not(member) => Ok(Shape::Not(self.id(*member))),
            Shape::Impl(left, right) => Ok(Shape::Impl(self.id(*left), self.id(*right))),
            Shape::Repl(left, right) => Ok(Shape::Repl(self.id(*left), self.id(*right))),
            Shape::Equiv(left, right) => Ok(Shape::Equiv(self.id(*left), self.id(*right))),
            Shape::Ex(name, member) => Ok(Shape::Ex(*name, self.id(*member))),
            Shape::All(name, member) => Ok(Shape::All(*name, self.id(*member))),
        }
    }

    /// Makes the formula of the shape over the new ids, and gives its id.
    pub(crate) fn made(
        &self,
        alloc: Global,
        shape: &Shape<FormulaId>,
        into: &mut Store,
    ) -> Result<FormulaId, AllocError>
        requires within { AllIds (λ id. id.number < self.now.begun + length self.now.ids.now) shape.now }
        requires ids { AllIds (λ id. IsId into.old (ported self.now.begun self.now.ids.now id)) shape.now }
        requires proper { IsProperShape shape.now }
        ensures made { IfOk result (λ id. IsMade (IsId into.new) (tree into.new) id (tree_over (λ id. tree into.old (ported self.now.begun self.now.ids.now id)) shape.now)) }
        ensures kept { Keeps (IsId into.old) (tree into.old) (IsId into.new) (tree into.new) }
        ensures grown { Grows into.old into.new }
        ensures few { length into.new ≤ length into.old + 1 }
    {
        let shape = self.shape(alloc, shape)?;
        let id = into.make(shape).map_err(|_| AllocError)?;
        Ok(id)
    }
}
