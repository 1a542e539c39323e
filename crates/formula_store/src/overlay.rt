//! Formulas made beside a store that is only read.

ghost use Rattle.std.specs.Prelude.{◌≡◌, ◌≤◌, ◌<◌, ◌+◌, ◌^◌, [], Some, IfOk, IfErr, OnErr, length, slice_get};
ghost use Rattle.formula_tree.specs.Shapes.{AllIds, IsProperShape, tree_over};
ghost use Rattle.formula_store.specs.Nodes.{tree, IsId, Makes, AreNodes};
ghost use Rattle.formula_store.specs.Facts.{IsFactsOf};
ghost use Rattle.formula_store.specs.Layers.{all};

use crate::delta::Delta;
use crate::facts::Facts;
use crate::id::FormulaId;
use crate::known::{Known, facts_of};
use crate::store::Store;
use formula_tree::{MakeError, Maker, Shape};
use indexmap::IndexMap;
use std::alloc::Global;
use std::marker::Model;

/// The formulas of a store, which is only read, and new ones, each once. The ids of the store keep their formulas, and the new
/// formulas have the numbers after them.
#[derive(Drop)]
pub struct Overlay<'s> {
    store: &'s Store,
    begun: usize,
    own: IndexMap<Shape<FormulaId>, Facts>,
}

impl<'s> Model for Overlay<'s> {
    ghost use Rattle.std.specs.Map.{keys_of};
    ghost use Rattle.formula_store.specs.Layers.{Layers};
    ghost use Rattle.formula_store.specs.Stored.{IsOverlay};

    ghost Value = { Layers };

    ghost view = { λ o. record { below = o.store.now; own = keys_of o.own.entries } };

    ghost invariant = { λ o. IsOverlay o.store.now o.begun o.own.entries };
}

impl<'s> Overlay<'s> {
    ghost use Rattle.formula_store.specs.declared.id.FormulaId.{FormulaId};

    /// The formulas of the store alone. It takes no memory.
    pub fn over(alloc: Global, store: &'s Store) -> Overlay<'s>
        ensures below { result.below ≡ store.now }
        ensures own { result.own ≡ [] }
        ensures nodes { AreNodes store.now }
    {
        Overlay {
            store,
            begun: store.len(),
            own: IndexMap::new(alloc),
        }
    }

    /// The top of the formula: its shape over the ids of its members, whose numbers are smaller. It takes no memory.
    pub fn shape(&self, id: FormulaId) -> &Shape<FormulaId>
        requires { IsId (all self.now) id }
        ensures node { slice_get (all self.now) id.number ≡ Some result.now }
        ensures tree { tree (all self.now) id ≡ tree_over (tree (all self.now)) result.now }
        ensures ids { AllIds (λ member. member.number < id.number) result.now }
        ensures proper { IsProperShape result.now }
        ensures nodes { AreNodes (all self.now) }
    {
        if id.number < self.begun {
            return self.store.shape(id);
        }
        let (shape, _) = self.own.get_index(id.number - self.begun).unwrap();
        shape
    }

    /// What is known of the formula. It takes no memory.
    pub fn facts(&self, id: FormulaId) -> Facts
        requires { IsId (all self.now) id }
        ensures facts { IsFactsOf (tree (all self.now) id) result }
        ensures height { result.height ≤ length (all self.now) }
    {
        if id.number < self.begun {
            return self.store.facts(id);
        }
        let (_, facts) = self.own.get_index(id.number - self.begun).unwrap();
        *facts
    }

    /// How many formulas there are, with those of the store.
    pub fn len(&self) -> usize
        ensures len { result ≡ length (all self.now) }
        ensures small { result + 1 < 2 ^ 64 }
        ensures nodes { AreNodes (all self.now) }
    {
        self.begun + self.own.len()
    }

    /// What was made beside the store, of which one formula is wanted. It takes no memory.
    pub fn finish(self, root: FormulaId) -> Delta
        requires { IsId (all self) root }
        ensures own { result.own ≡ self.entry.own }
        ensures root { result.root ≡ root }
        ensures begun { result.begun ≡ length self.entry.below }
    {
        let Overlay { begun, own, .. } = self;
        Delta::of(own, root, begun)
    }
}

impl Known for Overlay<'_> {
    ghost nodes = { all };

    fn count(&self) -> usize {
        self.len()
    }

    fn known(&self, id: FormulaId) -> Facts {
        self.facts(id)
    }
}

impl Maker for Overlay<'_> {
    ghost use Rattle.formula_tree.specs.Makers.{IsMade, Keeps};
    ghost use Rattle.formula_store.specs.Nodes.{Front};

    type Id = FormulaId;

    ghost is_id = { λ o. IsId (all o) };

    ghost tree = { λ o. tree (all o) };

    /// The id of the formula of this shape, an old one where the formula is there, in the store or beside it. Its only error is
    /// `Memory`.
    fn make(&mut self, shape: Shape<FormulaId>) -> Result<FormulaId, MakeError>
        requires ids { AllIds (IsId (all self.old)) shape }
        requires proper { IsProperShape shape }
        ensures made { IfOk result (λ id. IsMade (IsId (all self.new)) (tree (all self.new)) id (tree_over (tree (all self.old)) shape)) }
        ensures kept { Keeps (IsId (all self.old)) (tree (all self.old)) (IsId (all self.new)) (tree (all self.new)) }
        ensures memory { IfErr result (λ e. e ≡ MakeError.Memory) }
        ensures node { IfOk result (λ id. Makes (all self.old) shape id (all self.new)) }
        ensures front { Front (all self.old) (all self.new) }
        ensures few { length self.new.own ≤ length self.old.own + 1 }
        ensures below { self.new.below ≡ self.old.below }
        ensures unchanged { OnErr result (self.new ≡ self.old) }
    {
        if let Some(id) = self.store.find(&shape) {
            return Ok(id);
        }
        let facts = facts_of(self, &shape);
        let Ok((place, _)) = self.own.insert_full(shape, facts) else {
            return Err(MakeError::Memory);
        };
        Ok(FormulaId {
            number: self.begun + place,
        })
    }

    /// The height of the formula. It takes no memory.
    fn height(&self, id: FormulaId) -> u64 {
        self.facts(id).height
    }
}
