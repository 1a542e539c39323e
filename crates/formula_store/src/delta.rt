//! What was made beside a store.

ghost use Rattle.std.specs.Prelude.{◌≡◌, ◌<◌, ◌+◌, Some, length, slice_get};
ghost use Rattle.std.specs.Map.{keys_of};
ghost use Rattle.formula_tree.specs.Shapes.{AllIds, IsProperShape};
ghost use Rattle.formula_store.specs.Changes.{IsChange};

use crate::facts::Facts;
use crate::id::FormulaId;
use formula_tree::Shape;
use indexmap::IndexMap;
use std::marker::Model;

/// Formulas made beside a store, of which one is wanted. Their numbers go on where those of the store ended.
#[derive(Drop)]
pub struct Delta {
    own: IndexMap<Shape<FormulaId>, Facts>,
    root: FormulaId,
    begun: usize,
}

impl Model for Delta {
    ghost use Rattle.std.specs.Map.{keys_of};
    ghost use Rattle.formula_store.specs.Changes.{Change, IsChange};

    ghost Value = { Change };

    ghost view = { λ d. record { own = keys_of d.own.entries; root = d.root; begun = d.begun } };

    ghost invariant = { λ d. IsChange (record { own = keys_of d.own.entries; root = d.root; begun = d.begun }) };
}

impl Delta {
    /// The new formulas over so many old ones, with the one that is wanted. It takes no memory.
    pub(crate) fn of(own: IndexMap<Shape<FormulaId>, Facts>, root: FormulaId, begun: usize) -> Delta
        requires { IsChange (record { own = keys_of own.entries; root = root; begun = begun }) }
        ensures own { result.own ≡ keys_of own.entries }
        ensures root { result.root ≡ root }
        ensures begun { result.begun ≡ begun }
    {
        Delta { own, root, begun }
    }

    /// How many new formulas there are.
    pub fn len(&self) -> usize
        ensures { result ≡ length self.now.own }
    {
        self.own.len()
    }

    /// How many old formulas the new ones are made over. It takes no memory.
    pub fn begun(&self) -> usize
        ensures { result ≡ self.now.begun }
    {
        self.begun
    }

    /// The id of the formula that is wanted. It takes no memory.
    pub fn root(&self) -> FormulaId
        ensures id { result ≡ self.now.root }
        ensures within { result.number < self.now.begun + length self.now.own }
    {
        self.root
    }

    /// The shape of a new formula, over the ids of its members. It takes no memory.
    pub(crate) fn shape(&self, place: usize) -> &Shape<FormulaId>
        requires { place < length self.now.own }
        ensures node { slice_get self.now.own place ≡ Some result.now }
        ensures ids { AllIds (λ id. id.number < self.now.begun + place) result.now }
        ensures proper { IsProperShape result.now }
    {
        let (shape, _) = self.own.get_index(place).unwrap();
        shape
    }
}
