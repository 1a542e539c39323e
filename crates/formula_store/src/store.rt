ghost use Rattle.std.specs.Prelude.{◌≡◌, ◌≤◌, ◌<◌, ◌+◌, ◌^◌, ℕ, [], ◌∷◌, List, Some, MatchOption, take, IfOk, IfErr, OnOk, OnErr, IsErrOf, length, map, nat_eq, slice_get};
ghost use Rattle.std.specs.List.{AllByRecursion};
ghost use Rattle.logic_meaning.specs.Same.{same_atom};
ghost use Rattle.logic_meaning.specs.Sizes.{nodes, height, distinct_count};
ghost use Rattle.logic_meaning.specs.Shape.{IsQuantifierFree};
ghost use Rattle.formula_tree.specs.FromLinearForms.{point_of};
ghost use Rattle.formula_store.specs.Truths.{Tells, SomeAtomPasses, IsWholeWhereAsked};
ghost use Rattle.formula_tree.specs.Makers.{AreMade, IsMade, Keeps};
ghost use Rattle.formula_tree.specs.Shapes.{AllIds, IsProperShape, tree_over};
ghost use Rattle.formula_store.specs.Nodes.{tree, IsId, Makes, AreNodes};
ghost use Rattle.formula_store.specs.Facts.{IsFactsOf};
ghost use Rattle.formula_store.specs.Changes.{tree_on, Grows};
ghost use Rattle.formula_store.specs.Order.{IsOrder};
ghost use Rattle.formula_tree.specs.Trees.{tree_of};

use crate::absorb::taken_in;
use crate::delta::Delta;
use crate::error::{EvalStop, StoreError, Unfold};
use crate::facts::Facts;
use crate::id::FormulaId;
use crate::keep::copied;
use crate::known::{Known, facts_of};
use crate::order::subformulas;
use crate::steps::Steps;
use crate::truth::{truth_shared, truth_uncounted};
use crate::unfold::unfolded;
use formula_tree::{MakeError, Maker, Shape, Tree, Values};
use indexmap::IndexMap;
use std::alloc::Global;
use std::marker::{Brand, Model};
use std::sync::ledger::{Blank, Ledger};

/// Formulas, each kept once under one id. A member has a smaller number than the formulas that it stands in.
#[derive(Drop)]
pub struct Store {
    nodes: IndexMap<Shape<FormulaId>, Facts>,
    alloc: Global,
}

impl Model for Store {
    ghost use Rattle.std.specs.Prelude.{List, []};
    ghost use Rattle.std.specs.Map.{keys_of};
    ghost use Rattle.formula_tree.specs.declared.shape.Shape.{Shape as Node};
    ghost use Rattle.formula_store.specs.declared.id.FormulaId.{FormulaId as Id};
    ghost use Rattle.formula_store.specs.Stored.{AreStored};

    ghost Value = { List (Node Id) };

    ghost view = { λ s. keys_of s.nodes.entries };

    ghost invariant = { λ s. AreStored [] s.nodes.entries };
}

impl Store {
    ghost use Rattle.formula_store.specs.declared.id.FormulaId.{FormulaId};

    /// No formulas.
    pub fn new(alloc: Global) -> Store
        ensures { result ≡ [] }
    {
        Store {
            nodes: IndexMap::new(alloc),
            alloc,
        }
    }

    /// The top of the formula: its shape over the ids of its members, whose numbers are smaller. It takes no memory.
    pub fn shape(&self, id: FormulaId) -> &Shape<FormulaId>
        requires { IsId self.now id }
        ensures node { slice_get self.now id.number ≡ Some result.now }
        ensures tree { tree self.now id ≡ tree_over (tree self.now) result.now }
        ensures ids { AllIds (λ member. member.number < id.number) result.now }
        ensures members { AllIds (IsId self.now) result.now }
        ensures proper { IsProperShape result.now }
        ensures nodes { AreNodes self.now }
    {
        let (shape, _) = self.nodes.get_index(id.number).unwrap();
        shape
    }

    /// What is known of the formula. It takes no memory.
    pub fn facts(&self, id: FormulaId) -> Facts
        requires { IsId self.now id }
        ensures facts { IsFactsOf (tree self.now id) result }
        ensures height { result.height ≤ length self.now }
    {
        let (_, facts) = self.nodes.get_index(id.number).unwrap();
        *facts
    }

    /// How many formulas there are.
    pub fn len(&self) -> usize
        ensures len { result ≡ length self.now }
        ensures small { result < 2 ^ 63 }
        ensures nodes { AreNodes self.now }
    {
        self.nodes.len()
    }

    /// The distinct subformulas of a formula: each once, its members before it, the formula itself last. Its time is that of
    /// the subformulas, however many formulas the store has. Its only error is `Memory`.
    pub fn subformulas(&self, id: FormulaId) -> Result<Vec<FormulaId>, StoreError>
        requires { IsId self.now id }
        ensures order { IfOk result (λ ids. IsOrder self.now (id ∷ []) ids.items) }
        ensures nodes { AreNodes self.now }
    {
        Ok(subformulas(self.alloc, self, &[id])?)
    }

    /// How many distinct subformulas a formula has. Its only error is `Memory`.
    pub fn distinct(&self, id: FormulaId) -> Result<u64, StoreError>
        requires { IsId self.now id }
        ensures { IfOk result (λ n. n ≡ distinct_count same_atom nat_eq (tree self.now id)) }
    {
        let ids = self.subformulas(id)?;
        Ok(ids.len() as u64)
    }

    /// The truth of a formula without quantifiers at the numbers, each distinct subformula evaluated once. `Overflow`
    /// comes only where a number formed for the value of an atom passes 2^127 - 1, else `Memory`.
    pub fn truth_shared<L: Ledger>(
        &self,
        id: FormulaId,
        at: &Values,
        steps: &mut Steps<L>,
    ) -> Result<bool, EvalStop>
        requires id { IsId self.now id }
        requires free { IsQuantifierFree (tree self.now id) }
        requires whole { IsWholeWhereAsked (tree self.now id) at.now.denominator }
        ensures truth { IfOk result (λ b. Tells b (tree self.now id) (point_of at.now)) }
        ensures steps { steps.new ≤ steps.old + distinct_count same_atom nat_eq (tree self.now id) }
        ensures overflow { IsErrOf result EvalStop.Overflow → SomeAtomPasses (tree self.now id) at.now }
    {
        truth_shared(self.alloc, self, id, at, steps)
    }

    /// As `truth_shared`, for a caller that counts no steps.
    pub fn truth(&self, id: FormulaId, at: &Values) -> Result<bool, EvalStop>
        requires id { IsId self.now id }
        requires free { IsQuantifierFree (tree self.now id) }
        requires whole { IsWholeWhereAsked (tree self.now id) at.now.denominator }
        ensures truth { IfOk result (λ b. Tells b (tree self.now id) (point_of at.now)) }
        ensures overflow { IsErrOf result EvalStop.Overflow → SomeAtomPasses (tree self.now id) at.now }
    {
        truth_uncounted::<Brand>(self, id, at, Blank::new(1))
    }

    /// The formula as a tree. `Large` comes exactly where the tree has more than `limit` nodes, else `Memory`.
    pub fn unfold(&self, id: FormulaId, limit: u64) -> Result<Tree, Unfold>
        requires { IsId self.now id }
        ensures tree { IfOk result (λ t. tree_of t ≡ tree self.now id) }
        ensures small { OnOk result (nodes (tree self.now id) ≤ limit) }
        ensures large { IsErrOf result Unfold.Large → limit < nodes (tree self.now id) }
    {
        let facts = self.facts(id);
        if limit < facts.nodes {
            return Err(Unfold::Large);
        }
        if facts.nodes == u64::MAX {
            return Err(Unfold::Memory);
        }
        Ok(unfolded(self.alloc, self, id)?)
    }

    /// Keeps the formulas with these ids and what stands in them, gives up all others, and gives the new ids in order. Old
    /// ids name nothing afterwards. Its only error is `Memory`, which leaves the store as it was.
    pub fn keep_only(&mut self, roots: &[FormulaId]) -> Result<Vec<FormulaId>, StoreError>
        requires { AllByRecursion (IsId self.old) roots.now }
        ensures kept { IfOk result (λ ids. AreMade (IsId self.new) (tree self.new) ids.items (map (tree self.old) roots.now)) }
        ensures few { OnOk result ((needed : List FormulaId) → IsOrder self.old roots.now needed → length self.new ≤ length needed) }
        ensures unchanged { OnErr result (self.new ≡ self.old) }
    {
        let mut kept = Store::new(self.alloc);
        let ids = copied(self.alloc, self, roots, &mut kept)?;
        *self = kept;
        Ok(ids)
    }

    /// Takes in what was made beside a store, which this one begins like, and gives the id of the formula that is wanted. The
    /// formulas of this store keep their ids. Its only error is `Memory`, which leaves the store as it was.
    pub fn absorb(&mut self, delta: Delta) -> Result<FormulaId, StoreError>
        requires { delta.begun ≤ length self.old }
        ensures made { IfOk result (λ id. IsMade (IsId self.new) (tree self.new) id (tree_on self.old delta)) }
        ensures kept { Keeps (IsId self.old) (tree self.old) (IsId self.new) (tree self.new) }
        ensures few { length self.new ≤ length self.old + length delta.own }
        ensures grown { Grows self.old self.new }
        ensures unchanged { OnErr result (self.new ≡ self.old) }
    {
        let count = self.len();
        match taken_in(self.alloc, self, &delta) {
            Ok(id) => Ok(id),
            Err(_) => {
                self.cut(count);
                Err(StoreError::Memory)
            }
        }
    }

    // Keeps the first so many formulas with their ids. It takes no memory.
    fn cut(&mut self, count: usize)
        requires { count ≤ length self.old }
        ensures { self.new ≡ take count self.old }
    {
        self.nodes.truncate(count);
    }

    // The id of the formula of this shape, if it is there. It takes no memory.
    pub(crate) fn find(&self, shape: &Shape<FormulaId>) -> Option<FormulaId>
        ensures { MatchOption result ((i : ℕ) → ¬ (slice_get self.now i ≡ Some shape.now)) (λ id. slice_get self.now id.number ≡ Some shape.now) }
    {
        match self.nodes.get_index_of(shape) {
            Some(number) => Some(FormulaId { number }),
            None => None,
        }
    }
}

impl Known for Store {
    ghost nodes = { λ s. s };

    fn count(&self) -> usize {
        self.len()
    }

    fn known(&self, id: FormulaId) -> Facts {
        self.facts(id)
    }
}

impl Maker for Store {
    ghost use Rattle.formula_store.specs.Nodes.{Front};

    type Id = FormulaId;

    ghost is_id = { IsId };

    ghost tree = { tree };

    /// The id of the formula of this shape, an old one where the formula is there. Its only error is `Memory`.
    fn make(&mut self, shape: Shape<FormulaId>) -> Result<FormulaId, MakeError>
        requires ids { AllIds (IsId self.old) shape }
        requires proper { IsProperShape shape }
        ensures made { IfOk result (λ id. IsMade (IsId self.new) (tree self.new) id (tree_over (tree self.old) shape)) }
        ensures kept { Keeps (IsId self.old) (tree self.old) (IsId self.new) (tree self.new) }
        ensures memory { IfErr result (λ e. e ≡ MakeError.Memory) }
        ensures node { IfOk result (λ id. Makes self.old shape id self.new) }
        ensures front { Front self.old self.new }
        ensures few { length self.new ≤ length self.old + 1 }
        ensures unchanged { OnErr result (self.new ≡ self.old) }
    {
        let facts = facts_of(self, &shape);
        let Ok((number, _)) = self.nodes.insert_full(shape, facts) else {
            return Err(MakeError::Memory);
        };
        Ok(FormulaId { number })
    }

    /// The height of the formula. It takes no memory.
    fn height(&self, id: FormulaId) -> u64 {
        self.facts(id).height
    }
}
