//! The critical values of a name in a formula of a store, each distinct subformula once.

ghost use Rattle.std.specs.Prelude.{map, option_map, MatchResult};
ghost use Rattle.exact_numbers.specs.Fraction.{frac_of};
ghost use Rattle.formula_laws.specs.TheoryAtoms.{AtomIn};
ghost use Rattle.logic_meaning.specs.Plain.{IsPlain};
ghost use Rattle.logic_meaning.specs.Some.{EachOf};
ghost use Rattle.formula_laws.specs.Equivalence.{InContext};
ghost use Rattle.normal_atoms.specs.Atoms.{atom_of, context_of};
ghost use Rattle.branch_rounds.specs.FromBranchPoints.{shape_atoms};
ghost use Rattle.formula_store.specs.Nodes.{tree, IsId};
ghost use Rattle.formula_tree.specs.Shapes.{IsProperShape};
ghost use Rattle.nnf_trees.specs.Placed.{Fails};
ghost use Rattle.plain_samples.specs.Roots.{IsNextCritical};
ghost use Rattle.plain_samples.specs.Told.{Lacks};
ghost use Rattle.engine_answers.specs.Searches.{IsLeastWith, IsSharedTree, are_within, criticals_sought};

use exact_numbers::Fraction;
use formula_store::{FormulaId, Store, StoreError};
use formula_tree::Shape;
use linear_forms::Values;
use logic_meaning::{Side, VarId};
use normal_atoms::{Context, Normal};
use plain_samples::{Branch, least_with_atom};
use reference_engine::atom_put;
use std::alloc::Global;
use test_points::PointError;

/// A formula of a store, in which a name may be put at a place.
#[derive(Drop)]
pub(crate) struct SharedBranch<'a> {
    pub(crate) context: Context,
    pub(crate) store: &'a Store,
    pub(crate) root: FormulaId,
}

impl Branch for SharedBranch<'_> {
    ghost context = { λ b. context_of b.context };

    ghost tree = { λ b. tree b.store.now b.root };

    ghost is_formula = { λ b. IsSharedTree (context_of b.context) b.store.now b.root };

    fn next_critical(
        &self,
        alloc: Global,
        side: Side,
        x: VarId,
        bound: Option<Fraction>,
        at: &Values,
    ) -> Result<Option<Fraction>, PointError> {
        let search = Search {
            alloc,
            context: self.context,
            side,
            x,
            bound,
            at,
        };
        search.least_in(self.store, self.root)
    }
}

// What is looked for: the least above a bound of the critical values of a name, as a side sees them, at a point.
#[derive(Drop)]
struct Search<'a> {
    alloc: Global,
    context: Context,
    side: Side,
    x: VarId,
    bound: Option<Fraction>,
    at: &'a Values,
}

impl Search<'_> {
    // The least in the formula, from one distinct subformula after the other. `Overflow` comes exactly where a number that is formed
    // for an atom passes 2^127 - 1, else `Memory`.
    fn least_in(&self, store: &Store, root: FormulaId) -> Result<Option<Fraction>, PointError>
        requires id { IsId store.now root }
        requires plain { IsPlain (tree store.now root) }
        requires inside { InContext (context_of self.now.context) (tree store.now root) }
        ensures { MatchResult result (IsNextCritical self.now.side (option_map frac_of self.now.bound) (criticals_sought self.now (tree store.now root))) (λ e. Lacks e (criticals_sought self.now (tree store.now root))) }
    {
        let ids = match store.subformulas(root) {
            Ok(ids) => ids,
            Err(StoreError::Memory) => return Err(PointError::Memory),
        };
        let mut least = None;
        for id in &ids {
            match self.least_with_shape(least, store.shape(*id)) {
                Ok(lesser) => least = lesser,
                Err(error) => return Err(error),
            }
        }
        Ok(least)
    }

    // The least of what may be there and of the critical value of the shape, if it is an atom. `Overflow` comes exactly where a
    // number that is formed for the atom passes 2^127 - 1, else `Memory`.
    fn least_with_shape(
        &self,
        least: Option<Fraction>,
        shape: &Shape<FormulaId>,
    ) -> Result<Option<Fraction>, PointError>
        requires proper { IsProperShape shape.now }
        requires inside { EachOf (AtomIn (context_of self.now.context)) (map atom_of (shape_atoms shape.now)) }
        ensures { MatchResult result (IsLeastWith self.now (option_map frac_of least) (map atom_of (shape_atoms shape.now))) (λ e. Fails e (are_within self.now (map atom_of (shape_atoms shape.now)))) }
    {
        let Shape::One(atom) = shape else {
            return Ok(least);
        };
        match atom_put(self.alloc, self.context, &[self.x], atom, self.at) {
            Ok(Normal::One(put)) => Ok(least_with_atom(self.side, self.x, self.bound, least, &put)),
            Ok(Normal::True | Normal::False) => Ok(least),
            Err(error) => Err(error),
        }
    }
}
