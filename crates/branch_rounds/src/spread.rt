//! The branches that a round makes.

ghost use Rattle.std.specs.Prelude.{◌≡◌, OnOk, IsTrue, []};
ghost use Rattle.logic_meaning.specs.Some.{SomeOf};
ghost use Rattle.branch_rounds.specs.Branches.{Takes, IsAlike};

use crate::branch::Branch;
use formula_store::FormulaId;
use logic_meaning::VarId;
use std::alloc::{AllocError, Global};
use std::collections::HashMap;
use std::marker::Model;

/// Branches, of which two with one formula do not stand one after the other with the same names left.
#[derive(Drop)]
pub(crate) struct Spread {
    branches: Vec<Branch>,
    /// Where the last branch with a formula stands.
    places: HashMap<FormulaId, usize>,
}

impl Model for Spread {
    ghost use Rattle.branch_rounds.specs.Branches.{Seen, ArePlaces};
    ghost use Rattle.std.specs.Prelude.{List};

    ghost Value = { List Seen };

    ghost view = { λ s. s.branches.items };

    ghost invariant = { λ s. ArePlaces s.branches.items s.places };
}

impl Spread {
    /// No branches.
    pub(crate) fn new(alloc: Global) -> Spread
        ensures { result ≡ [] }
    {
        Spread {
            branches: Vec::new(alloc),
            places: HashMap::new(alloc),
        }
    }

    /// Puts the branch last, unless the last one with its formula has the same names left.
    pub(crate) fn add(&mut self, branch: Branch) -> Result<(), AllocError>
        ensures { OnOk result (Takes self.old branch self.new) }
    {
        if self.has(&branch) {
            return Ok(());
        }
        let formula = branch.formula();
        let place = self.branches.len();
        self.branches.push(branch)?;
        let Ok(_before) = self.places.insert(formula, place) else {
            return Err(AllocError);
        };
        Ok(())
    }

    // Whether the last branch with the formula of this one has the same names left.
    fn has(&self, branch: &Branch) -> bool
        ensures { IsTrue result → SomeOf (IsAlike branch.now) self.now }
    {
        match self.places.get(&branch.formula()) {
            Some(place) => same_names(self.branches[*place].left(), branch.left()),
            None => false,
        }
    }

    /// The branches, in their order. It takes no memory.
    pub(crate) fn into_branches(self) -> Vec<Branch>
        ensures { result.items ≡ self }
    {
        let Spread { branches, .. } = self;
        branches
    }
}

/// Whether the names are the same, in the same order.
pub(crate) fn same_names(these: &[VarId], those: &[VarId]) -> bool
    ensures { IsTrue result → these.now ≡ those.now }
{
    these == those
}
