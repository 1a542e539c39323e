//! The branches that were worked on before.

ghost use Rattle.std.specs.Prelude.{◌≡◌, ◌++◌, ◌∷◌, [], OnOk, IsTrue};
ghost use Rattle.logic_meaning.specs.Some.{SomeOf};
ghost use Rattle.branch_rounds.specs.Branches.{IsAlike};
ghost use Rattle.branch_rounds.specs.Turns.{Remembers};

use crate::branch::Branch;
use crate::rounds::all_of;
use crate::spread::same_names;
use formula_store::FormulaId;
use std::alloc::{AllocError, Global};
use std::collections::HashMap;
use std::marker::Model;

/// Branches by their formula and the names left in them.
#[derive(Drop)]
pub(crate) struct Past {
    branches: Vec<Branch>,
    /// Where the last branch stands that has a formula and so many names left.
    places: HashMap<(FormulaId, usize), usize>,
}

impl Model for Past {
    ghost use Rattle.branch_rounds.specs.Branches.{Seen};
    ghost use Rattle.std.specs.Prelude.{List};

    ghost Value = { List Seen };

    ghost view = { λ s. s.branches.items };
}

impl Past {
    /// No branches.
    pub(crate) fn new(alloc: Global) -> Past
        ensures { result ≡ [] }
    {
        Past {
            branches: Vec::new(alloc),
            places: HashMap::new(alloc),
        }
    }

    /// Whether the last branch with the formula of this one, and with as many names left, has the same names left.
    pub(crate) fn has(&self, branch: &Branch) -> bool
        ensures { IsTrue result → SomeOf (IsAlike branch.now) self.now }
    {
        let Some(place) = self.places.get(&(branch.formula(), branch.left().len())) else {
            return false;
        };
        match self.branches.get(*place) {
            Some(other) => is_alike(branch, other),
            None => false,
        }
    }

    /// Puts a branch with the formula of this one, and with the same names left, last. Its only error is want of memory.
    pub(crate) fn add(&mut self, alloc: Global, branch: &Branch) -> Result<(), AllocError>
        ensures { OnOk result (Remembers self.old branch.now self.new) }
    {
        let left = all_of(alloc, branch.left())?;
        let key = (branch.formula(), left.len());
        let place = self.branches.len();
        self.branches
            .push(Branch::of(branch.formula(), Vec::new(alloc), left))?;
        let Ok(_before) = self.places.insert(key, place) else {
            return Err(AllocError);
        };
        Ok(())
    }
}

// Whether the second branch has the formula of the first, and the same names left.
fn is_alike(branch: &Branch, other: &Branch) -> bool
    ensures { IsTrue result → IsAlike branch.now other.now }
{
    branch.formula() == other.formula() && same_names(other.left(), branch.left())
}
