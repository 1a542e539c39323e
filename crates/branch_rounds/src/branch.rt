//! A branch of a block.

ghost use Rattle.std.specs.Prelude.{◌≡◌, IfOk, map, reverse};

use formula_store::FormulaId;
use logic_meaning::VarId;
use std::alloc::{AllocError, Global};
use std::marker::Model;
use test_points::TestPoint;

/// A branch of a block: what is left of the matrix, the test points that led to it, the first one first, and the names of the
/// block that are still to be put.
#[derive(Drop)]
pub struct Branch {
    formula: FormulaId,
    points: Vec<TestPoint>,
    left: Vec<VarId>,
}

impl Model for Branch {
    ghost use Rattle.branch_rounds.specs.Branches.{Seen};

    ghost Value = { Seen };

    ghost view = { λ b. record { formula = b.formula; points = b.points.items; left = b.left.items } };
}

impl Branch {
    /// The branch of this formula, to which these points led, with these names left. It takes no memory.
    pub fn of(formula: FormulaId, points: Vec<TestPoint>, left: Vec<VarId>) -> Branch
        ensures { result ≡ record { formula = formula; points = points.items; left = left.items } }
    {
        Branch {
            formula,
            points,
            left,
        }
    }

    /// What is left of the matrix.
    pub fn formula(&self) -> FormulaId
        ensures { result ≡ self.now.formula }
    {
        self.formula
    }

    /// The test points that led to it, the first one first.
    pub fn points(&self) -> &[TestPoint]
        ensures { result.now ≡ self.now.points }
    {
        &self.points
    }

    /// The names that are still to be put.
    pub fn left(&self) -> &[VarId]
        ensures { result.now ≡ self.now.left }
    {
        &self.left
    }

    /// The test points that led to it, the last one first, as the answers of a case stand. It takes no memory.
    pub fn into_answers(self) -> Vec<TestPoint>
        ensures { result.items ≡ reverse self.points }
    {
        let Branch { mut points, .. } = self;
        points.reverse();
        points
    }
}

/// What is left of the branches, in their order. Its only error is want of memory.
pub fn formulas_of(alloc: Global, branches: &[Branch]) -> Result<Vec<FormulaId>, AllocError>
    ensures { IfOk result (λ v. v.items ≡ map (λ b. b.formula) branches.now) }
{
    branches
        .iter()
        .map(|branch| branch.formula())
        .collect(alloc)
}
