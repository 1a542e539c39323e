// A formula that is left, and the test points that led to it.
ghost use Rattle.std.specs.Prelude.{◌≡◌, ◌∷◌, IfOk};
ghost use Rattle.nnf_trees.specs.Nnfs.{AreProper};
ghost use Rattle.reference_engine.specs.Told.{formulas_of, all_bare};
ghost use Rattle.reference_engine.specs.Stand.{StandFor, AreSound, IsZeroPoint};

use linear_forms::Linear;
use logic_meaning::VarId;
use nnf_trees::Nnf;
use std::alloc::{AllocError, Global};
use test_points::{Place, TestPoint};

/// A formula that is left, and the test points that led to it, the last one first.
#[derive(Drop)]
pub struct Leaf {
    pub formula: Nnf,
    pub points: Vec<TestPoint>,
}

/// A point before others, all copied.
pub(crate) fn with_point(
    alloc: Global,
    point: &TestPoint,
    points: &[TestPoint],
) -> Result<Vec<TestPoint>, AllocError>
    ensures { IfOk result (λ v. v.items ≡ point.now ∷ points.now) }
{
    let first = point.copy(alloc).map_err(|_| AllocError)?;
    let mut all = vec![in alloc; first]?;
    for other in points {
        let copy = other.copy(alloc).map_err(|_| AllocError)?;
        all.push(copy)?;
    }
    Ok(all)
}

/// The point at which a name is put where it stands in no atom: 0.
pub(crate) fn zero_point(alloc: Global, name: VarId) -> TestPoint
    ensures { IsZeroPoint name result }
{
    TestPoint {
        name,
        place: Place::Exact,
        form: Linear::constant(alloc, 0),
        over: 1,
        period: 0,
    }
}

/// The formulas, to which no point has led.
pub fn without_points(alloc: Global, formulas: Vec<Nnf>) -> Result<Vec<Leaf>, AllocError>
    requires { AreProper formulas.items }
    ensures stand { IfOk result (λ v. StandFor v.items (all_bare (formulas_of formulas.items))) }
    ensures sound { IfOk result (λ v. AreSound v.items) }
{
    let mut leaves = Vec::new(alloc);
    for formula in formulas {
        let leaf = Leaf {
            formula,
            points: Vec::new(alloc),
        };
        leaves.push(leaf)?;
    }
    Ok(leaves)
}
