// Lists of test points, with and without repeats.
ghost use Rattle.std.specs.Prelude.{◌≡◌, [], ◌∷◌, ◌++◌, All, map, is_ok, if◌then◌else◌, IfOk};
ghost use Rattle.logic_meaning.specs.Answer.{same_place};
ghost use Rattle.logic_meaning.specs.Distinct.{distinct};
ghost use Rattle.test_points.specs.Points.{place_of, IsPointOf};

use crate::points::TestPoint;
use indexmap::IndexSet;
use logic_meaning::VarId;
use std::alloc::{AllocError, Global};

/// Puts a test point last. After an error the list is as before.
pub fn push_point(points: &mut Vec<TestPoint>, point: TestPoint) -> Result<(), AllocError>
    ensures { points.new.items ≡ (if is_ok result then points.old.items ++ point ∷ [] else points.old.items) }
{
    points.push(point).map_err(|_| AllocError)
}

/// The test points of a name, each once, at its first place: in time linear in their number.
pub fn distinct_points(
    alloc: Global,
    x: VarId,
    points: Vec<TestPoint>,
) -> Result<Vec<TestPoint>, AllocError>
    requires { All (IsPointOf x) points.items }
    ensures places { IfOk result (λ v. map place_of v.items ≡ distinct same_place (map place_of points.items)) }
    ensures well_formed { IfOk result (λ v. All (IsPointOf x) v.items) }
{
    let set: IndexSet<TestPoint> = match points.into_iter().collect(alloc) {
        Ok(set) => set,
        Err(_) => return Err(AllocError),
    };
    match set.into_iter().collect(alloc) {
        Ok(points) => Ok(points),
        Err(_) => Err(AllocError),
    }
}
