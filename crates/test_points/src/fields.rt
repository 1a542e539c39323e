// Test points of the ordered fields.
ghost use Rattle.std.specs.Prelude.{◌≡◌, All, map, IfOk, IfErr};
ghost use Rattle.logic_meaning.specs.FieldsPoints.{infinity_of, field_points_of};
ghost use Rattle.normal_atoms.specs.Atoms.{atom_of};
ghost use Rattle.test_points.specs.Points.{place_of, IsPointOf};

use crate::distinct::{distinct_points, push_point};
use crate::ends::atom_end;
use crate::error::PointError;
use crate::points::{Place, TestPoint};
use linear_forms::Linear;
use logic_meaning::{Side, VarId};
use normal_atoms::Atom;
use std::alloc::Global;

// The infinity of the side.
fn infinity(alloc: Global, x: VarId, side: Side) -> TestPoint
    ensures place { place_of result ≡ infinity_of side }
    ensures well_formed { IsPointOf x result }
{
    TestPoint {
        name: x,
        place: match side {
            Side::Lower => Place::MinusInfinity,
            Side::Upper => Place::PlusInfinity,
        },
        form: Linear::constant(alloc, 0),
        over: 1,
        period: 0,
    }
}

/// The test points of `x` in the atoms, each once (Loos and Weispfenning 1993): the infinity of the side, and then the ends
/// of the atoms' intervals that lie to the side, in lowest terms. Its only error is `Memory`.
pub fn field_points(
    alloc: Global,
    atoms: &[Atom],
    x: VarId,
    side: Side,
) -> Result<Vec<TestPoint>, PointError>
    ensures points { IfOk result (λ v. map place_of v.items ≡ field_points_of side x.number (map atom_of atoms.now)) }
    ensures well_formed { IfOk result (λ v. All (IsPointOf x) v.items) }
    ensures memory { IfErr result (λ e. e ≡ PointError.Memory) }
{
    let mut points = Vec::new(alloc);
    push_point(&mut points, infinity(alloc, x, side))?;
    for atom in atoms {
        if let Some(point) = atom_end(alloc, atom, x, side)? {
            push_point(&mut points, point)?;
        }
    }
    Ok(distinct_points(alloc, x, points)?)
}
