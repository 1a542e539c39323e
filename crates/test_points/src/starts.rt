// The ends of intervals over the integers, as the sides see them.
ghost use Rattle.std.specs.Prelude.{◌≡◌};
ghost use Rattle.normal_atoms.specs.Atoms.{atom_of, relation_of};
ghost use Rattle.test_points.specs.Starts.{first_step, has_end};

use crate::ends::seen;
use logic_meaning::{Side, VarId};
use normal_atoms::{Atom, Rel};

// By how much the first whole number lies behind the end of an interval at which the relation begins to be true, for the
// relation as the side sees it: of `=` and `>=` it is the end itself.
pub(crate) fn first_step(relation: Rel) -> Option<i128>
    ensures { result ≡ first_step (relation_of relation) }
{
    match relation {
        Rel::Equal | Rel::AtLeast => Some(0),
        Rel::Differs | Rel::Greater => Some(1),
        Rel::Less | Rel::AtMost => None,
    }
}

// Whether the atom has an end that lies to the side.
pub(crate) fn has_end(atom: &Atom, x: VarId, side: Side) -> bool
    ensures { result ≡ has_end side x.number (atom_of atom.now) }
{
    match atom {
        Atom::Compare(relation, form) => {
            let times = form.coefficient(x);
            times != 0 && first_step(seen(side, *relation, times < 0)).is_some()
        }
        Atom::Congruent { .. } => false,
    }
}
