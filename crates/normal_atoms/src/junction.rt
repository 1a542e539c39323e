// How two atoms are joined, and what their join is where it is settled.
ghost use Rattle.std.specs.Prelude.{◌≡◌};
ghost use Rattle.normal_atoms.specs.Computed.{is_told};
ghost use Rattle.normal_atoms.specs.Junctions.{absorbing};

use crate::answers::Merged;
use logic_meaning::Junction;

// Whether they are joined by `and`.
pub(crate) fn is_and(junction: Junction) -> bool
    ensures { result ≡ is_told junction }
{
    matches!(junction, Junction::Conjunction)
}

// An intersection that is empty is false, a union that is everything is true.
pub(crate) fn absorbing(junction: Junction) -> Merged
    ensures { result ≡ absorbing junction }
{
    match junction {
        Junction::Conjunction => Merged::False,
        Junction::Disjunction => Merged::True,
    }
}
