ghost use Rattle.std.specs.Prelude.{◌≡◌};
ghost use Rattle.logic_meaning.specs.Ways.{is_same};

use logic_meaning::Junction;

/// Whether members that are joined by this junction are joined as the atoms of an inner list.
pub(crate) fn is_inner(inner: Junction, junction: Junction) -> bool
    ensures { result ≡ is_same inner junction }
{
    match (inner, junction) {
        (Junction::Conjunction, Junction::Conjunction) => true,
        (Junction::Disjunction, Junction::Disjunction) => true,
        _ => false,
    }
}
