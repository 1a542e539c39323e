// What a comparison says of a number infinitesimally beside another, and of one beyond all numbers.
ghost use Rattle.std.specs.Prelude.{◌≡◌, if◌then◌else◌};
ghost use Rattle.logic_meaning.specs.Form.{Form};
ghost use Rattle.logic_meaning.specs.Atom.{mirrored};
ghost use Rattle.logic_meaning.specs.FieldsSubstitution.{just_above, just_below};
ghost use Rattle.logic_meaning.specs.Substitution.{below_all};
ghost use Rattle.normal_atoms.specs.Atoms.{relation_of, tree_of, IsWellFormedNormal};
ghost use Rattle.logic_meaning.specs.NormalForm.{constant_tree};
ghost use Rattle.test_points.specs.Verdicts.{verdict_tree};

use normal_atoms::{Normal, Rel};

// A comparison is always true, never, or says a relation of a form to 0.
#[derive(Clone, Copy)]
pub(crate) enum Verdict {
    Always,
    Never,
    Holds(Rel),
}

// What the relation to 0 says of a number infinitesimally above, or else below, the value of a form.
pub(crate) fn beside(relation: Rel, above: bool) -> Verdict
    ensures { (v : Form) → verdict_tree result v ≡ (if above then just_above (relation_of relation) v else just_below (relation_of relation) v) }
{
    match relation {
        Rel::Equal => Verdict::Never,
        Rel::Differs => Verdict::Always,
        Rel::Less | Rel::AtMost if above => Verdict::Holds(Rel::Less),
        Rel::Less | Rel::AtMost => Verdict::Holds(Rel::AtMost),
        Rel::Greater | Rel::AtLeast if above => Verdict::Holds(Rel::AtLeast),
        Rel::Greater | Rel::AtLeast => Verdict::Holds(Rel::Greater),
    }
}

// Whether a number below, or else above, all numbers has the relation to 0.
pub(crate) fn far_out(relation: Rel, below: bool) -> bool
    ensures { constant_tree result ≡ (if below then below_all (relation_of relation) else below_all (mirrored (relation_of relation))) }
{
    match relation {
        Rel::Equal => false,
        Rel::Differs => true,
        Rel::Less | Rel::AtMost => below,
        Rel::Greater | Rel::AtLeast => !below,
    }
}

// Always true, or always false.
pub(crate) fn constant(holds: bool) -> Normal
    ensures value { tree_of result ≡ constant_tree holds }
    ensures well_formed { IsWellFormedNormal result }
{
    if holds { Normal::True } else { Normal::False }
}
