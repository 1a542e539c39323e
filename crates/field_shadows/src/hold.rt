//! How atoms hold a name.

ghost use Rattle.std.specs.Prelude.{◌≡◌, pos};
ghost use Rattle.logic_meaning.specs.Form.{coefficient};
ghost use Rattle.logic_meaning.specs.Atom.{Compare};
ghost use Rattle.normal_atoms.specs.Atoms.{atom_of, relation_of};
ghost use Rattle.field_shadows.specs.Holds.{bound_relation, IsHold};

use crate::signed::Signed;
use linear_forms::Linear;
use logic_meaning::VarId;
use normal_atoms::{Atom, Rel};

/// A form that is to be at most 0, or below 0 where the bound is strict.
#[derive(Clone, Copy, Debug)]
pub(crate) struct Bound<'a> {
    pub(crate) form: Signed<'a>,
    pub(crate) strict: bool,
}

/// How an atom holds a name: not at all, by an equation, from above, from below, or otherwise.
#[derive(Clone, Copy, Debug)]
pub(crate) enum Hold<'a> {
    Absent,
    Equation(&'a Linear),
    Upper(Bound<'a>),
    Lower(Bound<'a>),
    Other,
}

impl<'a> Hold<'a> {
    /// How the atom holds the name.
    pub(crate) fn of(atom: &'a Atom, name: VarId) -> Hold<'a>
        ensures { IsHold name.number (atom_of atom.now) result }
    {
        match atom {
            Atom::Compare(relation, form) => Hold::of_comparison(*relation, form, name),
            Atom::Congruent { form, .. } if form.coefficient(name) == 0 => Hold::Absent,
            Atom::Congruent { .. } => Hold::Other,
        }
    }

    // How it is held where the form has the relation to 0.
    fn of_comparison(relation: Rel, form: &'a Linear, name: VarId) -> Hold<'a>
        ensures { IsHold name.number (Compare (relation_of relation) form.now) result }
    {
        if form.coefficient(name) == 0 {
            return Hold::Absent;
        }
        match relation {
            Rel::Equal => Hold::Equation(form),
            Rel::Differs => Hold::Other,
            Rel::Less => Hold::of_bound(form, false, true, name),
            Rel::AtMost => Hold::of_bound(form, false, false, name),
            Rel::Greater => Hold::of_bound(form, true, true, name),
            Rel::AtLeast => Hold::of_bound(form, true, false, name),
        }
    }

    // How it is held where the form, turned or not, is bounded.
    fn of_bound(form: &'a Linear, turned: bool, strict: bool, name: VarId) -> Hold<'a>
        requires { ¬ (coefficient name.number form.now ≡ pos 0) }
        ensures { IsHold name.number (Compare (bound_relation turned strict) form.now) result }
    {
        let form = Signed { form, turned };
        let bound = Bound { form, strict };
        if form.coefficient(name) > 0 {
            Hold::Upper(bound)
        } else {
            Hold::Lower(bound)
        }
    }
}
