//! A test point put into one atom.

ghost use Rattle.std.specs.Prelude.{◌≡◌, pos, IsTrue, MatchResult};
ghost use Rattle.logic_meaning.specs.Form.{coefficient};
ghost use Rattle.logic_meaning.specs.Atom.{form_of};
ghost use Rattle.formula_laws.specs.TheoryAtoms.{AtomIn};
ghost use Rattle.logic_meaning.specs.StopLimits.{atom_within};
ghost use Rattle.normal_atoms.specs.Atoms.{atom_of, context_of, IsWellFormed};
ghost use Rattle.test_points.specs.Points.{place_of};
ghost use Rattle.virtual_subst.specs.Shared.{Stops, IsAtomPut, IsAtPlace};

use crate::error::SubstError;
use normal_atoms::{Atom, Context, Normal};
use std::alloc::Global;
use test_points::{PointError, TestPoint, substitute_field, substitute_integer};

/// A test point of a theory.
#[derive(Clone, Copy)]
pub(crate) struct At<'a> {
    pub(crate) context: Context,
    pub(crate) point: &'a TestPoint,
}

impl At<'_> {
    /// Whether the point's name stands in the atom, which stays as it is where it does not. It takes no memory.
    pub(crate) fn stands_in(&self, atom: &Atom) -> bool
        ensures { ¬ (IsTrue result) → coefficient self.now.point.now.name.number (form_of (atom_of atom.now)) ≡ pos 0 }
    {
        match atom {
            Atom::Compare(_, form) | Atom::Congruent { form, .. } => {
                form.coefficient(self.point.name) != 0
            }
        }
    }

    /// The atom with the point's name put at the point, in normal form (Loos and Weispfenning 1993, Cooper 1972). `Overflow`
    /// comes exactly where a number that is formed for it passes 2^127 - 1, else `Memory`.
    pub(crate) fn atom(&self, alloc: Global, atom: &Atom) -> Result<Normal, SubstError>
        requires well_formed { IsWellFormed atom.now }
        requires in_context { AtomIn (context_of self.now.context) (atom_of atom.now) }
        requires place { IsAtPlace self.now.context self.now.point.now }
        ensures { MatchResult result (IsAtomPut self.now.context self.now.point.now (atom_of atom.now)) (λ e. Stops e (atom_within (context_of self.now.context) self.now.point.now.name.number (place_of self.now.point.now) (atom_of atom.now))) }
    {
        let normal = match self.context {
            Context::Fields => substitute_field(alloc, atom, self.point),
            Context::Integers => substitute_integer(alloc, atom, self.point),
        };
        match normal {
            Ok(normal) => Ok(normal),
            Err(PointError::Overflow) => Err(SubstError::Overflow),
            Err(PointError::Nodes) => unreachable!(),
            Err(PointError::Memory) => Err(SubstError::Memory),
        }
    }
}
