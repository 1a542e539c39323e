//! One standing assumption.

ghost use Rattle.std.specs.Prelude.{◌≡◌, ◌<◌, ◌+◌, ◌++◌, OnOk, IsErrOf, length, map};
ghost use Rattle.std.specs.List.{AllByRecursion};
ghost use Rattle.normal_atoms.specs.Atoms.{atom_of, IsWellFormed};
ghost use Rattle.formula_laws.specs.Within.{IsTreeWithin};
ghost use Rattle.logic_meaning.specs.Text.{tree_text};
ghost use Rattle.logic_meaning.specs.Writing.{text_limit};
ghost use Rattle.program_meaning.specs.Assumptions.{atoms_alone};
ghost use Rattle.session_state.specs.Trees.{assumption_tree, IsFormed};

use formula_tree::Names;
use normal_atoms::Atom;
use redlog_printer::{Output, PrintError, put_atom};
use std::alloc::{AllocError, Global};

/// A standing assumption.
#[derive(PartialEq, Eq, Hash, Drop)]
pub enum Assumption {
    False,
    One(Atom),
}

impl Assumption {
    /// Adds the assumption to the atoms, where it is one.
    pub(crate) fn put_atom(&self, alloc: Global, atoms: &mut Vec<Atom>) -> Result<(), AllocError>
        requires formed { IsFormed self.now }
        requires well_formed { AllByRecursion IsWellFormed atoms.old.items }
        ensures atoms { OnOk result (map atom_of atoms.new.items ≡ map atom_of atoms.old.items ++ atoms_alone (assumption_tree self.now)) }
        ensures well_formed { AllByRecursion IsWellFormed atoms.new.items }
    {
        if let Assumption::One(atom) = self {
            let atom = atom.copy(alloc).map_err(|_| AllocError)?;
            atoms.push(atom)?;
        }
        Ok(())
    }
}

/// Writes the assumption, with something before it.
pub(crate) fn put_assumption(
    out: &mut Output,
    names: &Names,
    before: &[u8],
    assumption: &Assumption,
) -> Result<(), PrintError>
    requires { IsTreeWithin (length names.now) (assumption_tree assumption.now) }
    ensures wrote { OnOk result (out.new ≡ out.old ++ (before.now ++ tree_text names.now (assumption_tree assumption.now))) }
    ensures long { IsErrOf result PrintError.Text → text_limit < length out.old + length (before.now ++ tree_text names.now (assumption_tree assumption.now)) }
{
    out.put(before)?;
    match assumption {
        Assumption::False => out.put(b"false"),
        Assumption::One(atom) => put_atom(out, names, atom),
    }
}
