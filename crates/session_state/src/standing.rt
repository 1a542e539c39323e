//! The standing assumptions as a list.

ghost use Rattle.std.specs.Prelude.{◌≡◌, ◌<◌, ◌≤◌, ◌+◌, ◌++◌, [], map, take, IfOk, OnOk, OnErr, IsErrOf, length};
ghost use Rattle.std.specs.List.{AllByRecursion};
ghost use Rattle.normal_atoms.specs.Atoms.{atom_of, IsWellFormed};
ghost use Rattle.logic_meaning.specs.Some.{EachOf};
ghost use Rattle.formula_laws.specs.Within.{IsTreeWithin};
ghost use Rattle.logic_meaning.specs.Text.{tree_text};
ghost use Rattle.logic_meaning.specs.Writing.{text_limit};
ghost use Rattle.logic_meaning.specs.AnswerTexts.{separated};
ghost use Rattle.program_meaning.specs.Assumptions.{atoms_among};
ghost use Rattle.program_meaning.specs.Standing.{behind, standing_text};
ghost use Rattle.session_state.specs.Trees.{assumption_tree, standing_trees, IsFormed, IsFront};

use crate::assumption::{Assumption, put_assumption};
use formula_tree::Names;
use indexmap::IndexSet;
use normal_atoms::Atom;
use redlog_printer::{Output, PrintError};
use std::alloc::{AllocError, Global};
use std::marker::Model;

/// The assumptions that stand, in the order in which they were made.
#[derive(Drop)]
pub struct Standing {
    members: IndexSet<Assumption>,
}

impl Model for Standing {
    ghost use Rattle.std.specs.Prelude.{List};
    ghost use Rattle.std.specs.List.{AllByRecursion};
    ghost use Rattle.session_state.specs.declared.assumption.Assumption.{Assumption};
    ghost use Rattle.session_state.specs.Trees.{IsFormed};

    ghost Value = { List Assumption };

    ghost view = { λ s. s.members.keys };

    ghost invariant = { λ s. AllByRecursion IsFormed s.members.keys };
}

impl Standing {
    /// No assumptions.
    pub fn new(alloc: Global) -> Standing
        ensures { result ≡ [] }
    {
        Standing {
            members: IndexSet::new(alloc),
        }
    }

    /// Puts the assumption behind the others, where it is not among them. Want of memory changes nothing.
    pub fn put(&mut self, assumption: Assumption) -> Result<(), AllocError>
        requires { IsFormed assumption }
        ensures grown { OnOk result (standing_trees self.new ≡ behind (standing_trees self.old) (assumption_tree assumption)) }
        ensures front { IsFront self.old self.new }
        ensures unchanged { OnErr result (self.new ≡ self.old) }
    {
        match self.members.insert(assumption) {
            Ok(_) => Ok(()),
            Err(_) => Err(AllocError),
        }
    }

    /// The atoms among the assumptions.
    pub fn atoms(&self, alloc: Global) -> Result<Vec<Atom>, AllocError>
        ensures atoms { IfOk result (λ v. map atom_of v.items ≡ atoms_among (standing_trees self.now)) }
        ensures well_formed { IfOk result (λ v. AllByRecursion IsWellFormed v.items) }
    {
        let mut atoms = Vec::new(alloc);
        for assumption in self.members.as_slice() {
            assumption.put_atom(alloc, &mut atoms)?;
        }
        Ok(atoms)
    }

    /// The line of the assumptions, where the names of the list are numbered by their places. `Text` comes exactly where it is longer than
    /// 32 MiB, else `Memory`.
    pub fn text(&self, alloc: Global, names: &Names) -> Result<Vec<u8>, PrintError>
        requires { EachOf (IsTreeWithin (length names.now)) (standing_trees self.now) }
        ensures text { IfOk result (λ v. v.items ≡ standing_text names.now (standing_trees self.now)) }
        ensures short { OnOk result (length (standing_text names.now (standing_trees self.now)) ≤ text_limit) }
        ensures long { IsErrOf result PrintError.Text → text_limit < length (standing_text names.now (standing_trees self.now)) }
    {
        let mut out = Output::new(alloc);
        put_braced(&mut out, names, self.members.as_slice())?;
        Ok(out.into_bytes())
    }

    /// How many assumptions there are. It takes no memory.
    pub fn count(&self) -> usize
        ensures { result ≡ length self.now }
    {
        self.members.len()
    }

    /// Keeps the first so many assumptions, and takes the others back. It takes no memory.
    pub fn keep_first(&mut self, count: usize)
        requires { count ≤ length self.old }
        ensures { self.new ≡ take count self.old }
    {
        self.members.truncate(count);
    }

    /// Takes all assumptions back. It takes no memory.
    pub fn clear(&mut self)
        ensures { self.new ≡ [] }
    {
        self.members.clear();
    }
}

/// Writes the assumptions in braces.
fn put_braced(out: &mut Output, names: &Names, members: &[Assumption]) -> Result<(), PrintError>
    requires { EachOf (IsTreeWithin (length names.now)) (standing_trees members.now) }
    ensures wrote { OnOk result (out.new ≡ out.old ++ standing_text names.now (standing_trees members.now)) }
    ensures long { IsErrOf result PrintError.Text → text_limit < length out.old + length (standing_text names.now (standing_trees members.now)) }
{
    out.put(b"{")?;
    put_members(out, names, members)?;
    out.put(b"}")
}

/// Writes the assumptions with commas between them.
fn put_members(out: &mut Output, names: &Names, members: &[Assumption]) -> Result<(), PrintError>
    requires { EachOf (IsTreeWithin (length names.now)) (standing_trees members.now) }
    ensures wrote { OnOk result (out.new ≡ out.old ++ separated [] (map (tree_text names.now) (standing_trees members.now))) }
    ensures long { IsErrOf result PrintError.Text → text_limit < length out.old + length (separated [] (map (tree_text names.now) (standing_trees members.now))) }
{
    let mut before: &[u8] = b"";
    for assumption in members {
        put_assumption(out, names, before, assumption)?;
        before = b",";
    }
    Ok(())
}
