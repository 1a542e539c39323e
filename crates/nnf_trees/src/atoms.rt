// The atoms of a formula.
ghost use Rattle.std.specs.Prelude.{◌≡◌, ◌++◌, All, map, OnOk, IfOk};
ghost use Rattle.logic_meaning.specs.Every.{EveryOf};
ghost use Rattle.logic_meaning.specs.Atoms.{atoms_in, atoms_in_all, atoms_of};
ghost use Rattle.normal_atoms.specs.Atoms.{atom_of, IsWellFormed};
ghost use Rattle.nnf_trees.specs.Nnfs.{nnf_of, nnfs_of, nnfs_atoms, IsProper};

use crate::nnf::{Members, Nnf};
use indexmap::IndexSet;
use normal_atoms::Atom;
use std::alloc::{AllocError, Global};

/// The atoms of the formula, each once, in the order of their first places. The recursion is as deep as the formula is high.
pub fn distinct_atoms(alloc: Global, f: &Nnf) -> Result<Vec<Atom>, AllocError>
    requires { IsProper f.now }
    ensures atoms { IfOk result (λ v. map atom_of v.items ≡ atoms_of (nnf_of f.now)) }
    ensures well_formed { IfOk result (λ v. All IsWellFormed v.items) }
{
    let mut atoms = Vec::new(alloc);
    collect(alloc, &mut atoms, f)?;
    let set: IndexSet<Atom> = match atoms.into_iter().collect(alloc) {
        Ok(set) => set,
        Err(_) => return Err(AllocError),
    };
    match set.into_iter().collect(alloc) {
        Ok(atoms) => Ok(atoms),
        Err(_) => Err(AllocError),
    }
}

// Puts each place of an atom last.
#[cycle(collected)]
#[tactic(auto, using(crate::proofs::NnfEquations::nnfs, crate::proofs::AtomsOnce::listed_atoms))]
fn collect(alloc: Global, atoms: &mut Vec<Atom>, f: &Nnf) -> Result<(), AllocError>
    requires proper { IsProper f.now }
    requires well_formed { All IsWellFormed atoms.old.items }
    ensures atoms { OnOk result (map atom_of atoms.new.items ≡ map atom_of atoms.old.items ++ atoms_in (nnf_of f.now)) }
    ensures well_formed { OnOk result (All IsWellFormed atoms.new.items) }
{
    match f {
        Nnf::Constant(_) => Ok(()),
        Nnf::One(atom) => {
            let copy = atom.copy(alloc).map_err(|_| AllocError)?;
            atoms.push(copy)?;
            Ok(())
        }
        Nnf::Joined(_, members) => collect_all(alloc, atoms, members),
        Nnf::Quantified(_, _, g) => collect(alloc, atoms, g),
    }
}

// The same of each member.
#[cycle(collected)]
fn collect_all(alloc: Global, atoms: &mut Vec<Atom>, fs: &Members) -> Result<(), AllocError>
    requires proper { EveryOf IsWellFormed (nnfs_atoms fs.now) }
    requires well_formed { All IsWellFormed atoms.old.items }
    ensures atoms { OnOk result (map atom_of atoms.new.items ≡ map atom_of atoms.old.items ++ atoms_in_all (nnfs_of fs.now)) }
    ensures well_formed { OnOk result (All IsWellFormed atoms.new.items) }
{
    for f in fs.items() {
        collect(alloc, atoms, f)?;
    }
    Ok(())
}
