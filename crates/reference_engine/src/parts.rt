ghost use Rattle.std.specs.Prelude.{◌≡◌, [], ◌∷◌, IfOk, map, nat_eq, List, if◌then◌else◌};
ghost use Rattle.logic_meaning.specs.Shape.{is_in};
ghost use Rattle.normal_atoms.specs.Atoms.{atom_of, IsWellFormed};
ghost use Rattle.logic_meaning.specs.NormalForm.{negated_normal};
ghost use Rattle.logic_meaning.specs.Reference.{turned};
ghost use Rattle.logic_meaning.specs.declared.form.VarId.{VarId};
ghost use Rattle.nnf_trees.specs.Nnfs.{nnf_of, IsProper, AreProper};
ghost use Rattle.reference_engine.specs.Told.{formulas_of, numbers, is_ex};

use logic_meaning::{Quantifier, VarId};
use nnf_trees::{Nnf, negated};
use normal_atoms::{Atom, negate};
use std::alloc::{AllocError, Global};

/// The formula as the only branch.
pub(crate) fn alone(alloc: Global, f: Nnf) -> Result<Vec<Nnf>, AllocError>
    requires { IsProper f }
    ensures alone { IfOk result (λ v. formulas_of v.items ≡ formulas_of (f ∷ [])) }
    ensures proper { IfOk result (λ v. AreProper v.items) }
{
    Ok(vec![in alloc; f]?)
}

/// The formula, or for false the negation normal form of its negation.
pub(crate) fn turned(alloc: Global, sign: bool, f: Nnf) -> Result<Nnf, AllocError>
    requires { IsProper f }
    ensures turned { IfOk result (λ r. nnf_of r ≡ turned sign (nnf_of f)) }
    ensures proper { IfOk result IsProper }
{
    if sign { Ok(f) } else { negated(alloc, &f) }
}

/// The atom, or for false the one of the opposite truth.
pub(crate) fn signed(alloc: Global, atom: &Atom, sign: bool) -> Result<Atom, AllocError>
    requires { IsWellFormed atom.now }
    ensures atom { IfOk result (λ a. atom_of a ≡ (if sign then atom_of atom.now else negated_normal (atom_of atom.now))) }
    ensures well_formed { IfOk result IsWellFormed }
{
    let copy = if sign {
        atom.copy(alloc)
    } else {
        negate(alloc, atom)
    };
    copy.map_err(|_| AllocError)
}

/// The names with one before them.
pub fn before(mut names: Vec<VarId>, x: VarId) -> Result<Vec<VarId>, AllocError>
    ensures names { IfOk result (λ v. v.items ≡ x ∷ names.items) }
{
    names.insert(0, x)?;
    Ok(names)
}

/// Whether the quantifier is `ex`.
pub fn is_ex(quantifier: Quantifier) -> bool
    ensures { result ≡ is_ex quantifier }
{
    match quantifier {
        Quantifier::Exists => true,
        Quantifier::ForAll => false,
    }
}

/// Whether the name is one of the names.
pub fn stands_in(names: &[VarId], x: VarId) -> bool
    ensures { result ≡ is_in nat_eq x.number (numbers names.now) }
{
    for name in names {
        if *name == x {
            return true;
        }
    }
    false
}
