// Copies of formulas.
ghost use Rattle.std.specs.Prelude.{◌≡◌, IfOk, IfErr};
ghost use Rattle.logic_meaning.specs.Every.{EveryOf};
ghost use Rattle.normal_atoms.specs.Atoms.{IsWellFormed};
ghost use Rattle.nnf_trees.specs.Nnfs.{nnf_of, nnfs_of, nnfs_atoms, IsProper};

use nnf_trees::{Members, Nnf};
use std::alloc::{AllocError, Global};

/// An equal formula. The recursion is as deep as the formula is high.
#[cycle(copied)]
#[tactic(auto, using(nnf_trees::proofs::NnfEquations::nnfs))]
pub(crate) fn copied(alloc: Global, f: &Nnf) -> Result<Nnf, AllocError>
    requires { IsProper f.now }
    ensures formula { IfOk result (λ g. nnf_of g ≡ nnf_of f.now) }
    ensures proper { IfOk result IsProper }
{
    match f {
        Nnf::Constant(truth) => Ok(Nnf::Constant(*truth)),
        Nnf::One(atom) => {
            let atom = atom.copy(alloc).map_err(|_| AllocError)?;
            Ok(Nnf::One(atom))
        }
        Nnf::Joined(junction, members) => {
            let members = all_copied(alloc, members)?;
            Ok(Nnf::Joined(*junction, members))
        }
        Nnf::Quantified(quantifier, x, inner) => {
            let inner = Box::new(alloc, copied(alloc, inner)?)?;
            Ok(Nnf::Quantified(*quantifier, *x, inner))
        }
    }
}

// The same of each member.
#[cycle(copied)]
fn all_copied(alloc: Global, fs: &Members) -> Result<Members, AllocError>
    requires { EveryOf IsWellFormed (nnfs_atoms fs.now) }
    ensures formulas { IfOk result (λ r. nnfs_of r ≡ nnfs_of fs.now) }
    ensures proper { IfOk result (λ r. EveryOf IsWellFormed (nnfs_atoms r)) }
{
    let mut made = Vec::new(alloc);
    for f in fs.items() {
        made.push(copied(alloc, f)?)?;
    }
    Ok(Members::of(made))
}
