ghost use Rattle.std.specs.Prelude.{◌≡◌, true, IfOk};
ghost use Rattle.logic_meaning.specs.Every.{EveryOf};
ghost use Rattle.normal_atoms.specs.Atoms.{IsWellFormed};
ghost use Rattle.nnf_trees.specs.Nnfs.{nnf_of, nnfs_of, nnfs_atoms, IsProper};
ghost use Rattle.nnf_trees.specs.Forms.{form, forms};

use crate::nnf::{Members, Nnf};
use normal_atoms::negate;
use std::alloc::{AllocError, Global};

/// The negation normal form of the negation. The recursion is as deep as the formula is high.
#[cycle(negated)]
#[tactic(auto, using(crate::proofs::NnfEquations::nnfs, crate::proofs::FormLaws::negations))]
pub fn negated(alloc: Global, f: &Nnf) -> Result<Nnf, AllocError>
    requires { IsProper f.now }
    ensures form { IfOk result (λ r. nnf_of r ≡ form true (nnf_of f.now)) }
    ensures proper { IfOk result IsProper }
{
    match f {
        Nnf::Constant(truth) => Ok(Nnf::Constant(!*truth)),
        Nnf::One(atom) => {
            let opposite = negate(alloc, atom).map_err(|_| AllocError)?;
            Ok(Nnf::One(opposite))
        }
        Nnf::Joined(junction, members) => {
            let opposites = all_negated(alloc, members)?;
            Ok(Nnf::Joined(junction.turned(true), opposites))
        }
        Nnf::Quantified(quantifier, x, g) => {
            let inner = Box::new(alloc, negated(alloc, g)?)?;
            Ok(Nnf::Quantified(quantifier.turned(true), *x, inner))
        }
    }
}

// The same of each member.
#[cycle(negated)]
fn all_negated(alloc: Global, fs: &Members) -> Result<Members, AllocError>
    requires { EveryOf IsWellFormed (nnfs_atoms fs.now) }
    ensures forms { IfOk result (λ r. nnfs_of r ≡ forms true (nnfs_of fs.now)) }
    ensures proper { IfOk result (λ r. EveryOf IsWellFormed (nnfs_atoms r)) }
{
    let mut made = Vec::new(alloc);
    for f in fs.items() {
        made.push(negated(alloc, f)?)?;
    }
    Ok(Members::of(made))
}
