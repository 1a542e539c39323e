//! A formula with its quantified names chosen.

ghost use Rattle.std.specs.Prelude.{IfOk, IsErrOf};
ghost use Rattle.logic_meaning.specs.Every.{EveryOf};
ghost use Rattle.normal_atoms.specs.Atoms.{context_of, IsWellFormed};
ghost use Rattle.nnf_trees.specs.Nnfs.{nnf_of, nnfs_of, nnfs_atoms, IsProper};
ghost use Rattle.prenex_forms.specs.Chosen.{CanRename, CanRenameAll, IsRenamed, AreRenamed, Overflows, SomeOverflows};

use crate::atoms::renamed_atom;
use crate::chooser::Chooser;
use logic_meaning::VarId;
use nnf_trees::{Members, Nnf};
use normal_atoms::{AtomError, Context};
use std::alloc::Global;

/// The formula with its quantified names chosen and its atoms in normal form. `Overflow` comes exactly where the normal form of an
/// atom passes 2^127 - 1, else `Memory`. The recursion is as deep as the formula is high.
#[cycle(renamed)]
#[tactic(auto, using(nnf_trees::proofs::NnfEquations::nnfs))]
pub(crate) fn renamed(
    alloc: Global,
    context: Context,
    chooser: &mut Chooser,
    f: &Nnf,
) -> Result<Nnf, AtomError>
    requires proper { IsProper f.now }
    requires ready { CanRename (context_of context) chooser.old (nnf_of f.now) }
    ensures made { IfOk result (λ r. IsRenamed (context_of context) chooser.old (nnf_of f.now) (nnf_of r) chooser.new) }
    ensures proper { IfOk result IsProper }
    ensures overflow { IsErrOf result AtomError.Overflow → Overflows (context_of context) chooser.old (nnf_of f.now) }
{
    match f {
        Nnf::Constant(truth) => Ok(Nnf::Constant(*truth)),
        Nnf::One(atom) => renamed_atom(alloc, context, &chooser.now, atom),
        Nnf::Joined(junction, members) => {
            let members = all_renamed(alloc, context, chooser, members)?;
            Ok(Nnf::Joined(*junction, members))
        }
        Nnf::Quantified(quantifier, name, inner) => {
            let number = chooser.choose(*name)?;
            let before = chooser.now[name.number];
            chooser.rename(*name, number);
            let inner = renamed(alloc, context, chooser, inner)?;
            chooser.rename(*name, before);
            let inner = Box::new(alloc, inner).map_err(|_| AtomError::Memory)?;
            Ok(Nnf::Quantified(*quantifier, VarId { number }, inner))
        }
    }
}

// The same of each member.
#[cycle(renamed)]
fn all_renamed(
    alloc: Global,
    context: Context,
    chooser: &mut Chooser,
    fs: &Members,
) -> Result<Members, AtomError>
    requires proper { EveryOf IsWellFormed (nnfs_atoms fs.now) }
    requires ready { CanRenameAll (context_of context) chooser.old (nnfs_of fs.now) }
    ensures made { IfOk result (λ r. AreRenamed (context_of context) chooser.old (nnfs_of fs.now) (nnfs_of r) chooser.new) }
    ensures proper { IfOk result (λ r. EveryOf IsWellFormed (nnfs_atoms r)) }
    ensures overflow { IsErrOf result AtomError.Overflow → SomeOverflows (context_of context) chooser.old (nnfs_of fs.now) }
{
    let mut made = Vec::new(alloc);
    for f in fs.items() {
        let member = renamed(alloc, context, chooser, f)?;
        made.push(member).map_err(|_| AtomError::Memory)?;
    }
    Ok(Members::of(made))
}
