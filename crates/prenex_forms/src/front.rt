//! Quantifiers of a formula in negation normal form: how many blocks they need, and in which each stands.

ghost use Rattle.std.specs.Prelude.{◌≡◌, ◌++◌, IfSome, IfOk, OnOk};
ghost use Rattle.logic_meaning.specs.Every.{EveryOf};
ghost use Rattle.logic_meaning.specs.Shape.{blocks_from, most_blocks};
ghost use Rattle.normal_atoms.specs.Atoms.{IsWellFormed};
ghost use Rattle.nnf_trees.specs.Nnfs.{nnf_of, nnfs_of, nnfs_atoms, IsProper};
ghost use Rattle.logic_meaning.specs.Blocks.{matrix, matrices};
ghost use Rattle.prenex_forms.specs.Places.{level_behind, placed, placed_in};

use logic_meaning::{Quantifier, VarId};
use nnf_trees::{Members, Nnf};
use std::alloc::{AllocError, Global};

/// A quantified name, and the number of the block that it stands in.
#[derive(Clone, Copy, Debug, PartialEq, Eq)]
pub(crate) struct Place {
    pub(crate) level: usize,
    pub(crate) name: VarId,
}

/// How many blocks the prefix needs where its first block has this kind; `None` only where there are more than `u64::MAX`. The
/// recursion is as deep as the formula is high.
#[cycle(blocks)]
#[tactic(auto, using(nnf_trees::proofs::NnfEquations::nnfs, crate::proofs::Fronts::fronts))]
pub(crate) fn blocks_from(f: &Nnf, kind: Quantifier) -> Option<u64>
    ensures { IfSome result (λ n. n ≡ blocks_from (nnf_of f.now) kind) }
{
    match f {
        Nnf::Constant(_) | Nnf::One(_) => Some(0),
        Nnf::Joined(_, members) => most_blocks(members, kind),
        Nnf::Quantified(quantifier, _, inner) => {
            let own = blocks_from(inner, *quantifier)?.max(1);
            if *quantifier == kind {
                Some(own)
            } else {
                own.checked_add(1)
            }
        }
    }
}

// The most that a member needs.
#[cycle(blocks)]
fn most_blocks(members: &Members, kind: Quantifier) -> Option<u64>
    ensures { IfSome result (λ n. n ≡ most_blocks (nnfs_of members.now) kind) }
{
    let mut most: u64 = 0;
    for member in members.items() {
        most = most.max(blocks_from(member, kind)?);
    }
    Some(most)
}

/// The formula without its quantifiers. Their places are added, in the order of the text, where the formula stands behind a
/// block of this kind with this number. Its only error is want of memory. The recursion is as deep as the formula is high.
#[cycle(stripped)]
#[tactic(auto, using(nnf_trees::proofs::NnfEquations::nnfs, crate::proofs::Fronts::fronts))]
pub(crate) fn stripped(
    alloc: Global,
    f: Nnf,
    kind: Quantifier,
    level: usize,
    places: &mut Vec<Place>,
) -> Result<Nnf, AllocError>
    requires { IsProper f }
    ensures matrix { IfOk result (λ m. nnf_of m ≡ matrix (nnf_of f)) }
    ensures proper { IfOk result IsProper }
    ensures places { OnOk result (places.new.items ≡ places.old.items ++ placed kind level (nnf_of f)) }
{
    match f {
        Nnf::Constant(truth) => Ok(Nnf::Constant(truth)),
        Nnf::One(atom) => Ok(Nnf::One(atom)),
        Nnf::Joined(junction, members) => {
            let list = all_stripped(alloc, members, kind, level, places)?;
            Ok(Nnf::Joined(junction, list))
        }
        Nnf::Quantified(quantifier, name, inner) => {
            let level = level_behind(kind, level, quantifier)?;
            places.push(Place { level, name })?;
            stripped(alloc, Box::into_inner(inner), quantifier, level, places)
        }
    }
}

// The same of each member.
#[cycle(stripped)]
fn all_stripped(
    alloc: Global,
    fs: Members,
    kind: Quantifier,
    level: usize,
    places: &mut Vec<Place>,
) -> Result<Members, AllocError>
    requires { EveryOf IsWellFormed (nnfs_atoms fs) }
    ensures matrices { IfOk result (λ m. nnfs_of m ≡ matrices (nnfs_of fs)) }
    ensures proper { IfOk result (λ m. EveryOf IsWellFormed (nnfs_atoms m)) }
    ensures places { OnOk result (places.new.items ≡ places.old.items ++ placed_in kind level (nnfs_of fs)) }
{
    let mut made = Vec::new(alloc);
    for f in fs.into_items() {
        made.push(stripped(alloc, f, kind, level, places)?)?;
    }
    Ok(Members::of(made))
}

// The block of a quantifier behind a block of this kind with this number: that one, or the next.
fn level_behind(kind: Quantifier, level: usize, quantifier: Quantifier) -> Result<usize, AllocError>
    ensures { IfOk result (λ l. l ≡ level_behind kind level quantifier) }
{
    if quantifier == kind {
        return Ok(level);
    }
    level.checked_add(1).ok_or(AllocError)
}
