ghost use Rattle.std.specs.Prelude.{◌≡◌, Some, None, IfOk, map, if◌then◌else◌};
ghost use Rattle.logic_meaning.specs.Fold.{fold_list, pieces_of, put_together, from_pieces};
ghost use Rattle.formula_tree.specs.Trees.{members};
ghost use Rattle.nnf_trees.specs.Nnfs.{nnf_of, AreProper, IsProper};

use crate::nnf::{Members, Nnf};
use logic_meaning::Junction;
use std::alloc::{AllocError, Global};

/// The formulas joined and folded: constants go or decide the whole, a member of the same junction gives its members, and one
/// that is left stands for the whole. No member is copied.
pub fn fold(alloc: Global, junction: Junction, list: Vec<Nnf>) -> Result<Nnf, AllocError>
    requires { AreProper list.items }
    ensures folded { IfOk result (λ f. nnf_of f ≡ fold_list junction (members (map nnf_of list.items))) }
    ensures proper { IfOk result IsProper }
{
    let mut pieces = Vec::new(alloc);
    for member in list {
        if !gather(&mut pieces, junction, member)? {
            return Ok(Nnf::Constant(junction == Junction::Disjunction));
        }
    }
    Ok(whole(junction, pieces))
}

// Puts what a member gives to the pieces; false where it decides the whole.
#[tactic(auto, using(crate::proofs::NnfEquations::nnfs))]
fn gather(pieces: &mut Vec<Nnf>, junction: Junction, member: Nnf) -> Result<bool, AllocError>
    requires pieces { AreProper pieces.old.items }
    requires member { IsProper member }
    ensures pieces { IfOk result (λ goes. put_together (Some (members (map nnf_of pieces.old.items))) (pieces_of junction (nnf_of member)) ≡ (if goes then Some (members (map nnf_of pieces.new.items)) else None)) }
    ensures proper { IfOk result (λ goes. AreProper pieces.new.items) }
{
    match member {
        Nnf::Constant(truth) => Ok(truth == (junction == Junction::Conjunction)),
        Nnf::One(atom) => {
            pieces.push(Nnf::One(atom))?;
            Ok(true)
        }
        Nnf::Joined(other, list) => {
            if other == junction {
                pieces.append(&mut list.into_items())?;
            } else {
                pieces.push(Nnf::Joined(other, list))?;
            }
            Ok(true)
        }
        Nnf::Quantified(quantifier, x, f) => {
            pieces.push(Nnf::Quantified(quantifier, x, f))?;
            Ok(true)
        }
    }
}

// The pieces joined, where one stands for the whole.
#[tactic(auto, using(crate::proofs::NnfEquations::nnfs))]
fn whole(junction: Junction, mut pieces: Vec<Nnf>) -> Nnf
    requires { AreProper pieces.items }
    ensures joined { nnf_of result ≡ from_pieces junction (Some (members (map nnf_of pieces.items))) }
    ensures proper { IsProper result }
{
    if pieces.len() > 1 {
        return Nnf::Joined(junction, Members::of(pieces));
    }
    match pieces.pop() {
        Some(f) => f,
        None => Nnf::Constant(junction == Junction::Conjunction),
    }
}
