//! A formula in negation normal form, put into a store.

ghost use Rattle.std.specs.Prelude.{◌≡◌, IfOk, map};
ghost use Rattle.std.specs.List.{AllByRecursion};
ghost use Rattle.logic_meaning.specs.Every.{EveryOf};
ghost use Rattle.normal_atoms.specs.Atoms.{IsWellFormed};
ghost use Rattle.formula_tree.specs.Makers.{IsMade, Keeps};
ghost use Rattle.formula_tree.specs.Trees.{members};
ghost use Rattle.formula_store.specs.Nodes.{IsId, tree};
ghost use Rattle.nnf_trees.specs.Nnfs.{nnf_of, nnfs_of, nnfs_atoms, IsProper};
ghost use Rattle.reference_engine.specs.Shared.{joined_shape, quantified_shape};

use formula_store::{FormulaId, Store};
use formula_tree::{Ids, MakeError, Maker, Shape};
use logic_meaning::{Junction, Quantifier, VarId};
use nnf_trees::{Members, Nnf};
use std::alloc::Global;

/// The id of the formula, an old one where it is there. No atom is copied, and the formulas of the store stay. Its only error is
/// `Memory`. The recursion is as deep as the formula is high.
#[cycle(shared)]
#[tactic(auto, using(nnf_trees::proofs::NnfEquations::nnfs))]
pub fn share(alloc: Global, store: &mut Store, f: Nnf) -> Result<FormulaId, MakeError>
    requires { IsProper f }
    ensures made { IfOk result (λ id. IsMade (IsId store.new) (tree store.new) id (nnf_of f)) }
    ensures kept { Keeps (IsId store.old) (tree store.old) (IsId store.new) (tree store.new) }
{
    match f {
        Nnf::Constant(true) => store.make(Shape::True),
        Nnf::Constant(false) => store.make(Shape::False),
        Nnf::One(atom) => store.make(Shape::One(atom)),
        Nnf::Joined(junction, members) => {
            let ids = share_all(alloc, store, members)?;
            store.make(joined(junction, Ids::of(ids)))
        }
        Nnf::Quantified(quantifier, x, inner) => {
            let id = share(alloc, store, Box::into_inner(inner))?;
            store.make(quantified(quantifier, x, id))
        }
    }
}

// The ids of the members, in their order.
#[cycle(shared)]
fn share_all(alloc: Global, store: &mut Store, fs: Members) -> Result<Vec<FormulaId>, MakeError>
    requires { EveryOf IsWellFormed (nnfs_atoms fs) }
    ensures are { IfOk result (λ ids. AllByRecursion (IsId store.new) ids.items) }
    ensures made { IfOk result (λ ids. members (map (tree store.new) ids.items) ≡ nnfs_of fs) }
    ensures kept { Keeps (IsId store.old) (tree store.old) (IsId store.new) (tree store.new) }
{
    let mut ids = Vec::new(alloc);
    for f in fs.into_items() {
        let id = share(alloc, store, f)?;
        ids.push(id).map_err(|_| MakeError::Memory)?;
    }
    Ok(ids)
}

// These formulas joined.
fn joined(junction: Junction, ids: Ids<FormulaId>) -> Shape<FormulaId>
    ensures { result ≡ joined_shape junction ids }
{
    match junction {
        Junction::Conjunction => Shape::And(ids),
        Junction::Disjunction => Shape::Or(ids),
    }
}

// The formula under a quantifier.
fn quantified(quantifier: Quantifier, x: VarId, id: FormulaId) -> Shape<FormulaId>
    ensures { result ≡ quantified_shape quantifier x id }
{
    match quantifier {
        Quantifier::Exists => Shape::Ex(x, id),
        Quantifier::ForAll => Shape::All(x, id),
    }
}
