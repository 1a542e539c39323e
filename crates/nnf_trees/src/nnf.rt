ghost use Rattle.std.specs.Prelude.{◌≡◌, map};
ghost use Rattle.formula_tree.specs.Trees.{members};
ghost use Rattle.nnf_trees.specs.Nnfs.{nnf_of, nnfs_of, listed, nnf_atoms, nnfs_atoms};

use logic_meaning::{Junction, Quantifier, VarId};
use normal_atoms::Atom;

/// A resolved formula in negation normal form.
#[derive(Drop)]
#[cycle(nnf)]
pub enum Nnf {
    Constant(bool),
    One(Atom),
    Joined(Junction, Members),
    Quantified(Quantifier, VarId, Box<Nnf>),
}

/// A list of formulas in negation normal form.
#[derive(Drop)]
#[cycle(nnf)]
pub struct Members {
    list: Vec<Nnf>,
}

impl Members {
    /// The list of these formulas. It takes no memory.
    #[tactic(auto, using(crate::proofs::NnfEquations::nnfs))]
    pub fn of(list: Vec<Nnf>) -> Members
        ensures formulas { nnfs_of result ≡ members (map nnf_of list.items) }
        ensures atoms { nnfs_atoms result ≡ listed (map nnf_atoms list.items) }
    {
        Members { list }
    }

    /// The formulas of the list, in their order. It takes no memory.
    #[tactic(auto, using(crate::proofs::NnfEquations::nnfs))]
    pub fn items(&self) -> &[Nnf]
        ensures formulas { nnfs_of self.now ≡ members (map nnf_of result.now) }
        ensures atoms { nnfs_atoms self.now ≡ listed (map nnf_atoms result.now) }
    {
        &self.list
    }

    /// The formulas of the list, as a Vec. It takes no memory.
    #[tactic(auto, using(crate::proofs::NnfEquations::nnfs))]
    pub fn into_items(self) -> Vec<Nnf>
        ensures formulas { nnfs_of self ≡ members (map nnf_of result.items) }
        ensures atoms { nnfs_atoms self ≡ listed (map nnf_atoms result.items) }
    {
        let Members { list } = self;
        list
    }
}
