ghost use Rattle.std.specs.Prelude.{◌≡◌, map, IfOk};
ghost use Rattle.formula_tree.specs.Shapes.{tree_over};
ghost use Rattle.formula_tree.specs.Trees.{tree_of, trees_of, members};

use crate::shape::Shape;
use logic_meaning::VarId;
use normal_atoms::Atom;
use std::alloc::{AllocError, Global};

/// A resolved formula: its names are numbers, and its atoms compare linear forms with 0.
#[derive(Drop)]
#[cycle(tree)]
pub enum Tree {
    True,
    False,
    One(Atom),
    And(Trees),
    Or(Trees),
    Not(Box<Tree>),
    Impl(Box<Tree>, Box<Tree>),
    Repl(Box<Tree>, Box<Tree>),
    Equiv(Box<Tree>, Box<Tree>),
    Ex(VarId, Box<Tree>),
    All(VarId, Box<Tree>),
}

impl Tree {
    /// The formula of this shape over its members.
    #[tactic(auto, using(crate::proofs::TreeEquations::trees))]
    pub fn over(alloc: Global, shape: Shape<Tree>) -> Result<Tree, AllocError>
        ensures { IfOk result (λ t. tree_of t ≡ tree_over tree_of shape) }
    {
        match shape {
            Shape::True => Ok(Tree::True),
            Shape::False => Ok(Tree::False),
            Shape::One(atom) => Ok(Tree::One(atom)),
            Shape::And(members) => Ok(Tree::And(Trees::of(members.into_items()))),
            Shape::Or(members) => Ok(Tree::Or(Trees::of(members.into_items()))),
            Shape::Not(f) => Ok(Tree::Not(Box::new(alloc, f)?)),
            Shape::Impl(f, g) => Ok(Tree::Impl(Box::new(alloc, f)?, Box::new(alloc, g)?)),
            Shape::Repl(f, g) => Ok(Tree::Repl(Box::new(alloc, f)?, Box::new(alloc, g)?)),
            Shape::Equiv(f, g) => Ok(Tree::Equiv(Box::new(alloc, f)?, Box::new(alloc, g)?)),
            Shape::Ex(x, f) => Ok(Tree::Ex(x, Box::new(alloc, f)?)),
            Shape::All(x, f) => Ok(Tree::All(x, Box::new(alloc, f)?)),
        }
    }
}

/// A list of resolved formulas.
#[derive(Drop)]
#[cycle(tree)]
pub struct Trees {
    pub(crate) list: Vec<Tree>,
}

impl Trees {
    /// The list of these formulas. It takes no memory.
    #[tactic(auto, using(crate::proofs::TreeEquations::trees))]
    pub fn of(list: Vec<Tree>) -> Trees
        ensures { trees_of result ≡ members (map tree_of list.items) }
    {
        Trees { list }
    }

    /// The formulas of the list, in their order. It takes no memory.
    #[tactic(auto, using(crate::proofs::TreeEquations::trees))]
    pub fn items(&self) -> &[Tree]
        ensures { trees_of self.now ≡ members (map tree_of result.now) }
    {
        &self.list
    }
}
