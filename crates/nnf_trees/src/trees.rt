ghost use Rattle.std.specs.Prelude.{◌≡◌, IfOk};
ghost use Rattle.logic_meaning.specs.Shape.{quantified};
ghost use Rattle.formula_tree.specs.Trees.{tree_of, trees_of};
ghost use Rattle.logic_meaning.specs.Fold.{joined};
ghost use Rattle.nnf_trees.specs.Nnfs.{nnf_of, nnfs_of};

use crate::nnf::{Members, Nnf};
use formula_tree::{Tree, Trees};
use logic_meaning::{Junction, Quantifier, VarId};
use std::alloc::{AllocError, Global};

/// The formula as a resolved formula. No atom is copied. The recursion is as deep as the formula is high.
#[cycle(resolved)]
#[tactic(auto, using(formula_tree::proofs::TreeEquations::trees, crate::proofs::NnfEquations::nnfs))]
pub fn into_tree(alloc: Global, f: Nnf) -> Result<Tree, AllocError>
    ensures { IfOk result (λ t. tree_of t ≡ nnf_of f) }
{
    match f {
        Nnf::Constant(true) => Ok(Tree::True),
        Nnf::Constant(false) => Ok(Tree::False),
        Nnf::One(atom) => Ok(Tree::One(atom)),
        Nnf::Joined(junction, members) => Ok(joined(junction, into_trees(alloc, members)?)),
        Nnf::Quantified(quantifier, x, g) => {
            let inner = into_tree(alloc, Box::into_inner(g))?;
            quantified(alloc, quantifier, x, inner)
        }
    }
}

// The same of each member.
#[cycle(resolved)]
fn into_trees(alloc: Global, fs: Members) -> Result<Trees, AllocError>
    ensures { IfOk result (λ ts. trees_of ts ≡ nnfs_of fs) }
{
    let mut trees = Vec::new(alloc);
    for f in fs.into_items() {
        trees.push(into_tree(alloc, f)?)?;
    }
    Ok(Trees::of(trees))
}

// The formulas joined.
#[tactic(auto, using(formula_tree::proofs::TreeEquations::trees))]
fn joined(junction: Junction, members: Trees) -> Tree
    ensures { tree_of result ≡ joined junction (trees_of members) }
{
    match junction {
        Junction::Conjunction => Tree::And(members),
        Junction::Disjunction => Tree::Or(members),
    }
}

// The formula under a quantifier.
#[tactic(auto, using(formula_tree::proofs::TreeEquations::trees))]
fn quantified(
    alloc: Global,
    quantifier: Quantifier,
    x: VarId,
    inner: Tree,
) -> Result<Tree, AllocError>
    ensures { IfOk result (λ t. tree_of t ≡ quantified quantifier x.number (tree_of inner)) }
{
    let inner = Box::new(alloc, inner)?;
    match quantifier {
        Quantifier::Exists => Ok(Tree::Ex(x, inner)),
        Quantifier::ForAll => Ok(Tree::All(x, inner)),
    }
}
