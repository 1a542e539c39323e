//! A shared formula as a tree.

ghost use Rattle.std.specs.Prelude.{◌≡◌, ◌<◌, IfOk, map};
ghost use Rattle.std.specs.List.{AllByRecursion};
ghost use Rattle.formula_tree.specs.Shapes.{AllIds};
ghost use Rattle.formula_tree.specs.Trees.{tree_of};
ghost use Rattle.formula_store.specs.Nodes.{tree, IsId};

use crate::id::FormulaId;
use crate::store::Store;
use formula_tree::{Ids, Shape, Tree};
use std::alloc::{AllocError, Global};

/// The tree of the formula. The recursion is as deep as the tree is high.
#[cycle(unfold)]
pub(crate) fn unfolded(alloc: Global, store: &Store, id: FormulaId) -> Result<Tree, AllocError>
    requires { IsId store.now id }
    ensures { IfOk result (λ t. tree_of t ≡ tree store.now id) }
{
    match store.shape(id) {
        Shape::True => Tree::over(alloc, Shape::True),
        Shape::False => Tree::over(alloc, Shape::False),
        Shape::One(atom) => Tree::over(
            alloc,
            Shape::One(atom.copy(alloc).map_err(|_| AllocError)?),
        ),
        Shape::And(ids) => Tree::over(
            alloc,
            Shape::And(Ids::of(all_unfolded(alloc, store, id, ids.items())?)),
        ),
        Shape::Or(ids) => Tree::over(
            alloc,
            Shape::Or(Ids::of(all_unfolded(alloc, store, id, ids.items())?)),
        ),
        Shape::Not(f) => Tree::over(alloc, Shape::Not(unfolded(alloc, store, *f)?)),
        Shape::Impl(f, g) => {
            let left = unfolded(alloc, store, *f)?;
            let right = unfolded(alloc, store, *g)?;
            Tree::over(alloc, Shape::Impl(left, right))
        }
        Shape::Repl(f, g) => {
            let left = unfolded(alloc, store, *f)?;
            let right = unfolded(alloc, store, *g)?;
            Tree::over(alloc, Shape::Repl(left, right))
        }
        Shape::Equiv(f, g) => {
            let left = unfolded(alloc, store, *f)?;
            let right = unfolded(alloc, store, *g)?;
            Tree::over(alloc, Shape::Equiv(left, right))
        }
        Shape::Ex(x, f) => Tree::over(alloc, Shape::Ex(*x, unfolded(alloc, store, *f)?)),
        Shape::All(x, f) => Tree::over(alloc, Shape::All(*x, unfolded(alloc, store, *f)?)),
    }
}

// The trees of the formulas, which stand in one with a greater number.
#[cycle(unfold)]
fn all_unfolded(
    alloc: Global,
    store: &Store,
    above: FormulaId,
    ids: &[FormulaId],
) -> Result<Vec<Tree>, AllocError>
    requires above { IsId store.now above }
    requires below { AllByRecursion (λ id. id.number < above.number) ids.now }
    ensures { IfOk result (λ ts. map tree_of ts.items ≡ map (tree store.now) ids.now) }
{
    let mut trees = Vec::new(alloc);
    for id in ids {
        trees.push(unfolded(alloc, store, *id)?)?;
    }
    Ok(trees)
}
