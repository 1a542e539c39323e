//! A maker that keeps a tree of its own for each formula.

ghost use Rattle.std.specs.Prelude.{◌≡◌, [], map, IfOk, IfErr, IfSome};
ghost use Rattle.std.specs.List.{AllByRecursion};
ghost use Rattle.logic_meaning.specs.Sizes.{greatest_height};
ghost use Rattle.logic_meaning.specs.Sizes as sizes;
ghost use Rattle.formula_tree.specs.Trees.{tree_of, members};
ghost use Rattle.formula_tree.specs.Shapes.{AllIds, IsProperShape, tree_over};

use formula_tree::{Ids, MakeError, Maker, Shape, Tree};
use std::alloc::{AllocError, Global};

/// The id of a formula of a `PlainMaker`.
#[derive(Clone, Copy, Debug, PartialEq, Eq)]
pub struct PlainId {
    number: usize,
}

/// A formula and its height.
#[derive(Drop)]
struct Entry {
    tree: Tree,
    height: u64,
    ghost told: { height ≡ sizes.height (tree_of tree) },
}

/// Formulas, each a tree of its own. A formula that is made holds copies of its members.
#[derive(Drop)]
pub struct PlainMaker {
    entries: Vec<Entry>,
    alloc: Global,
}

impl PlainMaker {
    ghost use Rattle.formula_resolving.specs.Plain.{IsPlain, plain_tree, plain_trees};

    /// No formulas.
    pub fn new(alloc: Global) -> PlainMaker
        ensures { plain_trees result ≡ [] }
    {
        PlainMaker {
            entries: Vec::new(alloc),
            alloc,
        }
    }

    /// The tree of the formula. It takes no memory.
    pub fn plain(&self, id: PlainId) -> &Tree
        requires { IsPlain self.now id }
        ensures { tree_of result.now ≡ plain_tree self.now id }
    {
        &self.entries[id.number].tree
    }

    // The height of the formula.
    fn told_height(&self, id: PlainId) -> u64
        requires { IsPlain self.now id }
        ensures { result ≡ sizes.height (plain_tree self.now id) }
    {
        self.entries[id.number].height
    }

    // The greatest height of the formulas, 0 for none.
    fn greatest(&self, ids: &[PlainId]) -> u64
        requires { AllByRecursion (IsPlain self.now) ids.now }
        ensures { result ≡ greatest_height (members (map (plain_tree self.now) ids.now)) }
    {
        let mut greatest = 0u64;
        for id in ids {
            greatest = greatest.max(self.told_height(*id));
        }
        greatest
    }

    // The height of the formula of this shape, where it can be told.
    fn height_over(&self, shape: &Shape<PlainId>) -> Option<u64>
        requires { AllIds (IsPlain self.now) shape.now }
        ensures { IfSome result (λ h. h ≡ sizes.height (tree_over (plain_tree self.now) shape.now)) }
    {
        match shape {
            Shape::True | Shape::False | Shape::One(_) => Some(1),
            Shape::And(ids) | Shape::Or(ids) => self.greatest(ids.items()).checked_add(1),
            Shape::Not(member) | Shape::Ex(_, member) | Shape::All(_, member) => {
                self.told_height(*member).checked_add(1)
            }
            Shape::Impl(left, right) | Shape::Repl(left, right) | Shape::Equiv(left, right) => {
                let left = self.told_height(*left);
                let right = self.told_height(*right);
                left.max(right).checked_add(1)
            }
        }
    }

    // A copy of the formula's tree.
    fn copy(&self, id: PlainId) -> Result<Tree, AllocError>
        requires { IsPlain self.now id }
        ensures { IfOk result (λ t. tree_of t ≡ plain_tree self.now id) }
    {
        copied(self.alloc, self.plain(id))
    }

    // Copies of the formulas' trees, in their order.
    fn copies(&self, ids: &[PlainId]) -> Result<Vec<Tree>, AllocError>
        requires { AllByRecursion (IsPlain self.now) ids.now }
        ensures { IfOk result (λ ts. map tree_of ts.items ≡ map (plain_tree self.now) ids.now) }
    {
        let mut trees = Vec::new(self.alloc);
        for id in ids {
            trees.push(self.copy(*id)?)?;
        }
        Ok(trees)
    }

    // The tree of the formula of this shape.
    fn tree(&self, shape: Shape<PlainId>) -> Result<Tree, AllocError>
        requires { AllIds (IsPlain self.now) shape }
        ensures { IfOk result (λ t. tree_of t ≡ tree_over (plain_tree self.now) shape) }
    {
        let alloc = self.alloc;
        match shape {
            Shape::True => Tree::over(alloc, Shape::True),
            Shape::False => Tree::over(alloc, Shape::False),
            Shape::One(atom) => Tree::over(alloc, Shape::One(atom)),
            Shape::And(ids) => Tree::over(alloc, Shape::And(Ids::of(self.copies(ids.items())?))),
            Shape::Or(ids) => Tree::over(alloc, Shape::Or(Ids::of(self.copies(ids.items())?))),
            Shape::Not(f) => Tree::over(alloc, Shape::Not(self.copy(f)?)),
            Shape::Impl(f, g) => {
                let left = self.copy(f)?;
                let right = self.copy(g)?;
                Tree::over(alloc, Shape::Impl(left, right))
            }
            Shape::Repl(f, g) => {
                let left = self.copy(f)?;
                let right = self.copy(g)?;
                Tree::over(alloc, Shape::Repl(left, right))
            }
            Shape::Equiv(f, g) => {
                let left = self.copy(f)?;
                let right = self.copy(g)?;
                Tree::over(alloc, Shape::Equiv(left, right))
            }
            Shape::Ex(x, f) => Tree::over(alloc, Shape::Ex(x, self.copy(f)?)),
            Shape::All(x, f) => Tree::over(alloc, Shape::All(x, self.copy(f)?)),
        }
    }
}

impl Maker for PlainMaker {
    ghost use Rattle.formula_tree.specs.Makers.{IsMade, Keeps};
    ghost use Rattle.formula_resolving.specs.Plain.{IsPlain, plain_tree};

    type Id = PlainId;

    ghost is_id = { IsPlain };

    ghost tree = { plain_tree };

    /// The formula of this shape, over copies of its members. Its only error is `Memory`, which comes too where the height
    /// passes 2^64 - 1.
    fn make(&mut self, shape: Shape<PlainId>) -> Result<PlainId, MakeError>
        requires ids { AllIds (IsPlain self.old) shape }
        requires proper { IsProperShape shape }
        ensures made { IfOk result (λ id. IsMade (IsPlain self.new) (plain_tree self.new) id (tree_over (plain_tree self.old) shape)) }
        ensures kept { Keeps (IsPlain self.old) (plain_tree self.old) (IsPlain self.new) (plain_tree self.new) }
        ensures memory { IfErr result (λ e. e ≡ MakeError.Memory) }
    {
        let Some(height) = self.height_over(&shape) else {
            return Err(MakeError::Memory);
        };
        let Ok(tree) = self.tree(shape) else {
            return Err(MakeError::Memory);
        };
        let number = self.entries.len();
        if let Err(_failed) = self.entries.push(Entry { tree, height }) {
            return Err(MakeError::Memory);
        }
        Ok(PlainId { number })
    }

    /// The height of the formula. It takes no memory.
    fn height(&self, id: PlainId) -> u64
        requires { IsPlain self.now id }
        ensures { result ≡ sizes.height (plain_tree self.now id) }
    {
        self.told_height(id)
    }
}

/// A copy of a tree. The recursion is as deep as the tree is high.
#[tactic(auto, using(formula_tree::proofs::TreeEquations::trees))]
#[cycle(copies)]
fn copied(alloc: Global, tree: &Tree) -> Result<Tree, AllocError>
    ensures { IfOk result (λ t. tree_of t ≡ tree_of tree.now) }
{
    match tree {
        Tree::True => Ok(Tree::True),
        Tree::False => Ok(Tree::False),
        Tree::One(atom) => Ok(Tree::One(atom.copy(alloc).map_err(|_| AllocError)?)),
        Tree::And(members) => Tree::over(
            alloc,
            Shape::And(Ids::of(all_copied(alloc, members.items())?)),
        ),
        Tree::Or(members) => Tree::over(
            alloc,
            Shape::Or(Ids::of(all_copied(alloc, members.items())?)),
        ),
        Tree::Not(f) => Tree::over(alloc, Shape::Not(copied(alloc, f)?)),
        Tree::Impl(f, g) => {
            let left = copied(alloc, f)?;
            let right = copied(alloc, g)?;
            Tree::over(alloc, Shape::Impl(left, right))
        }
        Tree::Repl(f, g) => {
            let left = copied(alloc, f)?;
            let right = copied(alloc, g)?;
            Tree::over(alloc, Shape::Repl(left, right))
        }
        Tree::Equiv(f, g) => {
            let left = copied(alloc, f)?;
            let right = copied(alloc, g)?;
            Tree::over(alloc, Shape::Equiv(left, right))
        }
        Tree::Ex(x, f) => Tree::over(alloc, Shape::Ex(*x, copied(alloc, f)?)),
        Tree::All(x, f) => Tree::over(alloc, Shape::All(*x, copied(alloc, f)?)),
    }
}

/// Copies of the trees, in their order.
#[cycle(copies)]
fn all_copied(alloc: Global, trees: &[Tree]) -> Result<Vec<Tree>, AllocError>
    ensures { IfOk result (λ ts. map tree_of ts.items ≡ map tree_of trees.now) }
{
    let mut copies = Vec::new(alloc);
    for tree in trees {
        copies.push(copied(alloc, tree)?)?;
    }
    Ok(copies)
}
