ghost use Rattle.std.specs.Prelude.{◌≡◌, ◌<◌, ◌^◌, false, true, SomeIff};
ghost use Rattle.logic_meaning.specs.Sizes.{nodes, all_nodes};
ghost use Rattle.formula_tree.specs.Trees.{tree_of, trees_of};
ghost use Rattle.nnf_trees.specs.Nnfs.{nnf_of, nnfs_of};
ghost use Rattle.nnf_trees.specs.Forms.{form, forms, limited, sum_of};

use crate::nnf::{Members, Nnf};
use formula_tree::{Tree, Trees};

/// How many nodes the formula has; `None` exactly where there are more than `u64::MAX`. It takes no memory. The recursion is
/// as deep as the formula is high.
#[cycle(nodes)]
#[tactic(auto, using(crate::proofs::NnfEquations::nnfs))]
pub fn nodes(f: &Nnf) -> Option<u64>
    ensures { SomeIff result (nodes (nnf_of f.now) < 2 ^ 64) (nodes (nnf_of f.now)) }
{
    match f {
        Nnf::Constant(_) | Nnf::One(_) => Some(1),
        Nnf::Joined(_, members) => all_nodes(members)?.checked_add(1),
        Nnf::Quantified(_, _, inner) => nodes(inner)?.checked_add(1),
    }
}

// How many nodes the members have together.
#[cycle(nodes)]
fn all_nodes(members: &Members) -> Option<u64>
    ensures { SomeIff result (all_nodes (nnfs_of members.now) < 2 ^ 64) (all_nodes (nnfs_of members.now)) }
{
    let mut count: u64 = 0;
    for member in members.items() {
        count = count.checked_add(nodes(member)?)?;
    }
    Some(count)
}

/// How many nodes the negation normal forms of a formula and of its negation have: `None` where there are more than `u64::MAX`.
#[derive(Clone, Copy, Debug, PartialEq, Eq)]
pub struct Sizes {
    pub plain: Option<u64>,
    pub negated: Option<u64>,
}

impl Sizes {
    // The sizes of the negation.
    fn swapped(self) -> Sizes
        ensures plain { result.plain ≡ self.negated }
        ensures negated { result.negated ≡ self.plain }
    {
        Sizes {
            plain: self.negated,
            negated: self.plain,
        }
    }

    // The sizes of two members together.
    fn with(self, other: Sizes) -> Sizes
        ensures plain { result.plain ≡ sum_of self.plain other.plain }
        ensures negated { result.negated ≡ sum_of self.negated other.negated }
    {
        Sizes {
            plain: sum(self.plain, other.plain),
            negated: sum(self.negated, other.negated),
        }
    }
}

// The sum, if it is there.
fn sum(a: Option<u64>, b: Option<u64>) -> Option<u64>
    ensures { result ≡ sum_of a b }
{
    a?.checked_add(b?)
}

/// The nodes of both negation normal forms of the formula, without making them. It takes no memory. The recursion is as deep as
/// the formula is high.
#[cycle(sizes)]
#[tactic(auto, using(formula_tree::proofs::TreeEquations::trees))]
pub fn form_sizes(f: &Tree) -> Sizes
    ensures plain { result.plain ≡ limited (nodes (form false (tree_of f.now))) }
    ensures negated { result.negated ≡ limited (nodes (form true (tree_of f.now))) }
{
    let one = Sizes {
        plain: Some(1),
        negated: Some(1),
    };
    match f {
        Tree::True | Tree::False | Tree::One(_) => one,
        Tree::And(members) | Tree::Or(members) => all_sizes(members).with(one),
        Tree::Not(g) => form_sizes(g).swapped(),
        Tree::Impl(g, h) => form_sizes(g).swapped().with(form_sizes(h)).with(one),
        Tree::Repl(g, h) => form_sizes(g).with(form_sizes(h).swapped()).with(one),
        Tree::Equiv(g, h) => {
            let both = form_sizes(g).with(form_sizes(h));
            both.with(both.swapped()).with(one).with(one).with(one)
        }
        Tree::Ex(_, g) | Tree::All(_, g) => form_sizes(g).with(one),
    }
}

// The same of the members together.
#[cycle(sizes)]
fn all_sizes(members: &Trees) -> Sizes
    ensures plain { result.plain ≡ limited (all_nodes (forms false (trees_of members.now))) }
    ensures negated { result.negated ≡ limited (all_nodes (forms true (trees_of members.now))) }
{
    let mut total = Sizes {
        plain: Some(0),
        negated: Some(0),
    };
    for member in members.items() {
        total = total.with(form_sizes(member));
    }
    total
}
