//! What is known of a formula that is to be made, from what is known of its members.

ghost use Rattle.std.specs.Prelude.{◌≡◌, ◌≤◌, ◌<◌, ◌+◌, ◌^◌, length, map};
ghost use Rattle.std.specs.List.{AllByRecursion};
ghost use Rattle.formula_tree.specs.Shapes.{AllIds, tree_over};
ghost use Rattle.formula_tree.specs.Trees.{members};
ghost use Rattle.formula_store.specs.Nodes.{tree, IsId};
ghost use Rattle.formula_store.specs.Facts.{IsFactsOf, AreFactsOf};

use crate::facts::Facts;
use crate::id::FormulaId;
use formula_tree::Shape;

/// Formulas of which facts are known.
pub(crate) trait Known {
    ghost use Rattle.std.specs.Prelude.{List};
    ghost use Rattle.formula_tree.specs.declared.shape.Shape.{Shape as Node};
    ghost use Rattle.formula_store.specs.declared.id.FormulaId.{FormulaId as Id};

    ghost nodes: { Self → List (Node Id) };

    /// How many formulas there are.
    fn count(&self) -> usize
        ensures count { result ≡ length (nodes self.now) }
        ensures small { result + 1 < 2 ^ 64 };

    /// What is known of the formula. It takes no memory.
    fn known(&self, id: FormulaId) -> Facts
        requires { IsId (nodes self.now) id }
        ensures facts { IsFactsOf (tree (nodes self.now) id) result }
        ensures height { result.height ≤ length (nodes self.now) };
}

/// What is known of the formulas together.
fn facts_together<K: Known>(formulas: &K, ids: &[FormulaId]) -> Facts
    requires { AllByRecursion (IsId (K.nodes formulas.now)) ids.now }
    ensures facts { AreFactsOf (members (map (tree (K.nodes formulas.now)) ids.now)) result }
    ensures height { result.height ≤ length (K.nodes formulas.now) }
{
    let mut facts = Facts::NONE;
    for id in ids {
        facts = facts.joined(formulas.known(*id));
    }
    facts
}

/// What is known of the formula of this shape.
pub(crate) fn facts_of<K: Known>(formulas: &K, shape: &Shape<FormulaId>) -> Facts
    requires { AllIds (IsId (K.nodes formulas.now)) shape.now }
    ensures facts { IsFactsOf (tree_over (tree (K.nodes formulas.now)) shape.now) result }
    ensures room { length (K.nodes formulas.now) + 1 < 2 ^ 64 }
{
    let _room = formulas.count();
    match shape {
        Shape::True | Shape::False | Shape::One(_) => Facts::NONE.above(),
        Shape::And(ids) | Shape::Or(ids) => facts_together(formulas, ids.items()).above(),
        Shape::Not(member) => formulas.known(*member).above(),
        Shape::Impl(left, right) | Shape::Repl(left, right) | Shape::Equiv(left, right) => {
            let left = formulas.known(*left);
            left.joined(formulas.known(*right)).above()
        }
        Shape::Ex(_, member) | Shape::All(_, member) => {
            formulas.known(*member).above().quantified()
        }
    }
}
