//! The negation of a formula of a store.

ghost use Rattle.std.specs.Prelude.{IfOk};
ghost use Rattle.logic_meaning.specs.NegationNormal.{normal_form_of_not};
ghost use Rattle.logic_meaning.specs.NormalForm.{negated_normal};
ghost use Rattle.logic_meaning.specs.Reference.{normal_tree};
ghost use Rattle.formula_tree.specs.Makers.{IsMade, Keeps};
ghost use Rattle.formula_tree.specs.Shapes.{AllIds, IsProperShape, tree_over};
ghost use Rattle.formula_store.specs.Nodes.{tree, IsId};

use formula_store::{FormulaId, Store, nnf};
use formula_tree::{Maker, Shape};
use std::alloc::{AllocError, Global};

/// The negation normal form of the formula's negation. Its only error is want of memory. The formulas of the store stay.
pub fn negation(alloc: Global, store: &mut Store, id: FormulaId) -> Result<FormulaId, AllocError>
    requires { IsId store.old id }
    ensures made { IfOk result (λ r. IsMade (IsId store.new) (tree store.new) r (normal_form_of_not negated_normal (tree store.old id))) }
    ensures kept { Keeps (IsId store.old) (tree store.old) (IsId store.new) (tree store.new) }
{
    match store.shape(id) {
        Shape::True => made(store, Shape::False),
        Shape::False => made(store, Shape::True),
        _ => {
            let not = made(store, Shape::Not(id))?;
            normal(alloc, store, not)
        }
    }
}

// The negation normal form of the formula.
fn normal(alloc: Global, store: &mut Store, id: FormulaId) -> Result<FormulaId, AllocError>
    requires { IsId store.old id }
    ensures made { IfOk result (λ r. IsMade (IsId store.new) (tree store.new) r (normal_tree (tree store.old id))) }
    ensures kept { Keeps (IsId store.old) (tree store.old) (IsId store.new) (tree store.new) }
{
    nnf(alloc, store, id, None).map_err(|_| AllocError)
}

// The formula of this shape.
fn made(store: &mut Store, shape: Shape<FormulaId>) -> Result<FormulaId, AllocError>
    requires ids { AllIds (IsId store.old) shape }
    requires proper { IsProperShape shape }
    ensures made { IfOk result (λ id. IsMade (IsId store.new) (tree store.new) id (tree_over (tree store.old) shape)) }
    ensures kept { Keeps (IsId store.old) (tree store.old) (IsId store.new) (tree store.new) }
{
    store.make(shape).map_err(|_| AllocError)
}
