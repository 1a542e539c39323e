//! The equations that a branch has as conjuncts.

ghost use Rattle.std.specs.Prelude.{◌≡◌, pos, map, MatchOption, IfOk};
ghost use Rattle.std.specs.List.{AllByRecursion};
ghost use Rattle.logic_meaning.specs.Some.{Among, EachOf};
ghost use Rattle.logic_meaning.specs.Form.{Form, coefficient};
ghost use Rattle.logic_meaning.specs.Formula.{none, also};
ghost use Rattle.formula_tree.specs.Trees.{members};
ghost use Rattle.formula_store.specs.Nodes.{tree, IsId};
ghost use Rattle.branch_points.specs.Chosen.{conjuncts, HasNoEquation, IsRootAmong};

use crate::roots::root_of;
use formula_store::{FormulaId, Store};
use formula_tree::Shape;
use linear_forms::Linear;
use logic_meaning::VarId;
use normal_atoms::{Atom, Context, Rel};
use std::alloc::{AllocError, Global};
use test_points::TestPoint;

/// The root of the first conjunct that is an equation in a name that is left, if there is one.
pub(crate) fn conjoined_root(
    alloc: Global,
    context: Context,
    store: &Store,
    id: FormulaId,
    left: &[VarId],
) -> Result<Option<TestPoint>, AllocError>
    requires { IsId store.now id }
    ensures { IfOk result (λ o. MatchOption o (HasNoEquation (conjuncts (tree store.now id)) left.now) (IsRootAmong context (conjuncts (tree store.now id)) left.now)) }
{
    match store.shape(id) {
        Shape::And(members) => first_root(alloc, context, store, members.items(), left),
        _ => member_root(alloc, context, store, id, left),
    }
}

// The root of the first of the formulas that is an equation in a name that is left.
fn first_root(
    alloc: Global,
    context: Context,
    store: &Store,
    ids: &[FormulaId],
    left: &[VarId],
) -> Result<Option<TestPoint>, AllocError>
    requires { AllByRecursion (IsId store.now) ids.now }
    ensures { IfOk result (λ o. MatchOption o (HasNoEquation (members (map (tree store.now) ids.now)) left.now) (IsRootAmong context (members (map (tree store.now) ids.now)) left.now)) }
{
    for id in ids {
        if let Some(root) = member_root(alloc, context, store, *id, left)? {
            return Ok(Some(root));
        }
    }
    Ok(None)
}

// The root of the formula, if it is an equation in a name that is left.
fn member_root(
    alloc: Global,
    context: Context,
    store: &Store,
    id: FormulaId,
    left: &[VarId],
) -> Result<Option<TestPoint>, AllocError>
    requires { IsId store.now id }
    ensures { IfOk result (λ o. MatchOption o (HasNoEquation (also (tree store.now id) none) left.now) (IsRootAmong context (also (tree store.now id) none) left.now)) }
{
    let Some(equation) = equation_of(store.shape(id)) else {
        return Ok(None);
    };
    match first_name(equation, left) {
        Some(name) => Ok(Some(root_of(alloc, context, name, equation)?)),
        None => Ok(None),
    }
}

// The form that is 0, if the shape is an equation.
fn equation_of(shape: &Shape<FormulaId>) -> Option<&Linear>
    ensures { MatchOption result ((e : Form) → ¬ (shape.now ≡ Shape.One (Atom.Compare Rel.Equal e))) (λ e. shape.now ≡ Shape.One (Atom.Compare Rel.Equal e.now)) }
{
    match shape {
        Shape::One(Atom::Compare(Rel::Equal, form)) => Some(form),
        _ => None,
    }
}

// The first of the names that stands in the form.
fn first_name(form: &Linear, left: &[VarId]) -> Option<VarId>
    ensures { MatchOption result (EachOf (λ x. coefficient x.number form.now ≡ pos 0) left.now) (λ x. Among left.now x × ¬ (coefficient x.number form.now ≡ pos 0)) }
{
    for name in left {
        if form.coefficient(*name) != 0 {
            return Some(*name);
        }
    }
    None
}
