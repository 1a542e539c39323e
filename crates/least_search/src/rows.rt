//! The constraints that a conjunction consists of.

ghost use Rattle.std.specs.Prelude.{◌≡◌, IsTrue, IfOk, IfSome, OnSome, map};
ghost use Rattle.std.specs.List.{AllByRecursion};
ghost use Rattle.logic_meaning.specs.Tree.{Tree};
ghost use Rattle.formula_tree.specs.Shapes.{tree_over};
ghost use Rattle.formula_store.specs.Nodes.{tree, IsId};
ghost use Rattle.certificates.specs.Constraints.{constraint_of};
ghost use Rattle.program_meaning.specs.Certificates.{tree_constraint};
ghost use Rattle.least_search.specs.Problems.{IsWeakMember, AreRowsOf};

use crate::constraint_at::tree_constraint;
use certificates::Constraint;
use formula_store::{FormulaId, Store};
use formula_tree::Shape;
use normal_atoms::{Atom, Rel};
use std::alloc::{AllocError, Global};

/// The constraints that the formula is the conjunction of, where it is one of constants and of comparisons by `=`, `<=` and `>=`, or is
/// one of these.
pub(crate) fn rows_of(
    alloc: Global,
    store: &Store,
    id: FormulaId,
) -> Result<Option<Vec<Constraint>>, AllocError>
    requires { IsId store.now id }
    ensures { IfOk result (λ o. IfSome o (λ rows. AreRowsOf (tree store.now id) (map constraint_of rows.items))) }
{
    match store.shape(id) {
        Shape::And(ids) => member_rows(alloc, store, ids.items()),
        _ => member_rows(alloc, store, &[id]),
    }
}

/// The constraints of the members of a conjunction.
fn member_rows(
    alloc: Global,
    store: &Store,
    ids: &[FormulaId],
) -> Result<Option<Vec<Constraint>>, AllocError>
    requires { AllByRecursion (IsId store.now) ids.now }
    ensures weak { IfOk result (λ o. OnSome o (AllByRecursion (λ id. IsWeakMember (tree store.now id)) ids.now)) }
    ensures rows { IfOk result (λ o. IfSome o (λ rows. map constraint_of rows.items ≡ map (λ id. tree_constraint (tree store.now id)) ids.now)) }
{
    let mut rows = Vec::new(alloc);
    for id in ids {
        if !is_weak(store.shape(*id)) {
            return Ok(None);
        }
        rows.push(tree_constraint(alloc, store, *id)?)?;
    }
    Ok(Some(rows))
}

/// Whether a member is a constant or such a comparison.
fn is_weak(shape: &Shape<FormulaId>) -> bool
    ensures { (t : FormulaId → Tree) → IsTrue result → IsWeakMember (tree_over t shape.now) }
{
    match shape {
        Shape::True | Shape::False => true,
        Shape::One(Atom::Compare(Rel::Equal | Rel::AtMost | Rel::AtLeast, _)) => true,
        _ => false,
    }
}
