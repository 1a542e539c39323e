//! The members of a list that is cut.

ghost use Rattle.std.specs.Prelude.{◌≡◌, IfOk, length, map};
ghost use Rattle.std.specs.List.{AllByRecursion};
ghost use Rattle.formula_tree.specs.Makers.{AreMade, IsMade, Keeps};
ghost use Rattle.formula_store.specs.Nodes.{tree, IsId};
ghost use Rattle.branch_pruning.specs.Cuts.{left_of, left_by};

use formula_store::{FormulaId, Store};
use formula_tree::{Maker, Shape};
use std::alloc::{AllocError, Global};

/// These ids, held apart from the store. Its only error is want of memory.
pub(crate) fn listed(alloc: Global, ids: &[FormulaId]) -> Result<Vec<FormulaId>, AllocError>
    ensures { IfOk result (λ v. v.items ≡ ids.now) }
{
    let mut list = Vec::new(alloc);
    list.extend_from_slice(ids)?;
    Ok(list)
}

/// The members, where `true` stands for each atom without a mark. Its only error is want of memory.
pub(crate) fn without_implied(
    alloc: Global,
    store: &mut Store,
    ids: &[FormulaId],
    marks: &[bool],
) -> Result<Vec<FormulaId>, AllocError>
    requires ids { AllByRecursion (IsId store.old) ids.now }
    requires marks { length marks.now ≡ length ids.now }
    ensures made { IfOk result (λ v. AreMade (IsId store.new) (tree store.new) v.items (left_by marks.now (map (tree store.old) ids.now))) }
    ensures kept { Keeps (IsId store.old) (tree store.old) (IsId store.new) (tree store.new) }
{
    let mut members = Vec::new(alloc);
    for (i, id) in ids.iter().enumerate() {
        let member = left_at(store, *id, marks[i])?;
        members.push(member)?;
    }
    Ok(members)
}

// The member, or `true` if it is an atom without a mark.
fn left_at(store: &mut Store, id: FormulaId, mark: bool) -> Result<FormulaId, AllocError>
    requires { IsId store.old id }
    ensures made { IfOk result (λ r. IsMade (IsId store.new) (tree store.new) r (left_of mark (tree store.old id))) }
    ensures kept { Keeps (IsId store.old) (tree store.old) (IsId store.new) (tree store.new) }
{
    if mark {
        return Ok(id);
    }
    match store.shape(id) {
        Shape::One(_) => Ok(store.make(Shape::True)?),
        _ => Ok(id),
    }
}
