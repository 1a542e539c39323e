//! The guards of a case tree as one formula.

ghost use Rattle.std.specs.Prelude.{◌≡◌, map, Some, IfOk, OnErr};
ghost use Rattle.std.specs.List.{AllByRecursion};
ghost use Rattle.logic_meaning.specs.Some.{EachOf};
ghost use Rattle.logic_meaning.specs.Fold.{from_pieces};
ghost use Rattle.formula_tree.specs.Trees.{members};
ghost use Rattle.formula_tree.specs.Makers.{IsMade, Keeps};
ghost use Rattle.formula_store.specs.declared.id.FormulaId.{FormulaId};
ghost use Rattle.formula_store.specs.Nodes.{tree, IsId, Front};
ghost use Rattle.engine_answers.specs.CaseTrees.{cases_seen, guards_together};

use crate::case_tree::{Case, CaseTree};
use formula_store::{FormulaId, Store, StoreError};
use formula_tree::{Ids, Maker, Shape};
use logic_meaning::Junction;
use std::alloc::{AllocError, Global};

/// The disjunction of the guards as it stands: `false` for no case, the guard for one, else the `Or` of the guards in order. Its
/// only error is `Memory`, after which the store is as before.
pub fn guards_together(
    alloc: Global,
    store: &mut Store,
    case_tree: &CaseTree,
) -> Result<FormulaId, StoreError>
    requires { EachOf (λ k. IsId store.old k.guard) case_tree.now.cases.items }
    ensures made { IfOk result (λ id. IsMade (IsId store.new) (tree store.new) id (guards_together (cases_seen store.old case_tree.now.cases.items))) }
    ensures kept { Keeps (IsId store.old) (tree store.old) (IsId store.new) (tree store.new) }
    ensures front { Front store.old store.new }
    ensures unchanged { OnErr result (store.new ≡ store.old) }
{
    let guards = match guards_of(alloc, &case_tree.cases) {
        Ok(guards) => guards,
        Err(_) => return Err(StoreError::Memory),
    };
    disjunction(store, guards)
}

/// The guards of the cases, in order. Its only error is want of memory.
pub(crate) fn guards_of(alloc: Global, cases: &[Case]) -> Result<Vec<FormulaId>, AllocError>
    ensures { IfOk result (λ v. v.items ≡ map (λ k. k.guard) cases.now) }
{
    cases.iter().map(|case| case.guard).collect(alloc)
}

// The disjunction of the formulas as it stands.
fn disjunction(store: &mut Store, mut ids: Vec<FormulaId>) -> Result<FormulaId, StoreError>
    requires { AllByRecursion (IsId store.old) ids.items }
    ensures made { IfOk result (λ id. IsMade (IsId store.new) (tree store.new) id (from_pieces Junction.Disjunction (Some (members (map (tree store.old) ids.items))))) }
    ensures kept { Keeps (IsId store.old) (tree store.old) (IsId store.new) (tree store.new) }
    ensures front { Front store.old store.new }
    ensures unchanged { OnErr result (store.new ≡ store.old) }
{
    if ids.len() > 1 {
        return match store.make(Shape::Or(Ids::of(ids))) {
            Ok(id) => Ok(id),
            Err(_) => Err(StoreError::Memory),
        };
    }
    match ids.pop() {
        Some(id) => Ok(id),
        None => store.make(Shape::False).map_err(|_| StoreError::Memory),
    }
}
