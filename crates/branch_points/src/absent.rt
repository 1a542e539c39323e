//! Names that stand nowhere in a branch.

ghost use Rattle.std.specs.Prelude.{◌≡◌, true, false, nat_eq, is_some, IfOk, MatchOption};
ghost use Rattle.std.specs.HashMap.{get};
ghost use Rattle.logic_meaning.specs.Some.{Among, EachOf};
ghost use Rattle.logic_meaning.specs.Answers.{zero_place};
ghost use Rattle.logic_meaning.specs.Tree.{IsFree};
ghost use Rattle.elimination_theory.specs.Theorems.{IsTidy};
ghost use Rattle.normal_atoms.specs.Atoms.{context_of};
ghost use Rattle.formula_store.specs.Nodes.{tree, IsId};
ghost use Rattle.test_points.specs.Points.{place_of, IsPointOf};

use crate::atoms::distinct_subformulas;
use crate::ends::{Table, ends_of, stands};
use formula_store::{FormulaId, Store};
use linear_forms::Linear;
use logic_meaning::VarId;
use normal_atoms::Context;
use std::alloc::{AllocError, Global};
use test_points::{Place, TestPoint};

/// The first of the names that has no entry in the table, since it stands in no atom.
pub(crate) fn absent_name(table: &Table, left: &[VarId]) -> Option<VarId>
    ensures { MatchOption result (EachOf (λ x. is_some (get nat_eq table.now x.number) ≡ true) left.now) (λ x. Among left.now x × (is_some (get nat_eq table.now x.number) ≡ false)) }
{
    for name in left {
        if !stands(table, *name) {
            return Some(*name);
        }
    }
    None
}

/// The name at 0.
pub(crate) fn at_zero(alloc: Global, x: VarId) -> TestPoint
    ensures place { place_of result ≡ zero_place }
    ensures well_formed { IsPointOf x result }
{
    TestPoint {
        name: x,
        place: Place::Exact,
        form: Linear::constant(alloc, 0),
        over: 1,
        period: 0,
    }
}

/// Those of the names that stand nowhere in the formula, in their order. Its only error is want of memory.
pub fn absent_names(
    alloc: Global,
    store: &Store,
    context: Context,
    id: FormulaId,
    names: &[VarId],
) -> Result<Vec<VarId>, AllocError>
    requires id { IsId store.now id }
    requires tidy { IsTidy (context_of context) (tree store.now id) }
    ensures { IfOk result (λ v. EachOf (λ x. Among names.now x × ¬ (IsFree (tree store.now id) x.number)) v.items) }
{
    let ids = distinct_subformulas(store, id)?;
    let table = ends_of(alloc, store, &ids, names.len())?;
    let mut absent = Vec::new(alloc);
    for name in names {
        if !stands(&table, *name) {
            absent.push(*name)?;
        }
    }
    Ok(absent)
}
