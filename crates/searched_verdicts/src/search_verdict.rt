// A verdict by a search with learned clauses.

ghost use Rattle.std.specs.Prelude.{◌≡◌, ℕ, IfOk, IfSome};
ghost use Rattle.logic_meaning.specs.Every.{Every};
ghost use Rattle.logic_meaning.specs.Tree.{Tree, IsFree};
ghost use Rattle.logic_meaning.specs.NormalForm.{IsNormal};
ghost use Rattle.logic_meaning.specs.Reference.{normal_tree};
ghost use Rattle.normal_atoms.specs.Atoms.{context_of};
ghost use Rattle.formula_tree.specs.Makers.{IsMade, Keeps};
ghost use Rattle.formula_store.specs.Nodes.{tree, IsId};
ghost use Rattle.sample_reference.specs.Leading.{under_names};
ghost use Rattle.searched_verdicts.specs.Settled.{Settles};

use crate::matrix::matrix_of;
use crate::witnesses::witnesses_at;
use clause_search::{Found, case_count, search};
use engine_answers::Verdict;
use formula_store::{FormulaId, Store, nnf};
use normal_atoms::Context;
use std::alloc::{AllocError, Global};

// A formula of so many cases or fewer is not searched.
const FEW_CASES: u64 = 32;

// So many steps of the search are taken at most.
const MOST_STEPS: u32 = 100_000;

// What the search may do, in entries of its tables that are changed: a second or two.
const EFFORT: u64 = 100_000_000;

// What a search finds of a formula without free names that begins with `ex` of the first `count` names: nothing where more is quantified,
// where there are few cases or a congruence, and where it settles nothing.
pub(crate) fn search_verdict(
    alloc: Global,
    context: Context,
    store: &mut Store,
    id: FormulaId,
    count: usize,
) -> Result<Option<Verdict>, AllocError>
    requires id { IsId store.old id }
    requires normal { Every (IsNormal (context_of context)) (tree store.old id) }
    requires closed { (y : ℕ) → ¬ (IsFree (tree store.old id) y) }
    requires leading { (body : Tree) × (tree store.old id ≡ under_names 0 count body) }
    ensures settles { IfOk result (λ found. IfSome found (Settles (context_of context) count (tree store.old id))) }
    ensures kept { Keeps (IsId store.old) (tree store.old) (IsId store.new) (tree store.new) }
{
    let Some(matrix) = matrix_of(store, id, count) else {
        return Ok(None);
    };
    if store.facts(matrix).quantified {
        return Ok(None);
    }
    let form = normal_form(alloc, store, matrix)?;
    if !is_searched(alloc, store, form)? {
        return Ok(None);
    }
    let mut effort = EFFORT;
    match search(alloc, context, store, form, MOST_STEPS, &mut effort)? {
        Found::Point(values) => match witnesses_at(alloc, &values, count)? {
            Some(witnesses) => Ok(Some(Verdict::True(witnesses))),
            None => Ok(None),
        },
        Found::Nowhere => Ok(Some(Verdict::False)),
        Found::Unknown => Ok(None),
    }
}

// The negation normal form of a formula.
fn normal_form(alloc: Global, store: &mut Store, id: FormulaId) -> Result<FormulaId, AllocError>
    requires { IsId store.old id }
    ensures made { IfOk result (λ r. IsMade (IsId store.new) (tree store.new) r (normal_tree (tree store.old id))) }
    ensures kept { Keeps (IsId store.old) (tree store.old) (IsId store.new) (tree store.new) }
{
    nnf(alloc, store, id, None).map_err(|_| AllocError)
}

// Whether a formula in negation normal form is searched: it has many cases, and no congruence.
fn is_searched(alloc: Global, store: &Store, form: FormulaId) -> Result<bool, AllocError>
    requires { IsId store.now form }
{
    match case_count(alloc, store, form)? {
        Some(cases) => Ok(FEW_CASES < cases),
        None => Ok(false),
    }
}
