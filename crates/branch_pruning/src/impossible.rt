//! Whether no point meets a conjunction.

ghost use Rattle.std.specs.Prelude.{◌≤◌, IfOk, IsTrue, map};
ghost use Rattle.std.specs.List.{AllByRecursion};
ghost use Rattle.normal_atoms.specs.Atoms.{context_of, atom_of, IsWellFormed};
ghost use Rattle.formula_store.specs.Nodes.{tree, IsId};
ghost use Rattle.case_theory.specs.Worked.{IsNeverUnder};

use crate::rows::{rows_of_atoms, rows_of_each};
use atom_pruning::are_impossible;
use formula_store::{FormulaId, Store};
use formula_tree::Shape;
use normal_atoms::{Atom, Context};
use std::alloc::{AllocError, Global};

/// Whether Farkas multipliers show that the formula is true at no point where the assumptions are: that no point meets its atoms, where it is
/// a conjunction; not where the effort does not suffice, which the search is taken off. Its only error is want of memory.
pub fn is_impossible(
    alloc: Global,
    store: &Store,
    context: Context,
    assumed: &[Atom],
    id: FormulaId,
    effort: &mut u64,
) -> Result<bool, AllocError>
    requires id { IsId store.now id }
    requires well_formed { AllByRecursion IsWellFormed assumed.now }
    ensures impossible { IfOk result (λ b. IsTrue b → IsNeverUnder (context_of context) (map atom_of assumed.now) (tree store.now id)) }
    ensures effort { effort.new ≤ effort.old }
{
    let Shape::And(ids) = store.shape(id) else {
        return Ok(false);
    };
    let rows = rows_of_each(alloc, context, store, ids.items())?;
    let assumed = rows_of_atoms(alloc, context, assumed)?;
    let impossible = are_impossible(alloc, &assumed, &rows, effort)?;
    Ok(impossible)
}
