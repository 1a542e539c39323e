//! A formula simplified under assumptions, and pruned.

ghost use Rattle.std.specs.Prelude.{◌≡◌, ◌≤◌, IfOk, map};
ghost use Rattle.std.specs.List.{AllByRecursion};
ghost use Rattle.logic_meaning.specs.Some.{EachOf};
ghost use Rattle.elimination_theory.specs.Theorems.{IsTidy};
ghost use Rattle.normal_atoms.specs.Atoms.{context_of, atom_of, IsWellFormed};
ghost use Rattle.logic_meaning.specs.NormalForm.{IsNormal};
ghost use Rattle.shape_theory.specs.Orderly.{IsOrderly};
ghost use Rattle.shape_theory.specs.Simplifiable.{simplified_under};
ghost use Rattle.formula_tree.specs.Makers.{IsMade, Keeps};
ghost use Rattle.formula_store.specs.Nodes.{tree, IsId};
ghost use Rattle.branch_pruning.specs.Pruned.{IsPrunedTo};

use crate::cutting::{Cutter, Reach};
use crate::rows::rows_of_atoms;
use formula_store::{FormulaId, Store};
use normal_atoms::{Atom, Context};
use std::alloc::{AllocError, Global};
use theory_simplifier::{SimplError, simplify};

/// The formula simplified under the assumptions, in which each conjunction that no point meets is `false`, each atom of a conjunction
/// that the assumptions and the others imply has gone, and another atom that the assumptions decide is a constant, as far as Farkas
/// multipliers are found that show it. It has the formula's truth wherever the assumptions are true, is Reduced under them, and has no
/// other free names, no more nodes and no longer text.
///
/// What the search for multipliers does is taken off the effort; where that does not suffice, the rest is simplified only. Its only
/// error is want of memory. The formulas of the store stay. The recursion is as deep as the formula is high.
pub fn pruned(
    alloc: Global,
    store: &mut Store,
    context: Context,
    assumed: &[Atom],
    id: FormulaId,
    reach: Reach,
    effort: &mut u64,
) -> Result<FormulaId, AllocError>
    requires id { IsId store.old id }
    requires tidy { IsTidy (context_of context) (tree store.old id) }
    requires well_formed { AllByRecursion IsWellFormed assumed.now }
    requires normal { EachOf (IsNormal (context_of context)) (map atom_of assumed.now) }
    ensures pruned { IfOk result (IsPrunedTo (context_of context) (map atom_of assumed.now) (tree store.old id) store.new) }
    ensures effort { effort.new ≤ effort.old }
    ensures kept { Keeps (IsId store.old) (tree store.old) (IsId store.new) (tree store.new) }
{
    let first = simplified(alloc, store, context, assumed, id)?;
    if *effort == 0 || reach == Reach::Nowhere {
        return Ok(first);
    }
    let mut cutter = Cutter {
        alloc,
        context,
        reach,
        assumed: rows_of_atoms(alloc, context, assumed)?,
        effort: *effort,
    };
    let cut = cutter.cut(store, first)?;
    *effort = cutter.effort;
    if cut == first {
        return Ok(first);
    }
    simplified(alloc, store, context, assumed, cut)
}

// The formula simplified under the assumptions.
fn simplified(
    alloc: Global,
    store: &mut Store,
    context: Context,
    assumed: &[Atom],
    id: FormulaId,
) -> Result<FormulaId, AllocError>
    requires id { IsId store.old id }
    requires formula { IsOrderly (IsNormal (context_of context)) (tree store.old id) }
    requires well_formed { AllByRecursion IsWellFormed assumed.now }
    requires normal { EachOf (IsNormal (context_of context)) (map atom_of assumed.now) }
    ensures made { IfOk result (λ r. IsMade (IsId store.new) (tree store.new) r (simplified_under (context_of context) (map atom_of assumed.now) (tree store.old id))) }
    ensures kept { Keeps (IsId store.old) (tree store.old) (IsId store.new) (tree store.new) }
{
    match simplify(alloc, store, context, id, assumed, u64::MAX) {
        Ok(simplified) => Ok(simplified),
        Err(SimplError::Nodes | SimplError::Memory) => Err(AllocError),
    }
}
