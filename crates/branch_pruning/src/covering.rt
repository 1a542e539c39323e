//! Which formulas of a list the others cover.

ghost use Rattle.std.specs.Prelude.{◌≤◌, IfOk, map};
ghost use Rattle.std.specs.List.{AllByRecursion};
ghost use Rattle.logic_meaning.specs.Some.{EachOf};
ghost use Rattle.normal_atoms.specs.Atoms.{context_of, atom_of, IsWellFormed};
ghost use Rattle.formula_store.specs.Nodes.{tree, IsId};
ghost use Rattle.branch_pruning.specs.Pruned.{AreCovering};
ghost use Rattle.branch_pruning.specs.Compared.{AreConjunctionsOf};

use crate::comparing::Comparer;
use crate::conjunction::Conjunction;
use crate::numbered::Numbered;
use crate::rows::rows_of_atoms;
use formula_store::{FormulaId, Store};
use normal_atoms::{Atom, Context};
use std::alloc::{AllocError, Global};

// More formulas are not compared, since each is with each.
const MOST: usize = 256;

/// A mark for each of the formulas: one that is not marked implies one that is marked, under the assumptions, so that those that are
/// marked cover all. Atoms and conjunctions of atoms are compared, by Farkas multipliers, as far as the effort goes, which is taken off;
/// others stay marked. Its only error is want of memory.
pub fn uncovered(
    alloc: Global,
    store: &Store,
    context: Context,
    assumed: &[Atom],
    formulas: &[FormulaId],
    effort: &mut u64,
) -> Result<Vec<bool>, AllocError>
    requires ids { EachOf (IsId store.now) formulas.now }
    requires well_formed { AllByRecursion IsWellFormed assumed.now }
    ensures cover { IfOk result (λ marks. AreCovering (context_of context) (map atom_of assumed.now) (map (tree store.now) formulas.now) marks.items) }
    ensures effort { effort.new ≤ effort.old }
{
    let mut marks = vec![in alloc; true; formulas.len()]?;
    if formulas.len() < 2 || formulas.len() > MOST || *effort == 0 {
        return Ok(marks);
    }
    let conjunctions = conjunctions_of(alloc, context, store, formulas)?;
    let assumed = rows_of_atoms(alloc, context, assumed)?;
    let mut comparer = Comparer {
        alloc,
        numbered: Numbered::of_all(alloc, &assumed, &conjunctions)?,
        assumed,
        effort: *effort,
    };
    for (i, conjunction) in conjunctions.iter().enumerate() {
        if comparer.is_covered(conjunction, i, &conjunctions, &marks)? {
            marks[i] = false;
        }
    }
    *effort = comparer.effort;
    Ok(marks)
}

// Each of the formulas as a conjunction of atoms, if it is one.
fn conjunctions_of(
    alloc: Global,
    context: Context,
    store: &Store,
    formulas: &[FormulaId],
) -> Result<Vec<Option<Conjunction>>, AllocError>
    requires { EachOf (IsId store.now) formulas.now }
    ensures { IfOk result (λ v. AreConjunctionsOf (context_of context) store.now formulas.now v.items) }
{
    let mut conjunctions = Vec::new(alloc);
    for id in formulas {
        let conjunction = Conjunction::of(alloc, context, store, *id)?;
        conjunctions.push(conjunction)?;
    }
    Ok(conjunctions)
}
