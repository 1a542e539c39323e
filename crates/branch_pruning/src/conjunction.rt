//! A formula that is a conjunction of atoms.

ghost use Rattle.std.specs.Prelude.{IfOk, IfSome, IsTrue, map, ◌∷◌, []};
ghost use Rattle.std.specs.List.{AllByRecursion, Contains};
ghost use Rattle.logic_meaning.specs.Formula.{And};
ghost use Rattle.normal_atoms.specs.Atoms.{context_of};
ghost use Rattle.formula_tree.specs.Trees.{members};
ghost use Rattle.formula_store.specs.Nodes.{tree, IsId};
ghost use Rattle.branch_pruning.specs.Compared.{atoms_of, SaysAll, IsConjunctionOf};

use crate::members::listed;
use crate::rows::rows_of_each;
use atom_pruning::AtomRows;
use formula_store::{FormulaId, Store};
use formula_tree::Shape;
use normal_atoms::Context;
use std::alloc::{AllocError, Global};

/// The atoms of a conjunction, and the rows of each.
#[derive(Drop)]
pub(crate) struct Conjunction {
    pub ids: Vec<FormulaId>,
    pub rows: Vec<AtomRows>,
}

impl Conjunction {
    /// The atoms of a formula that is an atom or a conjunction of atoms; `None` of another. Its only error is want of memory.
    pub(crate) fn of(
        alloc: Global,
        context: Context,
        store: &Store,
        id: FormulaId,
    ) -> Result<Option<Conjunction>, AllocError>
        requires { IsId store.now id }
        ensures { IfOk result (λ k. IfSome k (IsConjunctionOf (context_of context) store.now (tree store.now id))) }
    {
        let Some(ids) = atoms_in(alloc, store, id)? else {
            return Ok(None);
        };
        let rows = rows_of_each(alloc, context, store, &ids)?;
        Ok(Some(Conjunction { ids, rows }))
    }

    /// Whether the formula is one of the atoms.
    pub(crate) fn has(&self, id: FormulaId) -> bool
        ensures { IsTrue result → Contains self.now.ids.items id }
    {
        self.ids.contains(&id)
    }
}

// The atoms of the conjunction, if the formula is one of atoms alone.
fn atoms_in(
    alloc: Global,
    store: &Store,
    id: FormulaId,
) -> Result<Option<Vec<FormulaId>>, AllocError>
    requires { IsId store.now id }
    ensures are { IfOk result (λ r. IfSome r (λ v. AllByRecursion (IsId store.now) v.items)) }
    ensures says { IfOk result (λ r. IfSome r (λ v. SaysAll (tree store.now id) (atoms_of (tree store.now) v.items))) }
{
    match store.shape(id) {
        Shape::One(_) => Ok(Some(listed(alloc, &[id])?)),
        Shape::And(ids) if are_atoms(store, ids.items()) => {
            Ok(Some(listed(alloc, ids.items())?))
        }
        _ => Ok(None),
    }
}

// Whether each of the formulas is an atom.
fn are_atoms(store: &Store, ids: &[FormulaId]) -> bool
    requires { AllByRecursion (IsId store.now) ids.now }
    ensures { IsTrue result → SaysAll (And (members (map (tree store.now) ids.now))) (atoms_of (tree store.now) ids.now) }
{
    for id in ids {
        if !is_atom(store, *id) {
            return false;
        }
    }
    true
}

// Whether the formula is an atom.
fn is_atom(store: &Store, id: FormulaId) -> bool
    requires { IsId store.now id }
    ensures { IsTrue result → SaysAll (tree store.now id) (atoms_of (tree store.now) (id ∷ [])) }
{
    matches!(store.shape(id), Shape::One(_))
}
