//! What variables of clauses stand for, and rows of it.

ghost use Rattle.std.specs.Prelude.{◌≡◌, List, IfOk};
ghost use Rattle.std.specs.Option.{option_copied};
ghost use Rattle.formula_tree.specs.declared.shape.Shape.{Shape as Top};
ghost use Rattle.formula_store.specs.declared.id.FormulaId.{FormulaId as Id};
ghost use Rattle.normal_atoms.specs.Atoms.{context_of, atom_of, IsWellFormed};
ghost use Rattle.formula_store.specs.Nodes.{tree, IsId};
ghost use Rattle.clause_search.specs.Variables.{HasRows, IsRowed, row_of};
ghost use Rattle.clause_search.specs.declared.variables.Meaning.TheVariants.{Node, Beside};

use atom_pruning::AtomRows;
use certificates::Constraint;
use formula_store::{FormulaId, Store};
use formula_tree::Shape;
use normal_atoms::{Atom, Context};
use std::alloc::{AllocError, Global};

// A formula of the store, or an atom beside it.
#[derive(Drop)]
pub(crate) enum Meaning {
    Node(FormulaId),
    Beside(Atom),
}

// What a variable stands for, with the constraints of points where it is true, and where it is not.
#[derive(Drop)]
pub(crate) struct Variable {
    pub(crate) meaning: Meaning,
    pub(crate) rows: AtomRows,
}

impl Variable {
    // That of a formula of the store. Only an atom has rows.
    pub(crate) fn of_node(
        alloc: Global,
        context: Context,
        store: &Store,
        id: FormulaId,
    ) -> Result<Variable, AllocError>
        requires { IsId store.now id }
        ensures meaning { IfOk result (λ v. v.meaning ≡ Node id) }
        ensures rows { IfOk result (IsRowed (context_of context) store.now) }
    {
        let rows = rows_of(alloc, context, store, id)?;
        Ok(Variable {
            meaning: Meaning::Node(id),
            rows,
        })
    }

    // That of an atom beside a store.
    pub(crate) fn beside(
        alloc: Global,
        context: Context,
        atom: Atom,
    ) -> Result<Variable, AllocError>
        requires { IsWellFormed atom }
        ensures meaning { IfOk result (λ v. v.meaning ≡ Beside atom) }
        ensures rows { IfOk result (λ v. (nodes : List (Top Id)) → IsRowed (context_of context) nodes v) }
    {
        let rows = AtomRows::of(alloc, context, &atom)?;
        Ok(Variable {
            meaning: Meaning::Beside(atom),
            rows,
        })
    }

    // The constraint of points where the variable has the sign, if there is one.
    pub(crate) fn row(&self, holds: bool) -> Option<&Constraint>
        ensures { option_copied result ≡ row_of self.now.rows holds }
    {
        if holds {
            self.rows.holds.as_ref()
        } else {
            self.rows.fails.as_ref()
        }
    }
}

// The rows of a formula of the store.
fn rows_of(
    alloc: Global,
    context: Context,
    store: &Store,
    id: FormulaId,
) -> Result<AtomRows, AllocError>
    requires { IsId store.now id }
    ensures { IfOk result (HasRows (context_of context) (tree store.now id)) }
{
    match store.shape(id) {
        Shape::One(atom) => AtomRows::of(alloc, context, atom),
        _ => Ok(AtomRows {
            holds: None,
            fails: None,
        }),
    }
}
