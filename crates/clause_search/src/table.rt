//! Variables and clauses over them, as a formula gives them.

ghost use Rattle.std.specs.Prelude.{◌≡◌, ◌<◌, List, length, IfOk, IfSome, OnOk};
ghost use Rattle.std.specs.List.{AllByRecursion};
ghost use Rattle.logic_meaning.specs.Some.{EachOf};
ghost use Rattle.logic_meaning.specs.Formula.{One};
ghost use Rattle.logic_meaning.specs.Atom.{Compare, Differs};
ghost use Rattle.logic_meaning.specs.Tree.{Tree};
ghost use Rattle.formula_tree.specs.Shapes.{tree_over};
ghost use Rattle.normal_atoms.specs.Atoms.{context_of, atom_of, IsWellFormed};
ghost use Rattle.formula_tree.specs.declared.shape.Shape.{Shape as Top};
ghost use Rattle.formula_store.specs.declared.id.FormulaId.{FormulaId};
ghost use Rattle.formula_store.specs.Nodes.{IsId};
ghost use Rattle.clause_search.specs.Tables.{AreNodes, HaveNodes, Grows};
ghost use Rattle.clause_search.specs.Soundness.{question_of, AreSound};
ghost use Rattle.clause_search.specs.Variables.{IsRowed, StandsAmong};

use crate::nodes::{Places, fails, holds};
use crate::variables::Variable;
use clause_theory::Clause;
use formula_store::{FormulaId, Store, StoreError};
use formula_tree::Shape;
use linear_forms::Linear;
use normal_atoms::{Atom, Context, Rel};
use std::alloc::{AllocError, Global};

// Variables, and clauses over them that hold wherever a formula is true.
#[derive(Drop)]
pub(crate) struct Table {
    pub(crate) variables: Vec<Variable>,
    pub(crate) clauses: Vec<Clause>,
}

impl Table {
    // Those of a formula: a variable for each formula that stands in it, the clauses of these, that it is true, and for each `<>` that one of
    // two comparisons is. Beside each equation stand the atoms of its two bounds.
    pub(crate) fn of(
        alloc: Global,
        context: Context,
        store: &Store,
        root: FormulaId,
    ) -> Result<Option<Table>, AllocError>
        requires { IsId store.now root }
        ensures { IfOk result (λ found. IfSome found (λ b. AreSound (question_of context store.now root) context b.variables.items b.clauses.items)) }
    {
        let ids = subformulas(store, root)?;
        let places = Places { store, ids: &ids };
        let Some(place) = places.place_of(root) else {
            return Ok(None);
        };
        let variables = variables_of(alloc, context, store, &ids)?;
        let mut clauses = places.clauses(alloc)?;
        let literals = vec![in alloc; holds(place)]?;
        clauses.push(Clause { literals })?;
        let mut table = Table { variables, clauses };
        table.separate_all(alloc, context, &places)?;
        table.bound_all(alloc, context, &places)?;
        Ok(Some(table))
    }

    // Adds for each formula `f <> 0` that `f < 0` or `f > 0` is true where it is.
    fn separate_all(
        &mut self,
        alloc: Global,
        context: Context,
        places: &Places<'_>,
    ) -> Result<(), AllocError>
        requires ids { AllByRecursion (IsId places.now.store.now) places.now.ids.now }
        requires nodes { HaveNodes places.now.store.now places.now.ids.now self.old.variables.items }
        ensures { OnOk result (Grows places.now.store.now context self.old self.new) }
    {
        for place in 0..places.ids.len() {
            self.separate(alloc, context, places, place)?;
        }
        Ok(())
    }

    // The same for the formula at a place.
    fn separate(
        &mut self,
        alloc: Global,
        context: Context,
        places: &Places<'_>,
        place: usize,
    ) -> Result<(), AllocError>
        requires place { place < length places.now.ids.now }
        requires ids { AllByRecursion (IsId places.now.store.now) places.now.ids.now }
        requires nodes { HaveNodes places.now.store.now places.now.ids.now self.old.variables.items }
        ensures { OnOk result (Grows places.now.store.now context self.old self.new) }
    {
        let Some(form) = differing(places.store.shape(places.ids[place])) else {
            return Ok(());
        };
        let below = self.add(alloc, context, Atom::Compare(Rel::Less, form.copy(alloc)?))?;
        let above = self.add(
            alloc,
            context,
            Atom::Compare(Rel::Greater, form.copy(alloc)?),
        )?;
        let literals = vec![in alloc; fails(place), holds(below), holds(above)]?;
        self.clauses.push(Clause { literals })?;
        Ok(())
    }

    // Adds for each formula `f = 0` the atoms `f <= 0` and `f >= 0`, so that of a form which is to have one of several values bounds can be
    // learned.
    fn bound_all(
        &mut self,
        alloc: Global,
        context: Context,
        places: &Places<'_>,
    ) -> Result<(), AllocError>
        requires { AllByRecursion (IsId places.now.store.now) places.now.ids.now }
        ensures { OnOk result (Grows places.now.store.now context self.old self.new) }
    {
        for id in places.ids {
            self.bound(alloc, context, places.store.shape(*id))?;
        }
        Ok(())
    }

    // The same for a formula.
    fn bound(
        &mut self,
        alloc: Global,
        context: Context,
        shape: &Shape<FormulaId>,
    ) -> Result<(), AllocError>
        ensures { OnOk result ((nodes : List (Top FormulaId)) → Grows nodes context self.old self.new) }
    {
        let Shape::One(Atom::Compare(Rel::Equal, form)) = shape else {
            return Ok(());
        };
        self.add(
            alloc,
            context,
            Atom::Compare(Rel::AtMost, form.copy(alloc)?),
        )?;
        self.add(
            alloc,
            context,
            Atom::Compare(Rel::AtLeast, form.copy(alloc)?),
        )?;
        Ok(())
    }

    // Adds a variable for an atom, and gives its place.
    pub(crate) fn add(
        &mut self,
        alloc: Global,
        context: Context,
        atom: Atom,
    ) -> Result<usize, AllocError>
        requires { IsWellFormed atom }
        ensures grown { OnOk result ((nodes : List (Top FormulaId)) → Grows nodes context self.old self.new) }
        ensures place { IfOk result (λ k. StandsAmong self.new.variables.items k (One (atom_of atom))) }
    {
        let place = self.variables.len();
        let variable = Variable::beside(alloc, context, atom)?;
        self.variables.push(variable)?;
        Ok(place)
    }
}

// The form of an atom `f <> 0`.
fn differing(shape: &Shape<FormulaId>) -> Option<&Linear>
    ensures { IfSome result (λ form. (tree : FormulaId → Tree) → tree_over tree shape.now ≡ One (Compare Differs form.now)) }
{
    match shape {
        Shape::One(atom) => form_that_differs(atom),
        _ => None,
    }
}

// The same of the atom.
fn form_that_differs(atom: &Atom) -> Option<&Linear>
    ensures { IfSome result (λ form. atom_of atom.now ≡ Compare Differs form.now) }
{
    match atom {
        Atom::Compare(relation, form) => match relation {
            Rel::Differs => Some(form),
            Rel::Equal | Rel::Less | Rel::AtMost | Rel::Greater | Rel::AtLeast => None,
        },
        Atom::Congruent { .. } => None,
    }
}

// The formulas that stand in a formula, each once.
pub(crate) fn subformulas(store: &Store, root: FormulaId) -> Result<Vec<FormulaId>, AllocError>
    requires { IsId store.now root }
    ensures { IfOk result (λ ids. AllByRecursion (IsId store.now) ids.items) }
{
    match store.subformulas(root) {
        Ok(ids) => Ok(ids),
        Err(StoreError::Memory) => Err(AllocError),
    }
}

// A variable for each formula.
fn variables_of(
    alloc: Global,
    context: Context,
    store: &Store,
    ids: &[FormulaId],
) -> Result<Vec<Variable>, AllocError>
    requires { AllByRecursion (IsId store.now) ids.now }
    ensures nodes { IfOk result (λ v. AreNodes ids.now v.items) }
    ensures rowed { IfOk result (λ v. EachOf (IsRowed (context_of context) store.now) v.items) }
{
    let mut variables = Vec::with_capacity(alloc, ids.len())?;
    for id in ids {
        let variable = Variable::of_node(alloc, context, store, *id)?;
        variables.push(variable)?;
    }
    Ok(variables)
}
