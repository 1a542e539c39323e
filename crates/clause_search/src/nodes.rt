//! Clauses of the nodes of a formula.

ghost use Rattle.std.specs.Prelude.{◌≡◌, ◌<◌, true, false, length, map, IfOk, IfSome, OnOk};
ghost use Rattle.std.specs.List.{AllByRecursion};
ghost use Rattle.logic_meaning.specs.Formula.{And, Or};
ghost use Rattle.formula_tree.specs.Trees.{members};
ghost use Rattle.formula_store.specs.Nodes.{tree, IsId};
ghost use Rattle.clause_search.specs.Nodes.{AreNodeLaws, StandsAt, SayMembers};

use clause_theory::{Clause, Literal};
use formula_store::{FormulaId, Store};
use formula_tree::Shape;
use std::alloc::{AllocError, Global};

// Formulas of a store, each at its place, which is its variable. Their numbers rise.
#[derive(Clone, Copy)]
pub(crate) struct Places<'a> {
    pub(crate) store: &'a Store,
    pub(crate) ids: &'a [FormulaId],
}

impl Places<'_> {
    // The clauses of the formulas: of `and` that each member is true where it is, of `or` that some member is, of `false` that it is not
    // true. Of others there are none.
    pub(crate) fn clauses(&self, alloc: Global) -> Result<Vec<Clause>, AllocError>
        requires { AllByRecursion (IsId self.now.store.now) self.now.ids.now }
        ensures { IfOk result (λ v. AreNodeLaws self.now.store.now self.now.ids.now v.items) }
    {
        let mut clauses = Vec::new(alloc);
        for place in 0..self.ids.len() {
            self.add(alloc, place, &mut clauses)?;
        }
        Ok(clauses)
    }

    // Adds the clauses of the formula at a place.
    fn add(&self, alloc: Global, place: usize, clauses: &mut Vec<Clause>) -> Result<(), AllocError>
        requires place { place < length self.now.ids.now }
        requires ids { AllByRecursion (IsId self.now.store.now) self.now.ids.now }
        requires laws { AreNodeLaws self.now.store.now self.now.ids.now clauses.old.items }
        ensures laws { OnOk result (AreNodeLaws self.now.store.now self.now.ids.now clauses.new.items) }
    {
        match self.store.shape(self.ids[place]) {
            Shape::And(members) => self.add_members(alloc, place, members.items(), clauses),
            Shape::Or(members) => self.add_choice(alloc, place, members.items(), clauses),
            Shape::False => {
                let literals = vec![in alloc; fails(place)]?;
                clauses.push(Clause { literals })?;
                Ok(())
            }
            _ => Ok(()),
        }
    }

    // Adds that each member is true where the formula at a place is, which is `and` of them.
    fn add_members(
        &self,
        alloc: Global,
        place: usize,
        ids: &[FormulaId],
        clauses: &mut Vec<Clause>,
    ) -> Result<(), AllocError>
        requires joined { StandsAt self.now.store.now self.now.ids.now place (And (members (map (tree self.now.store.now) ids.now))) }
        requires laws { AreNodeLaws self.now.store.now self.now.ids.now clauses.old.items }
        ensures laws { OnOk result (AreNodeLaws self.now.store.now self.now.ids.now clauses.new.items) }
    {
        for id in ids {
            if let Some(member) = self.place_of(*id) {
                let literals = vec![in alloc; fails(place), holds(member)]?;
                clauses.push(Clause { literals })?;
            }
        }
        Ok(())
    }

    // Adds that some member is true where the formula at a place is, which is `or` of them.
    fn add_choice(
        &self,
        alloc: Global,
        place: usize,
        ids: &[FormulaId],
        clauses: &mut Vec<Clause>,
    ) -> Result<(), AllocError>
        requires joined { StandsAt self.now.store.now self.now.ids.now place (Or (members (map (tree self.now.store.now) ids.now))) }
        requires laws { AreNodeLaws self.now.store.now self.now.ids.now clauses.old.items }
        ensures laws { OnOk result (AreNodeLaws self.now.store.now self.now.ids.now clauses.new.items) }
    {
        let Some(mut literals) = self.choice(alloc, ids)? else {
            return Ok(());
        };
        literals.push(fails(place))?;
        clauses.push(Clause { literals })?;
        Ok(())
    }

    // That each member is true, if all have places.
    fn choice(&self, alloc: Global, ids: &[FormulaId]) -> Result<Option<Vec<Literal>>, AllocError>
        ensures { IfOk result (λ found. IfSome found (λ v. SayMembers self.now.store.now self.now.ids.now ids.now v.items)) }
    {
        let mut literals = Vec::with_capacity(alloc, ids.len().saturating_add(1))?;
        for id in ids {
            let Some(place) = self.place_of(*id) else {
                return Ok(None);
            };
            literals.push(holds(place))?;
        }
        Ok(Some(literals))
    }

    // The place of a formula, if it has one.
    pub(crate) fn place_of(&self, id: FormulaId) -> Option<usize>
        ensures { IfSome result (λ place. StandsAt self.now.store.now self.now.ids.now place (tree self.now.store.now id)) }
    {
        let place = self.ids.binary_search(&id).ok()?;
        if self.ids[place] == id {
            Some(place)
        } else {
            None
        }
    }
}

// That the formula at a place is not true.
pub(crate) fn fails(place: usize) -> Literal
    ensures { result ≡ record { variable = place; holds = false } }
{
    Literal {
        variable: place,
        holds: false,
    }
}

// That it is.
pub(crate) fn holds(place: usize) -> Literal
    ensures { result ≡ record { variable = place; holds = true } }
{
    Literal {
        variable: place,
        holds: true,
    }
}
