//! The members of a conjunction.

ghost use Rattle.std.specs.Prelude.{◌≡◌, IfOk, OnOk, map};
ghost use Rattle.std.specs.List.{AllByRecursion};
ghost use Rattle.logic_meaning.specs.Formula.{One};
ghost use Rattle.logic_meaning.specs.Every.{FreeInSome};
ghost use Rattle.logic_meaning.specs.Fold.{fold_list};
ghost use Rattle.logic_meaning.specs.declared.junction.Junction.TheVariants.{Conjunction as And};
ghost use Rattle.logic_meaning.specs.Some.{Among, EachOf};
ghost use Rattle.logic_meaning.specs.Atom.{Mentions};
ghost use Rattle.elimination_theory.specs.Theorems.{IsTidy};
ghost use Rattle.normal_atoms.specs.Atoms.{atom_of, context_of, IsWellFormed};
ghost use Rattle.formula_tree.specs.Makers.{IsMade, AreMade, Keeps};
ghost use Rattle.formula_tree.specs.Trees.{members};
ghost use Rattle.formula_store.specs.Nodes.{tree, IsId};
ghost use Rattle.narrowed_blocks.specs.Conjunctions.{IsConjunctionOf, AreMembersOf, IsAdded};
ghost use Rattle.narrowed_blocks.specs.Narrowing.{listed, others_of};

use branch_points::absent_names;
use formula_store::{FormulaId, Store};
use formula_tree::{Maker, Shape};
use logic_meaning::{Junction, VarId};
use normal_atoms::{Atom, Context};
use std::alloc::{AllocError, Global};
use virtual_subst::fold;

/// The members of a conjunction, or a formula alone: the atoms, and the others.
#[derive(Drop)]
pub(crate) struct Conjunction {
    pub(crate) atoms: Vec<Atom>,
    pub(crate) others: Vec<FormulaId>,
}

impl Conjunction {
    /// The members of the formula. Its only error is want of memory.
    pub(crate) fn of(alloc: Global, store: &Store, id: FormulaId) -> Result<Conjunction, AllocError>
        requires { IsId store.now id }
        ensures { IfOk result (IsConjunctionOf (tree store.now id) store.now) }
    {
        match store.shape(id) {
            Shape::And(ids) => Conjunction::of_all(alloc, store, ids.items()),
            _ => Conjunction::of_all(alloc, store, &[id]),
        }
    }

    // The formulas as members.
    fn of_all(alloc: Global, store: &Store, ids: &[FormulaId]) -> Result<Conjunction, AllocError>
        requires { EachOf (IsId store.now) ids.now }
        ensures { IfOk result (AreMembersOf (map (tree store.now) ids.now) store.now) }
    {
        let mut conjunction = Conjunction {
            atoms: Vec::new(alloc),
            others: Vec::new(alloc),
        };
        for id in ids {
            conjunction.add(alloc, store, *id)?;
        }
        Ok(conjunction)
    }

    // Adds a member.
    fn add(&mut self, alloc: Global, store: &Store, id: FormulaId) -> Result<(), AllocError>
        requires { IsId store.now id }
        ensures { OnOk result (IsAdded store.now id self.old self.new) }
    {
        match store.shape(id) {
            Shape::One(atom) => {
                let atom = atom.copy(alloc).map_err(|_| AllocError)?;
                self.atoms.push(atom)?;
            }
            _ => self.others.push(id)?,
        }
        Ok(())
    }
}

/// The names that stand in none of the formulas. Its only error is want of memory.
pub(crate) fn movable_names(
    alloc: Global,
    store: &Store,
    context: Context,
    others: &[FormulaId],
    names: &[VarId],
) -> Result<Vec<VarId>, AllocError>
    requires ids { EachOf (IsId store.now) others.now }
    requires tidy { EachOf (λ id. IsTidy (context_of context) (tree store.now id)) others.now }
    ensures { IfOk result (λ v. EachOf (λ x. Among names.now x × ¬ (FreeInSome Mentions (members (map (tree store.now) others.now)) x.number)) v.items) }
{
    let mut movable = copied(alloc, names)?;
    for id in others {
        movable = absent_names(alloc, store, context, *id, &movable)?;
    }
    Ok(movable)
}

/// These names, held apart. Its only error is want of memory.
pub(crate) fn copied(alloc: Global, names: &[VarId]) -> Result<Vec<VarId>, AllocError>
    ensures { IfOk result (λ v. v.items ≡ names.now) }
{
    let mut list = Vec::new(alloc);
    list.extend_from_slice(names)?;
    Ok(list)
}

/// The names but for one. Its only error is want of memory.
pub(crate) fn others_of(
    alloc: Global,
    names: &[VarId],
    name: VarId,
) -> Result<Vec<VarId>, AllocError>
    ensures { IfOk result (λ v. v.items ≡ others_of name names.now) }
{
    let mut others = Vec::new(alloc);
    for other in names {
        if other.number != name.number {
            others.push(*other)?;
        }
    }
    Ok(others)
}

/// The conjunction of the atoms and the formulas, folded. Its only error is want of memory; the formulas of the store stay.
pub(crate) fn joined(
    alloc: Global,
    store: &mut Store,
    atoms: Vec<Atom>,
    others: &[FormulaId],
) -> Result<FormulaId, AllocError>
    requires atoms { AllByRecursion IsWellFormed atoms.items }
    requires others { EachOf (IsId store.old) others.now }
    ensures made { IfOk result (λ r. IsMade (IsId store.new) (tree store.new) r (fold_list And (listed (map atom_of atoms.items) (members (map (tree store.old) others.now))))) }
    ensures kept { Keeps (IsId store.old) (tree store.old) (IsId store.new) (tree store.new) }
{
    let mut ids = made(alloc, store, atoms)?;
    ids.extend_from_slice(others)?;
    fold(alloc, store, Junction::Conjunction, &ids)
}

// The formulas of the atoms.
fn made(alloc: Global, store: &mut Store, atoms: Vec<Atom>) -> Result<Vec<FormulaId>, AllocError>
    requires { AllByRecursion IsWellFormed atoms.items }
    ensures made { IfOk result (λ v. AreMade (IsId store.new) (tree store.new) v.items (map (λ a. One (atom_of a)) atoms.items)) }
    ensures kept { Keeps (IsId store.old) (tree store.old) (IsId store.new) (tree store.new) }
{
    let mut ids = Vec::new(alloc);
    for atom in atoms {
        let id = store.make(Shape::One(atom))?;
        ids.push(id)?;
    }
    Ok(ids)
}
