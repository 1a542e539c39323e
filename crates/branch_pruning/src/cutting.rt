//! A formula cut under assumptions, in place.

ghost use Rattle.std.specs.Prelude.{◌≡◌, ◌≤◌, List, IfOk, OnOk, length, map, vec_len, ◌++◌};
ghost use Rattle.std.specs.List.{AllByRecursion};
ghost use Rattle.logic_meaning.specs.Context.{Context as Theory};
ghost use Rattle.logic_meaning.specs.Atom.{Atom as Meant};
ghost use Rattle.logic_meaning.specs.Formula.{And, Or};
ghost use Rattle.normal_atoms.specs.Atoms.{context_of, atom_of, IsWellFormed};
ghost use Rattle.formula_tree.specs.Makers.{Keeps};
ghost use Rattle.formula_tree.specs.Trees.{members};
ghost use Rattle.formula_store.specs.Nodes.{tree, IsId};
ghost use Rattle.atom_pruning.specs.declared.rows.AtomRows.{AtomRows};
ghost use Rattle.atom_pruning.specs.Rows.{AreRows};
ghost use Rattle.atom_pruning.specs.Kept.{IsKept, AreEnough, marked};
ghost use Rattle.branch_pruning.specs.Cuts.{AreOfAtoms, IsCutTo, IsInsideCutTo, IsIn, AreIn, AreToldBy, StaysAt, said};

use crate::members::{listed, without_implied};
use crate::rows::rows_of_each;
use atom_pruning::{AtomRows, Pruned, kept, may_be_pruned};
use formula_store::{FormulaId, Store};
use formula_tree::{Ids, Maker, Shape};
use normal_atoms::Context;
use std::alloc::{AllocError, Global};

// Fewer atoms than these, simplifying has compared with each other.
const FEWEST: usize = 3;

/// How far a formula is cut: not at all, in its conjunction or those of its disjunction, or in what stands inside these too.
#[derive(Clone, Copy, Debug, PartialEq, Eq)]
pub enum Reach {
    Nowhere,
    Outermost,
    Whole,
}

/// What cuts formulas under the assumptions that have these rows, as far as the effort goes.
#[derive(Drop)]
pub(crate) struct Cutter {
    pub alloc: Global,
    pub context: Context,
    pub reach: Reach,
    pub assumed: Vec<AtomRows>,
    pub effort: u64,
}

impl Cutter {
    /// The formula, where `false` stands for each conjunction that no point meets, and `true` for each atom of a conjunction that the
    /// assumptions and the others imply; and constants stand for other atoms that the assumptions decide. Its only error is want of
    /// memory. The recursion is as deep as the formula is high.
    #[cycle(cut)]
    pub(crate) fn cut(&mut self, store: &mut Store, id: FormulaId) -> Result<FormulaId, AllocError>
        requires id { IsId store.old id }
        requires assumed { AreOfAtoms (context_of self.old.context) self.old.assumed.items }
        ensures cut { IfOk result (IsIn (IsCutTo (context_of self.old.context) self.old.assumed.items) (tree store.old id) store.new) }
        ensures stays { OnOk result (StaysAt self.old self.new) }
        ensures kept { Keeps (IsId store.old) (tree store.old) (IsId store.new) (tree store.new) }
    {
        let decided = self.decided(store, id)?;
        self.inside(store, decided)
    }

    // A member of a conjunction, cut: an atom stays.
    #[cycle(cut)]
    fn inside(&mut self, store: &mut Store, id: FormulaId) -> Result<FormulaId, AllocError>
        requires id { IsId store.old id }
        requires assumed { AreOfAtoms (context_of self.old.context) self.old.assumed.items }
        ensures cut { IfOk result (IsIn (IsInsideCutTo (context_of self.old.context) self.old.assumed.items) (tree store.old id) store.new) }
        ensures stays { OnOk result (StaysAt self.old self.new) }
        ensures kept { Keeps (IsId store.old) (tree store.old) (IsId store.new) (tree store.new) }
    {
        match store.shape(id) {
            Shape::And(ids) => {
                let ids = listed(self.alloc, ids.items())?;
                if self.is_settled(store, &ids)? {
                    return Ok(id);
                }
                self.conjunction(store, &ids)
            }
            Shape::Or(ids) => {
                let ids = listed(self.alloc, ids.items())?;
                self.disjunction(store, &ids)
            }
            _ => Ok(id),
        }
    }

    // The conjunction of these members, which are cut under its atoms too.
    #[cycle(cut)]
    fn conjunction(&mut self, store: &mut Store, ids: &[FormulaId]) -> Result<FormulaId, AllocError>
        requires ids { AllByRecursion (IsId store.old) ids.now }
        requires assumed { AreOfAtoms (context_of self.old.context) self.old.assumed.items }
        ensures cut { IfOk result (IsIn (IsInsideCutTo (context_of self.old.context) self.old.assumed.items) (And (members (map (tree store.old) ids.now))) store.new) }
        ensures stays { OnOk result (StaysAt self.old self.new) }
        ensures kept { Keeps (IsId store.old) (tree store.old) (IsId store.new) (tree store.new) }
    {
        let rows = rows_of_each(self.alloc, self.context, store, ids)?;
        match self.needed(&rows)? {
            Pruned::Impossible => Ok(store.make(Shape::False)?),
            Pruned::Marked(marks) => self.marked(store, ids, rows, &marks),
        }
    }

    // The conjunction of these members, where the marked atoms imply the others.
    #[cycle(cut)]
    fn marked(
        &mut self,
        store: &mut Store,
        ids: &[FormulaId],
        rows: Vec<AtomRows>,
        marks: &[bool],
    ) -> Result<FormulaId, AllocError>
        requires ids { AllByRecursion (IsId store.old) ids.now }
        requires assumed { AreOfAtoms (context_of self.old.context) self.old.assumed.items }
        requires rows { AreRows (context_of self.old.context) (map said (map (tree store.old) ids.now)) rows.items }
        requires enough { (ks : List Meant) → AreRows (context_of self.old.context) ks self.old.assumed.items → AreEnough (context_of self.old.context) ks (map said (map (tree store.old) ids.now)) marks.now }
        requires marks { length marks.now ≡ length ids.now }
        ensures cut { IfOk result (IsIn (IsInsideCutTo (context_of self.old.context) self.old.assumed.items) (And (members (map (tree store.old) ids.now))) store.new) }
        ensures stays { OnOk result (StaysAt self.old self.new) }
        ensures kept { Keeps (IsId store.old) (tree store.old) (IsId store.new) (tree store.new) }
    {
        let left = without_implied(self.alloc, store, ids, marks)?;
        if self.reach == Reach::Outermost {
            return Ok(store.make(Shape::And(Ids::of(left)))?);
        }
        let outer = self.assumed.len();
        self.assume(rows, marks)?;
        let members = self.each_inside(store, &left)?;
        self.assumed.truncate(outer);
        Ok(store.make(Shape::And(Ids::of(members)))?)
    }

    // The disjunction of these members.
    #[cycle(cut)]
    fn disjunction(&mut self, store: &mut Store, ids: &[FormulaId]) -> Result<FormulaId, AllocError>
        requires ids { AllByRecursion (IsId store.old) ids.now }
        requires assumed { AreOfAtoms (context_of self.old.context) self.old.assumed.items }
        ensures cut { IfOk result (IsIn (IsInsideCutTo (context_of self.old.context) self.old.assumed.items) (Or (members (map (tree store.old) ids.now))) store.new) }
        ensures stays { OnOk result (StaysAt self.old self.new) }
        ensures kept { Keeps (IsId store.old) (tree store.old) (IsId store.new) (tree store.new) }
    {
        let members = self.each_cut(store, ids)?;
        Ok(store.make(Shape::Or(Ids::of(members)))?)
    }

    // Each of the members of a conjunction, cut.
    #[cycle(cut)]
    fn each_inside(
        &mut self,
        store: &mut Store,
        ids: &[FormulaId],
    ) -> Result<Vec<FormulaId>, AllocError>
        requires ids { AllByRecursion (IsId store.old) ids.now }
        requires assumed { AreOfAtoms (context_of self.old.context) self.old.assumed.items }
        ensures cut { IfOk result (λ v. AreIn (IsInsideCutTo (context_of self.old.context) self.old.assumed.items) (map (tree store.old) ids.now) store.new v.items) }
        ensures stays { OnOk result (StaysAt self.old self.new) }
        ensures kept { Keeps (IsId store.old) (tree store.old) (IsId store.new) (tree store.new) }
    {
        let mut cut = Vec::new(self.alloc);
        for id in ids {
            let member = self.inside(store, *id)?;
            cut.push(member)?;
        }
        Ok(cut)
    }

    // Each of the formulas, cut.
    #[cycle(cut)]
    fn each_cut(
        &mut self,
        store: &mut Store,
        ids: &[FormulaId],
    ) -> Result<Vec<FormulaId>, AllocError>
        requires ids { AllByRecursion (IsId store.old) ids.now }
        requires assumed { AreOfAtoms (context_of self.old.context) self.old.assumed.items }
        ensures cut { IfOk result (λ v. AreIn (IsCutTo (context_of self.old.context) self.old.assumed.items) (map (tree store.old) ids.now) store.new v.items) }
        ensures stays { OnOk result (StaysAt self.old self.new) }
        ensures kept { Keeps (IsId store.old) (tree store.old) (IsId store.new) (tree store.new) }
    {
        let mut cut = Vec::new(self.alloc);
        for id in ids {
            let member = self.cut(store, *id)?;
            cut.push(member)?;
        }
        Ok(cut)
    }

    // Whether the conjunction of these members can only stay: all are atoms, and no search is expected to find something of them.
    fn is_settled(&self, store: &Store, ids: &[FormulaId]) -> Result<bool, AllocError>
        requires { AllByRecursion (IsId store.now) ids.now }
    {
        let mut atoms = Vec::with_capacity(self.alloc, ids.len())?;
        for id in ids {
            match store.shape(*id) {
                Shape::One(atom) => atoms.push(atom)?,
                _ => return Ok(false),
            }
        }
        Ok(self.effort == 0 || !may_be_pruned(self.alloc, self.context, &self.assumed, &atoms)?)
    }

    /// What is needed of the conjunction of the atoms with these rows.
    pub(crate) fn needed(&mut self, rows: &[AtomRows]) -> Result<Pruned, AllocError>
        ensures kept { IfOk result (λ k. (c : Theory) (ks us : List Meant) → AreRows c ks self.old.assumed.items → AreRows c us rows.now → IsKept c ks us k) }
        ensures stays { OnOk result (StaysAt self.old self.new) }
    {
        let compared = rows
            .iter()
            .filter(|rows| rows.holds.is_some() || rows.fails.is_some())
            .count();
        if compared == 0 || compared.saturating_add(self.assumed.len()) < FEWEST {
            return all_needed(self.alloc, rows.len());
        }
        kept(self.alloc, &self.assumed, rows, &mut self.effort)
    }

    // Assumes the marked atoms of those with these rows, as far as a row says them.
    fn assume(&mut self, mut rows: Vec<AtomRows>, marks: &[bool]) -> Result<(), AllocError>
        requires { length marks.now ≡ vec_len rows }
        ensures told { OnOk result ((c : Theory) (ks us : List Meant) → AreRows c ks self.old.assumed.items → AreRows c us rows.items → AreToldBy c ks (marked marks.now us) self.new.assumed.items) }
        ensures more { OnOk result ((more : List AtomRows) × (self.new.assumed.items ≡ self.old.assumed.items ++ more)) }
        ensures context { self.new.context ≡ self.old.context }
        ensures effort { self.new.effort ≡ self.old.effort }
    {
        while let Some(row) = rows.pop() {
            if marks[rows.len()] && row.holds.is_some() {
                self.assumed.push(row)?;
            }
        }
        Ok(())
    }
}

// All of so many atoms.
fn all_needed(alloc: Global, count: usize) -> Result<Pruned, AllocError>
    ensures { IfOk result (λ k. (c : Theory) (ks us : List Meant) → length us ≡ count → IsKept c ks us k) }
{
    Ok(Pruned::Marked(vec![in alloc; true; count]?))
}
