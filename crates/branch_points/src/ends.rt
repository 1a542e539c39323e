//! How many ends the names of a branch have on each side, from one pass over its atoms.

ghost use Rattle.std.specs.Prelude.{◌≡◌, ◌+◌, ◌<◌, ◌^◌, ◌++◌, List, ℕ, nat_eq, is_some, map, IfOk, OnOk, IsTrue, IsSome, ◌↔◌};
ghost use Rattle.std.specs.HashMap.{get};
ghost use Rattle.std.specs.List.{AllByRecursion};
ghost use Rattle.logic_meaning.specs.Form.{coefficient};
ghost use Rattle.logic_meaning.specs.Atom.{form_of, Atom as Meant};
ghost use Rattle.normal_atoms.specs.Atoms.{atom_of, relation_of};
ghost use Rattle.formula_store.specs.Nodes.{IsId};
ghost use Rattle.test_points.specs.Starts.{first_step};
ghost use Rattle.branch_points.specs.Chosen.{shape_atoms, listed_atoms};
ghost use Rattle.branch_points.specs.Ends.{once, ends_with, ends_or_none, towards, AreEnds, HaveMore, HaveTerm, HasRoom};

use formula_store::{FormulaId, Store};
use formula_tree::Shape;
use linear_forms::Linear;
use logic_meaning::{Side, VarId};
use normal_atoms::{Atom, Rel};
use std::alloc::{AllocError, Global};
use std::collections::HashMap;
use test_points::seen;

/// How many atoms have an end of a name on each side.
#[derive(Clone, Copy)]
pub(crate) struct Ends {
    pub(crate) lower: usize,
    pub(crate) upper: usize,
}

/// The ends of the names that stand in some atom, by the numbers of the names.
pub(crate) type Table = HashMap<usize, Ends>;

/// The ends of each name that stands in some atom among the formulas: each atom is looked at once, and the names that stand in it
/// alone. There is room for so many names at once.
pub(crate) fn ends_of(
    alloc: Global,
    store: &Store,
    ids: &[FormulaId],
    names: usize,
) -> Result<Table, AllocError>
    requires { AllByRecursion (IsId store.now) ids.now }
    ensures { IfOk result (λ t. AreEnds (map atom_of (listed_atoms store.now ids.now)) (get nat_eq t)) }
{
    let mut table = HashMap::with_capacity(alloc, names)?;
    for id in ids {
        count_shape(&mut table, store.shape(*id))?;
    }
    Ok(table)
}

// Counts the ends of the names that stand in the atom of the shape, if it is one.
fn count_shape(table: &mut Table, shape: &Shape<FormulaId>) -> Result<(), AllocError>
    requires { (x : ℕ) → HasRoom (get nat_eq table.old x) }
    ensures { OnOk result ((atoms : List Meant) → AreEnds atoms (get nat_eq table.old) → AreEnds (atoms ++ map atom_of (shape_atoms shape.now)) (get nat_eq table.new)) }
{
    match shape {
        Shape::One(atom) => count_atom(table, atom),
        _ => Ok(()),
    }
}

// Counts the ends of the names that stand in the atom.
fn count_atom(table: &mut Table, atom: &Atom) -> Result<(), AllocError>
    requires { (x : ℕ) → HasRoom (get nat_eq table.old x) }
    ensures { OnOk result (HaveMore (atom_of atom.now) (λ x. coefficient x (form_of (atom_of atom.now))) (get nat_eq table.old) (get nat_eq table.new)) }
{
    let form = form_of(atom);
    let _sorted = form.constant_part();
    for place in 0..form.places() {
        if let Some((name, times)) = form.term(place) {
            count_term(table, atom, name, times)?;
        }
    }
    Ok(())
}

// The linear form of the atom.
fn form_of(atom: &Atom) -> &Linear
    ensures { result.now ≡ form_of (atom_of atom.now) }
{
    match atom {
        Atom::Compare(_, form) | Atom::Congruent { form, .. } => form,
    }
}

// Counts the ends of a name that has this coefficient in the atom.
fn count_term(table: &mut Table, atom: &Atom, name: VarId, times: i128) -> Result<(), AllocError>
    requires { HasRoom (get nat_eq table.old name.number) }
    ensures { OnOk result (HaveTerm (atom_of atom.now) name.number times (get nat_eq table.old) (get nat_eq table.new)) }
{
    let lower = ends_with(atom, times, Side::Lower);
    let upper = ends_with(atom, times, Side::Upper);
    let ends = table
        .entry(name.number)?
        .or_insert(Ends { lower: 0, upper: 0 });
    *ends = Ends {
        lower: raised(ends.lower, lower),
        upper: raised(ends.upper, upper),
    };
    Ok(())
}

/// The ends of a name, none where the table has no entry.
pub(crate) fn ends_in(table: &Table, name: VarId) -> Ends
    ensures { result ≡ ends_or_none (get nat_eq table.now name.number) }
{
    match table.get(&name.number) {
        Some(ends) => *ends,
        None => Ends { lower: 0, upper: 0 },
    }
}

// The count, or one more.
fn raised(count: usize, more: bool) -> usize
    requires { count + 1 < 2 ^ 64 }
    ensures { result ≡ count + once more }
{
    if more { count + 1 } else { count }
}

impl Ends {
    /// How many of the ends lie to the side.
    pub(crate) fn towards(self, side: Side) -> usize
        ensures { result ≡ towards side self }
    {
        match side {
            Side::Lower => self.lower,
            Side::Upper => self.upper,
        }
    }
}

/// Whether the name stands in some atom.
pub(crate) fn stands(table: &Table, name: VarId) -> bool
    ensures { result ≡ is_some (get nat_eq table.now name.number) }
{
    table.contains_key(&name.number)
}

// Whether the atom has an end that lies to the side, of a name with this coefficient.
fn ends_with(atom: &Atom, times: i128, side: Side) -> bool
    ensures { result ≡ ends_with side (atom_of atom.now) times }
{
    match atom {
        Atom::Compare(relation, _) => times != 0 && begins(seen(side, *relation, times < 0)),
        Atom::Congruent { .. } => false,
    }
}

// Whether the relation, as the side sees it, begins to be true at a number.
fn begins(relation: Rel) -> bool
    ensures { IsTrue result ↔ IsSome (first_step (relation_of relation)) }
{
    match relation {
        Rel::Equal | Rel::Differs | Rel::Greater | Rel::AtLeast => true,
        Rel::Less | Rel::AtMost => false,
    }
}
