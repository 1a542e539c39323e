//! Over the fields: the name and the side with the fewest test points, which the ends of the names tell.

ghost use Rattle.std.specs.Prelude.{◌≡◌, ◌<◌, ◌≤◌, ◌++◌, pos, nat_eq, map, flat_map, length, All, IfOk, IfErr, OnOk, IsErrOf, IsTrue};
ghost use Rattle.std.specs.List.{AllByRecursion};
ghost use Rattle.std.specs.HashMap.{get};
ghost use Rattle.logic_meaning.specs.Some.{Among, EachOf};
ghost use Rattle.logic_meaning.specs.Form.{coefficient};
ghost use Rattle.logic_meaning.specs.Atom.{form_of};
ghost use Rattle.logic_meaning.specs.FieldsPoints.{atom_points};
ghost use Rattle.normal_atoms.specs.Atoms.{atom_of};
ghost use Rattle.formula_store.specs.Nodes.{IsId};
ghost use Rattle.branch_points.specs.Chosen.{IsOnSide, listed_atoms, shape_atoms};
ghost use Rattle.branch_points.specs.Counts.{EachHasMore};
ghost use Rattle.branch_points.specs.Ends.{AreEnds, end_count};

use crate::choice::Chosen;
use crate::ends::{Table, ends_in};
use crate::error::ChoiceError;
use formula_store::{FormulaId, Store};
use formula_tree::Shape;
use logic_meaning::{Side, VarId};
use normal_atoms::{Atom, Context};
use std::alloc::{AllocError, Global};
use test_points::field_points;

/// A name and a side, and how many ends lie there. There is one point more, the infinity of the side.
#[derive(Clone, Copy)]
pub(crate) struct Fewest {
    name: VarId,
    side: Side,
    ends: usize,
}

/// The points of the first of the names, and of its sides, with the fewest. An atom is copied only where that name stands in it.
/// `Nodes` comes where they are more than `most`, else `Memory`.
pub(crate) fn over_fields(
    alloc: Global,
    store: &Store,
    ids: &[FormulaId],
    table: &Table,
    left: &[VarId],
    most: u64,
) -> Result<Chosen, ChoiceError>
    requires ids { AllByRecursion (IsId store.now) ids.now }
    requires ends { AreEnds (map atom_of (listed_atoms store.now ids.now)) (get nat_eq table.now) }
    requires some { 0 < length left.now }
    ensures chosen { IfOk result (IsOnSide Context.Fields (map atom_of (listed_atoms store.now ids.now)) left.now most) }
    ensures nodes { IsErrOf result ChoiceError.Nodes → EachHasMore Context.Fields (map atom_of (listed_atoms store.now ids.now)) left.now most }
    ensures word { IfErr result (λ e. ¬ (e ≡ ChoiceError.Overflow)) }
{
    let fewest = fewest_ends(table, left);
    if most <= fewest.ends as u64 {
        return Err(ChoiceError::Nodes);
    }
    let atoms = atoms_with(alloc, store, ids, fewest.name)?;
    match field_points(alloc, &atoms, fewest.name, fewest.side) {
        Ok(points) => Ok(Chosen {
            name: fewest.name,
            points,
        }),
        Err(_) => Err(ChoiceError::Memory),
    }
}

// The first of the names, and of its sides, with the fewest ends.
fn fewest_ends(table: &Table, left: &[VarId]) -> Fewest
    requires some { 0 < length left.now }
    ensures listed { Among left.now result.name }
    ensures ends { result.ends ≡ end_count result.side (get nat_eq table.now result.name.number) }
    ensures least { EachOf (λ x. (side : Side) → result.ends ≤ end_count side (get nat_eq table.now x.number)) left.now }
{
    let mut best = fewer_ends(table, left[0]);
    for name in left {
        let next = fewer_ends(table, *name);
        if next.ends < best.ends {
            best = next;
        }
    }
    best
}

// The name with the side on which it has fewer ends, the lower where both have as many.
fn fewer_ends(table: &Table, x: VarId) -> Fewest
    ensures name { result.name ≡ x }
    ensures ends { result.ends ≡ end_count result.side (get nat_eq table.now x.number) }
    ensures least { (side : Side) → result.ends ≤ end_count side (get nat_eq table.now x.number) }
{
    let ends = ends_in(table, x);
    let side = if ends.upper < ends.lower {
        Side::Upper
    } else {
        Side::Lower
    };
    Fewest {
        name: x,
        side,
        ends: ends.towards(side),
    }
}

// Copies of the atoms among the formulas in which the name stands: over the fields no other gives it a point.
fn atoms_with(
    alloc: Global,
    store: &Store,
    ids: &[FormulaId],
    x: VarId,
) -> Result<Vec<Atom>, AllocError>
    requires { AllByRecursion (IsId store.now) ids.now }
    ensures { IfOk result (λ v. (side : Side) → flat_map (atom_points side x.number) (map atom_of v.items) ≡ flat_map (atom_points side x.number) (map atom_of (listed_atoms store.now ids.now))) }
{
    let mut atoms = Vec::new(alloc);
    for id in ids {
        push_with(alloc, &mut atoms, store.shape(*id), x)?;
    }
    Ok(atoms)
}

// Puts the atom of the shape last, if it is one in which the name stands.
fn push_with(
    alloc: Global,
    atoms: &mut Vec<Atom>,
    shape: &Shape<FormulaId>,
    x: VarId,
) -> Result<(), AllocError>
    ensures { OnOk result ((side : Side) → flat_map (atom_points side x.number) (map atom_of atoms.new.items) ≡
        flat_map (atom_points side x.number) (map atom_of atoms.old.items) ++ flat_map (atom_points side x.number) (map atom_of (shape_atoms shape.now))) }
{
    match shape {
        Shape::One(atom) if stands_in(x, atom) => {
            let copy = atom.copy(alloc).map_err(|_| AllocError)?;
            atoms.push(copy)?;
            Ok(())
        }
        _ => Ok(()),
    }
}

// Whether the name stands in the atom.
fn stands_in(x: VarId, atom: &Atom) -> bool
    ensures { ¬ (IsTrue result) → coefficient x.number (form_of (atom_of atom.now)) ≡ pos 0 }
{
    match atom {
        Atom::Compare(_, form) | Atom::Congruent { form, .. } => form.coefficient(x) != 0,
    }
}
