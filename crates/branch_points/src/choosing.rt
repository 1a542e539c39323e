//! The choice of a name and of its test points.

ghost use Rattle.std.specs.Prelude.{◌≡◌, ◌<◌, ◌≤◌, [], ◌∷◌, nat_eq, map, max, length, All, IfOk, IfErr, IsErrOf};
ghost use Rattle.std.specs.HashMap.{get};
ghost use Rattle.std.specs.List.{AllByRecursion};
ghost use Rattle.formula_laws.specs.StandsOnce.{StandsOnce};
ghost use Rattle.elimination_theory.specs.Theorems.{IsTidy};
ghost use Rattle.normal_atoms.specs.Atoms.{atom_of, context_of, IsWellFormed};
ghost use Rattle.formula_store.specs.Nodes.{tree, IsId};
ghost use Rattle.branch_points.specs.Chosen.{IsChosen, IsByRule, IsOnSide, NeedsCounting, InSomeOrder, listed_atoms};
ghost use Rattle.branch_points.specs.Counts.{EachHasMore, NumbersPass};
ghost use Rattle.branch_points.specs.Ends.{AreEnds};

use crate::absent::{absent_name, at_zero};
use crate::atoms::{atoms_among, distinct_subformulas};
use crate::choice::Chosen;
use crate::counts::{fewest, is_within, points_of};
use crate::ends::{Table, ends_of};
use crate::equations::conjoined_root;
use crate::error::ChoiceError;
use crate::fields::over_fields;
use formula_store::{FormulaId, Store};
use logic_meaning::VarId;
use normal_atoms::{Atom, Context};
use std::alloc::{AllocError, Global};
use test_points::TestPoint;

/// Chooses a name of those that are left in a branch, and test points that are enough for it: a name that stands nowhere at 0;
/// else the root of the first conjunct that is an equation in one of the names; else the points of the name and the side with
/// the fewest, counted before a point is formed (Loos and Weispfenning 1993, Cooper 1972). At a tie it is the first name, and
/// the lower side.
///
/// `Nodes` comes where even those are more than `most`, and `Overflow` where the span of each name or a number of a point
/// passes 2^127 - 1: a name whose span does is passed over. Neither comes where a name stands nowhere or in such an equation.
pub fn chosen(
    alloc: Global,
    store: &Store,
    context: Context,
    id: FormulaId,
    left: &[VarId],
    most: u64,
) -> Result<Chosen, ChoiceError>
    requires id { IsId store.now id }
    requires tidy { IsTidy (context_of context) (tree store.now id) }
    requires some { 0 < length left.now }
    ensures chosen { IfOk result (IsChosen context (tree store.now id) left.now) }
    ensures rule { IfOk result (IsByRule context (tree store.now id) left.now most) }
    ensures few { IfOk result (λ c. length c.points.items ≤ max 1 most) }
    ensures refused { IfErr result (λ e. ¬ (e ≡ ChoiceError.Memory) → NeedsCounting (tree store.now id) (map (λ x. x.number) left.now)) }
    ensures nodes { IsErrOf result ChoiceError.Nodes → InSomeOrder (λ atoms. EachHasMore context atoms left.now most) (tree store.now id) }
    ensures overflow { IsErrOf result ChoiceError.Overflow → InSomeOrder (λ atoms. NumbersPass context atoms left.now) (tree store.now id) }
{
    let ids = distinct_subformulas(store, id)?;
    let table = ends_of(alloc, store, &ids, left.len())?;
    if let Some(name) = absent_name(&table, left) {
        return Ok(alone(alloc, at_zero(alloc, name))?);
    }
    if let Some(root) = conjoined_root(alloc, context, store, id, left)? {
        return Ok(alone(alloc, root)?);
    }
    counted(alloc, context, store, &ids, &table, left, most)
}

// The name of a point, and the point alone.
fn alone(alloc: Global, point: TestPoint) -> Result<Chosen, AllocError>
    ensures name { IfOk result (λ c. c.name ≡ point.name) }
    ensures points { IfOk result (λ c. c.points.items ≡ point ∷ []) }
{
    Ok(Chosen {
        name: point.name,
        points: vec![in alloc; point]?,
    })
}

// The points of the name and the side with the fewest.
fn counted(
    alloc: Global,
    context: Context,
    store: &Store,
    ids: &[FormulaId],
    table: &Table,
    left: &[VarId],
    most: u64,
) -> Result<Chosen, ChoiceError>
    requires ids { AllByRecursion (IsId store.now) ids.now }
    requires well_formed { All IsWellFormed (listed_atoms store.now ids.now) }
    requires once { StandsOnce (map atom_of (listed_atoms store.now ids.now)) }
    requires ends { AreEnds (map atom_of (listed_atoms store.now ids.now)) (get nat_eq table.now) }
    requires some { 0 < length left.now }
    ensures chosen { IfOk result (IsOnSide context (map atom_of (listed_atoms store.now ids.now)) left.now most) }
    ensures nodes { IsErrOf result ChoiceError.Nodes → EachHasMore context (map atom_of (listed_atoms store.now ids.now)) left.now most }
    ensures overflow { IsErrOf result ChoiceError.Overflow → NumbersPass context (map atom_of (listed_atoms store.now ids.now)) left.now }
{
    match context {
        Context::Fields => over_fields(alloc, store, ids, table, left, most),
        Context::Integers => {
            let atoms = atoms_among(alloc, store, ids)?;
            over_integers(alloc, &atoms, left, most)
        }
    }
}

// The points of the name and the side with the fewest over the integers.
fn over_integers(
    alloc: Global,
    atoms: &[Atom],
    left: &[VarId],
    most: u64,
) -> Result<Chosen, ChoiceError>
    requires well_formed { All IsWellFormed atoms.now }
    requires once { StandsOnce (map atom_of atoms.now) }
    requires some { 0 < length left.now }
    ensures chosen { IfOk result (IsOnSide Context.Integers (map atom_of atoms.now) left.now most) }
    ensures nodes { IsErrOf result ChoiceError.Nodes → EachHasMore Context.Integers (map atom_of atoms.now) left.now most }
    ensures overflow { IsErrOf result ChoiceError.Overflow → NumbersPass Context.Integers (map atom_of atoms.now) left.now }
{
    let Some(fewest) = fewest(atoms, left) else {
        return Err(ChoiceError::Overflow);
    };
    if !is_within(fewest.count, most) {
        return Err(ChoiceError::Nodes);
    }
    match points_of(alloc, atoms, fewest, most) {
        Ok(points) => Ok(Chosen {
            name: fewest.name,
            points,
        }),
        Err(error) => Err(error),
    }
}
