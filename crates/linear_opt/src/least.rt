// The least value.
ghost use Rattle.std.specs.Prelude.{◌≡◌, [], None, IfOk, map, option_map};
ghost use Rattle.exact_numbers.specs.Fraction.{frac_of};
ghost use Rattle.logic_meaning.specs.Context.{Fields};
ghost use Rattle.logic_meaning.specs.Shape.{IsQuantifierFree};
ghost use Rattle.formula_laws.specs.Equivalence.{InContext};
ghost use Rattle.normal_atoms.specs.Atoms.{atom_of};
ghost use Rattle.branch_points.specs.Chosen.{shape_atoms};
ghost use Rattle.formula_store.specs.Nodes.{tree, IsId};
ghost use Rattle.logic_meaning.specs.Values.{origin};
ghost use Rattle.logic_meaning.specs.Calculated.{is_less, least_with};
ghost use Rattle.linear_theory.specs.WeakTargets.{HasLeast};
ghost use Rattle.linear_theory.specs.Answer.{least_of, true_values, IsAnswer};
ghost use Rattle.linear_opt.specs.Truths.{IsListed};
ghost use Rattle.linear_opt.specs.Least.{found_of, least_from, is_before};

use crate::atoms::{Value, critical_value};
use crate::truths::{Listed, Table};
use exact_numbers::{Fraction, compare_fractions};
use formula_store::{FormulaId, Store, StoreError};
use formula_tree::Shape;
use logic_meaning::VarId;
use std::alloc::AllocError;
use std::cmp::Ordering;
use std::collections::HashMap;
use thiserror::Error;

/// The least value of a name at which a formula is true.
#[derive(Clone, Copy, Debug, PartialEq, Eq)]
pub enum Least {
    /// The formula is true nowhere.
    Infeasible,
    /// The formula is true at every small enough number.
    Unbounded,
    /// The least value, in lowest terms.
    At(Fraction),
}

/// Why no least value was found.
#[derive(Clone, Copy, Debug, PartialEq, Eq, Drop, Error)]
pub enum OptError {
    /// There is no memory left.
    #[error("out of memory")]
    Memory,
}

impl From<AllocError> for OptError {
    fn from(_error: AllocError) -> OptError {
        OptError::Memory
    }
}

/// The least value of `z` at which a formula without quantifiers is true, where all other names are 0: the formula is looked at
/// far below and at the values at which one of its comparisons is 0. No number that is formed passes 2^127 - 1.
///
/// For a formula over the ordered fields that has a least true value wherever it is true somewhere and false at every small enough
/// number, the answer is `Infeasible` exactly where it is true nowhere, `Unbounded` exactly where it is true at every small enough
/// number, and else that least value. At each of these values that is less than the least so far, each distinct subformula is
/// evaluated once. Its only error is `Memory`.
pub fn least_value(store: &Store, id: FormulaId, z: VarId) -> Result<Least, OptError>
    requires { IsId store.now id }
    ensures computed { IfOk result (λ l. found_of l ≡ least_of z.number (tree store.now id)) }
    ensures answer { IsQuantifierFree (tree store.now id) → InContext Fields (tree store.now id) → HasLeast z.number (tree store.now id) origin → IfOk result (λ l. IsAnswer z.number (tree store.now id) (found_of l)) }
{
    let ids = match store.subformulas(id) {
        Ok(ids) => ids,
        Err(StoreError::Memory) => return Err(OptError::Memory),
    };
    let mut table = HashMap::new(*ids.allocator());
    let formula = Listed {
        store,
        root: id,
        ids: &ids,
    };
    if formula.truth(z, Value::FarBelow, &mut table)? {
        return Ok(Least::Unbounded);
    }
    match least_true(&formula, z, &mut table)? {
        Some(number) => Ok(Least::At(number)),
        None => Ok(Least::Infeasible),
    }
}

// The least critical value at which the formula is true, from one distinct subformula after the other.
fn least_true(formula: &Listed, z: VarId, table: &mut Table) -> Result<Option<Fraction>, AllocError>
    requires { IsListed formula.now }
    ensures { IfOk result (λ o. option_map frac_of o ≡ least_with None (true_values z.number (tree formula.now.store.now formula.now.root))) }
{
    let mut least = None;
    for id in formula.ids {
        let shape = formula.store.shape(*id);
        least = least_with_shape(formula, z, least, shape, table)?;
    }
    Ok(least)
}

// The least of what may be there and of the critical value of the shape, if it is an atom and the formula is true there.
fn least_with_shape(
    formula: &Listed,
    z: VarId,
    least: Option<Fraction>,
    shape: &Shape<FormulaId>,
    table: &mut Table,
) -> Result<Option<Fraction>, AllocError>
    requires { IsListed formula.now }
    ensures { IfOk result (λ o. option_map frac_of o ≡ least_from z.number (tree formula.now.store.now formula.now.root) (option_map frac_of least) (map atom_of (shape_atoms shape.now))) }
{
    let Shape::One(atom) = shape else {
        return Ok(least);
    };
    match critical_value(z, atom) {
        Some(number) if is_before(number, least) && formula.truth(z, Value::At(number), table)? => {
            Ok(Some(number))
        }
        Some(_) | None => Ok(least),
    }
}

// Whether the number is less than one that may be there.
fn is_before(number: Fraction, least: Option<Fraction>) -> bool
    ensures { result ≡ is_before (frac_of number) (option_map frac_of least) }
{
    match least {
        Some(least) => is_less(number, least),
        None => true,
    }
}

// Whether the first number is less.
fn is_less(a: Fraction, b: Fraction) -> bool
    ensures { result ≡ is_less (frac_of a) (frac_of b) }
{
    match compare_fractions(a.numerator, a.denominator, b.numerator, b.denominator) {
        Ordering::Less => true,
        Ordering::Equal | Ordering::Greater => false,
    }
}
