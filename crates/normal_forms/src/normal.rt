//! The clean disjunctive and conjunctive forms of a formula.

ghost use Rattle.std.specs.Prelude.{◌≡◌, ◌≤◌, ◌<◌, ◌↔◌, ℕ, Some, map, if◌then◌else◌, true, IfOk, IfErr, OnOk, IsErrOf};
ghost use Rattle.logic_meaning.specs.Fold.{from_pieces};
ghost use Rattle.logic_meaning.specs.declared.junction.Junction.TheVariants.{Conjunction, Disjunction};
ghost use Rattle.formula_tree.specs.Trees.{members};
ghost use Rattle.formula_tree.specs.Shapes.{AllIds, IsProperShape, tree_over};
ghost use Rattle.normal_forms.specs.Shapes.{neutral_shape, joined_shape};
ghost use Rattle.logic_meaning.specs.Ways.{form_of_lines};
ghost use Rattle.normal_forms.specs.Atoms.{AreLineIds, lines as atom_lines};
ghost use Rattle.std.specs.List.{AllByRecursion};
ghost use Rattle.logic_meaning.specs.Sizes.{nodes};
ghost use Rattle.logic_meaning.specs.Tree.{IsFree};
ghost use Rattle.formula_laws.specs.Equivalence.{Equivalent};
ghost use Rattle.normal_atoms.specs.Atoms.{context_of};
ghost use Rattle.formula_tree.specs.Makers.{IsMade, Keeps};
ghost use Rattle.logic_meaning.specs.Quantified.{has_quantifier};
ghost use Rattle.formula_store.specs.Nodes.{IsId, tree};
ghost use Rattle.logic_meaning.specs.NormalForm.{IsNormal};
ghost use Rattle.shape_theory.specs.Orderly.{IsOrderly};
ghost use Rattle.shape_theory.specs.Simplifiable.{IsSimplifiable};
ghost use Rattle.logic_meaning.specs.PlainForms.{plain_form, literals};
ghost use Rattle.logic_meaning.specs.Clean.{IsCleanForm};
ghost use Rattle.shape_theory.specs.CleanFormsLaws.{IsNoLonger};

use crate::absorption::Lines;
use crate::clean::formula_lines;
use crate::insertion::copied;
use crate::sizes::{all_sizes, table_sizes};
use formula_store::{FormulaId, Store};
use formula_tree::{FormError, Ids, Maker, Shape};
use logic_meaning::Junction;
use normal_atoms::Context;
use std::alloc::{AllocError, Global};

/// The clean disjunctive form of a formula in negation normal form: a disjunction of conjunctions of atoms, none of which
/// has two atoms that merge or contains all atoms of another. It has no more tree nodes and no longer text than the plain
/// form, which only folds constants and distributes `and` over `or`. `Quantified` comes exactly where a quantifier stands in
/// the formula. `Nodes` comes only where the plain form has more than `limit` places of atoms, which are counted before
/// anything is multiplied out; else `Memory`. The formulas of the store stay.
///
/// The lists are kept clean as they grow, so a formula whose clean form stays small is answered without its plain form being
/// built. Lists within one that comes are looked for along paths of sorted atoms, so that the time is nearly linear in the atoms
/// of the lists where none is within another.
pub fn dnf(
    alloc: Global,
    store: &mut Store,
    context: Context,
    id: FormulaId,
    limit: u64,
) -> Result<FormulaId, FormError>
    requires id { IsId store.old id }
    requires orderly { IsOrderly (IsNormal (context_of context)) (tree store.old id) }
    ensures made { IfOk result (IsId store.new) }
    ensures clean { IfOk result (λ r. IsCleanForm (context_of context) Conjunction (tree store.new r)) }
    ensures truth { IfOk result (λ r. Equivalent (context_of context) (tree store.new r) (tree store.old id)) }
    ensures names { IfOk result (λ r. (x : ℕ) → IsFree (tree store.new r) x → IsFree (tree store.old id) x) }
    ensures orderly { IfOk result (λ r. IsSimplifiable (context_of context) (tree store.new r)) }
    ensures nodes_within { IfOk result (λ r. nodes (tree store.new r) ≤ nodes (plain_form Conjunction (tree store.old id))) }
    ensures text_within { IfOk result (λ r. IsNoLonger (tree store.new r) (plain_form Conjunction (tree store.old id)) (tree store.old id)) }
    ensures kept { Keeps (IsId store.old) (tree store.old) (IsId store.new) (tree store.new) }

    ensures quantified { IsErrOf result FormError.Quantified ↔ (has_quantifier (tree store.old id) ≡ true) }
    ensures nodes { IsErrOf result FormError.Nodes → limit < literals Conjunction (tree store.old id) }
    ensures limited { OnOk result (literals Conjunction (tree store.old id) ≤ limit) }
    ensures overflow { ¬ (IsErrOf result FormError.Overflow) }
{
    normal_form(alloc, store, context, Junction::Conjunction, id, limit)
}

/// The clean conjunctive form of a formula in negation normal form, the dual of `dnf`: a conjunction of disjunctions of
/// atoms, none of which has two atoms that merge or contains all atoms of another. Its sizes, its errors and what stays are
/// as there, with the plain form that distributes `or` over `and`.
pub fn cnf(
    alloc: Global,
    store: &mut Store,
    context: Context,
    id: FormulaId,
    limit: u64,
) -> Result<FormulaId, FormError>
    requires id { IsId store.old id }
    requires orderly { IsOrderly (IsNormal (context_of context)) (tree store.old id) }
    ensures made { IfOk result (IsId store.new) }
    ensures clean { IfOk result (λ r. IsCleanForm (context_of context) Disjunction (tree store.new r)) }
    ensures truth { IfOk result (λ r. Equivalent (context_of context) (tree store.new r) (tree store.old id)) }
    ensures names { IfOk result (λ r. (x : ℕ) → IsFree (tree store.new r) x → IsFree (tree store.old id) x) }
    ensures orderly { IfOk result (λ r. IsSimplifiable (context_of context) (tree store.new r)) }
    ensures nodes_within { IfOk result (λ r. nodes (tree store.new r) ≤ nodes (plain_form Disjunction (tree store.old id))) }
    ensures text_within { IfOk result (λ r. IsNoLonger (tree store.new r) (plain_form Disjunction (tree store.old id)) (tree store.old id)) }
    ensures kept { Keeps (IsId store.old) (tree store.old) (IsId store.new) (tree store.new) }

    ensures quantified { IsErrOf result FormError.Quantified ↔ (has_quantifier (tree store.old id) ≡ true) }
    ensures nodes { IsErrOf result FormError.Nodes → limit < literals Disjunction (tree store.old id) }
    ensures limited { OnOk result (literals Disjunction (tree store.old id) ≤ limit) }
    ensures overflow { ¬ (IsErrOf result FormError.Overflow) }
{
    normal_form(alloc, store, context, Junction::Disjunction, id, limit)
}

// The clean form, of either kind.
fn normal_form(
    alloc: Global,
    store: &mut Store,
    context: Context,
    inner: Junction,
    id: FormulaId,
    limit: u64,
) -> Result<FormulaId, FormError>
    requires id { IsId store.old id }
    requires orderly { IsOrderly (IsNormal (context_of context)) (tree store.old id) }
    ensures made { IfOk result (IsId store.new) }
    ensures clean { IfOk result (λ r. IsCleanForm (context_of context) inner (tree store.new r)) }
    ensures truth { IfOk result (λ r. Equivalent (context_of context) (tree store.new r) (tree store.old id)) }
    ensures names { IfOk result (λ r. (x : ℕ) → IsFree (tree store.new r) x → IsFree (tree store.old id) x) }
    ensures orderly { IfOk result (λ r. IsSimplifiable (context_of context) (tree store.new r)) }
    ensures nodes_within { IfOk result (λ r. nodes (tree store.new r) ≤ nodes (plain_form inner (tree store.old id))) }
    ensures text_within { IfOk result (λ r. IsNoLonger (tree store.new r) (plain_form inner (tree store.old id)) (tree store.old id)) }
    ensures kept { Keeps (IsId store.old) (tree store.old) (IsId store.new) (tree store.new) }

    ensures quantified { IsErrOf result FormError.Quantified ↔ (has_quantifier (tree store.old id) ≡ true) }
    ensures nodes { IsErrOf result FormError.Nodes → limit < literals inner (tree store.old id) }
    ensures limited { OnOk result (literals inner (tree store.old id) ≤ limit) }
    ensures overflow { ¬ (IsErrOf result FormError.Overflow) }
{
    if store.facts(id).quantified {
        return Err(FormError::Quantified);
    }
    let table = all_sizes(alloc, store, inner, id)?;
    let places = table_sizes(&table, id).places;
    if limit < places {
        return Err(FormError::Nodes);
    }
    if places == u64::MAX {
        return Err(FormError::Memory);
    }
    let lines = formula_lines(alloc, store, context, inner, id, &table)?;
    Ok(lines_form(alloc, store, context, inner, lines)?)
}

// A list of formulas joined, where one stands for the list, and an empty list for the constant that says nothing in it.
fn joined(
    store: &mut Store,
    junction: Junction,
    ids: Ids<FormulaId>,
) -> Result<FormulaId, AllocError>
    requires { AllByRecursion (IsId store.old) ids }
    ensures made { IfOk result (λ r. IsMade (IsId store.new) (tree store.new) r (from_pieces junction (Some (members (map (tree store.old) ids))))) }
    ensures kept { Keeps (IsId store.old) (tree store.old) (IsId store.new) (tree store.new) }
{
    let count = ids.items().len();
    if count == 0 {
        return made(store, constant(junction));
    }
    if count == 1 {
        return Ok(ids.items()[0]);
    }
    made(store, list(junction, ids))
}

// Makes the formula of this shape.
fn made(store: &mut Store, shape: Shape<FormulaId>) -> Result<FormulaId, AllocError>
    requires ids { AllIds (IsId store.old) shape }
    requires proper { IsProperShape shape }
    ensures made { IfOk result (λ id. IsMade (IsId store.new) (tree store.new) id (tree_over (tree store.old) shape)) }
    ensures kept { Keeps (IsId store.old) (tree store.old) (IsId store.new) (tree store.new) }
{
    store.make(shape).map_err(|_| AllocError)
}

// The constant that says nothing in a list.
fn constant(junction: Junction) -> Shape<FormulaId>
    ensures { result ≡ neutral_shape junction }
{
    match junction {
        Junction::Conjunction => Shape::True,
        Junction::Disjunction => Shape::False,
    }
}

// The list.
fn list(junction: Junction, ids: Ids<FormulaId>) -> Shape<FormulaId>
    ensures { result ≡ joined_shape junction ids }
{
    match junction {
        Junction::Conjunction => Shape::And(ids),
        Junction::Disjunction => Shape::Or(ids),
    }
}

// The formula of clean lists.
fn lines_form(
    alloc: Global,
    store: &mut Store,
    context: Context,
    inner: Junction,
    lines: Lines,
) -> Result<FormulaId, AllocError>
    requires { AreLineIds (context_of context) store.old lines.items }
    ensures made { IfOk result (λ r. IsMade (IsId store.new) (tree store.new) r (form_of_lines inner (atom_lines store.old lines.items))) }
    ensures kept { Keeps (IsId store.old) (tree store.old) (IsId store.new) (tree store.new) }
{
    let mut ids = Vec::new(alloc);
    for line in &lines {
        let line = copied(alloc, line.items())?;
        let id = joined(store, inner, line)?;
        ids.push(id)?;
    }
    joined(store, inner.turned(true), Ids::of(ids))
}
