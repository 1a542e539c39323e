//! A shared formula simplified under assumptions.

ghost use Rattle.std.specs.Prelude.{◌≡◌, ◌≤◌, ◌<◌, ℕ, List, IfOk, IfErr, OnOk, length, map};
ghost use Rattle.std.specs.List.{AllByRecursion};
ghost use Rattle.logic_meaning.specs.Every.{Every};
ghost use Rattle.logic_meaning.specs.Some.{EachOf};
ghost use Rattle.logic_meaning.specs.Sizes.{nodes};
ghost use Rattle.logic_meaning.specs.Tree.{IsFree};
ghost use Rattle.normal_atoms.specs.Atoms.{context_of, atom_of, IsWellFormed};
ghost use Rattle.logic_meaning.specs.NormalForm.{IsNormal};
ghost use Rattle.logic_meaning.specs.Measure.{size, atom_measure};
ghost use Rattle.shape_theory.specs.Orderly.{IsOrderly};
ghost use Rattle.logic_meaning.specs.Trees.{IsReduced};
ghost use Rattle.shape_theory.specs.Simplifiable.{EquivalentUnder, simplified_under, IsSimplifiable};
ghost use Rattle.shape_theory.specs.AtomKit.{atom_kit};
ghost use Rattle.shape_theory.specs.Pass.{simplified};
ghost use Rattle.logic_meaning.specs.Context.{Context as Theory};
ghost use Rattle.formula_tree.specs.Makers.{IsMade, Keeps};
ghost use Rattle.formula_store.specs.Facts.{most_nodes};
ghost use Rattle.theory_simplifier.specs.Known.{known_atoms, AreNormalFrames};
ghost use Rattle.formula_store.specs.Nodes.{IsId, tree};
ghost use Rattle.logic_meaning.specs.Text.{tree_text};
ghost use Rattle.formula_laws.specs.Within.{IsAtomWithin};

use crate::error::SimplError;
use crate::joined::Joined;
use crate::known::{Frame, Known};
use crate::pass::passed;
use formula_store::{FormulaId, Store};
use formula_tree::Shape;
use normal_atoms::{Atom, Context};
use std::alloc::{AllocError, Global};

/// The shared formula simplified under the assumptions `theory`: it has the formula's truth wherever all of them are true, is
/// Reduced under them, and has no other free names, no more nodes and atoms and no longer text. `Nodes` comes exactly where the
/// tree of the formula has more than `limit` nodes, and before anything is made, else `Memory`. The formulas of the store stay.
///
/// The formula is passed at most as often as its tree has nodes, and twice as a rule. A pass walks the tree, since a subformula may
/// be simplified differently in two places, so that `limit` bounds it. It asks of each atom, and of each atom that is known there,
/// whether both have one variable part, and compares them only then; of a name that a quantifier binds it looks whether it is free.
/// A list of atoms no two of which have the same names is looked at once where nothing is known, and kept.
/// The recursion is as deep as the formula is high.
pub fn simplify(
    alloc: Global,
    store: &mut Store,
    context: Context,
    id: FormulaId,
    theory: &[Atom],
    limit: u64,
) -> Result<FormulaId, SimplError>
    requires id { IsId store.old id }
    requires formula { IsOrderly (IsNormal (context_of context)) (tree store.old id) }
    requires well_formed { AllByRecursion IsWellFormed theory.now }
    requires theory { EachOf (IsNormal (context_of context)) (map atom_of theory.now) }
    ensures made { IfOk result (λ r. IsId store.new r) }
    ensures simplified { IfOk result (λ r. tree store.new r ≡ simplified_under (context_of context) (map atom_of theory.now) (tree store.old id)) }

    // What is promised of the simplified formula: its truth under the assumptions, and that it is Reduced under them.
    ensures truth { IfOk result (λ r. EquivalentUnder (context_of context) (map atom_of theory.now) (tree store.new r) (tree store.old id)) }
    ensures reduced { IfOk result (λ r. IsReduced (context_of context) (tree store.new r) (map atom_of theory.now)) }

    // It can be simplified again, and is no larger in any way.
    ensures shape { IfOk result (λ r. IsOrderly (IsNormal (context_of context)) (tree store.new r)) }
    ensures normal { IfOk result (λ r. Every (IsNormal (context_of context)) (tree store.new r)) }
    ensures names { IfOk result (λ r. (x : ℕ) → IsFree (tree store.new r) x → IsFree (tree store.old id) x) }
    ensures nodes { IfOk result (λ r. nodes (tree store.new r) ≤ nodes (tree store.old id)) }
    ensures atoms { IfOk result (λ r. size atom_measure (tree store.new r) ≤ size atom_measure (tree store.old id)) }
    ensures text { IfOk result (λ r. (names : List (List ℕ)) → EachOf (λ name. 0 < length name) names → Every (IsAtomWithin (length names)) (tree store.old id) →
        length (tree_text names (tree store.new r)) ≤ length (tree_text names (tree store.old id))) }

    ensures small { OnOk result (nodes (tree store.old id) ≤ limit) }
    ensures large { IfErr result (λ e. e ≡ SimplError.Nodes → limit < nodes (tree store.old id)) }
    ensures kept { Keeps (IsId store.old) (tree store.old) (IsId store.new) (tree store.new) }
{
    let nodes = store.facts(id).nodes;
    if limit < nodes {
        return Err(SimplError::Nodes);
    }
    if nodes == u64::MAX {
        return Err(SimplError::Memory);
    }
    Ok(repeated_under(alloc, store, context, id, theory)?)
}

// The formula passed under the assumptions as long as it gets smaller. A constant stays.
fn repeated_under(
    alloc: Global,
    store: &mut Store,
    context: Context,
    id: FormulaId,
    theory: &[Atom],
) -> Result<FormulaId, AllocError>
    requires id { IsId store.old id }
    requires formula { IsSimplifiable (context_of context) (tree store.old id) }
    requires small { nodes (tree store.old id) < most_nodes }
    requires well_formed { AllByRecursion IsWellFormed theory.now }
    requires theory { EachOf (IsNormal (context_of context)) (map atom_of theory.now) }
    ensures made { IfOk result (λ r. IsMade (IsId store.new) (tree store.new) r (simplified_under (context_of context) (map atom_of theory.now) (tree store.old id))) }
    ensures kept { Keeps (IsId store.old) (tree store.old) (IsId store.new) (tree store.new) }
{
    if matches!(store.shape(id), Shape::True | Shape::False) {
        return Ok(id);
    }
    let mut known = assumed(alloc, theory)?;
    repeated(alloc, store, context, id, &mut known)
}

// The assumptions as what is known at the top.
fn assumed(alloc: Global, theory: &[Atom]) -> Result<Known, AllocError>
    requires { AllByRecursion IsWellFormed theory.now }
    ensures atoms { IfOk result (λ known. known_atoms known ≡ map atom_of theory.now) }
    ensures normal { IfOk result (λ known. (c : Theory) → EachOf (IsNormal c) (map atom_of theory.now) → AreNormalFrames c known) }
{
    let mut known = Known::new(alloc);
    known.enter(Frame::Beside(Joined::of(alloc, theory)?))?;
    Ok(known)
}

// The formula passed again as long as it gets smaller.
fn repeated(
    alloc: Global,
    store: &mut Store,
    context: Context,
    id: FormulaId,
    known: &mut Known,
) -> Result<FormulaId, AllocError>
    requires id { IsId store.old id }
    requires formula { IsSimplifiable (context_of context) (tree store.old id) }
    requires small { nodes (tree store.old id) < most_nodes }
    requires known { AreNormalFrames (context_of context) known.old }
    ensures made { IfOk result (λ r. IsMade (IsId store.new) (tree store.new) r (simplified (atom_kit (context_of context)) (tree store.old id) (known_atoms known.old))) }
    ensures kept { Keeps (IsId store.old) (tree store.old) (IsId store.new) (tree store.new) }
{
    let mut formula = id;
    let mut nodes = store.facts(id).nodes;
    loop {
        let next = passed(alloc, store, context, formula, known)?;
        let fewer = store.facts(next).nodes;
        if fewer >= nodes {
            return Ok(next);
        }
        formula = next;
        nodes = fewer;
    }
}
