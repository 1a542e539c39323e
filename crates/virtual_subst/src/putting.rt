//! A test point put into a formula, in the store or the overlay that has the formula.

ghost use Rattle.std.specs.Prelude.{◌≡◌, ◌∷◌, [], MatchResult};
ghost use Rattle.logic_meaning.specs.Plain.{IsPlain};
ghost use Rattle.formula_laws.specs.Equivalence.{InContext};
ghost use Rattle.normal_atoms.specs.Atoms.{context_of};
ghost use Rattle.formula_tree.specs.Makers.{Keeps};
ghost use Rattle.formula_store.specs.Nodes.{tree, IsId, Front};
ghost use Rattle.formula_store.specs.Order.{IsOrder};
ghost use Rattle.nnf_trees.specs.Placed.{all_within};
ghost use Rattle.test_points.specs.Points.{place_of};
ghost use Rattle.virtual_subst.specs.Shared.{Stops, IsAtPlace, IsNodePut, AreTruths};

use crate::atoms::At;
use crate::error::SubstError;
use crate::nodes::node_put;
use crate::table::{made, note};
use crate::truths::Truths;
use formula_store::{FormulaId, Formulas};
use std::alloc::Global;

/// The formula with the point's name put at the point, each of its distinct subformulas once, members first. `Overflow` comes
/// only where a number that is formed for an atom passes 2^127 - 1, else `Memory`.
pub(crate) fn put_in<M: Formulas>(
    alloc: Global,
    at: At<'_>,
    truths: Truths,
    formulas: &mut M,
    ids: &[FormulaId],
    root: FormulaId,
) -> Result<FormulaId, SubstError>
    requires id { IsId (M.nodes formulas.old) root }
    requires listed { IsOrder (M.nodes formulas.old) (root ∷ []) ids.now }
    requires plain { IsPlain (tree (M.nodes formulas.old) root) }
    requires in_context { InContext (context_of at.context) (tree (M.nodes formulas.old) root) }
    requires place { IsAtPlace at.context at.point.now }
    requires truths { AreTruths (M.nodes formulas.old) truths }
    ensures put { MatchResult result (IsNodePut at.entry.context at.entry.point.now (M.nodes formulas.old) (M.nodes formulas.new) root) (λ e. Stops e (all_within (context_of at.entry.context) at.entry.point.now.name.number (place_of at.entry.point.now) (tree (M.nodes formulas.old) root))) }
    ensures kept { Keeps (IsId (M.nodes formulas.old)) (tree (M.nodes formulas.old)) (IsId (M.nodes formulas.new)) (tree (M.nodes formulas.new)) }
    ensures front { Front (M.nodes formulas.old) (M.nodes formulas.new) }
    ensures base { M.base formulas.new ≡ M.base formulas.old }
{
    let mut table = Vec::with_capacity(alloc, ids.len())?;
    for id in ids {
        match node_put(alloc, at, truths, formulas, *id, &table) {
            Ok(copy) => note(&mut table, *id, copy)?,
            Err(error) => return Err(error),
        }
    }
    Ok(made(&table, root))
}
