//! A test point put into one formula, over what is made of its members.

ghost use Rattle.std.specs.List.{AllByRecursion};
ghost use Rattle.std.specs.Prelude.{◌≡◌, ◌<◌, Some, IfOk, IfSome, IsTrue, MatchOption, MatchResult, length, map, option_map, slice_get};
ghost use Rattle.logic_meaning.specs.Fold.{from_pieces};
ghost use Rattle.logic_meaning.specs.Plain.{IsPlain};
ghost use Rattle.formula_laws.specs.Equivalence.{InContext};
ghost use Rattle.normal_atoms.specs.Atoms.{context_of, tree_of, IsWellFormedNormal};
ghost use Rattle.formula_tree.specs.declared.shape.Shape.{Shape};
ghost use Rattle.formula_tree.specs.Makers.{IsMade, Keeps};
ghost use Rattle.formula_tree.specs.Shapes.{AllIds};
ghost use Rattle.formula_tree.specs.Trees.{members};
ghost use Rattle.formula_store.specs.declared.id.FormulaId.{FormulaId};
ghost use Rattle.formula_store.specs.Nodes.{tree, IsId, Front};
ghost use Rattle.nnf_trees.specs.Placed.{all_within};
ghost use Rattle.test_points.specs.Points.{place_of};
ghost use Rattle.virtual_subst.specs.Shared.{Stops, Held, IsAtPlace, IsNodePut, AreTruths, KeysRise};

use crate::atoms::At;
use crate::error::SubstError;
use crate::folding::{gathered, whole};
use crate::truths::Truths;
use formula_store::{FormulaId, Formulas};
use formula_tree::Shape;
use logic_meaning::Junction;
use normal_atoms::Normal;
use std::alloc::{AllocError, Global};

/// The formula with the point's name put at the point, each atom in normal form and the whole folded, made in the store or the
/// overlay. An atom without the name and a list whose members stay keep their ids, and nothing is sought.
/// `Overflow` comes only where a number that is formed for an atom passes 2^127 - 1, else `Memory`.
pub(crate) fn node_put<M: Formulas>(
    alloc: Global,
    at: At<'_>,
    truths: Truths,
    formulas: &mut M,
    id: FormulaId,
    table: &[(FormulaId, FormulaId)],
) -> Result<FormulaId, SubstError>
    requires id { IsId (M.nodes formulas.old) id }
    requires plain { IsPlain (tree (M.nodes formulas.old) id) }
    requires in_context { InContext (context_of at.context) (tree (M.nodes formulas.old) id) }
    requires place { IsAtPlace at.context at.point.now }
    requires truths { AreTruths (M.nodes formulas.old) truths }
    requires rise { KeysRise table.now }
    requires members { (n : Shape FormulaId) → slice_get (M.nodes formulas.old) id.number ≡ Some n → AllIds (Held at.context at.point.now (M.nodes formulas.old) (M.nodes formulas.old) table.now) n }
    ensures put { MatchResult result (IsNodePut at.entry.context at.entry.point.now (M.nodes formulas.old) (M.nodes formulas.new) id) (λ e. Stops e (all_within (context_of at.entry.context) at.entry.point.now.name.number (place_of at.entry.point.now) (tree (M.nodes formulas.old) id))) }
    ensures kept { Keeps (IsId (M.nodes formulas.old)) (tree (M.nodes formulas.old)) (IsId (M.nodes formulas.new)) (tree (M.nodes formulas.new)) }
    ensures front { Front (M.nodes formulas.old) (M.nodes formulas.new) }
    ensures base { M.base formulas.new ≡ M.base formulas.old }
{
    match formulas.top(id) {
        Shape::True | Shape::False => Ok(id),
        Shape::One(atom) if !at.stands_in(atom) => Ok(id),
        Shape::One(atom) => match at.atom(alloc, atom) {
            Ok(normal) => Ok(normal_put(formulas, truths, normal)?),
            Err(error) => Err(error),
        },
        Shape::And(ids) => {
            let ids = ids.items();
            let pieces = gathered(alloc, formulas, table, Junction::Conjunction, ids)?;
            if are_these(&pieces, ids) {
                return Ok(id);
            }
            Ok(joined(formulas, truths, Junction::Conjunction, pieces)?)
        }
        Shape::Or(ids) => {
            let ids = ids.items();
            let pieces = gathered(alloc, formulas, table, Junction::Disjunction, ids)?;
            if are_these(&pieces, ids) {
                return Ok(id);
            }
            Ok(joined(formulas, truths, Junction::Disjunction, pieces)?)
        }
        Shape::Not(_)
        | Shape::Impl(..)
        | Shape::Repl(..)
        | Shape::Equiv(..)
        | Shape::Ex(..)
        | Shape::All(..) => unreachable!(),
    }
}

// Whether the pieces are these formulas, of which there are two at least, so that their list stays what it is.
fn are_these(pieces: &Option<Vec<FormulaId>>, ids: &[FormulaId]) -> bool
    ensures { IsTrue result → MatchOption pieces.now ⊥ (λ v. (v.items ≡ ids.now) × (1 < length ids.now)) }
{
    match pieces {
        Some(pieces) => 1 < ids.len() && same_ids(pieces, ids),
        None => false,
    }
}

// Whether the ids are the same, in the same order.
fn same_ids(these: &[FormulaId], those: &[FormulaId]) -> bool
    ensures { IsTrue result → these.now ≡ those.now }
{
    these == those
}

// The formula of a normal form.
fn normal_put<M: Formulas>(
    formulas: &mut M,
    truths: Truths,
    normal: Normal,
) -> Result<FormulaId, AllocError>
    requires truths { AreTruths (M.nodes formulas.old) truths }
    requires well_formed { IsWellFormedNormal normal }
    ensures made { IfOk result (λ id. IsMade (IsId (M.nodes formulas.new)) (tree (M.nodes formulas.new)) id (tree_of normal)) }
    ensures kept { Keeps (IsId (M.nodes formulas.old)) (tree (M.nodes formulas.old)) (IsId (M.nodes formulas.new)) (tree (M.nodes formulas.new)) }
    ensures front { Front (M.nodes formulas.old) (M.nodes formulas.new) }
    ensures base { M.base formulas.new ≡ M.base formulas.old }
{
    match normal {
        Normal::True => Ok(truths.constant(true)),
        Normal::False => Ok(truths.constant(false)),
        Normal::One(atom) => formulas.add(Shape::One(atom)),
    }
}

// The pieces joined and folded, or the constant that decides the whole where there are none.
fn joined<M: Formulas>(
    formulas: &mut M,
    truths: Truths,
    junction: Junction,
    pieces: Option<Vec<FormulaId>>,
) -> Result<FormulaId, AllocError>
    requires truths { AreTruths (M.nodes formulas.old) truths }
    requires ids { IfSome pieces (λ v. AllByRecursion (IsId (M.nodes formulas.old)) v.items) }
    ensures made { IfOk result (λ id. IsMade (IsId (M.nodes formulas.new)) (tree (M.nodes formulas.new)) id (from_pieces junction (option_map (λ v. members (map (tree (M.nodes formulas.old)) v.items)) pieces))) }
    ensures kept { Keeps (IsId (M.nodes formulas.old)) (tree (M.nodes formulas.old)) (IsId (M.nodes formulas.new)) (tree (M.nodes formulas.new)) }
    ensures front { Front (M.nodes formulas.old) (M.nodes formulas.new) }
    ensures base { M.base formulas.new ≡ M.base formulas.old }
{
    match pieces {
        Some(pieces) => whole(formulas, junction, pieces),
        None => Ok(truths.constant(junction == Junction::Disjunction)),
    }
}
