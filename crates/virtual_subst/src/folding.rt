//! Formulas of a store or of an overlay, joined and folded.

ghost use Rattle.std.specs.Prelude.{◌≡◌, Some, None, IfOk, IfSome, map, option_map, if◌then◌else◌};
ghost use Rattle.std.specs.List.{AllByRecursion};
ghost use Rattle.logic_meaning.specs.Fold.{fold_list, all_pieces, pieces_of, put_together, from_pieces};
ghost use Rattle.normal_atoms.specs.Atoms.{tree_of, IsWellFormedNormal};
ghost use Rattle.formula_tree.specs.Makers.{IsMade, Keeps};
ghost use Rattle.formula_tree.specs.Trees.{members};
ghost use Rattle.formula_tree.specs.declared.shape.Shape.TheVariants as shape;
ghost use Rattle.formula_store.specs.Nodes.{tree, IsId, Front};
ghost use Rattle.virtual_subst.specs.Folding.{Gives, IsGathered};
ghost use Rattle.virtual_subst.specs.Shared.{made_of, KeysRise};

use crate::table::made;
use formula_store::{FormulaId, Formulas};
use formula_tree::{Ids, Shape};
use logic_meaning::Junction;
use normal_atoms::Normal;
use std::alloc::{AllocError, Global};

/// The formulas joined and folded: constants go or decide the whole, a member of the same junction gives its members, and one
/// that is left stands for the whole.
pub fn fold<M: Formulas>(
    alloc: Global,
    formulas: &mut M,
    junction: Junction,
    ids: &[FormulaId],
) -> Result<FormulaId, AllocError>
    requires { AllByRecursion (IsId (M.nodes formulas.old)) ids.now }
    ensures made { IfOk result (λ id. IsMade (IsId (M.nodes formulas.new)) (tree (M.nodes formulas.new)) id (fold_list junction (members (map (tree (M.nodes formulas.old)) ids.now)))) }
    ensures kept { Keeps (IsId (M.nodes formulas.old)) (tree (M.nodes formulas.old)) (IsId (M.nodes formulas.new)) (tree (M.nodes formulas.new)) }
    ensures front { Front (M.nodes formulas.old) (M.nodes formulas.new) }
    ensures base { M.base formulas.new ≡ M.base formulas.old }
{
    match gathered(alloc, formulas, &[], junction, ids)? {
        Some(pieces) => whole(formulas, junction, pieces),
        None => formulas.add(constant(junction == Junction::Disjunction)),
    }
}

/// What is given, to the members of a list, by all that the table has for these formulas; `None` where one decides the whole.
pub(crate) fn gathered<M: Formulas>(
    alloc: Global,
    formulas: &M,
    table: &[(FormulaId, FormulaId)],
    junction: Junction,
    ids: &[FormulaId],
) -> Result<Option<Vec<FormulaId>>, AllocError>
    requires rise { KeysRise table.now }
    requires ids { AllByRecursion (IsId (M.nodes formulas.now)) (map (made_of table.now) ids.now) }
    ensures pieces { IfOk result (λ pieces. all_pieces junction (members (map (tree (M.nodes formulas.now)) (map (made_of table.now) ids.now))) ≡ option_map (λ v. members (map (tree (M.nodes formulas.now)) v.items)) pieces) }
    ensures ids { IfOk result (λ pieces. IfSome pieces (λ v. AllByRecursion (IsId (M.nodes formulas.now)) v.items)) }
{
    let mut pieces = Vec::new(alloc);
    for id in ids {
        if !gather(&mut pieces, formulas, junction, made(table, *id))? {
            return Ok(None);
        }
    }
    Ok(Some(pieces))
}

// Puts what one formula gives to the pieces; false where it decides the whole.
fn gather<M: Formulas>(
    pieces: &mut Vec<FormulaId>,
    formulas: &M,
    junction: Junction,
    id: FormulaId,
) -> Result<bool, AllocError>
    requires pieces { AllByRecursion (IsId (M.nodes formulas.now)) pieces.old.items }
    requires id { IsId (M.nodes formulas.now) id }
    ensures { IfOk result (IsGathered (M.nodes formulas.now) junction id pieces.old.items pieces.new.items) }
{
    match part_of(formulas.top(id), junction) {
        Part::Nothing => Ok(true),
        Part::Whole => Ok(false),
        Part::Members(ids) => {
            pieces.extend_from_slice(ids)?;
            Ok(true)
        }
        Part::Itself => {
            pieces.push(id)?;
            Ok(true)
        }
    }
}

// What a formula gives to the members of a list: nothing, the truth of the whole, its own members, or itself.
enum Part<'a> {
    Nothing,
    Whole,
    Members(&'a [FormulaId]),
    Itself,
}

// What the formula of this shape gives.
fn part_of<'a>(shape: &'a Shape<FormulaId>, junction: Junction) -> Part<'a>
    ensures { Gives junction shape.now result }
{
    match (shape, junction) {
        (Shape::True, Junction::Conjunction) | (Shape::False, Junction::Disjunction) =>
            Part::Nothing,
        (Shape::False, Junction::Conjunction) | (Shape::True, Junction::Disjunction) => Part::Whole,
        (Shape::And(ids), Junction::Conjunction) | (Shape::Or(ids), Junction::Disjunction) => {
            Part::Members(ids.items())
        }
        (Shape::One(_) | Shape::Not(_), _)
        | (Shape::And(_), Junction::Disjunction)
        | (Shape::Or(_), Junction::Conjunction)
        | (Shape::Impl(..) | Shape::Repl(..) | Shape::Equiv(..), _)
        | (Shape::Ex(..) | Shape::All(..), _) => Part::Itself,
    }
}

/// The formula of a normal form.
pub fn normal_made<M: Formulas>(formulas: &mut M, normal: Normal) -> Result<FormulaId, AllocError>
    requires { IsWellFormedNormal normal }
    ensures made { IfOk result (λ id. IsMade (IsId (M.nodes formulas.new)) (tree (M.nodes formulas.new)) id (tree_of normal)) }
    ensures kept { Keeps (IsId (M.nodes formulas.old)) (tree (M.nodes formulas.old)) (IsId (M.nodes formulas.new)) (tree (M.nodes formulas.new)) }
    ensures front { Front (M.nodes formulas.old) (M.nodes formulas.new) }
    ensures base { M.base formulas.new ≡ M.base formulas.old }
{
    match normal {
        Normal::True => formulas.add(Shape::True),
        Normal::False => formulas.add(Shape::False),
        Normal::One(atom) => formulas.add(Shape::One(atom)),
    }
}

/// The pieces joined, where one stands for the whole.
pub(crate) fn whole<M: Formulas>(
    formulas: &mut M,
    junction: Junction,
    mut pieces: Vec<FormulaId>,
) -> Result<FormulaId, AllocError>
    requires { AllByRecursion (IsId (M.nodes formulas.old)) pieces.items }
    ensures made { IfOk result (λ id. IsMade (IsId (M.nodes formulas.new)) (tree (M.nodes formulas.new)) id (from_pieces junction (Some (members (map (tree (M.nodes formulas.old)) pieces.items))))) }
    ensures kept { Keeps (IsId (M.nodes formulas.old)) (tree (M.nodes formulas.old)) (IsId (M.nodes formulas.new)) (tree (M.nodes formulas.new)) }
    ensures front { Front (M.nodes formulas.old) (M.nodes formulas.new) }
    ensures base { M.base formulas.new ≡ M.base formulas.old }
{
    if pieces.len() > 1 {
        return match junction {
            Junction::Conjunction => formulas.add(Shape::And(Ids::of(pieces))),
            Junction::Disjunction => formulas.add(Shape::Or(Ids::of(pieces))),
        };
    }
    match pieces.pop() {
        Some(id) => Ok(id),
        None => formulas.add(constant(junction == Junction::Conjunction)),
    }
}

// The constant of this truth.
fn constant(truth: bool) -> Shape<FormulaId>
    ensures { result ≡ (if truth then shape.True else shape.False) }
{
    if truth { Shape::True } else { Shape::False }
}
