//! What is to be made for the form of one formula, which holds on to nothing of the store.

ghost use Rattle.std.specs.Prelude.{◌≡◌, ◌≤◌, ◌+◌, ◌∷◌, [], Some, IfOk, length, slice_get, if◌then◌else◌};
ghost use Rattle.logic_meaning.specs.Fold.{joined};
ghost use Rattle.logic_meaning.specs.NegationNormal.{both};
ghost use Rattle.formula_tree.specs.FromNormalAtoms.{atom_of, IsWellFormed};
ghost use Rattle.logic_meaning.specs.NormalForm.{negated_normal};
ghost use Rattle.formula_tree.specs.declared.shape.Shape.{Shape};
ghost use Rattle.formula_tree.specs.declared.shape.Shape.TheVariants as shape;
ghost use Rattle.formula_tree.specs.Shapes.{AllIds, IsProperShape, tree_over};
ghost use Rattle.formula_tree.specs.Makers.{IsMade, Keeps};
ghost use Rattle.formula_store.specs.declared.id.FormulaId.{FormulaId};
ghost use Rattle.formula_store.specs.Nodes.{IsId, tree, Front};
ghost use Rattle.formula_store.specs.Forms.{form, Known};
ghost use Rattle.formula_store.specs.Plans.{planned_tree, joined_shape, quantified_shape, AllPlanned, IsProperPlan, Plans};

use crate::forms::{Table, all_forms, form};
use crate::id::FormulaId;
use crate::store::Store;
use formula_tree::{Atom, Ids, Maker, Shape, negate};
use logic_meaning::{Junction, Quantifier, VarId};
use std::alloc::{AllocError, Global};

/// A formula that is there already, one of a shape, or one of two cases: both of the first two, or both of the others.
#[derive(Drop)]
pub(crate) enum Plan {
    Ready(FormulaId),
    Make(Shape<FormulaId>),
    Cases(FormulaId, FormulaId, FormulaId, FormulaId),
}

/// What is to be made for the form of a formula, or of its negation, over the forms of its members.
pub(crate) fn planned(
    alloc: Global,
    store: &Store,
    id: FormulaId,
    table: &Table,
    negated: bool,
) -> Result<Plan, AllocError>
    requires id { IsId store.now id }
    requires members { (n : Shape FormulaId) → slice_get store.now id.number ≡ Some n → AllIds (Known store.now table.now) n }
    ensures { IfOk result (Plans store.now (form negated (tree store.now id))) }
{
    match store.shape(id) {
        Shape::True => Ok(Plan::Make(constant(!negated))),
        Shape::False => Ok(Plan::Make(constant(negated))),
        Shape::One(_) if !negated => Ok(Plan::Ready(id)),
        Shape::One(atom) => Ok(Plan::Make(Shape::One(opposite(alloc, atom)?))),
        Shape::And(ids) => {
            let forms = all_forms(alloc, table, ids.items(), negated)?;
            Ok(Plan::Make(joined(forms, Junction::Conjunction.turned(negated))))
        }
        Shape::Or(ids) => {
            let forms = all_forms(alloc, table, ids.items(), negated)?;
            Ok(Plan::Make(joined(forms, Junction::Disjunction.turned(negated))))
        }
        Shape::Not(f) => Ok(Plan::Ready(form(table, *f, !negated))),
        Shape::Impl(f, g) => {
            let forms = pair(alloc, form(table, *f, !negated), form(table, *g, negated))?;
            Ok(Plan::Make(joined(forms, Junction::Disjunction.turned(negated))))
        }
        Shape::Repl(f, g) => {
            let forms = pair(alloc, form(table, *f, negated), form(table, *g, !negated))?;
            Ok(Plan::Make(joined(forms, Junction::Disjunction.turned(negated))))
        }
        Shape::Equiv(f, g) => Ok(Plan::Cases(
            form(table, *f, false),
            form(table, *g, negated),
            form(table, *f, true),
            form(table, *g, !negated),
        )),
        Shape::Ex(x, f) => {
            let quantifier = Quantifier::Exists.turned(negated);
            Ok(Plan::Make(quantified(quantifier, *x, form(table, *f, negated))))
        }
        Shape::All(x, f) => {
            let quantifier = Quantifier::ForAll.turned(negated);
            Ok(Plan::Make(quantified(quantifier, *x, form(table, *f, negated))))
        }
    }
}

// The constant of this truth.
fn constant(truth: bool) -> Shape<FormulaId>
    ensures { result ≡ (if truth then shape.True else shape.False) }
{
    if truth { Shape::True } else { Shape::False }
}

// The formulas joined.
fn joined(ids: Ids<FormulaId>, junction: Junction) -> Shape<FormulaId>
    ensures { result ≡ joined_shape junction ids }
{
    match junction {
        Junction::Conjunction => Shape::And(ids),
        Junction::Disjunction => Shape::Or(ids),
    }
}

// The formula under a quantifier.
fn quantified(quantifier: Quantifier, name: VarId, id: FormulaId) -> Shape<FormulaId>
    ensures { result ≡ quantified_shape quantifier name id }
{
    match quantifier {
        Quantifier::Exists => Shape::Ex(name, id),
        Quantifier::ForAll => Shape::All(name, id),
    }
}

// The list of the two.
fn pair(alloc: Global, a: FormulaId, b: FormulaId) -> Result<Ids<FormulaId>, AllocError>
    ensures { IfOk result (λ ids. ids ≡ a ∷ b ∷ []) }
{
    Ok(Ids::of(vec![in alloc; a, b]?))
}

// The atom of the opposite truth.
fn opposite(alloc: Global, atom: &Atom) -> Result<Atom, AllocError>
    requires { IsWellFormed atom.now }
    ensures atom { IfOk result (λ a. atom_of a ≡ negated_normal (atom_of atom.now)) }
    ensures well_formed { IfOk result IsWellFormed }
{
    negate(alloc, atom).map_err(|_| AllocError)
}

/// Makes what is planned, with at most three new formulas.
pub(crate) fn performed(
    alloc: Global,
    store: &mut Store,
    plan: Plan,
) -> Result<FormulaId, AllocError>
    requires ids { AllPlanned (IsId store.old) plan }
    requires proper { IsProperPlan plan }
    ensures made { IfOk result (λ id. IsMade (IsId store.new) (tree store.new) id (planned_tree (tree store.old) plan)) }
    ensures kept { Keeps (IsId store.old) (tree store.old) (IsId store.new) (tree store.new) }
    ensures front { Front store.old store.new }
    ensures few { length store.new ≤ length store.old + 3 }
{
    match plan {
        Plan::Ready(id) => Ok(id),
        Plan::Make(shape) => made(store, shape),
        Plan::Cases(a, b, c, d) => {
            let first = made_both(alloc, store, a, b, Junction::Conjunction)?;
            let second = made_both(alloc, store, c, d, Junction::Conjunction)?;
            made_both(alloc, store, first, second, Junction::Disjunction)
        }
    }
}

// Makes the formula of this shape.
fn made(store: &mut Store, shape: Shape<FormulaId>) -> Result<FormulaId, AllocError>
    requires ids { AllIds (IsId store.old) shape }
    requires proper { IsProperShape shape }
    ensures made { IfOk result (λ id. IsMade (IsId store.new) (tree store.new) id (tree_over (tree store.old) shape)) }
    ensures kept { Keeps (IsId store.old) (tree store.old) (IsId store.new) (tree store.new) }
    ensures front { Front store.old store.new }
    ensures few { length store.new ≤ length store.old + 1 }
{
    Ok(store.make(shape)?)
}

// Makes the formula of two joined.
fn made_both(
    alloc: Global,
    store: &mut Store,
    a: FormulaId,
    b: FormulaId,
    junction: Junction,
) -> Result<FormulaId, AllocError>
    requires first { IsId store.old a }
    requires second { IsId store.old b }
    ensures made { IfOk result (λ id. IsMade (IsId store.new) (tree store.new) id (joined junction (both (tree store.old a) (tree store.old b)))) }
    ensures kept { Keeps (IsId store.old) (tree store.old) (IsId store.new) (tree store.new) }
    ensures front { Front store.old store.new }
    ensures few { length store.new ≤ length store.old + 1 }
{
    let ids = pair(alloc, a, b)?;
    made(store, joined(ids, junction))
}
