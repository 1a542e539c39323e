//! How a formula in negation normal form begins.

ghost use Rattle.std.specs.Prelude.{◌≡◌, IfOk};
ghost use Rattle.logic_meaning.specs.Fold.{joined};
ghost use Rattle.logic_meaning.specs.Plain.{IsNegationNormal};
ghost use Rattle.logic_meaning.specs.Tree.{Trees};
ghost use Rattle.formula_store.specs.Nodes.{tree, IsId};
ghost use Rattle.engine_answers.specs.Without.{IsKind, AreMembersOf};

use formula_store::{FormulaId, Store};
use formula_tree::Shape;
use logic_meaning::{Junction, Quantifier};
use std::alloc::{AllocError, Global};

/// How a formula begins: it is an atom or a constant, a list, or begins with a chain of quantifiers.
#[derive(Clone, Copy)]
pub(crate) enum Kind {
    Itself,
    List(Junction),
    Chain(Quantifier),
}

/// How the formula begins. It takes no memory.
pub(crate) fn kind_of(store: &Store, id: FormulaId) -> Kind
    requires id { IsId store.now id }
    requires form { IsNegationNormal (tree store.now id) }
    ensures { IsKind (tree store.now id) result }
{
    match store.shape(id) {
        Shape::True | Shape::False | Shape::One(_) => Kind::Itself,
        Shape::And(_) => Kind::List(Junction::Conjunction),
        Shape::Or(_) => Kind::List(Junction::Disjunction),
        Shape::Ex(..) => Kind::Chain(Quantifier::Exists),
        Shape::All(..) => Kind::Chain(Quantifier::ForAll),
        Shape::Not(_) | Shape::Impl(..) | Shape::Repl(..) | Shape::Equiv(..) => unreachable!(),
    }
}

/// The ids of the members of the list, held apart from the store. Its only error is want of memory.
pub(crate) fn members_of(
    alloc: Global,
    store: &Store,
    id: FormulaId,
    junction: Junction,
) -> Result<Vec<FormulaId>, AllocError>
    requires id { IsId store.now id }
    requires list { (fs : Trees) × (tree store.now id ≡ joined junction fs) }
    ensures { IfOk result (λ v. AreMembersOf store.now junction id v.items) }
{
    let mut members = Vec::new(alloc);
    match (store.shape(id), junction) {
        (Shape::And(ids), Junction::Conjunction) | (Shape::Or(ids), Junction::Disjunction) => {
            members.extend_from_slice(ids.items())?;
        }
        _ => unreachable!(),
    }
    Ok(members)
}
