//! Trees, test points and samples as texts.

ghost use Rattle.formula_store.specs.Nodes.{IsId};

use crate::forms::{atom_text, form_text};
use exact_numbers::Fraction;
use formula_store::{FormulaId, Store};
use formula_tree::Tree;
use logic_meaning::VarId;
use std::alloc::{AllocError, Global};
use test_points::{Place, TestPoint};

/// The text of a formula of few nodes.
pub fn unfolded_text(alloc: Global, store: &Store, id: FormulaId) -> Option<String>
    requires { IsId store.now id }
{
    let tree = store.unfold(id, 10).ok()?;
    tree_text(alloc, &tree).ok()
}

/// The text of a tree: of an atom, of a list whose members are no lists, or of a list in a list.
pub fn tree_text(alloc: Global, tree: &Tree) -> Result<String, AllocError> {
    match tree {
        Tree::And(members) => joined_text(alloc, "and", members.items()),
        Tree::Or(members) => joined_text(alloc, "or", members.items()),
        Tree::Equiv(left, right) => pair_text(alloc, "equiv", left, right),
        _ => leaf_text(alloc, tree),
    }
}

/// The texts of the members of a list, after the word that joins them.
fn joined_text(alloc: Global, word: &str, members: &[Tree]) -> Result<String, AllocError> {
    let mut text = word.to_string(alloc)?;
    for member in members {
        let leaf = leaf_text(alloc, member)?;
        text.push_str(&format!(in alloc; " [{leaf}]")?)?;
    }
    Ok(text)
}

/// The texts of two members, after the word that joins them.
fn pair_text(alloc: Global, word: &str, left: &Tree, right: &Tree) -> Result<String, AllocError> {
    let left = leaf_text(alloc, left)?;
    let right = leaf_text(alloc, right)?;
    format!(in alloc; "{word} [{left}] [{right}]")
}

/// The text of a constant or an atom.
fn leaf_text(alloc: Global, tree: &Tree) -> Result<String, AllocError> {
    match tree {
        Tree::True => "true".to_string(alloc),
        Tree::False => "false".to_string(alloc),
        Tree::One(atom) => atom_text(alloc, atom),
        Tree::And(members) => {
            let count = members.items().len();
            format!(in alloc; "and of {count}")
        }
        Tree::Impl(..) => "impl".to_string(alloc),
        _ => "another formula".to_string(alloc),
    }
}

/// How a test point lies.
pub fn place_text(place: Place) -> &'static str {
    match place {
        Place::Exact => "at",
        Place::AboveBy => "just above",
        Place::BelowBy => "just below",
        Place::MinusInfinity => "far below",
        Place::PlusInfinity => "far above",
        Place::Periodic => "in the residue class of",
    }
}

/// The test points that answer a case.
pub fn answers_text(alloc: Global, answers: &[TestPoint]) -> Result<String, AllocError> {
    let mut text = String::new(alloc);
    for answer in answers {
        let number = answer.name.number;
        let place = place_text(answer.place);
        let form = form_text(alloc, &answer.form)?;
        let over = answer.over;
        text.push_str(&format!(in alloc; " v{number} {place} ({form})/{over}")?)?;
    }
    Ok(text)
}

/// The values of a sample, if there is one.
pub fn sample_text(
    alloc: Global,
    sample: &Option<Vec<(VarId, Fraction)>>,
) -> Result<String, AllocError> {
    let Some(values) = sample else {
        return "none".to_string(alloc);
    };
    let mut text = "values".to_string(alloc)?;
    for (name, value) in values {
        let number = name.number;
        let above = value.numerator;
        let below = value.denominator;
        text.push_str(&format!(in alloc; " v{number} = {above}/{below}")?)?;
    }
    Ok(text)
}
