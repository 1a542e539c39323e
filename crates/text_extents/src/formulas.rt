//! The extent of the text of a formula of a store.

ghost use Rattle.std.specs.Prelude.{◌≡◌, [], OnOk, map};
ghost use Rattle.std.specs.List.{AllByRecursion};
ghost use Rattle.logic_meaning.specs.Plain.{IsPlain, ArePlain};
ghost use Rattle.logic_meaning.specs.Measure.{as_member};
ghost use Rattle.shape_theory.specs.Texts.{word_length, text_measure};
ghost use Rattle.formula_tree.specs.Trees.{members};
ghost use Rattle.formula_store.specs.Nodes.{tree, IsId};
ghost use Rattle.text_extents.specs.Extents.{AddsFormula, AddsMembers};

use crate::error::ExtentError;
use crate::extent::Extent;
use formula_store::{FormulaId, Store};
use formula_tree::Shape;
use logic_meaning::Junction;

impl Extent {
    /// Adds the text of a formula in which only `and`, `or`, constants and atoms stand. The recursion is as deep as the formula is
    /// high.
    #[cycle(written)]
    pub(crate) fn formula(&mut self, store: &Store, id: FormulaId) -> Result<(), ExtentError>
        requires id { IsId store.now id }
        requires plain { IsPlain (tree store.now id) }
        ensures { OnOk result (AddsFormula self.old self.new (tree store.now id)) }
    {
        match store.shape(id) {
            Shape::True => self.add(4),
            Shape::False => self.add(5),
            Shape::One(atom) => self.atom(atom),
            Shape::And(ids) => self.members(store, ids.items(), Junction::Conjunction),
            Shape::Or(ids) => self.members(store, ids.items(), Junction::Disjunction),
            _ => unreachable!(),
        }
    }

    // Adds the texts of the members of a list, each but the first behind the word of the list.
    #[cycle(written)]
    fn members(
        &mut self,
        store: &Store,
        ids: &[FormulaId],
        junction: Junction,
    ) -> Result<(), ExtentError>
        requires ids { AllByRecursion (IsId store.now) ids.now }
        requires plain { ArePlain (members (map (tree store.now) ids.now)) }
        ensures { OnOk result (AddsMembers self.old self.new junction (members (map (tree store.now) ids.now))) }
    {
        let mut before = 0;
        for id in ids {
            self.add(before)?;
            self.add(brackets(store, *id))?;
            self.formula(store, *id)?;
            before = word_bytes(junction);
        }
        Ok(())
    }
}

// The bytes of the parentheses around a formula that is a member.
fn brackets(store: &Store, id: FormulaId) -> u64
    requires { IsId store.now id }
    ensures { result ≡ as_member (text_measure []) (tree store.now id) 0 }
{
    match store.shape(id) {
        Shape::And(_) | Shape::Or(_) => 2,
        _ => 0,
    }
}

// The bytes of the word between two members.
fn word_bytes(junction: Junction) -> u64
    ensures { result ≡ word_length junction }
{
    match junction {
        Junction::Conjunction => 5,
        Junction::Disjunction => 4,
    }
}
