//! The prenex form of a formula of a store.

ghost use Rattle.std.specs.Prelude.{◌≡◌, ◌≤◌, ◌<◌, ◌↔◌, ℕ, IfOk, OnOk, OnErr, IsErrOf, length};
ghost use Rattle.std.specs.List.{AllByRecursion};
ghost use Rattle.logic_meaning.specs.Every.{Every};
ghost use Rattle.logic_meaning.specs.Sizes.{nodes};
ghost use Rattle.logic_meaning.specs.Shape.{IsPrenex, fewest_blocks};
ghost use Rattle.logic_meaning.specs.Tree.{IsFree};
ghost use Rattle.formula_laws.specs.Equivalence.{Equivalent};
ghost use Rattle.normal_atoms.specs.Atoms.{context_of};
ghost use Rattle.logic_meaning.specs.NormalForm.{IsNormal};
ghost use Rattle.formula_tree.specs.Makers.{IsMade, Keeps};
ghost use Rattle.formula_store.specs.Nodes.{IsId, tree};
ghost use Rattle.language_meaning.specs.Names.{IsVariable};
ghost use Rattle.formula_laws.specs.Within.{IsTreeWithin};
ghost use Rattle.logic_meaning.specs.Blocks.{block_count};
ghost use Rattle.logic_meaning.specs.Renaming.{new_count};
ghost use Rattle.logic_meaning.specs.NewNames.{AddsNewNames};
ghost use Rattle.logic_meaning.specs.Prenex.{prenex_of};
ghost use Rattle.language_meaning.specs.Forms.{OverflowsInRenaming};
ghost use Rattle.prenex_forms.specs.NegationForm.{negation_form};

use crate::form::unfolded_form;
use crate::new_names::add_new_names;
use crate::renaming::renamed;
use crate::start::start;
use crate::whole::in_front;
use formula_store::{FormulaId, Store};
use formula_tree::{FormError, Names};
use normal_atoms::{AtomError, Context};
use std::alloc::Global;

/// The prenex form of a formula: its negation normal form with the quantifiers in front, each in the earliest block of its kind
/// that the nesting allows. Quantified names that clash get new ones, which are added to the names. `Nodes` comes exactly where
/// the negation normal form has more than `limit` nodes, and `Overflow` exactly where it has not and the normal form of a renamed
/// atom passes 2^127 - 1, else `Memory`. After an error the names are as before; the formulas of the store stay.
pub fn pnf(
    alloc: Global,
    store: &mut Store,
    context: Context,
    id: FormulaId,
    names: &mut Names,
    limit: u64,
) -> Result<FormulaId, FormError>
    requires id { IsId store.old id }
    requires normal { Every (IsNormal (context_of context)) (tree store.old id) }
    requires named { IsTreeWithin (length names.old) (tree store.old id) }

    // It is the form that the definition computes, and these are its new names.
    ensures made { IfOk result (λ r. IsMade (IsId store.new) (tree store.new) r (prenex_of (context_of context) (length names.old) (negation_form (tree store.old id)))) }
    ensures names { OnOk result (AddsNewNames names.old (new_count (length names.old) (negation_form (tree store.old id))) names.new) }
    ensures variables { OnOk result (AllByRecursion IsVariable names.old → AllByRecursion IsVariable names.new) }
    ensures named { IfOk result (λ r. IsTreeWithin (length names.new) (tree store.new r)) }

    // So it is a prenex form.
    ensures prenex { IfOk result (λ r. IsPrenex (tree store.new r)) }
    ensures fewest { IfOk result (λ r. block_count (tree store.new r) ≡ fewest_blocks (negation_form (tree store.old id))) }
    ensures truth { IfOk result (λ r. Equivalent (context_of context) (tree store.old id) (tree store.new r)) }
    ensures free { IfOk result (λ r. (x : ℕ) → IsFree (tree store.new r) x ↔ IsFree (tree store.old id) x) }
    ensures normal { IfOk result (λ r. Every (IsNormal (context_of context)) (tree store.new r)) }

    ensures small { OnOk result (nodes (negation_form (tree store.old id)) ≤ limit) }
    ensures fits { OnOk result (¬ (OverflowsInRenaming (context_of context) (length names.old) (negation_form (tree store.old id)))) }
    ensures nodes { IsErrOf result FormError.Nodes → limit < nodes (negation_form (tree store.old id)) }
    ensures overflow { IsErrOf result FormError.Overflow → (nodes (negation_form (tree store.old id)) ≤ limit) × OverflowsInRenaming (context_of context) (length names.old) (negation_form (tree store.old id)) }
    ensures quantified { ¬ (IsErrOf result FormError.Quantified) }
    ensures unchanged { OnErr result (names.new ≡ names.old) }
    ensures kept { Keeps (IsId store.old) (tree store.old) (IsId store.new) (tree store.new) }
{
    let form = unfolded_form(alloc, store, id, limit)?;
    let mut chooser = start(alloc, &form, names.count())?;
    let named = match renamed(alloc, context, &mut chooser, &form) {
        Ok(named) => named,
        Err(AtomError::Overflow) => return Err(FormError::Overflow),
        Err(AtomError::Memory) => return Err(FormError::Memory),
    };
    let made = in_front(alloc, store, named)?;
    add_new_names(alloc, names, chooser.made)?;
    Ok(made)
}
