//! The forms of a formula and of its negation, and a table of them.

ghost use Rattle.std.specs.Prelude.{◌≡◌, IsSome, IsTrue, IfOk, map, false};
ghost use Rattle.std.specs.List.{AllByRecursion};
ghost use Rattle.std.specs.HashMap.{get};
ghost use Rattle.formula_store.specs.Forms.{form_at, same_id};

use crate::id::FormulaId;
use formula_tree::Ids;
use std::alloc::{AllocError, Global};
use std::collections::HashMap;

/// The negation normal forms of a formula and of its negation.
#[derive(Clone, Copy)]
pub(crate) struct Forms {
    pub(crate) plain: FormulaId,
    pub(crate) negated: FormulaId,
}

/// The forms of formulas, by their ids.
pub(crate) type Table = HashMap<FormulaId, Forms>;

/// The form that a table has for a formula, or for its negation.
pub(crate) fn form(table: &Table, id: FormulaId, negated: bool) -> FormulaId
    requires { IsSome (get same_id table.now id) }
    ensures { result ≡ form_at table.now negated id }
{
    let forms = table.get(&id).unwrap();
    if negated { forms.negated } else { forms.plain }
}

/// The forms that a table has for some formulas, or for their negations.
pub(crate) fn all_forms(
    alloc: Global,
    table: &Table,
    ids: &[FormulaId],
    negated: bool,
) -> Result<Ids<FormulaId>, AllocError>
    requires { AllByRecursion (λ id. IsSome (get same_id table.now id)) ids.now }
    ensures { IfOk result (λ forms. forms ≡ map (form_at table.now negated) ids.now) }
{
    let mut forms = Vec::new(alloc);
    for id in ids {
        forms.push(form(table, *id, negated))?;
    }
    Ok(Ids::of(forms))
}

/// Whether each of the formulas is its own form.
pub(crate) fn are_their_own(table: &Table, ids: &[FormulaId]) -> bool
    requires { AllByRecursion (λ id. IsSome (get same_id table.now id)) ids.now }
    ensures { IsTrue result → map (form_at table.now false) ids.now ≡ ids.now }
{
    for id in ids {
        if form(table, *id, false) != *id {
            return false;
        }
    }
    true
}
