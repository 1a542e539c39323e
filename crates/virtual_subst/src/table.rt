//! What is made of formulas, by their ids.

ghost use Rattle.std.specs.Prelude.{◌≡◌, OnOk};
ghost use Rattle.virtual_subst.specs.Shared.{made_of, KeysRise, Notes};

use formula_store::FormulaId;
use std::alloc::AllocError;

/// Formulas, by rising ids, and what is made of each; one that stays what it is is not there.
pub(crate) type Table = Vec<(FormulaId, FormulaId)>;

/// What is made of the formula: a binary search. It takes no memory.
pub(crate) fn made(table: &[(FormulaId, FormulaId)], id: FormulaId) -> FormulaId
    requires { KeysRise table.now }
    ensures { result ≡ made_of table.now id }
{
    match table.binary_search_by(|entry| entry.0.cmp(&id)) {
        Ok(place) => table[place].1,
        Err(_) => id,
    }
}

/// Notes what is made of the formula, if it is another one.
pub(crate) fn note(table: &mut Table, id: FormulaId, copy: FormulaId) -> Result<(), AllocError>
    ensures { OnOk result (Notes table.old.items table.new.items id copy) }
{
    if copy != id {
        table.push((id, copy))?;
    }
    Ok(())
}
