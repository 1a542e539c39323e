//! Whether atoms imply others.

ghost use Rattle.std.specs.Prelude.{◌≤◌, List, IfOk, IsTrue};
ghost use Rattle.logic_meaning.specs.Context.{Context as Theory};
ghost use Rattle.logic_meaning.specs.Atom.{Atom as Meant};
ghost use Rattle.atom_pruning.specs.Rows.{AreRows};
ghost use Rattle.atom_pruning.specs.Kept.{Imply};

use crate::question::Question;
use crate::row_list::RowList;
use crate::rows::AtomRows;
use std::alloc::{AllocError, Global};

/// Whether Farkas multipliers show of each of the atoms that have these rows, that the assumptions and the given atoms, which have those,
/// imply it; not where the effort does not suffice. What the search does is taken off it. Its only error is want of memory.
pub fn are_implied(
    alloc: Global,
    assumed: &[AtomRows],
    given: &[AtomRows],
    atoms: &[AtomRows],
    effort: &mut u64,
) -> Result<bool, AllocError>
    ensures implied { IfOk result (λ b. IsTrue b → (c : Theory) (ks gs us : List Meant) → AreRows c ks assumed.now → AreRows c gs given.now → AreRows c us atoms.now → Imply c ks gs us) }
    ensures effort { effort.new ≤ effort.old }
{
    if atoms.iter().any(|rows| rows.fails.is_none()) {
        return Ok(false);
    }
    let rows = RowList {
        given,
        assumed,
        negated: atoms,
    };
    let question = Question::new(alloc, rows)?;
    let mut marks = question.marks()?;
    for place in 0..atoms.len() {
        if !question.implies(place, &mut marks, effort)? {
            return Ok(false);
        }
    }
    Ok(true)
}
