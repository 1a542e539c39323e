//! New names of variables.

ghost use Rattle.std.specs.Prelude.{◌≡◌, ◌<◌, ◌≤◌, ◌++◌, ◌∷◌, [], ℕ, List, IfOk, OnOk, OnErr, length, take};
ghost use Rattle.std.specs.List.{AllByRecursion};
ghost use Rattle.logic_meaning.specs.Some.{Among};
ghost use Rattle.logic_meaning.specs.NewNames.{new_text, IsFirstNew, AddsNewNames};
ghost use Rattle.language_meaning.specs.Names.{IsVariable};

use formula_tree::Names;
use logic_meaning::Name;
use std::alloc::{AllocError, Global};

/// Adds so many new names: each is the first of `v1`, `v2`, .. that is none yet. A script can write them. Its only error is want
/// of memory, which leaves the names as they were.
pub(crate) fn add_new_names(
    alloc: Global,
    names: &mut Names,
    count: usize,
) -> Result<(), AllocError>
    ensures added { OnOk result (AddsNewNames names.old count names.new) }
    ensures variables { OnOk result (AllByRecursion IsVariable names.old → AllByRecursion IsVariable names.new) }
    ensures unchanged { OnErr result (names.new ≡ names.old) }
{
    let known = names.count();
    match add_each(alloc, names, count) {
        Ok(()) => Ok(()),
        Err(error) => {
            names.keep_first(known);
            Err(error)
        }
    }
}

// The same, where after an error some names may have been added.
fn add_each(alloc: Global, names: &mut Names, count: usize) -> Result<(), AllocError>
    ensures added { OnOk result (AddsNewNames names.old count names.new) }
    ensures variables { OnOk result (AllByRecursion IsVariable names.old → AllByRecursion IsVariable names.new) }
    ensures front { take (length names.old) names.new ≡ names.old }
    ensures longer { length names.old ≤ length names.new }
{
    let mut index = 1;
    for _ in 0..count {
        index = add_one(alloc, names, index)?;
    }
    Ok(())
}

// Adds one name, where all before this number are there, and gives the number after its.
fn add_one(alloc: Global, names: &mut Names, from: u64) -> Result<u64, AllocError>
    requires positive { 0 < from }
    requires earlier { (j : ℕ) → 0 < j → j < from → Among names.old (new_text j) }
    ensures added { OnOk result ((text : List ℕ) × IsFirstNew names.old text × (names.new ≡ names.old ++ text ∷ [])) }
    ensures variables { OnOk result (AllByRecursion IsVariable names.old → AllByRecursion IsVariable names.new) }
    ensures positive { IfOk result (λ next. 0 < next) }
    ensures earlier { IfOk result (λ next. (j : ℕ) → 0 < j → j < next → Among names.new (new_text j)) }
    ensures unchanged { OnErr result (names.new ≡ names.old) }
{
    for index in from..u64::MAX {
        let name = numbered(alloc, index)?;
        if names.find(&name).is_none() {
            names.number(&name).map_err(|_| AllocError)?;
            return Ok(index + 1);
        }
    }
    // There is no memory for so many names.
    Err(AllocError)
}

// The name `v` with this number.
fn numbered(alloc: Global, index: u64) -> Result<Name, AllocError>
    ensures { IfOk result (λ name. name ≡ new_text index) }
{
    let text = format!(in alloc; "v{index}")?;
    Ok(Name::of(text.as_bytes()))
}
