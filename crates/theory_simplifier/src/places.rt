//! The places of a list's atoms, by the numbers of their variable parts.

ghost use Rattle.std.specs.Prelude.{ℕ, nat_eq, ◌≡◌, ◌++◌, ◌∷◌, [], IfOk, if◌then◌else◌};
ghost use Rattle.theory_simplifier.specs.Places.{places_at};

use std::alloc::{AllocError, Global};
use std::collections::HashMap;

/// Lists of places by the numbers of variable parts.
pub(crate) type Places = HashMap<u64, Vec<usize>>;

/// The places of a number. It takes no memory.
pub(crate) fn places_at(places: &Places, part: u64) -> &[usize]
    ensures { result.now ≡ places_at places.now part }
{
    match places.get(&part) {
        Some(list) => list,
        None => &[],
    }
}

/// The places with one more, the last of a number.
pub(crate) fn with_place(
    alloc: Global,
    places: Places,
    part: u64,
    place: usize,
) -> Result<Places, AllocError>
    ensures { IfOk result (λ r. (p : ℕ) → places_at r p ≡ (if nat_eq part p then places_at places part ++ place ∷ [] else places_at places p)) }
{
    let mut places = places;
    let list = places.entry(part)?.or_insert(Vec::new(alloc));
    list.push(place)?;
    Ok(places)
}
