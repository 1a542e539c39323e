// The merge of two sorted lists of names with coefficients.
ghost use Rattle.std.specs.Prelude.{◌≡◌, ◌<◌, ◌≤◌, ℕ, ◌+ℤ◌, ◌*ℤ◌, [], length, IfOk, IsErrOf, MatchOption};
ghost use Rattle.logic_meaning.specs.Form.{multiple};
ghost use Rattle.logic_meaning.specs.Sorted.{IsRising};
ghost use Rattle.logic_meaning.specs.Terms.{PlaceWithin, PlacePasses};
ghost use Rattle.linear_forms.specs.Merging.{FirstAtLeast, FirstIs, IsNext, IsPeeled, IsMerged};
ghost use Rattle.linear_forms.specs.Linear.{terms_of};

use crate::error::LinError;
use exact_numbers::{product, sum};
use logic_meaning::VarId;
use std::alloc::Global;

// The sum a * x + b * y, or `None` exactly where a product or the sum passes the limit.
pub(crate) fn place(a: i128, x: i128, b: i128, y: i128) -> Option<i128>
    ensures { MatchOption result (PlacePasses (a *ℤ x) (b *ℤ y)) (λ n. (n ≡ a *ℤ x +ℤ b *ℤ y) × PlaceWithin (a *ℤ x) (b *ℤ y)) }
{
    sum(product(a, x)?, product(b, y)?)
}

// The least name of two sorted lists, if one is left.
fn next_name(left: &[(VarId, i128)], right: &[(VarId, i128)]) -> Option<VarId>
    ensures { MatchOption result ((left.now ≡ []) × (right.now ≡ [])) (λ n. IsNext n.number (terms_of left.now) (terms_of right.now)) }
{
    match (left.split_first(), right.split_first()) {
        (Some((x, _)), Some((y, _))) => Some(if y.0.number < x.0.number { y.0 } else { x.0 }),
        (Some((x, _)), None) => Some(x.0),
        (None, Some((y, _))) => Some(y.0),
        (None, None) => None,
    }
}

// The coefficient of a name that stands first or not at all, and the list after it.
fn peel(terms: &[(VarId, i128)], name: VarId) -> (i128, &[(VarId, i128)])
    requires rising { IsRising (terms_of terms.now) }
    requires first { FirstAtLeast name.number (terms_of terms.now) }
    ensures peeled { IsPeeled (terms_of terms.now) name.number result.0 (terms_of result.1.now) }
    ensures no_longer { length result.1.now ≤ length terms.now }
    ensures shorter { FirstIs name.number (terms_of terms.now) → length result.1.now < length terms.now }
{
    match terms.split_first() {
        Some((first, rest)) if first.0.number == name.number => (first.1, rest),
        _ => (0, terms),
    }
}

// The terms of a * left + b * right: one merge, linear in the lengths of the two.
pub(crate) fn merge(
    alloc: Global,
    mut left: &[(VarId, i128)],
    a: i128,
    mut right: &[(VarId, i128)],
    b: i128,
) -> Result<Vec<(VarId, i128)>, LinError>
    requires left_rising { IsRising (terms_of left.now) }
    requires right_rising { IsRising (terms_of right.now) }
    ensures merged { IfOk result (λ ts. IsMerged a (terms_of left.entry.now) b (terms_of right.entry.now) (terms_of ts.items) [] []) }
    ensures overflow { IsErrOf result LinError.Overflow → (x : ℕ) × PlacePasses (a *ℤ multiple x (terms_of left.entry.now)) (b *ℤ multiple x (terms_of right.entry.now)) }
{
    let mut merged = Vec::new(alloc);
    while let Some(name) = next_name(left, right) {
        let (x, left_rest) = peel(left, name);
        let (y, right_rest) = peel(right, name);
        left = left_rest;
        right = right_rest;
        let number = place(a, x, b, y).ok_or(LinError::Overflow)?;
        if number != 0 {
            merged.push((name, number)).map_err(|_| LinError::Memory)?;
        }
    }
    Ok(merged)
}
