// Whole numbers of 128 bits, quick where they have 64.
use exact_numbers::compare_fractions;
use std::cmp::Ordering;

// The product, where it fits.
#[inline(always)]
pub(crate) fn product(a: i128, b: i128) -> Option<i128> {
    match (i64::try_from(a), i64::try_from(b)) {
        (Ok(a), Ok(b)) => Some(i128::from(a).wrapping_mul(i128::from(b))),
        _ => wide_product(a, b),
    }
}

// The product of numbers of which one has more than 64 bits, where it fits.
#[cold]
fn wide_product(a: i128, b: i128) -> Option<i128> {
    a.checked_mul(b)
}

// The sum of two multiples, where it fits.
#[inline(always)]
pub(crate) fn combination(a: i128, x: i128, b: i128, y: i128) -> Option<i128> {
    if y == 0 && a == 1 {
        return Some(x);
    }
    product(a, x)?.checked_add(product(b, y)?)
}

// The greatest common divisor.
pub(crate) fn gcd(a: u128, b: u128) -> u128 {
    let mut left = a;
    let mut right = b;
    while right != 0 {
        let rest = left % right;
        left = right;
        right = rest;
    }
    left
}

// How the sizes of two fractions compare, whatever the signs are; `None` where a denominator is 0, or a number has no size that fits.
pub(crate) fn compare_sizes(one: (i128, i128), other: (i128, i128)) -> Option<Ordering> {
    let (first, second) = (one.1.checked_abs()?, other.1.checked_abs()?);
    if first <= 0 || second <= 0 {
        return None;
    }
    let (one, other) = (one.0.checked_abs()?, other.0.checked_abs()?);
    Some(compare_fractions(one, first, other, second))
}
