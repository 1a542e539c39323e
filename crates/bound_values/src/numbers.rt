// Whole numbers of 128 bits, quick where they have 64.

/// The product, where it fits.
#[inline(always)]
pub fn product(a: i128, b: i128) -> Option<i128> {
    match (i64::try_from(a), i64::try_from(b)) {
        (Ok(a), Ok(b)) => Some(i128::from(a).wrapping_mul(i128::from(b))),
        _ => wide_product(a, b),
    }
}

// The product of numbers of which one has more than 64 bits, where it fits.
#[cold]
fn wide_product(a: i128, b: i128) -> Option<i128> {
    a.checked_mul(b)
}

/// The quotient, rounded towards 0; `None` where the divisor is 0 or the quotient does not fit.
#[inline(always)]
pub fn quotient(a: i128, b: i128) -> Option<i128> {
    if let (Ok(a), Ok(b)) = (i64::try_from(a), i64::try_from(b))
        && let Some(quotient) = a.checked_div(b)
    {
        return Some(i128::from(quotient));
    }
    a.checked_div(b)
}

/// The sum of two multiples, where it fits.
#[inline(always)]
pub fn combination(a: i128, x: i128, b: i128, y: i128) -> Option<i128> {
    product(a, x)?.checked_add(product(b, y)?)
}

/// The greatest common divisor, 0 of zeros; 1 where it does not fit.
pub fn gcd(a: i128, b: i128) -> i128 {
    match (i64::try_from(a), i64::try_from(b)) {
        (Ok(a), Ok(b)) => i128::from(narrow_gcd(a.unsigned_abs(), b.unsigned_abs())),
        _ => i128::try_from(wide_gcd(a.unsigned_abs(), b.unsigned_abs())).unwrap_or(1),
    }
}

// The greatest common divisor of numbers of 64 bits.
fn narrow_gcd(a: u64, b: u64) -> u64 {
    let mut left = a;
    let mut right = b;
    while right != 0 {
        let rest = left % right;
        left = right;
        right = rest;
    }
    left
}

// The greatest common divisor of numbers of 128 bits.
fn wide_gcd(a: u128, b: u128) -> u128 {
    let mut left = a;
    let mut right = b;
    while right != 0 {
        let rest = left % right;
        left = right;
        right = rest;
    }
    left
}
