// Whole numbers of 128 bits, quick where they have 64.

// The product, where it fits.
#[inline(always)]
pub(crate) fn product(a: i128, b: i128) -> Option<i128> {
    match (i64::try_from(a), i64::try_from(b)) {
        (Ok(a), Ok(b)) => Some(i128::from(a).wrapping_mul(i128::from(b))),
        _ => wide_product(a, b),
    }
}

// The product of numbers of which one has more than 64 bits, where it fits.
#[cold]
fn wide_product(a: i128, b: i128) -> Option<i128> {
    a.checked_mul(b)
}

// The greatest common divisor.
pub(crate) fn gcd(a: i128, b: u128) -> u128 {
    let mut left = a.unsigned_abs();
    let mut right = b;
    while right != 0 {
        let rest = left % right;
        left = right;
        right = rest;
    }
    left
}

// The inverse of an odd number modulo 2^128, by Newton's iteration: a number is its own inverse modulo 8, and each step doubles the
// bits that are right.
fn inverse(odd: i128) -> i128 {
    let mut inverse = odd;
    for _ in 0..6 {
        let error = 2i128.wrapping_sub(odd.wrapping_mul(inverse));
        inverse = inverse.wrapping_mul(error);
    }
    inverse
}

// A division that leaves nothing: a shift, and a product with an inverse modulo 2^128.
#[derive(Clone, Copy)]
struct ExactDivision {
    shift: u32,
    inverse: i128,
}

impl ExactDivision {
    // The division by a number that is not 0.
    fn by(divisor: i128) -> ExactDivision {
        let shift = divisor.trailing_zeros();
        ExactDivision {
            shift,
            inverse: inverse(divisor.wrapping_shr(shift)),
        }
    }

    // The quotient of a multiple of the divisor.
    #[inline(always)]
    fn quotient(self, number: i128) -> i128 {
        number.wrapping_shr(self.shift).wrapping_mul(self.inverse)
    }
}

// What takes a tableau from one denominator to another: a product with the new one and a division by the old one. The division leaves
// nothing, since both sides are minors of the matrix that the tableau began with.
#[derive(Clone, Copy)]
pub(crate) struct Step {
    old: i128,
    new: i128,
    by_old: ExactDivision,
}

impl Step {
    // The step between denominators that are not 0.
    pub(crate) fn between(old: i128, new: i128) -> Step {
        Step {
            old,
            new,
            by_old: ExactDivision::by(old),
        }
    }

    // Whether the denominator stays.
    pub(crate) fn keeps_denominator(self) -> bool {
        self.old == self.new
    }

    // The entry over the new denominator, where the product fits.
    #[inline(always)]
    pub(crate) fn scaled(self, entry: i128) -> Option<i128> {
        if self.keeps_denominator() {
            return Some(entry);
        }
        Some(self.by_old.quotient(product(self.new, entry)?))
    }

    // The entry less a multiple of another, over the new denominator, where the products fit.
    #[inline(always)]
    pub(crate) fn reduced(self, entry: i128, multiple: i128, other: i128) -> Option<i128> {
        if other == 0 {
            return self.scaled(entry);
        }
        let difference = product(self.new, entry)?.checked_sub(product(multiple, other)?)?;
        Some(self.by_old.quotient(difference))
    }
}
