// Common divisors and multiples, quotients rounded down, and fractions compared.
ghost use Rattle.std.specs.Prelude.{◌≡◌, pos, ◌+ℤ◌, ◌*ℤ◌, ◌<ℤ◌, MatchOption};
ghost use Rattle.std.specs.Ordering.{int_cmp};
ghost use Rattle.exact_numbers.specs.Limit.{InLimit, PastLimit, checked};
ghost use Rattle.exact_numbers.specs.Divides.{IsGcd, gcd_of, lcm_of, floor_of, residue_of};
ghost use Rattle.exact_numbers.specs.Division.{IsLcm, IsFloor, IsResidue};

use crate::limit::product;
use std::cmp::Ordering;

/// The greatest common divisor, never negative; of 0 and 0 it is 0.
pub fn gcd(a: i128, b: i128) -> i128
    requires first_within { InLimit a }
    requires second_within { InLimit b }
    ensures greatest { IsGcd a b result }
    ensures value { result ≡ gcd_of a b }
    ensures within { InLimit result }
{
    let mut left = a.unsigned_abs();
    let mut right = b.unsigned_abs();
    while right != 0 {
        let rest = left % right;
        left = right;
        right = rest;
    }
    left as i128
}

/// The least common multiple of two positive numbers, or `None` exactly where it passes 2^127 - 1.
pub fn lcm(a: i128, b: i128) -> Option<i128>
    requires first_positive { pos 0 <ℤ a }
    requires second_positive { pos 0 <ℤ b }
    ensures value { MatchOption result (PastLimit (lcm_of a b)) (λ m. (m ≡ lcm_of a b) × IsLcm a b m) }
    ensures rule { result ≡ checked (lcm_of a b) }
{
    product(a / gcd(a, b), b)
}

/// `a / b` rounded down, for a positive `b`.
pub fn floor_div(a: i128, b: i128) -> i128
    requires { pos 0 <ℤ b }
    ensures rounded { IsFloor a b result }
    ensures value { result ≡ floor_of a b }
{
    a.div_euclid(b)
}

/// What remains of `a` modulo a positive `m`, from 0 up to `m - 1`.
pub fn residue(a: i128, m: i128) -> i128
    requires { pos 0 <ℤ m }
    ensures remains { IsResidue a m result }
    ensures value { result ≡ residue_of a m }
    ensures within { InLimit result }
{
    a.rem_euclid(m)
}

/// How `a / b` compares with `c / d`, for positive `b` and `d`. No number formed passes the limit.
pub fn compare_fractions(a: i128, b: i128, c: i128, d: i128) -> Ordering
    requires first_positive { pos 0 <ℤ b }
    requires second_positive { pos 0 <ℤ d }
    ensures { result ≡ int_cmp (a *ℤ d) (c *ℤ b) }
{
    match floor_div(a, b).cmp(&floor_div(c, d)) {
        Ordering::Equal => {
            let left = residue(a, b);
            let right = residue(c, d);
            if left == 0 || right == 0 {
                left.cmp(&right)
            } else {
                compare_fractions(d, right, b, left)
            }
        }
        unequal => unequal,
    }
}
