// Fractions as a side sees them, which of two is less, and the numbers beside a critical value.
ghost use Rattle.std.specs.Prelude.{◌≡◌, ℤ, pos, ◌<ℤ◌, option_map};
ghost use Rattle.exact_numbers.specs.Fraction.{frac_of};
ghost use Rattle.exact_numbers.specs.Limit.{InLimit, checked};
ghost use Rattle.logic_meaning.specs.Calculated.{is_less, lesser, just_past, below_all, whole_below, class_member, class_below, seen};
ghost use Rattle.plain_samples.specs.Roots.{is_above};

use exact_numbers::{Fraction, compare_fractions, floor_div, residue, sum};
use logic_meaning::Side;
use std::cmp::Ordering;

// The number as the side sees it: itself, or on the upper side its negative.
pub(crate) fn seen(side: Side, a: Fraction) -> Fraction
    ensures { frac_of result ≡ seen side (frac_of a) }
{
    match side {
        Side::Lower => a,
        Side::Upper => a.negate(),
    }
}

// Whether the first number is less.
fn is_less(a: Fraction, b: Fraction) -> bool
    ensures { result ≡ is_less (frac_of a) (frac_of b) }
{
    match compare_fractions(a.numerator, a.denominator, b.numerator, b.denominator) {
        Ordering::Less => true,
        Ordering::Equal | Ordering::Greater => false,
    }
}

// Whether the number is above a bound, if there is one.
pub(crate) fn is_above(bound: Option<Fraction>, a: Fraction) -> bool
    ensures { result ≡ is_above (option_map frac_of bound) (frac_of a) }
{
    match bound {
        Some(bound) => is_less(bound, a),
        None => true,
    }
}

// The lesser of a number and of one that may be there.
pub(crate) fn lesser(a: Fraction, other: Option<Fraction>) -> Fraction
    ensures { frac_of result ≡ lesser (frac_of a) (option_map frac_of other) }
{
    match other {
        Some(b) if !is_less(a, b) => b,
        Some(_) | None => a,
    }
}

// Half the sum of a number and the next critical value, one more where there is none. `None` exactly where a number that is formed
// passes 2^127 - 1.
pub(crate) fn just_past(a: Fraction, next: Option<Fraction>) -> Option<Fraction>
    ensures { option_map frac_of result ≡ just_past (frac_of a) (option_map frac_of next) }
{
    match next {
        Some(next) => {
            let half = Fraction {
                numerator: 1,
                denominator: 2,
            };
            a.add(next)?.multiply(half)
        }
        None => a.add(Fraction::whole(1)),
    }
}

// One less than the least critical value, 0 where there is none. `None` exactly where a number that is formed passes 2^127 - 1.
pub(crate) fn below_all(least: Option<Fraction>) -> Option<Fraction>
    ensures { option_map frac_of result ≡ below_all (option_map frac_of least) }
{
    match least {
        Some(least) => least.add(Fraction::whole(-1)),
        None => Some(Fraction::whole(0)),
    }
}

// The greatest whole number below a number.
fn whole_below(a: Fraction) -> i128
    ensures { result ≡ whole_below (frac_of a) }
{
    floor_div(a.numerator - 1, a.denominator)
}

// The greatest number up to `most` that differs from `member` by a multiple of `modulus`, or `None` exactly where it passes
// 2^127 - 1.
fn class_member(member: i128, modulus: i128, most: i128) -> Option<i128>
    requires { pos 0 <ℤ modulus }
    ensures { result ≡ checked (class_member member modulus most) }
{
    let apart = residue(residue(most, modulus) - residue(member, modulus), modulus);
    sum(most, -apart)
}

// The greatest number of the residue class of `member` modulo `modulus` below the least critical value; `member` where there is
// none. `None` exactly where it passes 2^127 - 1.
pub(crate) fn class_below(member: i128, modulus: i128, least: Option<Fraction>) -> Option<Fraction>
    requires member { InLimit member }
    requires modulus { pos 0 <ℤ modulus }
    ensures { option_map frac_of result ≡ class_below member modulus (option_map frac_of least) }
{
    match least {
        Some(least) => {
            let number = class_member(member, modulus, whole_below(least))?;
            Some(Fraction::whole(number))
        }
        None => Some(Fraction::whole(member)),
    }
}
