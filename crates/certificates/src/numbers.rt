// The least and the greatest of some numbers, and a number between bounds.
ghost use Rattle.std.specs.Prelude.{◌≡◌, map, option_map};
ghost use Rattle.exact_numbers.specs.Fraction.{frac_of};
ghost use Rattle.logic_meaning.specs.Calculated.{is_less, lesser, just_past, below_all};
ghost use Rattle.logic_meaning.specs.Bounds.{least, greatest, between};

use exact_numbers::{Fraction, compare_fractions};

// Whether the first number is less.
fn is_less(a: Fraction, b: Fraction) -> bool
    ensures { result ≡ is_less (frac_of a) (frac_of b) }
{
    compare_fractions(a.numerator, a.denominator, b.numerator, b.denominator).is_lt()
}

// The lesser of a number and of one that may be there.
fn lesser(a: Fraction, other: Option<Fraction>) -> Fraction
    ensures { frac_of result ≡ lesser (frac_of a) (option_map frac_of other) }
{
    match other {
        Some(b) if !is_less(a, b) => b,
        Some(_) | None => a,
    }
}

// The least of the numbers; `None` where there are none.
pub(crate) fn least(numbers: &[Fraction]) -> Option<Fraction>
    ensures { option_map frac_of result ≡ least (map frac_of numbers.now) }
{
    let mut least = None;
    for number in numbers {
        least = Some(lesser(*number, least));
    }
    least
}

// The greatest of the numbers, which is the least among the negatives, negated; `None` where there are none.
pub(crate) fn greatest(numbers: &[Fraction]) -> Option<Fraction>
    ensures { option_map frac_of result ≡ greatest (map frac_of numbers.now) }
{
    let mut least = None;
    for number in numbers {
        least = Some(lesser(number.negate(), least));
    }
    Some(least?.negate())
}

// Half the sum of a number and of one above it, one more where there is none. `None` exactly where a number that is formed
// passes 2^127 - 1.
fn just_past(a: Fraction, next: Option<Fraction>) -> Option<Fraction>
    ensures { option_map frac_of result ≡ just_past (frac_of a) (option_map frac_of next) }
{
    match next {
        Some(next) => {
            let half = Fraction {
                numerator: 1,
                denominator: 2,
            };
            a.add(next)?.multiply(half)
        }
        None => a.add(Fraction::whole(1)),
    }
}

// One less than a number, 0 where there is none. `None` exactly where a number that is formed passes 2^127 - 1.
fn below_all(least: Option<Fraction>) -> Option<Fraction>
    ensures { option_map frac_of result ≡ below_all (option_map frac_of least) }
{
    match least {
        Some(least) => least.add(Fraction::whole(-1)),
        None => Some(Fraction::whole(0)),
    }
}

// The value between a lower and an upper bound: half their sum; where one is missing, one more than the lower or one less than
// the upper; where both are, 0. `None` exactly where a number that is formed passes 2^127 - 1.
pub(crate) fn between(lower: Option<Fraction>, upper: Option<Fraction>) -> Option<Fraction>
    ensures { option_map frac_of result ≡ between (option_map frac_of lower) (option_map frac_of upper) }
{
    match lower {
        Some(lower) => just_past(lower, upper),
        None => below_all(upper),
    }
}
