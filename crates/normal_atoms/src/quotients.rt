// The terms of two forms, compared place by place.
ghost use Rattle.std.specs.Prelude.{◌≡◌, pos, ◌<ℤ◌, int_div, MatchBool};
ghost use Rattle.exact_numbers.specs.Limit.{InLimit};
ghost use Rattle.logic_meaning.specs.Reduction.{quotients};

use linear_forms::Linear;
use logic_meaning::VarId;

// Whether two terms have one name and one quotient.
fn is_same(term: (VarId, i128), divisor: i128, other: (VarId, i128), other_divisor: i128) -> bool
    requires positive { pos 0 <ℤ divisor }
    requires other_positive { pos 0 <ℤ other_divisor }
    requires within { InLimit term.1 }
    requires other_within { InLimit other.1 }
    ensures { MatchBool result ((term.0.number ≡ other.0.number) × (int_div term.1 divisor ≡ int_div other.1 other_divisor))
        (¬ ((term.0.number ≡ other.0.number) × (int_div term.1 divisor ≡ int_div other.1 other_divisor))) }
{
    let quotient = term.1 / divisor;
    let other_quotient = other.1 / other_divisor;
    term.0.number == other.0.number && quotient.cmp(&other_quotient).is_eq()
}

// Whether two forms have the same names with the same quotients of coefficients, each form by a divisor of its own.
pub(crate) fn are_same(form: &Linear, divisor: i128, other: &Linear, other_divisor: i128) -> bool
    requires positive { pos 0 <ℤ divisor }
    requires other_positive { pos 0 <ℤ other_divisor }
    ensures { MatchBool result (quotients divisor form.now.terms ≡ quotients other_divisor other.now.terms) (¬ (quotients divisor form.now.terms ≡ quotients other_divisor other.now.terms)) }
{
    let places = form.places();
    if places != other.places() {
        return false;
    }
    for place in 0..places {
        let (Some(term), Some(other_term)) = (form.term(place), other.term(place)) else {
            return false;
        };
        if !is_same(term, divisor, other_term, other_divisor) {
            return false;
        }
    }
    true
}
