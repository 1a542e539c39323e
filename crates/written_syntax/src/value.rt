ghost use Rattle.std.specs.Prelude.{◌≡◌, pos, map, IfOk};
ghost use Rattle.exact_numbers.specs.Fraction.{frac_of};
ghost use Rattle.exact_numbers.specs.Frac.{SameValue, IsLowest, whole_frac, lowest};
ghost use Rattle.language_meaning.specs.Trees.{terms_of};
ghost use Rattle.written_syntax.specs.CodeTrees.{term_tree};
ghost use Rattle.written_syntax.specs.Proper.{IsProperTerm, AreProperTerms, IsNumeral};
ghost use Rattle.written_syntax.specs.PointNumbers.{point_of};
ghost use Rattle.language_meaning.specs.Value.{value};
ghost use Rattle.written_syntax.specs.Rule.{calculated, added, multiplied, literal_fraction, quotient_step, power_step};
ghost use Rattle.written_syntax.specs.Evaluates.{Evaluates};

use crate::point::Point;
use crate::tree::Term;
use exact_numbers::Fraction;
use language_meaning::Literal;
use logic_meaning::Name;
use thiserror::Error;

/// What stops the calculation of a value, from left to right the first.
#[derive(Clone, Copy, Debug, PartialEq, Eq, Error)]
pub enum EvalError {
    #[error("a divisor is 0")]
    ZeroDivisor,
    #[error("a number passes 2^127 - 1")]
    Overflow,
}

/// The value of a term at a point, in lowest terms. It is calculated by the fraction rule, from left to right, and an
/// `Err` is what stops that first: a divisor whose value is 0, or a number past the limit. It takes no memory.
pub fn value_at(term: &Term, point: &Point) -> Result<Fraction, EvalError>
    requires { IsProperTerm (term_tree term.now) }
    ensures value { IfOk result (λ v. SameValue (frac_of v) (value (term_tree term.now) (point_of point.now))) }
    ensures lowest { IfOk result (λ v. IsLowest (frac_of v)) }
    ensures rule { Evaluates result (calculated (term_tree term.now) (point_of point.now)) }
{
    term_value(term, point)
}

/// The value of a literal.
fn literal_value(literal: Literal) -> Result<Fraction, EvalError>
    requires { IsNumeral literal }
    ensures { Evaluates result (literal_fraction literal) }
{
    match literal {
        Literal::Fits(number) => Ok(Fraction::whole(number)),
        Literal::Past => Err(EvalError::Overflow),
    }
}

/// The value of a name.
fn name_value(name: &Name, point: &Point) -> Fraction
    ensures { frac_of result ≡ lowest ((point_of point.now).at name.now) (pos (point_of point.now).below) }
{
    Fraction::reduced(point.numerator(name), point.denominator())
}

/// The first number divided by the second.
fn quotient_value(dividend: Fraction, divisor: Fraction) -> Result<Fraction, EvalError>
    ensures { Evaluates result (quotient_step (frac_of dividend) (frac_of divisor)) }
{
    if divisor.numerator == 0 {
        return Err(EvalError::ZeroDivisor);
    }
    dividend
        .multiply(divisor.invert())
        .ok_or(EvalError::Overflow)
}

/// The number raised to a power.
fn power_value(base: Fraction, exponent: Literal) -> Result<Fraction, EvalError>
    requires lowest { IsLowest (frac_of base) }
    requires numeral { IsNumeral exponent }
    ensures { Evaluates result (power_step (frac_of base) exponent) }
{
    match exponent {
        Literal::Fits(exponent) => base.power(exponent as u128).ok_or(EvalError::Overflow),
        Literal::Past => Err(EvalError::Overflow),
    }
}

/// What `value_at` calculates.
#[tactic(auto, using(crate::proofs::TreeEquations::trees))]
#[cycle(value)]
fn term_value(term: &Term, point: &Point) -> Result<Fraction, EvalError>
    requires { IsProperTerm (term_tree term.now) }
    ensures { Evaluates result (calculated (term_tree term.now) (point_of point.now)) }
{
    match term {
        Term::Number(literal) => literal_value(*literal),
        Term::Name(name) => Ok(name_value(name, point)),
        Term::Sum(terms) => sum_value(&terms.list, point),
        Term::Product(terms) => product_value(&terms.list, point),
        Term::Negative(inner) => Ok(term_value(inner, point)?.negate()),
        Term::Quotient(dividend, divisor) => {
            let dividend = term_value(dividend, point)?;
            let divisor = term_value(divisor, point)?;
            quotient_value(dividend, divisor)
        }
        Term::Power(base, exponent) => {
            let base = term_value(base, point)?;
            power_value(base, *exponent)
        }
    }
}

/// The values of the terms added one after another.
#[cycle(value)]
fn sum_value(terms: &[Term], point: &Point) -> Result<Fraction, EvalError>
    requires { AreProperTerms (terms_of (map term_tree terms.now)) }
    ensures { Evaluates result (added (whole_frac (pos 0)) (terms_of (map term_tree terms.now)) (point_of point.now)) }
{
    let mut total = Fraction::whole(0);
    for term in terms {
        total = total
            .add(term_value(term, point)?)
            .ok_or(EvalError::Overflow)?;
    }
    Ok(total)
}

/// The values of the terms multiplied one after another.
#[cycle(value)]
fn product_value(terms: &[Term], point: &Point) -> Result<Fraction, EvalError>
    requires { AreProperTerms (terms_of (map term_tree terms.now)) }
    ensures { Evaluates result (multiplied (whole_frac (pos 1)) (terms_of (map term_tree terms.now)) (point_of point.now)) }
{
    let mut total = Fraction::whole(1);
    for term in terms {
        total = total
            .multiply(term_value(term, point)?)
            .ok_or(EvalError::Overflow)?;
    }
    Ok(total)
}
