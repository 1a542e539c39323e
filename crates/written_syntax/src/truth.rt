ghost use Rattle.std.specs.Prelude.{◌≡◌, ◌↔◌, pos, map, true, false, IsTrue, IfOk};
ghost use Rattle.exact_numbers.specs.Fraction.{frac_of};
ghost use Rattle.logic_meaning.specs.Context.{Fields};
ghost use Rattle.logic_meaning.specs.Every.{Every, EveryOf};
ghost use Rattle.logic_meaning.specs.Shape.{IsQuantifierFree, AreQuantifierFree};
ghost use Rattle.language_meaning.specs.Trees.{formulas_of};
ghost use Rattle.written_syntax.specs.CodeTrees.{term_tree, formula_tree};
ghost use Rattle.written_syntax.specs.Proper.{IsProperTerm, IsProperFormula, AreProperFormulas};
ghost use Rattle.written_syntax.specs.Testable.{IsModulus, IsTestable};
ghost use Rattle.written_syntax.specs.PointNumbers.{point_of};
ghost use Rattle.language_meaning.specs.Value.{value, TrueAt};
ghost use Rattle.written_syntax.specs.FreeNames.{NothingNamed};
ghost use Rattle.written_syntax.specs.Rule.{difference, is_multiple, congruence, test, calculated_truth, calculated_all, calculated_some};
ghost use Rattle.written_syntax.specs.Evaluates.{Evaluates, Decides};

use crate::point::Point;
use crate::tree::{Formula, Term};
use crate::value::{EvalError, value_at};
use exact_numbers::{Fraction, residue};
use language_meaning::Relation;

/// Whether a formula is true at a point, over the rational numbers. Each comparison and each congruence is calculated,
/// from left to right, by the difference of its two sides; an `Err` is what stops that first. It takes no memory. The
/// formula has no quantifiers and no names of formulas, and the value of each modulus is a whole number other than 0.
pub fn truth_at(formula: &Formula, point: &Point) -> Result<bool, EvalError>
    requires proper { IsProperFormula (formula_tree formula.now) }
    requires free { IsQuantifierFree (formula_tree formula.now) }
    requires testable { Every (IsTestable (point_of point.now)) (formula_tree formula.now) }
    ensures truth { IfOk result (λ b. IsTrue b ↔ TrueAt NothingNamed Fields (formula_tree formula.now) (point_of point.now)) }
    ensures rule { Decides result (calculated_truth (formula_tree formula.now) (point_of point.now)) }
{
    formula_truth(formula, point)
}

/// The value of one term less that of another.
fn difference_at(left: &Term, right: &Term, point: &Point) -> Result<Fraction, EvalError>
    requires proper_left { IsProperTerm (term_tree left.now) }
    requires proper_right { IsProperTerm (term_tree right.now) }
    ensures { Evaluates result (difference (term_tree left.now) (term_tree right.now) (point_of point.now)) }
{
    let left = value_at(left, point)?;
    let right = value_at(right, point)?;
    left.add(right.negate()).ok_or(EvalError::Overflow)
}

/// Whether the number has the relation to 0.
fn compares(relation: Relation, number: i128) -> bool
    ensures { result ≡ test relation number }
{
    match relation {
        Relation::Equal => number == 0,
        Relation::Differs => number != 0,
        Relation::Less => number < 0,
        Relation::AtMost => number <= 0,
        Relation::Greater => number > 0,
        Relation::AtLeast => number >= 0,
    }
}

/// Whether a number is a whole multiple of the modulus.
fn divides(modulus: Fraction, number: Fraction) -> bool
    requires { ¬ (modulus.numerator ≡ pos 0) }
    ensures { result ≡ is_multiple (frac_of number) (frac_of modulus) }
{
    number.denominator == 1 && residue(number.numerator, modulus.numerator.abs()) == 0
}

/// Whether one term is congruent to another.
fn congruence_truth(
    left: &Term,
    right: &Term,
    modulus: &Term,
    point: &Point,
) -> Result<bool, EvalError>
    requires proper_left { IsProperTerm (term_tree left.now) }
    requires proper_right { IsProperTerm (term_tree right.now) }
    requires proper_modulus { IsProperTerm (term_tree modulus.now) }
    requires modulus { IsModulus (value (term_tree modulus.now) (point_of point.now)) }
    ensures { Decides result (congruence (term_tree left.now) (term_tree right.now) (term_tree modulus.now) (point_of point.now)) }
{
    let difference = difference_at(left, right, point)?;
    let modulus = value_at(modulus, point)?;
    Ok(divides(modulus, difference))
}

/// What `truth_at` calculates.
#[tactic(auto, using(crate::proofs::TreeEquations::trees))]
#[cycle(truth)]
fn formula_truth(formula: &Formula, point: &Point) -> Result<bool, EvalError>
    requires proper { IsProperFormula (formula_tree formula.now) }
    requires free { IsQuantifierFree (formula_tree formula.now) }
    requires testable { Every (IsTestable (point_of point.now)) (formula_tree formula.now) }
    ensures { Decides result (calculated_truth (formula_tree formula.now) (point_of point.now)) }
{
    match formula {
        Formula::True => Ok(true),
        Formula::False => Ok(false),
        Formula::Compare(relation, left, right) => {
            let difference = difference_at(left, right, point)?;
            Ok(compares(*relation, difference.numerator))
        }
        Formula::Cong(left, right, modulus) => congruence_truth(left, right, modulus, point),
        Formula::Ncong(left, right, modulus) => {
            Ok(!congruence_truth(left, right, modulus, point)?)
        }
        Formula::Not(inner) => Ok(!formula_truth(inner, point)?),
        Formula::And(formulas) => all_true(&formulas.list, point),
        Formula::Or(formulas) => some_true(&formulas.list, point),
        Formula::Impl(premise, conclusion) => {
            let premise = formula_truth(premise, point)?;
            let conclusion = formula_truth(conclusion, point)?;
            Ok(!premise | conclusion)
        }
        Formula::Repl(conclusion, premise) => {
            let conclusion = formula_truth(conclusion, point)?;
            let premise = formula_truth(premise, point)?;
            Ok(!premise | conclusion)
        }
        Formula::Equiv(left, right) => {
            let left = formula_truth(left, point)?;
            let right = formula_truth(right, point)?;
            Ok(left == right)
        }
        Formula::Ex(..) | Formula::All(..) | Formula::Named(..) | Formula::Computed(..) => {
            unreachable!()
        }
    }
}

/// Whether all are true. Each is calculated.
#[cycle(truth)]
fn all_true(formulas: &[Formula], point: &Point) -> Result<bool, EvalError>
    requires proper { AreProperFormulas (formulas_of (map formula_tree formulas.now)) }
    requires free { AreQuantifierFree (formulas_of (map formula_tree formulas.now)) }
    requires testable { EveryOf (IsTestable (point_of point.now)) (formulas_of (map formula_tree formulas.now)) }
    ensures { Decides result (calculated_all true (formulas_of (map formula_tree formulas.now)) (point_of point.now)) }
{
    let mut all = true;
    for formula in formulas {
        all = all & formula_truth(formula, point)?;
    }
    Ok(all)
}

/// Whether some are true. Each is calculated.
#[cycle(truth)]
fn some_true(formulas: &[Formula], point: &Point) -> Result<bool, EvalError>
    requires proper { AreProperFormulas (formulas_of (map formula_tree formulas.now)) }
    requires free { AreQuantifierFree (formulas_of (map formula_tree formulas.now)) }
    requires testable { EveryOf (IsTestable (point_of point.now)) (formulas_of (map formula_tree formulas.now)) }
    ensures { Decides result (calculated_some false (formulas_of (map formula_tree formulas.now)) (point_of point.now)) }
{
    let mut some = false;
    for formula in formulas {
        some = some | formula_truth(formula, point)?;
    }
    Ok(some)
}
