//! A term and formulas as they are written, at points.

ghost use Rattle.std.specs.Prelude.{IfSome};
ghost use Rattle.exact_numbers.specs.Limit.{InLimit};
ghost use Rattle.language_meaning.specs.Value.{NamedPoint};
ghost use Rattle.logic_meaning.specs.Every.{Every};
ghost use Rattle.logic_meaning.specs.Shape.{IsQuantifierFree};
ghost use Rattle.written_syntax.specs.CodeTrees.{formula_tree, term_tree};
ghost use Rattle.written_syntax.specs.Proper.{IsProperFormula, IsProperTerm};
ghost use Rattle.written_syntax.specs.Testable.{IsTestable};

use language_meaning::{Literal, PointEntry, Relation};
use logic_meaning::Name;
use std::alloc::Global;
use written_syntax::{EvalError, Formula, Point, Term, truth_at, value_at};

/// The point at which `x` is 1/2, and `y` so many quarters.
fn point(alloc: Global, quarters: i128) -> Option<Point>
    requires { InLimit quarters }
{
    let x = PointEntry {
        name: Name::of(b"x"),
        above: Literal::Fits(1),
        below: Literal::Fits(2),
    };
    let y = PointEntry {
        name: Name::of(b"y"),
        above: Literal::Fits(quarters),
        below: Literal::Fits(4),
    };
    Point::of(alloc, &[x, y], false).ok()
}

/// The term `x/y`.
#[tactic(auto, using(written_syntax::proofs::TreeEquations::trees))]
fn term(alloc: Global) -> Option<Term>
    ensures { IfSome result (λ t. IsProperTerm (term_tree t)) }
{
    let x = Box::new(alloc, Term::Name(Name::of(b"x"))).ok()?;
    let y = Box::new(alloc, Term::Name(Name::of(b"y"))).ok()?;
    Some(Term::Quotient(x, y))
}

/// The comparison of the term with 0.
#[tactic(auto, using(written_syntax::proofs::TreeEquations::trees))]
fn formula(alloc: Global, relation: Relation) -> Option<Formula>
    ensures proper { IfSome result (λ f. IsProperFormula (formula_tree f)) }
    ensures free { IfSome result (λ f. IsQuantifierFree (formula_tree f)) }
    ensures testable { IfSome result (λ f. (p : NamedPoint) → Every (IsTestable p) (formula_tree f)) }
{
    let left = Box::new(alloc, term(alloc)?).ok()?;
    let right = Box::new(alloc, Term::Number(Literal::Fits(0))).ok()?;
    Some(Formula::Compare(relation, left, right))
}

/// The value of the term where `y` is so many quarters, or why it has none.
fn told(alloc: Global, quarters: i128) -> Option<String>
    requires { InLimit quarters }
{
    let point = point(alloc, quarters)?;
    match value_at(&term(alloc)?, &point) {
        Ok(value) => {
            let (above, below) = (value.numerator, value.denominator);
            format!(in alloc; "{above}/{below}").ok()
        }
        Err(EvalError::ZeroDivisor) => "a divisor is 0".to_string(alloc).ok(),
        Err(EvalError::Overflow) => None,
    }
}

/// The value of the term where `y` is -3/4.
pub(crate) fn quotient_there(alloc: Global) -> Option<String> {
    told(alloc, -3)
}

/// What is said of the term where `y` is 0.
pub(crate) fn quotient_by_zero(alloc: Global) -> Option<String> {
    told(alloc, 0)
}

/// The truth of the comparison where `y` is -3/4.
fn truth_there(alloc: Global, relation: Relation) -> Option<String> {
    let point = point(alloc, -3)?;
    let formula = formula(alloc, relation)?;
    let holds = truth_at(&formula, &point).ok()?;
    format!(in alloc; "{holds}").ok()
}

/// Whether the term is below 0 there.
pub(crate) fn below_zero(alloc: Global) -> Option<String> {
    truth_there(alloc, Relation::Less)
}

/// Whether it is at least 0.
pub(crate) fn at_least_zero(alloc: Global) -> Option<String> {
    truth_there(alloc, Relation::AtLeast)
}
