//! Copies of terms and comparisons, whose names are numbered in the order of the text.

ghost use Rattle.std.specs.Prelude.{◌≡◌, true, IfOk, OnOk};
ghost use Rattle.std.specs.List.{fold};
ghost use Rattle.language_meaning.specs.Holes.{alone};
ghost use Rattle.written_syntax.specs.CodeTrees.{term_tree, term_trees, formula_tree, inner_of};
ghost use Rattle.language_meaning.specs.Constraints.{is_weak_constraint};
ghost use Rattle.logic_meaning.specs.Names.{with_name};
ghost use Rattle.language_meaning.specs.Resolving.{variables_of, variables_in, formula_variables};

use formula_tree::Names;
use std::alloc::{AllocError, Global};
use written_syntax::{Formula, Term, Terms, comparison, negative, power, quotient};

/// A copy of the comparison, whose names are numbered behind the others.
#[tactic(auto, using(written_syntax::proofs::TreeEquations::trees))]
pub(crate) fn copied_comparison(
    alloc: Global,
    formula: &Formula,
    names: &mut Names,
) -> Result<Formula, AllocError>
    requires { is_weak_constraint (formula_tree formula.now) ≡ true }
    ensures same { IfOk result (λ f. formula_tree f ≡ formula_tree formula.now) }
    ensures plain { IfOk result (λ f. inner_of f ≡ alone) }
    ensures numbered { OnOk result (names.new ≡ fold with_name names.old (formula_variables (formula_tree formula.now))) }
{
    let Formula::Compare(relation, left, right) = formula else {
        unreachable!()
    };
    let left = copied_term(alloc, left, names)?;
    let right = copied_term(alloc, right, names)?;
    comparison(alloc, *relation, left, right)
}

/// A copy of the term, whose names are numbered behind the others.
#[tactic(auto, using(written_syntax::proofs::TreeEquations::trees))]
#[cycle(copied)]
pub(crate) fn copied_term(alloc: Global, term: &Term, names: &mut Names) -> Result<Term, AllocError>
    ensures same { IfOk result (λ t. term_tree t ≡ term_tree term.now) }
    ensures numbered { OnOk result (names.new ≡ fold with_name names.old (variables_of (term_tree term.now))) }
{
    match term {
        Term::Number(number) => Ok(Term::Number(*number)),
        Term::Name(name) => match names.number(name) {
            Ok(_) => Ok(Term::Name(*name)),
            Err(_) => Err(AllocError),
        },
        Term::Sum(members) => Ok(Term::Sum(copied_terms(alloc, members, names)?)),
        Term::Product(factors) => Ok(Term::Product(copied_terms(alloc, factors, names)?)),
        Term::Quotient(dividend, divisor) => {
            let dividend = copied_term(alloc, dividend, names)?;
            let divisor = copied_term(alloc, divisor, names)?;
            quotient(alloc, dividend, divisor)
        }
        Term::Power(base, exponent) => power(alloc, copied_term(alloc, base, names)?, *exponent),
        Term::Negative(term) => negative(alloc, copied_term(alloc, term, names)?),
    }
}

/// Copies of the terms, whose names are numbered behind the others.
#[tactic(auto, using(written_syntax::proofs::TreeEquations::trees))]
#[cycle(copied)]
fn copied_terms(alloc: Global, terms: &Terms, names: &mut Names) -> Result<Terms, AllocError>
    ensures same { IfOk result (λ ts. term_trees ts ≡ term_trees terms.now) }
    ensures numbered { OnOk result (names.new ≡ fold with_name names.old (variables_in (term_trees terms.now))) }
{
    let mut copies = Vec::new(alloc);
    for term in terms.items() {
        copies.push(copied_term(alloc, term, names)?)?;
    }
    Ok(Terms::of(copies))
}
