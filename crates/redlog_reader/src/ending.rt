ghost use Rattle.std.specs.Prelude.{◌≡◌, [], ◌∷◌, ◌++◌, map, IfOk, IfErr, OnOk};
ghost use Rattle.written_syntax.specs.CodeTrees.{term_tree, whole_formula};
ghost use Rattle.language_meaning.specs.Grammar.{sum_of, product_of};
ghost use Rattle.redlog_reader.specs.Machine.{Negation, Compares, Added, Multiplied, Listed, Arrows, Commanded, signed_term, multiplied, list_of, arrow_of, ended};
ghost use Rattle.redlog_reader.specs.Reading.{Refuses};
ghost use Rattle.redlog_reader.specs.View.{reading_of, frame_of};

use crate::call::computed_by;
use crate::operand::{Operand, formula_of, formula_operand, term_of, term_operand};
use crate::pending::{Arrow, Pending};
use language_meaning::{InnerWord, ReadError, Relation};
use logic_meaning::Junction;
use std::alloc::{AllocError, Global};
use written_syntax::{
    Formula, Formulas, Term, Terms, equivalence, implication, negation, quotient, replication,
};

/// What has begun, with the operand as its last part.
pub fn ended(alloc: Global, pending: Pending, operand: Operand) -> Result<Operand, ReadError>
    ensures ended { IfOk result (λ o. ended (frame_of pending) (reading_of operand) ≡ Some (reading_of o)) }
    ensures refused { IfErr result (λ e. Refuses e (ended (frame_of pending) (reading_of operand) ≡ None)) }
{
    match pending {
        Pending::Negation => negated(alloc, operand),
        Pending::Compares(relation, left) => compared(alloc, relation, left, operand),
        Pending::Added(minus, members) => summed(alloc, minus, members, operand),
        Pending::Multiplied(over, factors) => product(alloc, over, factors, operand),
        Pending::Listed(junction, members) => joined(alloc, junction, members, operand),
        Pending::Arrows(arrow, left) => implied(alloc, arrow, left, operand),
        Pending::Commanded(word) => commanded(alloc, word, operand),
        _ => Err(ReadError::Syntax),
    }
}

#[tactic(auto, using(crate::proofs::Steps::choices))]
fn negated(alloc: Global, operand: Operand) -> Result<Operand, ReadError>
    ensures ended { IfOk result (λ o. ended Negation (reading_of operand) ≡ Some (reading_of o)) }
    ensures refused { IfErr result (λ e. Refuses e (ended Negation (reading_of operand) ≡ None)) }
{
    let Some(formula) = formula_of(operand) else {
        return Err(ReadError::Syntax);
    };
    let negated = negation(alloc, formula)?;
    formula_operand(alloc, negated)
}

#[tactic(auto, using(crate::proofs::Steps::choices, written_syntax::proofs::TreeEquations::trees, written_syntax::proofs::TreeEquations::wholes))]
fn compared(
    alloc: Global,
    relation: Relation,
    left: Box<Term>,
    operand: Operand,
) -> Result<Operand, ReadError>
    ensures ended { IfOk result (λ o. ended (Compares relation (term_tree left.value)) (reading_of operand) ≡ Some (reading_of o)) }
    ensures refused { IfErr result (λ e. Refuses e (ended (Compares relation (term_tree left.value)) (reading_of operand) ≡ None)) }
{
    let Some(right) = term_of(operand) else {
        return Err(ReadError::Syntax);
    };
    formula_operand(alloc, Formula::Compare(relation, left, right))
}

#[tactic(auto, using(crate::proofs::Steps::choices))]
fn summed(
    alloc: Global,
    minus: bool,
    members: Vec<Term>,
    operand: Operand,
) -> Result<Operand, ReadError>
    ensures ended { IfOk result (λ o. ended (Added minus (map term_tree members.items)) (reading_of operand) ≡ Some (reading_of o)) }
    ensures refused { IfErr result (λ e. Refuses e (ended (Added minus (map term_tree members.items)) (reading_of operand) ≡ None)) }
{
    let Some(term) = term_of(operand) else {
        return Err(ReadError::Syntax);
    };
    let members = added(minus, members, term)?;
    term_operand(alloc, sum_of(members))
}

/// The members with one more, which may get the sign `-`.
pub fn added(minus: bool, mut members: Vec<Term>, term: Box<Term>) -> Result<Vec<Term>, AllocError>
    ensures { IfOk result (λ ts. map term_tree ts.items ≡ map term_tree members.items ++ signed_term minus (term_tree term.value) ∷ []) }
{
    members.push(signed(minus, term))?;
    Ok(members)
}

/// The term, which may get the sign `-`.
#[tactic(auto, using(written_syntax::proofs::TreeEquations::trees, written_syntax::proofs::TreeEquations::wholes))]
fn signed(minus: bool, term: Box<Term>) -> Term
    ensures { term_tree result ≡ signed_term minus (term_tree term.value) }
{
    if minus {
        Term::Negative(term)
    } else {
        Box::into_inner(term)
    }
}

/// The sum of the members, or the member where there is one alone.
#[tactic(auto, using(written_syntax::proofs::TreeEquations::trees, written_syntax::proofs::TreeEquations::wholes))]
fn sum_of(mut members: Vec<Term>) -> Term
    ensures { term_tree result ≡ sum_of (map term_tree members.items) }
{
    if members.len() == 1 {
        members.remove(0)
    } else {
        Term::Sum(Terms::of(members))
    }
}

#[tactic(auto, using(crate::proofs::Steps::choices))]
fn product(
    alloc: Global,
    over: bool,
    factors: Vec<Term>,
    operand: Operand,
) -> Result<Operand, ReadError>
    ensures ended { IfOk result (λ o. ended (Multiplied over (map term_tree factors.items)) (reading_of operand) ≡ Some (reading_of o)) }
    ensures refused { IfErr result (λ e. Refuses e (ended (Multiplied over (map term_tree factors.items)) (reading_of operand) ≡ None)) }
{
    let Some(term) = term_of(operand) else {
        return Err(ReadError::Syntax);
    };
    let factors = multiplied(alloc, over, factors, term)?;
    term_operand(alloc, product_of(factors))
}

/// The factors with one more, or their quotient by it.
pub fn multiplied(
    alloc: Global,
    over: bool,
    mut factors: Vec<Term>,
    term: Box<Term>,
) -> Result<Vec<Term>, AllocError>
    ensures { IfOk result (λ ts. map term_tree ts.items ≡ multiplied over (map term_tree factors.items) (term_tree term.value)) }
{
    let term = Box::into_inner(term);
    if !over {
        factors.push(term)?;
        return Ok(factors);
    }
    let quotient = quotient(alloc, product_of(factors), term)?;
    let mut factors = Vec::new(alloc);
    factors.push(quotient)?;
    Ok(factors)
}

/// The product of the factors, or the factor where there is one alone.
#[tactic(auto, using(written_syntax::proofs::TreeEquations::trees, written_syntax::proofs::TreeEquations::wholes))]
fn product_of(mut factors: Vec<Term>) -> Term
    ensures { term_tree result ≡ product_of (map term_tree factors.items) }
{
    if factors.len() == 1 {
        factors.remove(0)
    } else {
        Term::Product(Terms::of(factors))
    }
}

#[tactic(auto, using(crate::proofs::Steps::choices))]
fn joined(
    alloc: Global,
    junction: Junction,
    mut members: Vec<Formula>,
    operand: Operand,
) -> Result<Operand, ReadError>
    ensures ended { IfOk result (λ o. ended (Listed junction (map whole_formula members.items)) (reading_of operand) ≡ Some (reading_of o)) }
    ensures refused { IfErr result (λ e. Refuses e (ended (Listed junction (map whole_formula members.items)) (reading_of operand) ≡ None)) }
{
    let Some(formula) = formula_of(operand) else {
        return Err(ReadError::Syntax);
    };
    put(&mut members, formula)?;
    formula_operand(alloc, list_of(junction, members))
}

/// Puts a formula at the end of a list.
pub fn put(members: &mut Vec<Formula>, formula: Formula) -> Result<(), AllocError>
    ensures { OnOk result (map whole_formula members.new.items ≡ map whole_formula members.old.items ++ whole_formula formula ∷ []) }
{
    members.push(formula)?;
    Ok(())
}

/// The conjunction or disjunction of the members, or the member where there is one alone.
#[tactic(auto, using(written_syntax::proofs::TreeEquations::trees, written_syntax::proofs::TreeEquations::wholes))]
fn list_of(junction: Junction, mut members: Vec<Formula>) -> Formula
    ensures { whole_formula result ≡ list_of junction (map whole_formula members.items) }
{
    if members.len() == 1 {
        return members.remove(0);
    }
    match junction {
        Junction::Conjunction => Formula::And(Formulas::of(members)),
        Junction::Disjunction => Formula::Or(Formulas::of(members)),
    }
}

#[tactic(auto, using(crate::proofs::Steps::choices))]
fn commanded(alloc: Global, word: InnerWord, operand: Operand) -> Result<Operand, ReadError>
    ensures ended { IfOk result (λ o. ended (Commanded word) (reading_of operand) ≡ Some (reading_of o)) }
    ensures refused { IfErr result (λ e. Refuses e (ended (Commanded word) (reading_of operand) ≡ None)) }
{
    let Some(formula) = formula_of(operand) else {
        return Err(ReadError::Syntax);
    };
    let computed = computed_by(alloc, word, formula, Vec::new(alloc))?;
    formula_operand(alloc, computed)
}

#[tactic(auto, using(crate::proofs::Steps::choices))]
fn implied(
    alloc: Global,
    arrow: Arrow,
    left: Box<Formula>,
    operand: Operand,
) -> Result<Operand, ReadError>
    ensures ended { IfOk result (λ o. ended (Arrows arrow (whole_formula left.value)) (reading_of operand) ≡ Some (reading_of o)) }
    ensures refused { IfErr result (λ e. Refuses e (ended (Arrows arrow (whole_formula left.value)) (reading_of operand) ≡ None)) }
{
    let Some(right) = formula_of(operand) else {
        return Err(ReadError::Syntax);
    };
    let implied = arrow_of(alloc, arrow, Box::into_inner(left), right)?;
    formula_operand(alloc, implied)
}

/// The implication between two formulas.
pub fn arrow_of(
    alloc: Global,
    arrow: Arrow,
    left: Formula,
    right: Formula,
) -> Result<Formula, AllocError>
    ensures { IfOk result (λ f. whole_formula f ≡ arrow_of arrow (whole_formula left) (whole_formula right)) }
{
    match arrow {
        Arrow::Impl => implication(alloc, left, right),
        Arrow::Repl => replication(alloc, left, right),
        Arrow::Equiv => equivalence(alloc, left, right),
    }
}
