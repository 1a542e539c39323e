ghost use Rattle.std.specs.Prelude.{◌≡◌, map, IfOk};
ghost use Rattle.language_meaning.specs.Trees.{terms_of, Quotient, Power, Negative, Compare};
ghost use Rattle.language_meaning.specs.Holes.{whole, over, over_both, all_of, computed};
ghost use Rattle.written_syntax.specs.CodeTrees.{term_tree, term_trees, whole_formula, whole_formulas, whole_command};
ghost use Rattle.logic_meaning.specs.Formula.{One, Not, Impl, Repl, Equiv, Ex, All};

use language_meaning::{Literal, Relation};
use logic_meaning::Name;
use std::alloc::{AllocError, Global};

/// A term as it is written. A sum or a product has at least two members; `a - b` is the sum of `a` and `Negative(b)`.
#[derive(Drop)]
#[cycle(term)]
pub enum Term {
    Number(Literal),
    Name(Name),
    Sum(Terms),
    Product(Terms),
    Quotient(Box<Term>, Box<Term>),
    Power(Box<Term>, Literal),
    Negative(Box<Term>),
}

/// A list of terms.
#[derive(Drop)]
#[cycle(term)]
pub struct Terms {
    pub(crate) list: Vec<Term>,
}

impl Terms {
    /// The list of these terms. It takes no memory.
    #[tactic(auto, using(crate::proofs::TreeEquations::trees))]
    pub fn of(list: Vec<Term>) -> Terms
        ensures { term_trees result ≡ terms_of (map term_tree list.items) }
    {
        Terms { list }
    }

    /// The terms of the list, in their order. It takes no memory.
    #[tactic(auto, using(crate::proofs::TreeEquations::trees))]
    pub fn items(&self) -> &[Term]
        ensures { term_trees self.now ≡ terms_of (map term_tree result.now) }
    {
        &self.list
    }
}

/// The first term divided by the second.
#[tactic(auto, using(crate::proofs::TreeEquations::trees))]
pub fn quotient(alloc: Global, dividend: Term, divisor: Term) -> Result<Term, AllocError>
    ensures { IfOk result (λ t. term_tree t ≡ Quotient (term_tree dividend) (term_tree divisor)) }
{
    let dividend = Box::new(alloc, dividend)?;
    let divisor = Box::new(alloc, divisor)?;
    Ok(Term::Quotient(dividend, divisor))
}

/// The term raised to a power.
#[tactic(auto, using(crate::proofs::TreeEquations::trees))]
pub fn power(alloc: Global, base: Term, exponent: Literal) -> Result<Term, AllocError>
    ensures { IfOk result (λ t. term_tree t ≡ Power (term_tree base) exponent) }
{
    Ok(Term::Power(Box::new(alloc, base)?, exponent))
}

/// The term with the sign `-` before it.
#[tactic(auto, using(crate::proofs::TreeEquations::trees))]
pub fn negative(alloc: Global, term: Term) -> Result<Term, AllocError>
    ensures { IfOk result (λ t. term_tree t ≡ Negative (term_tree term)) }
{
    Ok(Term::Negative(Box::new(alloc, term)?))
}

/// A formula as it is written. A conjunction or a disjunction has at least two members.
#[cycle(formula)]
pub enum Formula {
    True,
    False,
    Compare(Relation, Box<Term>, Box<Term>),
    Cong(Box<Term>, Box<Term>, Box<Term>),
    Ncong(Box<Term>, Box<Term>, Box<Term>),
    Not(Box<Formula>),
    And(Formulas),
    Or(Formulas),
    Impl(Box<Formula>, Box<Formula>),
    Repl(Box<Formula>, Box<Formula>),
    Equiv(Box<Formula>, Box<Formula>),
    Ex(Name, Box<Formula>),
    All(Name, Box<Formula>),
    Named(Name),
    /// The answer of a command.
    Computed(Box<InnerCommand>),
}

// A loop down the part on the right, since a quantifier over many names is a long chain. What else a formula has is
// freed by recursion.
impl Drop for Formula {
    #[cycle(drop)]
    fn drop(mut self) {
        'chain: loop {
            match self {
                Formula::True | Formula::False | Formula::Named(_) => return,
                Formula::Compare(_, _left, _right) => return,
                Formula::Cong(_left, _right, _modulus) | Formula::Ncong(_left, _right, _modulus) =>
                    return,
                Formula::And(_members) | Formula::Or(_members) => return,
                Formula::Computed(_command) => return,
                Formula::Not(inner) | Formula::Ex(_, inner) | Formula::All(_, inner) => {
                    self = Box::into_inner(inner);
                }
                Formula::Impl(_left, right)
                | Formula::Repl(_left, right)
                | Formula::Equiv(_left, right) => self = Box::into_inner(right),
            }
        }
    }
}

/// A list of formulas.
#[derive(Drop)]
#[cycle(formula)]
pub struct Formulas {
    pub(crate) list: Vec<Formula>,
}

impl Formulas {
    /// The list of these formulas. It takes no memory.
    #[tactic(auto, using(crate::proofs::TreeEquations::trees, crate::proofs::TreeEquations::wholes))]
    pub fn of(list: Vec<Formula>) -> Formulas
        ensures { whole_formulas result ≡ all_of (map whole_formula list.items) }
    {
        Formulas { list }
    }

    /// The formulas of the list, in their order. It takes no memory.
    #[tactic(auto, using(crate::proofs::TreeEquations::trees, crate::proofs::TreeEquations::wholes))]
    pub fn items(&self) -> &[Formula]
        ensures { whole_formulas self.now ≡ all_of (map whole_formula result.now) }
    {
        &self.list
    }
}

/// A command that stands inside a formula, with the formula that it is about, and the atoms that `rlsimpl` and `rlqe` may assume.
#[derive(Drop)]
#[cycle(formula)]
pub enum InnerCommand {
    Nnf(Formula),
    Pnf(Formula),
    Dnf(Formula),
    Cnf(Formula),
    Simpl(Formula, Formulas),
    Qe(Formula, Formulas),
}

/// The formula with `not` before it.
#[tactic(auto, using(crate::proofs::TreeEquations::trees, crate::proofs::TreeEquations::wholes))]
pub fn negation(alloc: Global, formula: Formula) -> Result<Formula, AllocError>
    ensures { IfOk result (λ f. whole_formula f ≡ over Not (whole_formula formula)) }
{
    Ok(Formula::Not(Box::new(alloc, formula)?))
}

/// The comparison of two terms.
#[tactic(auto, using(crate::proofs::TreeEquations::trees, crate::proofs::TreeEquations::wholes))]
pub fn comparison(
    alloc: Global,
    relation: Relation,
    left: Term,
    right: Term,
) -> Result<Formula, AllocError>
    ensures { IfOk result (λ f. whole_formula f ≡ whole (One (Compare relation (term_tree left) (term_tree right)))) }
{
    let left = Box::new(alloc, left)?;
    let right = Box::new(alloc, right)?;
    Ok(Formula::Compare(relation, left, right))
}

/// The formula `premise impl conclusion`.
#[tactic(auto, using(crate::proofs::TreeEquations::trees, crate::proofs::TreeEquations::wholes))]
pub fn implication(
    alloc: Global,
    premise: Formula,
    conclusion: Formula,
) -> Result<Formula, AllocError>
    ensures { IfOk result (λ f. whole_formula f ≡ over_both Impl (whole_formula premise) (whole_formula conclusion)) }
{
    let premise = Box::new(alloc, premise)?;
    let conclusion = Box::new(alloc, conclusion)?;
    Ok(Formula::Impl(premise, conclusion))
}

/// The formula `conclusion repl premise`, an implication from right to left.
#[tactic(auto, using(crate::proofs::TreeEquations::trees, crate::proofs::TreeEquations::wholes))]
pub fn replication(
    alloc: Global,
    conclusion: Formula,
    premise: Formula,
) -> Result<Formula, AllocError>
    ensures { IfOk result (λ f. whole_formula f ≡ over_both Repl (whole_formula conclusion) (whole_formula premise)) }
{
    let conclusion = Box::new(alloc, conclusion)?;
    let premise = Box::new(alloc, premise)?;
    Ok(Formula::Repl(conclusion, premise))
}

/// The formula `left equiv right`.
#[tactic(auto, using(crate::proofs::TreeEquations::trees, crate::proofs::TreeEquations::wholes))]
pub fn equivalence(alloc: Global, left: Formula, right: Formula) -> Result<Formula, AllocError>
    ensures { IfOk result (λ f. whole_formula f ≡ over_both Equiv (whole_formula left) (whole_formula right)) }
{
    let left = Box::new(alloc, left)?;
    let right = Box::new(alloc, right)?;
    Ok(Formula::Equiv(left, right))
}

/// The formula `ex(bound, formula)`.
#[tactic(auto, using(crate::proofs::TreeEquations::trees, crate::proofs::TreeEquations::wholes))]
pub fn existential(alloc: Global, bound: Name, formula: Formula) -> Result<Formula, AllocError>
    ensures { IfOk result (λ f. whole_formula f ≡ over (Ex bound) (whole_formula formula)) }
{
    Ok(Formula::Ex(bound, Box::new(alloc, formula)?))
}

/// The formula `all(bound, formula)`.
#[tactic(auto, using(crate::proofs::TreeEquations::trees, crate::proofs::TreeEquations::wholes))]
pub fn universal(alloc: Global, bound: Name, formula: Formula) -> Result<Formula, AllocError>
    ensures { IfOk result (λ f. whole_formula f ≡ over (All bound) (whole_formula formula)) }
{
    Ok(Formula::All(bound, Box::new(alloc, formula)?))
}

/// The formula that a command answers.
#[tactic(auto, using(crate::proofs::TreeEquations::trees, crate::proofs::TreeEquations::wholes))]
pub fn answered(alloc: Global, command: InnerCommand) -> Result<Formula, AllocError>
    ensures { IfOk result (λ f. whole_formula f ≡ computed (whole_command command)) }
{
    Ok(Formula::Computed(Box::new(alloc, command)?))
}
