ghost use Rattle.std.specs.Prelude.{◌≡◌, map, IfOk};
ghost use Rattle.smt_language.specs.Trees.{Divisible, Quantified, Let};
ghost use Rattle.smt_tokens.specs.TreeLists.{expressions_of, locals_of};
ghost use Rattle.smt_tokens.specs.CodeTrees.{expression_tree, expression_trees, local_tree, local_trees};

use crate::names::SortedNames;
use language_meaning::Literal;
use logic_meaning::{Name, Quantifier};
use smt_language::Operator;
use std::alloc::{AllocError, Global};

/// A term or a formula as it is written.
#[derive(Drop)]
#[cycle(expression)]
pub enum Expression {
    True,
    False,
    Numeral(Literal),
    /// All digits of a decimal as one numeral, and the power of ten that divides it.
    Decimal(Literal, Literal),
    Named(Name),
    Apply(Operator, Expressions),
    /// That the number divides the term.
    Divisible(Literal, Box<Expression>),
    Quantified(Quantifier, SortedNames, Box<Expression>),
    Let(LocalValues, Box<Expression>),
}

/// A list of terms and formulas.
#[derive(Drop)]
#[cycle(expression)]
pub struct Expressions {
    list: Vec<Expression>,
}

/// A name of a `let`, and what it stands for.
#[derive(Drop)]
#[cycle(expression)]
pub struct LocalValue {
    pub name: Name,
    pub value: Expression,
}

/// The names of a `let`, each with what it stands for.
#[derive(Drop)]
#[cycle(expression)]
pub struct LocalValues {
    list: Vec<LocalValue>,
}

impl Expressions {
    /// The list of these. It takes no memory.
    #[tactic(auto, using(crate::proofs::TreeEquations::trees))]
    pub fn of(list: Vec<Expression>) -> Expressions
        ensures { expression_trees result ≡ expressions_of (map expression_tree list.items) }
    {
        Expressions { list }
    }

    /// What the list has, in its order. It takes no memory.
    #[tactic(auto, using(crate::proofs::TreeEquations::trees))]
    pub fn items(&self) -> &[Expression]
        ensures { expression_trees self.now ≡ expressions_of (map expression_tree result.now) }
    {
        &self.list
    }
}

impl LocalValues {
    /// The list of these. It takes no memory.
    #[tactic(auto, using(crate::proofs::TreeEquations::trees))]
    pub fn of(list: Vec<LocalValue>) -> LocalValues
        ensures { local_trees result ≡ locals_of (map local_tree list.items) }
    {
        LocalValues { list }
    }

    /// What the list has, in its order. It takes no memory.
    #[tactic(auto, using(crate::proofs::TreeEquations::trees))]
    pub fn items(&self) -> &[LocalValue]
        ensures { local_trees self.now ≡ locals_of (map local_tree result.now) }
    {
        &self.list
    }
}

/// The formula that the number divides the term.
#[tactic(auto, using(crate::proofs::TreeEquations::trees))]
pub fn divisible(
    alloc: Global,
    divisor: Literal,
    term: Expression,
) -> Result<Expression, AllocError>
    ensures { IfOk result (λ e. expression_tree e ≡ Divisible divisor (expression_tree term)) }
{
    Ok(Expression::Divisible(divisor, Box::new(alloc, term)?))
}

/// The formula with a quantifier over these names before it.
#[tactic(auto, using(crate::proofs::TreeEquations::trees))]
pub fn quantified(
    alloc: Global,
    quantifier: Quantifier,
    names: SortedNames,
    body: Expression,
) -> Result<Expression, AllocError>
    ensures { IfOk result (λ e. expression_tree e ≡ Quantified quantifier names (expression_tree body)) }
{
    let body = Box::new(alloc, body)?;
    Ok(Expression::Quantified(quantifier, names, body))
}

/// The term or the formula in which these names stand for their values.
#[tactic(auto, using(crate::proofs::TreeEquations::trees))]
pub fn local(alloc: Global, values: LocalValues, body: Expression) -> Result<Expression, AllocError>
    ensures { IfOk result (λ e. expression_tree e ≡ Let (local_trees values) (expression_tree body)) }
{
    let body = Box::new(alloc, body)?;
    Ok(Expression::Let(values, body))
}
