ghost use Rattle.std.specs.Prelude.{◌≡◌, Some, None, map, IfOk, IfErr, OnOk, MatchOption};
ghost use Rattle.smt_language.specs.Trees.{Divisible};
ghost use Rattle.smt_tokens.specs.CodeTrees.{expression_tree, local_tree};
ghost use Rattle.smt_reader.specs.CodeTrees.{sexpr_tree, trees_of};
ghost use Rattle.smt_language.specs.SpelledShapes.{count, each_of};
ghost use Rattle.smt_language.specs.Bindings.{scope_of};
ghost use Rattle.smt_language.specs.Expressions.{expression_of, group_of, symbol_expression, members_of, single_of, body_of, values_of, local_at, leaf_expression, applied, quantified, local_of, bindings_of, are_apart};
ghost use Rattle.std.specs.Option.{option_map, option_and_then};
ghost use Rattle.smt_language.specs.Words.{word_of};
ghost use Rattle.smt_reader.specs.Refuses.{Refuses};

use crate::binding::{are_bindings, scope};
use crate::head::{head_of, takes};
use crate::refusal::Refusal;
use crate::sexpr::SExpr;
use language_meaning::Literal;
use logic_meaning::{Name, Quantifier};
use smt_language::{Head, Leaf, Operator, Word};
use smt_tokens::{
    Expression, Expressions, LocalValue, LocalValues, divisible, local, quantified, word_of,
};
use std::alloc::Global;

/// The term or formula that an S-expression is. It calls itself for what stands inside, which is at most 512 deep.
#[tactic(auto, using(crate::proofs::TreeEquations::trees))]
#[cycle(expression)]
pub fn expression(alloc: Global, sexpr: &SExpr) -> Result<Expression, Refusal>
    ensures read { IfOk result (λ e. expression_of (sexpr_tree sexpr.now) ≡ Some (expression_tree e)) }
    ensures refused { IfErr result (λ e. Refuses e (expression_of (sexpr_tree sexpr.now) ≡ None)) }
{
    match sexpr {
        SExpr::Leaf(leaf) => leaf_expression(leaf),
        SExpr::Group(parts) => group(alloc, &parts.list),
    }
}

/// The term or formula that is a leaf.
#[tactic(auto, using(smt_tokens::proofs::TreeEquations::trees))]
fn leaf_expression(leaf: &Leaf) -> Result<Expression, Refusal>
    ensures read { IfOk result (λ e. leaf_expression leaf.now ≡ Some (expression_tree e)) }
    ensures refused { IfErr result (λ e. Refuses e (leaf_expression leaf.now ≡ None)) }
{
    match leaf {
        Leaf::Numeral(number) => Ok(Expression::Numeral(*number)),
        Leaf::Decimal(digits, power) => Ok(Expression::Decimal(*digits, *power)),
        Leaf::Symbol(symbol) => symbol_expression(*symbol),
        Leaf::Unfit | Leaf::Text | Leaf::Keyword => Err(Refusal::Syntax),
    }
}

/// The term or formula that is a symbol.
#[tactic(auto, using(smt_tokens::proofs::TreeEquations::trees))]
fn symbol_expression(symbol: Name) -> Result<Expression, Refusal>
    ensures read { IfOk result (λ e. symbol_expression symbol (word_of symbol) ≡ Some (expression_tree e)) }
    ensures refused { IfErr result (λ e. Refuses e (symbol_expression symbol (word_of symbol) ≡ None)) }
{
    match word_of(symbol.bytes()) {
        None => Ok(Expression::Named(symbol)),
        Some(Word::True) => Ok(Expression::True),
        Some(Word::False) => Ok(Expression::False),
        Some(_) => Err(Refusal::Syntax),
    }
}

/// The term or formula of these between two parentheses.
#[cycle(expression)]
fn group(alloc: Global, parts: &[SExpr]) -> Result<Expression, Refusal>
    ensures read { IfOk result (λ e. group_of (trees_of parts.now) ≡ Some (expression_tree e)) }
    ensures refused { IfErr result (λ e. Refuses e (group_of (trees_of parts.now) ≡ None)) }
{
    let Some((first, rest)) = parts.split_first() else {
        return Err(Refusal::Syntax);
    };
    match head_of(first) {
        None => Err(Refusal::Syntax),
        Some(Head::Operator(operator)) => apply(alloc, operator, rest),
        Some(Head::Divisible(divisor)) => divide(alloc, divisor, rest),
        Some(Head::Quantifier(quantifier)) => quantify(alloc, quantifier, rest),
        Some(Head::Let) => localise(alloc, rest),
    }
}

/// The operator with these members.
#[tactic(auto, using(smt_tokens::proofs::TreeEquations::trees))]
#[cycle(expression)]
fn apply(alloc: Global, operator: Operator, parts: &[SExpr]) -> Result<Expression, Refusal>
    ensures read { IfOk result (λ e. applied operator (count (trees_of parts.now)) (members_of (trees_of parts.now)) ≡ Some (expression_tree e)) }
    ensures refused { IfErr result (λ e. Refuses e (applied operator (count (trees_of parts.now)) (members_of (trees_of parts.now)) ≡ None)) }
{
    if !takes(operator, parts.len()) {
        return Err(Refusal::Syntax);
    }
    let list = members(alloc, parts)?;
    Ok(Expression::Apply(operator, Expressions::of(list)))
}

/// Each of these as a term or a formula.
#[cycle(expression)]
fn members(alloc: Global, parts: &[SExpr]) -> Result<Vec<Expression>, Refusal>
    ensures read { IfOk result (λ list. each_of expression_of (trees_of parts.now) ≡ Some (map expression_tree list.items)) }
    ensures refused { IfErr result (λ e. Refuses e (each_of expression_of (trees_of parts.now) ≡ None)) }
{
    let mut list = Vec::new(alloc);
    'parts: for part in parts {
        let member = expression(alloc, part)?;
        list.push(member)?;
    }
    Ok(list)
}

/// That the number divides the term that these are.
#[cycle(expression)]
fn divide(alloc: Global, divisor: Literal, parts: &[SExpr]) -> Result<Expression, Refusal>
    ensures read { IfOk result (λ e. option_map (Divisible divisor) (single_of (trees_of parts.now)) ≡ Some (expression_tree e)) }
    ensures refused { IfErr result (λ e. Refuses e (option_map (Divisible divisor) (single_of (trees_of parts.now)) ≡ None)) }
{
    let [part] = parts else {
        return Err(Refusal::Syntax);
    };
    let term = expression(alloc, part)?;
    let formula = divisible(alloc, divisor, term)?;
    Ok(formula)
}

/// The quantifier with these: its bindings and its formula.
#[cycle(expression)]
fn quantify(alloc: Global, quantifier: Quantifier, parts: &[SExpr]) -> Result<Expression, Refusal>
    ensures read { IfOk result (λ e. quantified quantifier (option_and_then scope_of (bindings_of (trees_of parts.now))) (body_of (trees_of parts.now)) ≡ Some (expression_tree e)) }
    ensures refused { IfErr result (λ e. Refuses e (quantified quantifier (option_and_then scope_of (bindings_of (trees_of parts.now))) (body_of (trees_of parts.now)) ≡ None)) }
{
    let [first, part] = parts else {
        return Err(Refusal::Syntax);
    };
    let SExpr::Group(bindings) = first else {
        return Err(Refusal::Syntax);
    };
    let names = scope(alloc, &bindings.list)?;
    let body = expression(alloc, part)?;
    let formula = quantified(alloc, quantifier, names, body)?;
    Ok(formula)
}

/// The `let` with these: its bindings and what they are used in.
#[cycle(expression)]
fn localise(alloc: Global, parts: &[SExpr]) -> Result<Expression, Refusal>
    ensures read { IfOk result (λ e. local_of (are_apart (bindings_of (trees_of parts.now))) (values_of (trees_of parts.now)) (body_of (trees_of parts.now)) ≡ Some (expression_tree e)) }
    ensures refused { IfErr result (λ e. Refuses e (local_of (are_apart (bindings_of (trees_of parts.now))) (values_of (trees_of parts.now)) (body_of (trees_of parts.now)) ≡ None)) }
{
    let [first, part] = parts else {
        return Err(Refusal::Syntax);
    };
    let SExpr::Group(group) = first else {
        return Err(Refusal::Syntax);
    };
    let bindings = group.list.as_slice();
    if !are_bindings(alloc, bindings)? {
        return Err(Refusal::Syntax);
    }
    let values = locals(alloc, bindings)?;
    let body = expression(alloc, part)?;
    let expression = local(alloc, LocalValues::of(values), body)?;
    Ok(expression)
}

/// What the bindings of a `let` say.
#[cycle(expression)]
fn locals(alloc: Global, bindings: &[SExpr]) -> Result<Vec<LocalValue>, Refusal>
    ensures read { IfOk result (λ list. each_of local_at (trees_of bindings.now) ≡ Some (map local_tree list.items)) }
    ensures refused { IfErr result (λ e. Refuses e (each_of local_at (trees_of bindings.now) ≡ None)) }
{
    let mut list = Vec::new(alloc);
    'bindings: for binding in bindings {
        let value = local_value(alloc, binding)?;
        list.push(value)?;
    }
    Ok(list)
}

/// What a binding of a `let` says.
#[tactic(auto, using(crate::proofs::TreeEquations::trees, smt_tokens::proofs::TreeEquations::trees))]
#[cycle(expression)]
fn local_value(alloc: Global, binding: &SExpr) -> Result<LocalValue, Refusal>
    ensures read { IfOk result (λ l. local_at (sexpr_tree binding.now) ≡ Some (local_tree l)) }
    ensures refused { IfErr result (λ e. Refuses e (local_at (sexpr_tree binding.now) ≡ None)) }
{
    let SExpr::Group(parts) = binding else {
        return Err(Refusal::Syntax);
    };
    let [symbol, part] = parts.list.as_slice() else {
        return Err(Refusal::Syntax);
    };
    let Some(name) = symbol.name() else {
        return Err(Refusal::Syntax);
    };
    let value = expression(alloc, part)?;
    Ok(LocalValue { name, value })
}
