ghost use Rattle.std.specs.Prelude.{◌≡◌, Some, None, map, IfOk, IfErr, MatchOption};
ghost use Rattle.std.specs.Option.{option_map, option_and_then};
ghost use Rattle.smt_language.specs.Trees.{Choose, Declare, Assert, Values};
ghost use Rattle.smt_tokens.specs.CodeTrees.{command_tree};
ghost use Rattle.smt_reader.specs.CodeTrees.{sexpr_tree, trees_of};
ghost use Rattle.smt_language.specs.SpelledShapes.{one_of, two_of};
ghost use Rattle.smt_language.specs.Bindings.{sorted};
ghost use Rattle.smt_language.specs.Expressions.{expression_of};
ghost use Rattle.smt_language.specs.ReadCommands.{command_of, commanded, constant_of, logic_at, asked_at, names_of, some_names, alone};
ghost use Rattle.smt_reader.specs.Refuses.{Refuses};

use crate::binding::{sorted, two};
use crate::expression::expression;
use crate::refusal::Refusal;
use crate::sexpr::SExpr;
use logic_meaning::Name;
use smt_language::{Sort, Word};
use smt_tokens::{Names, SmtCommand, logic_of};
use std::alloc::Global;

/// The command that these are between two parentheses.
pub fn command(alloc: Global, parts: &[SExpr]) -> Result<SmtCommand, Refusal>
    ensures read { IfOk result (λ c. command_of (trees_of parts.now) ≡ Some (command_tree c)) }
    ensures refused { IfErr result (λ e. Refuses e (command_of (trees_of parts.now) ≡ None)) }
{
    let Some((first, rest)) = parts.split_first() else {
        return Err(Refusal::Syntax);
    };
    let Some(word) = first.word() else {
        return Err(Refusal::Syntax);
    };
    commanded(alloc, word, rest)
}

/// The command that begins with the word and goes on with these.
#[tactic(auto, using(crate::proofs::Options::options))]
fn commanded(alloc: Global, word: Word, parts: &[SExpr]) -> Result<SmtCommand, Refusal>
    ensures read { IfOk result (λ c. commanded (Some word) (trees_of parts.now) ≡ Some (command_tree c)) }
    ensures refused { IfErr result (λ e. Refuses e (commanded (Some word) (trees_of parts.now) ≡ None)) }
{
    match word {
        Word::SetLogic => choose(parts),
        Word::SetInfo | Word::SetOption => Ok(SmtCommand::Ignored),
        Word::DeclareConst => declare(two(parts)),
        Word::DeclareFun => declare(constant(parts)),
        Word::Assert => assert_formula(alloc, parts),
        Word::CheckSat => alone(SmtCommand::Check, parts),
        Word::GetValue => values(alloc, parts),
        Word::Exit => alone(SmtCommand::Exit, parts),
        _ => Err(Refusal::Syntax),
    }
}

/// The choice of the logic that these are.
#[tactic(auto, using(crate::proofs::Options::options))]
fn choose(parts: &[SExpr]) -> Result<SmtCommand, Refusal>
    ensures read { IfOk result (λ c. option_map Choose (option_and_then logic_at (one_of (trees_of parts.now))) ≡ Some (command_tree c)) }
    ensures refused { IfErr result (λ e. Refuses e (option_map Choose (option_and_then logic_at (one_of (trees_of parts.now))) ≡ None)) }
{
    match logic(parts) {
        Some(sort) => Ok(SmtCommand::Choose(sort)),
        None => Err(Refusal::Syntax),
    }
}

/// The sort of the numbers of the logic that these are.
#[tactic(auto, using(crate::proofs::Options::options))]
fn logic(parts: &[SExpr]) -> Option<Sort>
    ensures { result ≡ option_and_then logic_at (one_of (trees_of parts.now)) }
{
    let symbol = one(parts)?.symbol()?;
    logic_of(symbol.bytes())
}

/// The one that these are, where they are no more.
fn one(parts: &[SExpr]) -> Option<&SExpr>
    ensures { MatchOption result (one_of (trees_of parts.now) ≡ None) (λ s. one_of (trees_of parts.now) ≡ Some (sexpr_tree s.now)) }
{
    let [part] = parts else {
        return None;
    };
    Some(part)
}

/// The name and the sort of a function without arguments.
fn constant(parts: &[SExpr]) -> Option<(&SExpr, &SExpr)>
    ensures { MatchOption result (constant_of (trees_of parts.now) ≡ None) (λ p. constant_of (trees_of parts.now) ≡ Some (sexpr_tree p.0.now, sexpr_tree p.1.now)) }
{
    let [name, arguments, sort] = parts else {
        return None;
    };
    if !arguments.is_void() {
        return None;
    }
    Some((name, sort))
}

/// The declaration of a name with its sort.
#[tactic(auto, using(crate::proofs::Options::options))]
fn declare(pair: Option<(&SExpr, &SExpr)>) -> Result<SmtCommand, Refusal>
    ensures read { IfOk result (λ c. MatchOption pair.entry ⊥ (λ p. option_map Declare (sorted (sexpr_tree p.0.now, sexpr_tree p.1.now)) ≡ Some (command_tree c))) }
    ensures refused { IfErr result (λ e. Refuses e (MatchOption pair.entry (Unit {0}) (λ p. sorted (sexpr_tree p.0.now, sexpr_tree p.1.now) ≡ None))) }
{
    let Some((name, sort)) = pair else {
        return Err(Refusal::Syntax);
    };
    match sorted(name, sort) {
        Some(name) => Ok(SmtCommand::Declare(name)),
        None => Err(Refusal::Syntax),
    }
}

/// The assertion of the formula that these are.
#[tactic(auto, using(crate::proofs::Options::options))]
fn assert_formula(alloc: Global, parts: &[SExpr]) -> Result<SmtCommand, Refusal>
    ensures read { IfOk result (λ c. option_map Assert (option_and_then expression_of (one_of (trees_of parts.now))) ≡ Some (command_tree c)) }
    ensures refused { IfErr result (λ e. Refuses e (option_map Assert (option_and_then expression_of (one_of (trees_of parts.now))) ≡ None)) }
{
    let Some(part) = one(parts) else {
        return Err(Refusal::Syntax);
    };
    let formula = expression(alloc, part)?;
    Ok(SmtCommand::Assert(formula))
}

/// The question for the values of the names that these are.
#[tactic(auto, using(crate::proofs::TreeEquations::trees, crate::proofs::Options::options))]
fn values(alloc: Global, parts: &[SExpr]) -> Result<SmtCommand, Refusal>
    ensures read { IfOk result (λ c. option_map Values (option_and_then asked_at (one_of (trees_of parts.now))) ≡ Some (command_tree c)) }
    ensures refused { IfErr result (λ e. Refuses e (option_map Values (option_and_then asked_at (one_of (trees_of parts.now))) ≡ None)) }
{
    let Some(SExpr::Group(asked)) = one(parts) else {
        return Err(Refusal::Syntax);
    };
    let list = some_names(alloc, &asked.list)?;
    Ok(SmtCommand::Values(Names::of(list)))
}

/// These as names, one at least.
fn some_names(alloc: Global, parts: &[SExpr]) -> Result<Vec<Name>, Refusal>
    ensures read { IfOk result (λ list. some_names (trees_of parts.now) ≡ Some list.items) }
    ensures refused { IfErr result (λ e. Refuses e (some_names (trees_of parts.now) ≡ None)) }
{
    if parts.is_empty() {
        return Err(Refusal::Syntax);
    }
    names(alloc, parts)
}

/// These as names.
fn names(alloc: Global, parts: &[SExpr]) -> Result<Vec<Name>, Refusal>
    ensures read { IfOk result (λ list. names_of (trees_of parts.now) ≡ Some list.items) }
    ensures refused { IfErr result (λ e. Refuses e (names_of (trees_of parts.now) ≡ None)) }
{
    let mut list = Vec::new(alloc);
    'parts: for part in parts {
        let Some(name) = part.name() else {
            return Err(Refusal::Syntax);
        };
        list.push(name)?;
    }
    Ok(list)
}

/// A command that has no more than its word.
fn alone(command: SmtCommand, parts: &[SExpr]) -> Result<SmtCommand, Refusal>
    ensures read { IfOk result (λ c. alone (command_tree command) (trees_of parts.now) ≡ Some (command_tree c)) }
    ensures refused { IfErr result (λ e. Refuses e (alone (command_tree command) (trees_of parts.now) ≡ None)) }
{
    if !parts.is_empty() {
        return Err(Refusal::Syntax);
    }
    Ok(command)
}
