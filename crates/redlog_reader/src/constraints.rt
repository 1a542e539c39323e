ghost use Rattle.std.specs.Prelude.{◌≡◌, map, IfOk, IfErr, Some, None};
ghost use Rattle.written_syntax.specs.CodeTrees.{term_tree, whole_formula};
ghost use Rattle.redlog_reader.specs.Reader.{above_read, items_read, braced_read, certified_read, checked_read, least_read};
ghost use Rattle.redlog_reader.specs.Reading.{Refuses};

use crate::argument::{AtomKind, atoms, sum};
use crate::peek::after;
use crate::point::above;
use language_meaning::{Literal, Mark, ReadError, Terminal};
use std::alloc::Global;
use written_syntax::{Formula, Literals, Term};

/// Constraints in brackets.
#[tactic(auto, using(crate::proofs::Options::options))]
pub fn constraints(
    alloc: Global,
    tokens: &[Terminal],
) -> Result<(Vec<Formula>, &[Terminal]), ReadError>
    ensures read { IfOk result (λ r. certified_read tokens.now ≡ Some (map whole_formula r.0.items, r.1.now)) }
    ensures refused { IfErr result (λ e. Refuses e (certified_read tokens.now ≡ None)) }
{
    let Some(start) = after(tokens, Mark::Open) else {
        return Err(ReadError::Syntax);
    };
    let (constraints, end) = atoms(alloc, AtomKind::Constraint, start)?;
    let Some(rest) = after(end, Mark::Close) else {
        return Err(ReadError::Syntax);
    };
    Ok((constraints, rest))
}

/// Constraints and multipliers in brackets.
#[tactic(auto, using(crate::proofs::Options::options))]
pub fn multiplied(
    alloc: Global,
    tokens: &[Terminal],
) -> Result<(Vec<Formula>, Literals, &[Terminal]), ReadError>
    ensures read { IfOk result (λ r. checked_read tokens.now ≡ Some ((map whole_formula r.0.items, r.1), r.2.now)) }
    ensures refused { IfErr result (λ e. Refuses e (checked_read tokens.now ≡ None)) }
{
    let Some(start) = after(tokens, Mark::Open) else {
        return Err(ReadError::Syntax);
    };
    let (constraints, comma) = atoms(alloc, AtomKind::Constraint, start)?;
    let Some(middle) = after(comma, Mark::Comma) else {
        return Err(ReadError::Syntax);
    };
    let (multipliers, end) = multipliers(alloc, middle)?;
    let Some(rest) = after(end, Mark::Close) else {
        return Err(ReadError::Syntax);
    };
    Ok((constraints, multipliers, rest))
}

/// Weak constraints and a target in brackets.
#[tactic(auto, using(crate::proofs::Options::options))]
pub fn targeted(
    alloc: Global,
    tokens: &[Terminal],
) -> Result<(Vec<Formula>, Term, &[Terminal]), ReadError>
    ensures read { IfOk result (λ r. least_read tokens.now ≡ Some ((map whole_formula r.0.items, term_tree r.1), r.2.now)) }
    ensures refused { IfErr result (λ e. Refuses e (least_read tokens.now ≡ None)) }
{
    let Some(start) = after(tokens, Mark::Open) else {
        return Err(ReadError::Syntax);
    };
    let (constraints, comma) = atoms(alloc, AtomKind::Weak, start)?;
    let Some(middle) = after(comma, Mark::Comma) else {
        return Err(ReadError::Syntax);
    };
    let (target, end) = sum(alloc, middle)?;
    let Some(rest) = after(end, Mark::Close) else {
        return Err(ReadError::Syntax);
    };
    Ok((constraints, target, rest))
}

/// Whole numbers in braces.
#[tactic(auto, using(crate::proofs::Options::options))]
fn multipliers(alloc: Global, tokens: &[Terminal]) -> Result<(Literals, &[Terminal]), ReadError>
    ensures read { IfOk result (λ r. braced_read above_read tokens.now ≡ Some (r.0, r.1.now)) }
    ensures refused { IfErr result (λ e. Refuses e (braced_read above_read tokens.now ≡ None)) }
{
    let Some(start) = after(tokens, Mark::OpenBrace) else {
        return Err(ReadError::Syntax);
    };
    if let Some(rest) = after(start, Mark::CloseBrace) {
        return Ok((Literals::of(Vec::new(alloc)), rest));
    }
    let (numbers, end) = numbers(alloc, start)?;
    let Some(rest) = after(end, Mark::CloseBrace) else {
        return Err(ReadError::Syntax);
    };
    Ok((Literals::of(numbers), rest))
}

/// One whole number or more, with commas between them.
#[tactic(auto, using(crate::proofs::Items::wholes))]
fn numbers(alloc: Global, tokens: &[Terminal]) -> Result<(Vec<Literal>, &[Terminal]), ReadError>
    ensures read { IfOk result (λ r. items_read above_read tokens.now ≡ Some (r.0.items, r.1.now)) }
    ensures refused { IfErr result (λ e. Refuses e (items_read above_read tokens.now ≡ None)) }
{
    let mut numbers = Vec::new(alloc);
    let mut start = tokens;
    'numbers: loop {
        let Some((number, rest)) = above(start) else {
            return Err(ReadError::Syntax);
        };
        numbers.push(number)?;
        let Some(more) = after(rest, Mark::Comma) else {
            return Ok((numbers, rest));
        };
        start = more;
    }
}
