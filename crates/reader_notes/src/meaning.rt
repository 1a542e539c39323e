//! What is said of a statement that is read and refused for what it means.

use crate::note::Said;
use crate::spelled::Spelled;
use grammar_walk::{Facts, walk_over};
use language_meaning::{Literal, Mark, Terminal, Word};
use program_meaning::StatementError;
use std::alloc::{AllocError, Global};
use std::collections::HashSet;

/// At most so many names are told.
const MOST_NAMES: usize = 3;

/// What is said of a statement that is read and refused so.
pub fn said_of_meaning(
    alloc: Global,
    error: StatementError,
    spelled: &Spelled<'_>,
) -> Result<Said, AllocError> {
    let facts = walk_over(alloc, &spelled.terminals)?.facts;
    match error {
        StatementError::Unbound => {
            names(alloc, spelled, &facts.formulas, "no formula is bound to ")
        }
        StatementError::FormulaAsTerm => {
            let named = bindable(alloc, &facts)?;
            names(alloc, spelled, &named, "a formula is bound to ")
        }
        StatementError::Unvalued => {
            let free = unvalued(alloc, spelled, &facts)?;
            names(alloc, spelled, &free, "no value is given for ")
        }
        _ => {
            let number = place_of(alloc, error, spelled, &facts)?;
            let mut text = String::new(alloc);
            if let Some(number) = number {
                spelled.quote(alloc, number, &mut text)?;
                text.push_str(": ")?;
            }
            text.push_str(explained(error))?;
            Ok(Said {
                offset: spelled.offset(number.unwrap_or(0)),
                text,
            })
        }
    }
}

/// The token that a statement is refused for, as far as its text shows it.
fn place_of(
    alloc: Global,
    error: StatementError,
    spelled: &Spelled<'_>,
    facts: &Facts,
) -> Result<Option<usize>, AllocError> {
    Ok(match error {
        StatementError::Nonlinear => facts.factor,
        StatementError::Division => facts.divisor.or(facts.slash),
        StatementError::CongruenceContext => first(spelled, |terminal| {
            matches!(terminal, Terminal::Word(Word::Cong | Word::Ncong))
        }),
        StatementError::Context => Some(0),
        StatementError::Modulus => facts.modulus,
        StatementError::Point => match repeated(alloc, spelled, &facts.entries)? {
            Some(entry) => Some(entry),
            None => facts.denominator,
        },
        StatementError::Quantified => first(spelled, |terminal| {
            matches!(terminal, Terminal::Word(Word::Ex | Word::All))
        }),
        StatementError::Overflow => first(spelled, |terminal| {
            matches!(terminal, Terminal::Number(Literal::Past))
        }),
        _ => None,
    })
}

/// What a word says, where no name is told.
fn explained(error: StatementError) -> &'static str {
    match error {
        StatementError::Long => "the statement is longer than 4194304 bytes",
        StatementError::Nonlinear =>
            "of two factors one has to be constant, and so has the base of a power above 1",
        StatementError::Division => {
            "a divisor is a constant other than 0, and over the integers there is none"
        }
        StatementError::CongruenceContext => {
            "a congruence stands over the integers alone (rlset pasf)"
        }
        StatementError::Context => "this stands over the ordered fields alone (rlset ofsf)",
        StatementError::Modulus => "a modulus is a constant other than 0",
        StatementError::Depth =>
            "the formula is higher than 512, with bound formulas in their places",
        StatementError::Point => {
            "each name has one value, no denominator is 0, a step is positive, and over the integers values are whole"
        }
        StatementError::Quantified => {
            "the formula has a quantifier, in its text or in a bound formula (rlqe takes it away)"
        }
        StatementError::Overflow => {
            "a number passes 170141183460469231731687303715884105727, here or on the way"
        }
        StatementError::Nodes => {
            "the work passes the limit, 1000000 nodes unless --nodes says another, or a grid has more than 1000000 points"
        }
        StatementError::Bindings => {
            "256 names are bound, or the formula has more than 100000 distinct subformulas"
        }
        StatementError::Text =>
            "the line is longer than 33554432 bytes ($ in place of ; prints none)",
        _ => "the statement is refused",
    }
}

/// The first token of which this is so.
fn first<F: Fn(&Terminal) -> bool>(spelled: &Spelled<'_>, test: F) -> Option<usize>
    requires { F.IsAlwaysCallable test }
{
    spelled.terminals.iter().position(|terminal| test(terminal))
}

/// The first of these tokens whose name stood among them before.
fn repeated(
    alloc: Global,
    spelled: &Spelled<'_>,
    numbers: &[usize],
) -> Result<Option<usize>, AllocError> {
    let mut seen = HashSet::new(alloc);
    for number in numbers {
        if !seen.insert(spelled.bytes(*number).to_vec(alloc)?)? {
            return Ok(Some(*number));
        }
    }
    Ok(None)
}

/// The names that must not be bound.
fn bindable(alloc: Global, facts: &Facts) -> Result<Vec<usize>, AllocError> {
    let mut all = facts.terms.as_slice().to_vec(alloc)?;
    all.extend_from_slice(&facts.quantified)?;
    all.extend_from_slice(&facts.entries)?;
    all.sort_unstable();
    Ok(all)
}

/// The names in terms that have no value and that no quantifier has.
fn unvalued(alloc: Global, spelled: &Spelled<'_>, facts: &Facts) -> Result<Vec<usize>, AllocError> {
    let mut valued = HashSet::new(alloc);
    for number in facts.entries.iter().chain(facts.quantified.iter()) {
        let _ = valued.insert(spelled.bytes(*number).to_vec(alloc)?)?;
    }
    let mut free = Vec::new(alloc);
    for number in &facts.terms {
        if !valued.contains(spelled.bytes(*number)) {
            free.push(*number)?;
        }
    }
    Ok(free)
}

/// What is said of these names: of the first, or of one of a few.
fn names(
    alloc: Global,
    spelled: &Spelled<'_>,
    numbers: &[usize],
    front: &str,
) -> Result<Said, AllocError> {
    let mut seen = HashSet::new(alloc);
    let mut told = Vec::new(alloc);
    for number in numbers {
        if seen.insert(spelled.bytes(*number).to_vec(alloc)?)? && told.len() < MOST_NAMES {
            told.push(*number)?;
        }
    }
    let mut text = String::from_str(alloc, front)?;
    if told.is_empty() {
        text.push_str("a name in a bound formula")?;
    }
    for (place, number) in told.iter().enumerate() {
        if place > 0 {
            text.push_str(" or ")?;
        }
        spelled.quote(alloc, *number, &mut text)?;
    }
    if seen.len() > told.len() {
        text.push_str(" or another name")?;
    }
    Ok(Said {
        offset: spelled.offset(told.first().copied().unwrap_or(0)),
        text,
    })
}
