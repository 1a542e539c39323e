//! What is read of terms, with their nodes. No step but want of memory fails.

ghost use Rattle.std.specs.Prelude.{◌≡◌, ℕ, List, ◌∷◌, map, IfOk};
ghost use Rattle.logic_meaning.specs.Context as meaning;
ghost use Rattle.normal_atoms.specs.Atoms.{context_of};
ghost use Rattle.written_syntax.specs.Proper.{IsNumeral};
ghost use Rattle.language_meaning.specs.Trees.{TermTree, Number, Named, Sum, Product, Quotient, Negative, terms_of};
ghost use Rattle.smt_language.specs.Levels.{level};
ghost use Rattle.smt_language.specs.Shapes.{taken_away};
ghost use Rattle.smt_resolver.specs.Values.{IsTermValue, AreTermValues};

use crate::sized::{Sized, counted};
use language_meaning::Literal;
use logic_meaning::VarId;
use normal_atoms::Context;
use std::alloc::{AllocError, Global};
use written_atoms::{ReadSum, ReadTerm};

/// What is read of a term, with its nodes.
pub type TermValue = Sized<ReadTerm>;

/// A numeral.
pub fn numeral(alloc: Global, limit: u64, literal: Literal) -> TermValue
    requires { IsNumeral literal }
    ensures { (c : meaning.Context) → IsTermValue c limit (Number literal) result }
{
    match counted(limit, 1, 0) {
        Some(nodes) => Sized::Within {
            nodes,
            read: ReadTerm::literal(alloc, literal),
        },
        None => Sized::TooLarge,
    }
}

/// The name of a level.
pub(crate) fn variable(alloc: Global, limit: u64, number: usize) -> Result<TermValue, AllocError>
    ensures { IfOk result (λ r. (c : meaning.Context) → IsTermValue c limit (Named (level number)) r) }
{
    let Some(nodes) = counted(limit, 1, 0) else {
        return Ok(Sized::TooLarge);
    };
    let read = ReadTerm::variable(alloc, VarId { number })?;
    Ok(Sized::Within { nodes, read })
}

/// The same once more.
pub(crate) fn copied(alloc: Global, term: &TermValue) -> Result<TermValue, AllocError>
    ensures { IfOk result (λ r. (c : meaning.Context) (limit : ℕ) (t : TermTree) → IsTermValue c limit t term.now → IsTermValue c limit t r) }
{
    match term {
        Sized::Within { nodes, read } => Ok(Sized::Within {
            nodes: *nodes,
            read: read.copy(alloc)?,
        }),
        Sized::TooLarge => Ok(Sized::TooLarge),
    }
}

/// The term with the other sign.
pub(crate) fn negative(alloc: Global, limit: u64, term: &TermValue) -> Result<TermValue, AllocError>
    ensures { IfOk result (λ r. (c : meaning.Context) (t : TermTree) → IsTermValue c limit t term.now → IsTermValue c limit (Negative t) r) }
{
    let Sized::Within { nodes, read } = term else {
        return Ok(Sized::TooLarge);
    };
    let Some(nodes) = counted(limit, *nodes, 1) else {
        return Ok(Sized::TooLarge);
    };
    let read = read.opposite(alloc)?;
    Ok(Sized::Within { nodes, read })
}

/// The first term divided by the second.
pub(crate) fn quotient(
    alloc: Global,
    context: Context,
    limit: u64,
    dividend: &TermValue,
    divisor: &TermValue,
) -> Result<TermValue, AllocError>
    ensures { IfOk result (λ r. (s t : TermTree) → IsTermValue (context_of context) limit s dividend.now → IsTermValue (context_of context) limit t divisor.now → IsTermValue (context_of context) limit (Quotient s t) r) }
{
    let Sized::Within {
        nodes: above,
        read: dividend,
    } = dividend
    else {
        return Ok(Sized::TooLarge);
    };
    let Sized::Within {
        nodes: below,
        read: divisor,
    } = divisor
    else {
        return Ok(Sized::TooLarge);
    };
    let Some(both) = counted(limit, *above, *below) else {
        return Ok(Sized::TooLarge);
    };
    let Some(nodes) = counted(limit, both, 1) else {
        return Ok(Sized::TooLarge);
    };
    let read = dividend.over(alloc, context, divisor)?;
    Ok(Sized::Within { nodes, read })
}

/// The sum of the terms.
pub(crate) fn sum(alloc: Global, limit: u64, terms: &[TermValue]) -> Result<TermValue, AllocError>
    ensures { IfOk result (λ r. (c : meaning.Context) (ts : List TermTree) → AreTermValues c limit ts terms.now → IsTermValue c limit (Sum (terms_of ts)) r) }
{
    let Some(mut nodes) = counted(limit, 1, 0) else {
        return Ok(Sized::TooLarge);
    };
    let mut total = ReadSum::new(alloc);
    for term in terms {
        let Sized::Within { nodes: more, read } = term else {
            return Ok(Sized::TooLarge);
        };
        let Some(next) = counted(limit, nodes, *more) else {
            return Ok(Sized::TooLarge);
        };
        nodes = next;
        total = total.plus(alloc, read)?;
    }
    let read = total.into_term(alloc)?;
    Ok(Sized::Within { nodes, read })
}

/// The first term, from which the others are taken away.
pub(crate) fn difference(
    alloc: Global,
    limit: u64,
    first: &TermValue,
    others: &[TermValue],
) -> Result<TermValue, AllocError>
    ensures { IfOk result (λ r. (c : meaning.Context) (t : TermTree) (ts : List TermTree) → IsTermValue c limit t first.now → AreTermValues c limit ts others.now → IsTermValue c limit (taken_away t ts) r) }
{
    let mut terms = Vec::new(alloc);
    terms.push(copied(alloc, first)?)?;
    for other in others {
        terms.push(negative(alloc, limit, other)?)?;
    }
    sum(alloc, limit, &terms)
}

/// The product of the terms.
pub(crate) fn product(
    alloc: Global,
    limit: u64,
    terms: &[TermValue],
) -> Result<TermValue, AllocError>
    ensures { IfOk result (λ r. (c : meaning.Context) (ts : List TermTree) → AreTermValues c limit ts terms.now → IsTermValue c limit (Product (terms_of ts)) r) }
{
    let Some(mut nodes) = counted(limit, 1, 0) else {
        return Ok(Sized::TooLarge);
    };
    let mut total = ReadTerm::literal(alloc, Literal::Fits(1));
    for term in terms {
        let Sized::Within { nodes: more, read } = term else {
            return Ok(Sized::TooLarge);
        };
        let Some(next) = counted(limit, nodes, *more) else {
            return Ok(Sized::TooLarge);
        };
        nodes = next;
        total = total.times(alloc, read)?;
    }
    Ok(Sized::Within { nodes, read: total })
}
