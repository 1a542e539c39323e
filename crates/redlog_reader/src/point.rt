ghost use Rattle.std.specs.Prelude.{◌≡◌, IfOk, IfErr, MatchOption, Some, None};
ghost use Rattle.redlog_reader.specs.Reader.{entry_read, items_read, braced_read, negated_literal, above_read, below_read};
ghost use Rattle.redlog_reader.specs.Reading.{Refuses};

use crate::peek::{after, after_equal, name, number};
use language_meaning::{Literal, Mark, PointEntry, ReadError, Terminal};
use std::alloc::Global;
use written_syntax::Entries;

/// The entries of a point, in braces.
#[tactic(auto, using(crate::proofs::Options::options))]
pub fn point(alloc: Global, tokens: &[Terminal]) -> Result<(Entries, &[Terminal]), ReadError>
    ensures read { IfOk result (λ r. braced_read entry_read tokens.now ≡ Some (r.0, r.1.now)) }
    ensures refused { IfErr result (λ e. Refuses e (braced_read entry_read tokens.now ≡ None)) }
{
    let Some(start) = after(tokens, Mark::OpenBrace) else {
        return Err(ReadError::Syntax);
    };
    if let Some(rest) = after(start, Mark::CloseBrace) {
        return Ok((Entries::of(Vec::new(alloc)), rest));
    }
    let (entries, end) = entries(alloc, start)?;
    let Some(rest) = after(end, Mark::CloseBrace) else {
        return Err(ReadError::Syntax);
    };
    Ok((Entries::of(entries), rest))
}

/// One entry or more, with commas between them.
#[tactic(auto, using(crate::proofs::Items::entries))]
fn entries(alloc: Global, tokens: &[Terminal]) -> Result<(Vec<PointEntry>, &[Terminal]), ReadError>
    ensures read { IfOk result (λ r. items_read entry_read tokens.now ≡ Some (r.0.items, r.1.now)) }
    ensures refused { IfErr result (λ e. Refuses e (items_read entry_read tokens.now ≡ None)) }
{
    let mut entries = Vec::new(alloc);
    let mut start = tokens;
    'entries: loop {
        let Some((entry, rest)) = entry(start) else {
            return Err(ReadError::Syntax);
        };
        entries.push(entry)?;
        let Some(more) = after(rest, Mark::Comma) else {
            return Ok((entries, rest));
        };
        start = more;
    }
}

/// A name, `=`, and a fraction.
#[tactic(auto, using(crate::proofs::Options::options))]
fn entry(tokens: &[Terminal]) -> Option<(PointEntry, &[Terminal])>
    ensures { MatchOption result (entry_read tokens.now ≡ None) (λ r. entry_read tokens.now ≡ Some (r.0, r.1.now)) }
{
    let Some((name, middle)) = name(tokens) else {
        return None;
    };
    let start = after_equal(middle)?;
    let (above, line) = above(start)?;
    let (below, rest) = below(line)?;
    Some((PointEntry { name, above, below }, rest))
}

/// A number, which may have the sign `-`.
#[tactic(auto, using(crate::proofs::Options::options))]
pub fn above(tokens: &[Terminal]) -> Option<(Literal, &[Terminal])>
    ensures { MatchOption result (above_read tokens.now ≡ None) (λ r. above_read tokens.now ≡ Some (r.0, r.1.now)) }
{
    let Some(start) = after(tokens, Mark::Minus) else {
        return number(tokens);
    };
    let (number, rest) = number(start)?;
    Some((negated(number), rest))
}

/// The number with the other sign; one that has none within the limit is past it.
fn negated(number: Literal) -> Literal
    ensures { result ≡ negated_literal number }
{
    match number {
        Literal::Fits(value) if value != i128::MIN => Literal::Fits(-value),
        _ => Literal::Past,
    }
}

/// `/` and a number; 1 where that is left out.
#[tactic(auto, using(crate::proofs::Options::options))]
pub fn below(tokens: &[Terminal]) -> Option<(Literal, &[Terminal])>
    ensures { MatchOption result (below_read tokens.now ≡ None) (λ r. below_read tokens.now ≡ Some (r.0, r.1.now)) }
{
    match after(tokens, Mark::Slash) {
        Some(start) => number(start),
        None => Some((Literal::Fits(1), tokens)),
    }
}
