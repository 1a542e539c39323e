ghost use Rattle.std.specs.Prelude.{◌≡◌, IfOk, IfErr, MatchOption, Some, None};
ghost use Rattle.written_syntax.specs.CodeTrees.{whole_formula};
ghost use Rattle.redlog_reader.specs.Reader.{items_read, ratio_read, axis_read, grid_read};
ghost use Rattle.redlog_reader.specs.Reading.{Refuses};

use crate::argument::{FORMULA, formula};
use crate::peek::{after, name};
use crate::point::{above, below};
use language_meaning::{GridAxis, Mark, Ratio, ReadError, Terminal};
use std::alloc::Global;
use written_syntax::{Formula, GridAxes};

/// A formula and axes in brackets.
#[tactic(auto, using(crate::proofs::Options::options))]
pub fn grid(
    alloc: Global,
    tokens: &[Terminal],
) -> Result<(Formula, GridAxes, &[Terminal]), ReadError>
    ensures read { IfOk result (λ r. grid_read tokens.now ≡ Some ((whole_formula r.0, r.1), r.2.now)) }
    ensures refused { IfErr result (λ e. Refuses e (grid_read tokens.now ≡ None)) }
{
    let Some(start) = after(tokens, Mark::Open) else {
        return Err(ReadError::Syntax);
    };
    let (formula, comma) = formula(alloc, FORMULA, start)?;
    let Some(middle) = after(comma, Mark::Comma) else {
        return Err(ReadError::Syntax);
    };
    let (axes, end) = axes(alloc, middle)?;
    let Some(rest) = after(end, Mark::Close) else {
        return Err(ReadError::Syntax);
    };
    Ok((formula, GridAxes::of(axes), rest))
}

/// One axis or more, with commas between them.
#[tactic(auto, using(crate::proofs::Items::axes))]
fn axes(alloc: Global, tokens: &[Terminal]) -> Result<(Vec<GridAxis>, &[Terminal]), ReadError>
    ensures read { IfOk result (λ r. items_read axis_read tokens.now ≡ Some (r.0.items, r.1.now)) }
    ensures refused { IfErr result (λ e. Refuses e (items_read axis_read tokens.now ≡ None)) }
{
    let mut axes = Vec::new(alloc);
    let mut start = tokens;
    'axes: loop {
        let Some((axis, rest)) = axis(start) else {
            return Err(ReadError::Syntax);
        };
        axes.push(axis)?;
        let Some(more) = after(rest, Mark::Comma) else {
            return Ok((axes, rest));
        };
        start = more;
    }
}

/// A name and three fractions, in braces.
#[tactic(auto, using(crate::proofs::Options::options))]
fn axis(tokens: &[Terminal]) -> Option<(GridAxis, &[Terminal])>
    ensures { MatchOption result (axis_read tokens.now ≡ None) (λ r. axis_read tokens.now ≡ Some (r.0, r.1.now)) }
{
    let start = after(tokens, Mark::OpenBrace)?;
    let Some((name, comma)) = name(start) else {
        return None;
    };
    let first = after(comma, Mark::Comma)?;
    let (low, second) = ratio(Mark::Comma, first)?;
    let (high, third) = ratio(Mark::Comma, second)?;
    let (step, rest) = ratio(Mark::CloseBrace, third)?;
    Some((
        GridAxis {
            name,
            low,
            high,
            step,
        },
        rest,
    ))
}

/// A fraction, and the mark after it.
#[tactic(auto, using(crate::proofs::Options::options))]
fn ratio(end: Mark, tokens: &[Terminal]) -> Option<(Ratio, &[Terminal])>
    ensures { MatchOption result (ratio_read end tokens.now ≡ None) (λ r. ratio_read end tokens.now ≡ Some (r.0, r.1.now)) }
{
    let (above, line) = above(tokens)?;
    let (below, mark) = below(line)?;
    let rest = after(mark, end)?;
    Some((Ratio { above, below }, rest))
}
