ghost use Rattle.std.specs.Prelude.{◌≡◌, ℕ, ◌+◌, ◌≤◌, List, ◌∷◌, length, IfOk, count_by};
ghost use Rattle.program_meaning.specs.Generated.{is_of, number_of, lines_after, tally, tally_with};

use crate::number::add_number;
use program_meaning::LineKind;
use std::alloc::{AllocError, Global};

/// The line that says how many of these lines are true, false and refusals.
pub fn tally(alloc: Global, lines: &[u8]) -> Result<Vec<u8>, AllocError>
    ensures { IfOk result (λ line. line.items ≡ tally lines.now) }
{
    let truths = number_of(alloc, LineKind::Truth, lines)?;
    let falsehoods = number_of(alloc, LineKind::Falsehood, lines)?;
    let refusals = number_of(alloc, LineKind::Refusal, lines)?;
    tally_with(alloc, truths, falsehoods, refusals)
}

/// The line of these numbers.
fn tally_with(
    alloc: Global,
    truths: usize,
    falsehoods: usize,
    refusals: usize,
) -> Result<Vec<u8>, AllocError>
    ensures { IfOk result (λ line. line.items ≡ tally_with truths falsehoods refusals) }
{
    let mut line = Vec::new(alloc);
    line.extend_from_slice(b"true ")?;
    add_number(alloc, truths, &mut line)?;
    line.extend_from_slice(b" false ")?;
    add_number(alloc, falsehoods, &mut line)?;
    line.extend_from_slice(b" refused ")?;
    add_number(alloc, refusals, &mut line)?;
    line.push(b'\n')?;
    Ok(line)
}

/// How many lines are of this kind. Each ends with a newline.
fn number_of(alloc: Global, kind: LineKind, lines: &[u8]) -> Result<usize, AllocError>
    ensures { IfOk result (λ number. number ≡ number_of kind lines.now) }
{
    let mut number = 0;
    let mut line = Vec::new(alloc);
    'bytes: for byte in lines {
        number += take_byte(kind, *byte, &mut line)?;
    }
    Ok(number)
}

/// Takes a byte onto the line that has begun, and gives 1 where it ends a line of this kind.
fn take_byte(kind: LineKind, byte: u8, line: &mut Vec<u8>) -> Result<usize, AllocError>
    ensures one { IfOk result (λ number. number ≤ 1) }
    ensures counts { IfOk result (λ number. (rest : List ℕ) → count_by (is_of kind) (lines_after line.old.items (byte ∷ rest)) ≡ number + count_by (is_of kind) (lines_after line.new.items rest)) }
{
    if byte != b'\n' {
        line.push(byte)?;
        return Ok(0);
    }
    let number = if is_of(kind, line) { 1 } else { 0 };
    line.clear();
    Ok(number)
}

/// Whether a line is of this kind.
fn is_of(kind: LineKind, line: &[u8]) -> bool
    ensures { result ≡ is_of kind line.now }
{
    match kind {
        LineKind::Truth => line == b"true".as_slice(),
        LineKind::Falsehood => line == b"false".as_slice(),
        LineKind::Refusal => line.starts_with(b"***** "),
    }
}
