//! The first token that is bad, and the first that stands too deep.

use language_meaning::{ReadError, Terminal};
use redlog_tokens::{is_deep, is_digit, is_letter, tokens};
use std::alloc::{AllocError, Global};

/// A name has at most so many bytes.
const NAME_LIMIT: usize = 64;

/// The offset of the first bad token, in a text that has one.
pub fn first_bad(alloc: Global, text: &[u8]) -> Result<usize, AllocError> {
    let end = shortest(text.len(), |count| has_bad(alloc, text, count))?;
    let start = end.saturating_sub(1);
    let Some(name) = start.checked_sub(NAME_LIMIT) else {
        return Ok(start);
    };
    match text.get(name..end) {
        Some(bytes) if bytes.iter().all(|byte| is_of_name(*byte)) => Ok(name),
        _ => Ok(start),
    }
}

/// The number of the first token that stands too deep, among tokens of which one does.
pub fn first_deep(alloc: Global, terminals: &[Terminal]) -> Result<usize, AllocError> {
    let count = shortest(terminals.len(), |count| {
        is_deep(alloc, terminals.get(..count).unwrap_or(terminals))
    })?;
    Ok(count.saturating_sub(1))
}

/// Whether this front of the text has a bad token. One that ends between the bytes of `:=` is taken with both.
fn has_bad(alloc: Global, text: &[u8], count: usize) -> Result<bool, AllocError> {
    let count = match text.get(count.saturating_sub(1)..) {
        Some([b':', b'=', ..]) => count.saturating_add(1),
        _ => count,
    };
    match tokens(alloc, text.get(..count).unwrap_or(text)) {
        Ok(_) => Ok(false),
        Err(ReadError::Memory) => Err(AllocError),
        Err(_) => Ok(true),
    }
}

/// Whether a byte may stand in a name.
fn is_of_name(byte: u8) -> bool {
    is_letter(byte) || is_digit(byte) || byte == b'_'
}

/// The least count from 1 at which the test holds, where it holds at the greatest and stays so once it does.
fn shortest<F: Fn(usize) -> Result<bool, AllocError>>(
    greatest: usize,
    test: F,
) -> Result<usize, AllocError>
    requires { F.IsAlwaysCallable test }
{
    let mut fails = 0usize;
    let mut holds = greatest;
    for _ in 0..usize::BITS {
        let middle = fails.saturating_add(holds.saturating_sub(fails) / 2);
        if middle == fails {
            break;
        }
        if test(middle)? {
            holds = middle;
        } else {
            fails = middle;
        }
    }
    Ok(holds)
}
