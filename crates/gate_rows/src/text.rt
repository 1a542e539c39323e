//! Texts of rows: repeated, numbered, and lines that are told by their length.

use std::alloc::{AllocError, Global};

/// A longer line is told by its length.
const LONG: usize = 1000;

/// Adds a line and its end.
pub(crate) fn add_line(bytes: &mut Vec<u8>, line: &str) -> Result<(), AllocError> {
    bytes.extend_from_slice(line.as_bytes())?;
    bytes.push(b'\n')?;
    Ok(())
}

/// Adds a text so many times, where `times` is such a number, a blank and the text; or says that it is not.
pub(crate) fn add_repeated(
    alloc: Global,
    bytes: &mut Vec<u8>,
    times: &str,
) -> Result<bool, AllocError> {
    let Some((count, text)) = times.split_once(' ') else {
        return Ok(false);
    };
    let Ok(count) = count.parse::<u32>() else {
        return Ok(false);
    };
    let repeated = text.repeat(alloc, count as usize)?;
    bytes.extend_from_slice(repeated.as_bytes())?;
    Ok(true)
}

/// Adds a text for each number from the first to the last, where `range` is the two numbers and the text, with blanks between;
/// or says that it is not. The number stands in the place of `@`, and the number before it in that of `~`.
pub(crate) fn add_numbered(
    alloc: Global,
    bytes: &mut Vec<u8>,
    range: &str,
) -> Result<bool, AllocError> {
    let Some((first, rest)) = range.split_once(' ') else {
        return Ok(false);
    };
    let Some((last, text)) = rest.split_once(' ') else {
        return Ok(false);
    };
    let (Ok(first), Ok(last)) = (first.parse::<u64>(), last.parse::<u64>()) else {
        return Ok(false);
    };
    for number in first..last.saturating_add(1) {
        add_with_number(alloc, bytes, text, number)?;
    }
    Ok(true)
}

/// Adds a text with a number in the place of `@`, and the number before it in that of `~`.
fn add_with_number(
    alloc: Global,
    bytes: &mut Vec<u8>,
    text: &str,
    number: u64,
) -> Result<(), AllocError> {
    let before = number.saturating_sub(1);
    let number = format!(in alloc; "{number}")?;
    let before = format!(in alloc; "{before}")?;
    for byte in text.as_bytes() {
        match *byte {
            b'@' => bytes.extend_from_slice(number.as_bytes())?,
            b'~' => bytes.extend_from_slice(before.as_bytes())?,
            other => bytes.push(other)?,
        }
    }
    Ok(())
}

/// The lines, of which a long one is told by its length.
pub(crate) fn told(alloc: Global, lines: &[u8]) -> Result<Vec<u8>, AllocError> {
    let mut told = Vec::new(alloc);
    let mut line = Vec::new(alloc);
    for byte in lines {
        if *byte == b'\n' {
            add_told(alloc, &mut told, &line)?;
            told.push(b'\n')?;
            line.clear();
        } else {
            line.push(*byte)?;
        }
    }
    add_told(alloc, &mut told, &line)?;
    Ok(told)
}

/// Adds a line, or its length where it is long.
fn add_told(alloc: Global, told: &mut Vec<u8>, line: &[u8]) -> Result<(), AllocError> {
    let length = line.len();
    if length > LONG {
        let length = format!(in alloc; "line of {length} bytes")?;
        told.extend_from_slice(length.as_bytes())?;
    } else {
        told.extend_from_slice(line)?;
    }
    Ok(())
}
