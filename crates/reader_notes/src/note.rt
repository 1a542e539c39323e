use crate::bad::add_bad;
use crate::commands::said_of_command;
use crate::fronts::{first_bad, first_deep};
use crate::hints::hint;
use crate::meaning::said_of_meaning;
use crate::spelled::Spelled;
use grammar_walk::{expected, walk_over};
use language_meaning::ReadError;
use program_meaning::StatementError;
use qe_io::{Cause, Place, Places, Refusal};
use std::alloc::{AllocError, Global};

/// What is said of a refusal, and the offset in the statement of what it is said of.
#[derive(Drop)]
pub struct Said {
    pub offset: usize,
    pub text: String,
}

/// Adds the line that tells of a refusal: where what is wrong stands, and what that is. After an `Err`, which is for want of memory, a part of
/// the line may be there.
pub fn add_note(
    alloc: Global,
    refusal: &Refusal<'_>,
    notes: &mut String,
) -> Result<(), AllocError> {
    let bytes = refusal.bytes.unwrap_or(&[]);
    let said = match refusal.cause {
        Cause::Statement(error) => said_of(alloc, error, bytes)?,
        Cause::Command(error) => said_of_command(alloc, error, bytes)?,
    };
    let Place { line, column } = Places::from(refusal.place).reach(bytes, said.offset);
    let text = said.text.as_str();
    let note = format!(in alloc; "line {line}, column {column}: {text}\n")?;
    notes.push_str(note.as_str())
}

/// What is said of a statement that is refused so.
fn said_of(alloc: Global, error: StatementError, bytes: &[u8]) -> Result<Said, AllocError> {
    if error == StatementError::Lexical {
        return bad(alloc, bytes);
    }
    match Spelled::of(alloc, bytes) {
        Ok(spelled) => match error {
            StatementError::Nesting => deep(alloc, &spelled),
            StatementError::Syntax => stopped(alloc, &spelled),
            _ => said_of_meaning(alloc, error, &spelled),
        },
        Err(ReadError::Memory) => Err(AllocError),
        Err(_) => bad(alloc, bytes),
    }
}

/// What is said of the first bad token.
fn bad(alloc: Global, bytes: &[u8]) -> Result<Said, AllocError> {
    let offset = first_bad(alloc, bytes)?;
    let mut text = String::new(alloc);
    add_bad(alloc, bytes.get(offset..).unwrap_or(&[]), &mut text)?;
    Ok(Said { offset, text })
}

/// What is said of the first token that stands too deep.
fn deep(alloc: Global, spelled: &Spelled<'_>) -> Result<Said, AllocError> {
    let number = first_deep(alloc, &spelled.terminals)?;
    let mut text = String::new(alloc);
    spelled.quote(alloc, number, &mut text)?;
    text.push_str(" stands deeper than 512 levels")?;
    Ok(Said {
        offset: spelled.offset(number),
        text,
    })
}

/// What is said of the first token with which no statement goes on.
fn stopped(alloc: Global, spelled: &Spelled<'_>) -> Result<Said, AllocError> {
    let walk = walk_over(alloc, &spelled.terminals)?;
    let number = walk.taken;
    let mut text = String::new(alloc);
    if let Some(last) = number.checked_sub(1) {
        text.push_str("after ")?;
        spelled.quote(alloc, last, &mut text)?;
        text.push(' ')?;
    }
    let words = expected(alloc, &walk)?;
    add_listed(&words, &mut text)?;
    text.push_str(" is expected, and ")?;
    if spelled.terminal(number).is_some() {
        spelled.quote(alloc, number, &mut text)?;
        text.push_str(" stands there")?;
    } else {
        text.push_str("the script ends there")?;
    }
    if let Some(hint) = hint(spelled, &walk, number) {
        text.push_str(" (")?;
        text.push_str(hint)?;
        text.push(')')?;
    }
    Ok(Said {
        offset: spelled.offset(number),
        text,
    })
}

/// Adds the words, with commas and `or` between them.
pub fn add_listed(words: &[&str], text: &mut String) -> Result<(), AllocError> {
    for (number, word) in words.iter().enumerate() {
        if number > 0 {
            let is_last = number.saturating_add(1) == words.len();
            text.push_str(if is_last { " or " } else { ", " })?;
        }
        text.push_str(word)?;
    }
    Ok(())
}
