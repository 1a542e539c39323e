//! What is said of a bad token.

use std::alloc::{AllocError, Global};

/// A character that begins no token, and what is written for it.
const CHARACTERS: [(&str, &str); 24] = [
    (".", "a decimal such as 0.5 is written 1/2"),
    ("!=", "\"differs\" is written <>"),
    ("!", "a negation is written not a"),
    ("&", "a conjunction is written a and b"),
    ("|", "a disjunction is written a or b"),
    ("~", "a negation is written not a"),
    ("\\/", "a disjunction is written a or b"),
    (
        "\\",
        "a conjunction is written a and b, a disjunction a or b",
    ),
    ("[", "brackets are ( ) and { }"),
    ("]", "brackets are ( ) and { }"),
    (":", "a name is bound by :="),
    ("#", "a comment begins with %"),
    ("_", "a name begins with a letter"),
    ("\u{2264}", "at most is written <="),
    ("\u{2265}", "at least is written >="),
    ("\u{2260}", "\"differs\" is written <>"),
    ("\u{2227}", "a conjunction is written a and b"),
    ("\u{2228}", "a disjunction is written a or b"),
    ("\u{ac}", "a negation is written not a"),
    ("\u{2200}", "a quantifier is written all(x,..)"),
    ("\u{2203}", "a quantifier is written ex(x,..)"),
    ("\u{2192}", "an implication is written a impl b"),
    ("\u{2212}", "a minus sign is written -"),
    ("\u{1b}", "an arrow key? redlog-shell edits lines"),
];

/// Adds what is said of the bad token with which these bytes begin.
pub fn add_bad(alloc: Global, bytes: &[u8], text: &mut String) -> Result<(), AllocError> {
    match first_character(bytes) {
        Some(character) if character.is_alphabetic() && character.is_ascii() => {
            text.push_str("a name has at most 64 bytes")?;
        }
        Some(character) if !character.is_control() => {
            text.push('"')?;
            text.push(character)?;
            text.push_str("\" begins no token")?;
        }
        _ => {
            let byte = bytes.first().copied().unwrap_or(0);
            let told = format!(in alloc; "the byte {byte} begins no token")?;
            text.push_str(told.as_str())?;
        }
    }
    let hint = CHARACTERS
        .iter()
        .find(|entry| bytes.starts_with(entry.0.as_bytes()));
    if let Some((_, hint)) = hint {
        text.push_str(" (")?;
        text.push_str(hint)?;
        text.push(')')?;
    }
    Ok(())
}

/// The character with which the bytes begin, where they begin with one.
fn first_character(bytes: &[u8]) -> Option<char> {
    for length in 1..5 {
        let front = bytes.get(..length)?;
        if let Ok(text) = std::str::from_utf8(front) {
            return text.chars().next();
        }
    }
    None
}
