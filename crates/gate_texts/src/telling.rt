//! What a call gives, printed behind its title.

use std::io;

/// What a call gives, or that it gives nothing, as where memory ran out.
pub fn tell<R: Print>(rt: &R, title: &str, answer: Option<String>) -> io::Result<()> {
    match answer {
        Some(answer) => println!(rt; "{title}: {answer}"),
        None => println!(rt; "{title}: nothing"),
    }
}
