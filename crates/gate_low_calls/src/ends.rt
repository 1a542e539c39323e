//! Ends in memory that never fail.

use program_meaning::{Sink, Source};
use qe_io::{SteadySink, SteadySource};
use std::alloc::Global;

/// What four reads of three bytes at most give of five bytes.
pub(crate) fn reads(alloc: Global) -> Option<String> {
    let mut text = String::new(alloc);
    let mut source = SteadySource::new(Vec::from_array(alloc, *b"abcde").ok()?);
    let mut into = [0u8; 3];
    for _ in 0..4 {
        let count = source.read(&mut into).ok()?;
        text.push_str(&format!(in alloc; "{count} ").ok()?).ok()?;
    }
    Some(text)
}

/// How many of three bytes are taken.
pub(crate) fn write(alloc: Global) -> Option<String> {
    let mut sink = SteadySink::new();
    let count = sink.write(b"abc").ok()?;
    format!(in alloc; "{count}").ok()
}
