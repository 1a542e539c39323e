//! Makes the calls of the lowest crates that no statement makes, on what is worked by hand: numbers, forms and atoms; bytes cut into
//! tokens and into pieces; the value of a term and the truth of a formula, as they are written; ends that never fail; scripts of
//! SMT-LIB; and pieces that are shared out to threads. The gate runs it and compares what it prints.
#![tactic(auto)]

mod ends;
mod numbers;
mod pieces;
mod reading;
mod smt;
mod values;

use std::io;
use std::thread::Threads;

fn main(rt: HostRuntime) -> io::Result<()> {
    lowest(&rt)?;
    read(&rt)?;
    written(&rt)?;
    steady(&rt)?;
    cut(&rt)?;
    shared_out(&rt)
}

/// Calls on numbers, forms and atoms.
fn lowest<R: Print + AllocGlobal>(rt: &R) -> io::Result<()> {
    let alloc = rt.alloc();
    let atoms = numbers::atoms(alloc);
    tell(rt, "numbers at the limit", numbers::numbers(alloc))?;
    tell(rt, "fractions close to 1", numbers::fractions(alloc))?;
    tell(rt, "a form at a point", numbers::values(alloc))?;
    tell(rt, "an atom and its negation at a point", atoms)
}

/// Bytes that are read.
fn read<R: Print + AllocGlobal>(rt: &R) -> io::Result<()> {
    let alloc = rt.alloc();
    tell(rt, "the tokens of a statement", reading::places(alloc))?;
    tell(rt, "those of bytes with a bad one", reading::bad(alloc))?;
    tell(rt, "the pieces of a script", reading::pieces(alloc))
}

/// Terms and formulas at points.
fn written<R: Print + AllocGlobal>(rt: &R) -> io::Result<()> {
    let alloc = rt.alloc();
    tell(rt, "a quotient at a point", values::quotient_there(alloc))?;
    tell(rt, "a quotient by 0", values::quotient_by_zero(alloc))?;
    tell(
        rt,
        "whether the first is below 0",
        values::below_zero(alloc),
    )?;
    tell(rt, "whether it is at least 0", values::at_least_zero(alloc))
}

/// Ends that never fail.
fn steady<R: Print + AllocGlobal>(rt: &R) -> io::Result<()> {
    let alloc = rt.alloc();
    tell(rt, "five bytes, read in threes", ends::reads(alloc))?;
    tell(rt, "three bytes, written", ends::write(alloc))
}

/// Scripts of SMT-LIB.
fn cut<R: Print + AllocGlobal>(rt: &R) -> io::Result<()> {
    let alloc = rt.alloc();
    let commands = smt::places(alloc);
    let symbols = smt::symbols(alloc);
    tell(rt, "the commands of a script", commands)?;
    tell(rt, "its symbols", symbols)
}

/// Pieces that are shared out to threads.
fn shared_out<R: Threads + Sync + Print + AllocGlobal>(rt: &R) -> io::Result<()> {
    let alloc = rt.alloc();
    let five = pieces::told(rt, alloc, 5, 2, &[]);
    let two = pieces::told(rt, alloc, 2, 8, &[]);
    let three = pieces::told(rt, alloc, 3, 1, &[]);
    let none = pieces::told(rt, alloc, 0, 4, &[]);
    let stopped = pieces::told(rt, alloc, 9, 4, &[7, 3]);
    let at_once = pieces::at_once(rt, alloc);
    tell(rt, "five pieces by two threads", five)?;
    tell(rt, "two pieces by eight threads", two)?;
    tell(rt, "three pieces by one thread", three)?;
    tell(rt, "no piece", none)?;
    tell(
        rt,
        "nine pieces by four threads, with stops at 7 and 3",
        stopped,
    )?;
    tell(rt, "two pieces by two threads", at_once)
}

/// What a call gives, or that it gives nothing, as where memory ran out.
fn tell<R: Print>(rt: &R, title: &str, answer: Option<String>) -> io::Result<()> {
    match answer {
        Some(answer) => println!(rt; "{title}: {answer}"),
        None => println!(rt; "{title}: nothing"),
    }
}
