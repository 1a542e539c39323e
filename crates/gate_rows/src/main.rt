//! Answers each script of the rows on standard input, and holds its lines and its status against those that the row expects.
//! Then it is the program itself, under the words of its command line, on a script that is refused under them. The gate runs it.
#![tactic(auto)]

mod collected;
mod ends;
mod meeting;
mod row;
mod text;

use crate::meeting::{ELIMINATION, GRID, at_once};
use crate::row::Row;
use program_meaning::Status;
use redlog_run::{Origin, run_process};
use std::fs::Files;
use std::io;
use std::process::ExitCode;
use std::thread::Threads;

/// A formula of four nodes: answered under the limit of 4 nodes, and refused under that of 3, which the words of the gate give.
const LAST: &[u8] = b"rlqe ex(x,x=a and x<b);";

/// The program ends with this where the rows were not read or what becomes of them was not written.
const NOT_TOLD: u8 = 9;

/// What has been counted so far.
#[derive(Clone, Copy)]
struct Tally {
    rows: u64,
    failed: u64,
}

fn main(rt: HostRuntime) -> ExitCode {
    match answer_rows(&rt) {
        Ok(()) => run_process(&rt, LAST, rt.stdout(), Origin::Stream),
        Err(_) => ExitCode::from(NOT_TOLD),
    }
}

/// Answers the rows, and tells whether threads work at once, how many rows there are and how many failed.
fn answer_rows<R: Threads + Sync + Input + Print + Files + AllocGlobal>(rt: &R) -> io::Result<()> {
    let text = io::read_to_string(rt.alloc(), rt.reader())?;
    let mut row = Row::new(rt.alloc());
    let mut tally = Tally { rows: 0, failed: 0 };
    for line in text.lines() {
        if let Some(title) = line.strip_prefix("## ") {
            println!(rt; "{title}")?;
        } else if let Some(status) = line.strip_prefix("= ") {
            count(rt, &mut tally, &row, status)?;
            row = Row::new(rt.alloc());
        } else {
            row.take(rt, line)?;
        }
    }
    let Tally { rows, failed } = tally;
    let memory = Status::Memory.number();
    println!(rt; "where memory runs out the status is {memory}")?;
    let threads = threads_told(rt)?;
    println!(rt; "{threads}")?;
    println!(rt; "{rows} rows, {failed} failed")
}

/// Whether two threads work at once on an elimination, and on a grid.
fn threads_told<R: Threads + Sync + AllocGlobal>(rt: &R) -> io::Result<&'static str> {
    if at_once(rt, ELIMINATION)? && at_once(rt, GRID)? {
        return Ok("two threads at once");
    }
    Ok("not at once")
}

/// Counts the row, and prints it where it is not answered as it expects.
fn count<R: Threads + Sync + Print + AllocGlobal>(
    rt: &R,
    tally: &mut Tally,
    row: &Row,
    status: &str,
) -> io::Result<()> {
    tally.rows = tally.rows.saturating_add(1);
    let failure = row.failure(rt, status)?;
    if let Some(failure) = failure {
        tally.failed = tally.failed.saturating_add(1);
        println!(rt; "failed: {failure}")?;
    }
    Ok(())
}
