//! Makes the calls on test points that no statement makes: the points of an atom, an atom at a point, and points put into shared
//! formulas, each worked by hand. The gate runs it and compares what it prints.
#![tactic(auto)]

mod points;
mod shared;

use std::io;

fn main(rt: HostRuntime) -> io::Result<()> {
    points::rows(&rt)?;
    shared::rows(&rt)
}
