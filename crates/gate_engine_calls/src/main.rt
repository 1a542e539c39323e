//! Makes the calls of the engine's layers that no statement makes, or whose answers no statement prints, on formulas worked by hand:
//! blocks branch by branch, formulas eliminated by cases with their guards together, samples and truths by cases, least values, and clauses that follow.
//! Those of the layers below are made by `gate_calls` and `gate_low_calls`. The gate runs it and compares what it prints.
#![tactic(auto)]

mod blocks;
mod clauses;
mod elimination;
mod families;
mod least;
mod samples;

use std::io;

fn main(rt: HostRuntime) -> io::Result<()> {
    blocks::rows(&rt)?;
    families::rows(&rt)?;
    elimination::rows(&rt)?;
    samples::rows(&rt)?;
    least::rows(&rt)?;
    clauses::rows(&rt)
}
