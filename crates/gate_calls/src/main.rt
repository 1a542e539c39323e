//! Makes the calls on formulas that no statement makes: a maker of plain trees, a formula unfolded under a limit, a tree printed
//! by itself, the cases of a tree, and the sample of one without free names, each worked by hand. Those on test points are made
//! by `gate_point_calls`, those of the engine's layers by `gate_engine_calls`, and those of the lowest crates by `gate_low_calls`.
//! The gate runs it and compares what it prints.
#![tactic(auto)]

mod calls;

use std::io;

fn main(rt: HostRuntime) -> io::Result<()> {
    calls::rows(&rt)
}
