//! Reads a script of Redlog's language from standard input and answers its statements on standard output.
#![tactic(auto)]

use redlog_run::{Origin, run_process};
use std::io::IsTerminal;
use std::process::ExitCode;

fn main(rt: HostRuntime) -> ExitCode {
    let origin = if rt.stdin().is_terminal() && rt.stderr().is_terminal() {
        Origin::Terminal
    } else {
        Origin::Stream
    };
    run_process(&rt, rt.stdin(), rt.stdout(), origin)
}
