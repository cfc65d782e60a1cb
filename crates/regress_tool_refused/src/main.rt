//! The program of `regress_tool` once more, for a stored run of a text that is no pattern: a crate can store one run alone.
#![tactic(auto)]

use regress_program::{StdSink, StdSource, answer};
use std::env;
use std::process::ExitCode;

fn main(rt: HostRuntime) -> ExitCode {
    let mut source = StdSource::new(rt.stdin());
    let mut sink = StdSink::new(rt.stdout());
    let ending = answer(rt.alloc(), env::args(&rt), &mut source, &mut sink);
    let status = ending.status();
    // Where standard error can't be written either, the status alone tells of the error.
    let _ = rt.eprint(ending);
    ExitCode::from(status)
}
