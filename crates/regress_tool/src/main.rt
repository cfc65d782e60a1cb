//! Prints the matches of a pattern in the text on standard input.
//!
//! `regress_tool FLAGS PATTERN` writes a line for each match: its range in bytes, and for each capturing group a space and
//! its range or `-`. An error is told in one line on standard error.
#![tactic(auto)]

#[cfg(test)]
mod promises;
#[cfg(test)]
mod streams;

use regress_program::{StdSink, StdSource, answer};
use std::env;
use std::process::ExitCode;

fn main(rt: HostRuntime) -> ExitCode {
    let mut source = StdSource::new(rt.stdin());
    let mut sink = StdSink::new(rt.stdout());
    let ending = answer(rt.alloc(), env::args(&rt), &mut source, &mut sink);
    let status = ending.status();
    // Where standard error can't be written either, the status alone tells of the error.
    let _ = rt.eprint(ending);
    ExitCode::from(status)
}
