//! `esgrep [OPTIONS] PATTERN [FILE..]`: searches files for lines with a match of a pattern of ECMAScript, and prints them.
#![tactic(auto)]

use esgrep_files::run;
use std::io::IsTerminal;
use std::process::ExitCode;

fn main(rt: HostRuntime) -> ExitCode {
    run(&rt, rt.stdout().is_terminal())
}
