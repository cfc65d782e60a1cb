//! Tries rows of patterns and texts by every road, with the small tables: characters, groups,
//! quantifiers and assertions.
//!
//! `conformance < rows` writes a line for each answer that differs from its row, and then
//! `N rows, M answers, K wrong`. The exit status is 1 where one differs.
#![tactic(auto)]

use conformance_roads::{Tables, run};
use std::process::ExitCode;

fn main(rt: HostRuntime) -> ExitCode {
    match Tables::small(rt.alloc()) {
        Ok(tables) => match run(&rt, &tables) {
            Ok(0) => ExitCode::SUCCESS,
            _ => ExitCode::FAILURE,
        },
        Err(_) => ExitCode::FAILURE,
    }
}
