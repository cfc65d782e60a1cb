//! Tries rows of patterns and texts by every road, with the tables of Unicode:
//! properties, case and names.
//!
//! `conformance_unicode < rows` writes a line for each answer that differs from its row, and then `N rows, M answers, K wrong`. The
//! exit status is 1 where one differs, or where the lines of the repository's README answer otherwise than it tells.
#![tactic(auto)]

mod example;

use crate::example::answers_as_told;
use conformance_roads::run;
use regress::Tables;
use regress_unicode::unicode_tables;
use std::process::ExitCode;

/// Tries the rows, and then the lines of the README. Whether all is as it is told.
fn is_well(rt: &HostRuntime, tables: Tables) -> bool {
    match run(rt, &tables) {
        Ok(wrong) => wrong == 0 && answers_as_told(rt.alloc(), tables),
        Err(_) => false,
    }
}

fn main(rt: HostRuntime) -> ExitCode {
    let is_well = match unicode_tables(rt.alloc()) {
        Ok(tables) => is_well(&rt, tables),
        Err(_) => false,
    };
    if is_well {
        ExitCode::SUCCESS
    } else {
        ExitCode::FAILURE
    }
}
