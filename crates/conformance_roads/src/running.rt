//! The program around the rows.

use crate::trying::try_rows;
use regress::Tables;
use std::io;

/// Tries the rows on standard input, and writes a line for each answer that differs, and the last line. Answers how many
/// differ.
pub fn run(rt: &(impl Input + Print + AllocGlobal), tables: &Tables) -> io::Result<usize> {
    let rows = io::read_to_string(rt.alloc(), rt.reader())?;
    let report = try_rows(rt.alloc(), rows.as_str(), tables)?;
    rt.print(report.lines.as_str())?;
    rt.println(&report)?;
    Ok(report.wrong)
}
