//! The program's `run` over memory.

use crate::asking::{Work, try_work};
use crate::refusal::Refusal;
use crate::row::Row;
use regress_program::{StdSink, StdSource, ToolError, run};
use std::alloc::Global;

/// How many bytes a run may write.
const WRITTEN: usize = 0x1_0000;

/// A run of a pattern over a text.
#[derive(Drop)]
struct Running<'t> {
    alloc: Global,
    row: &'t Row,
    written: Vec<u8>,
}

/// Runs a row's pattern over its text.
fn outcome(alloc: Global, row: &Row, written: &mut Vec<u8>) -> Result<(), ToolError> {
    let mut source = StdSource::new(row.text.as_str().as_bytes());
    let mut sink = StdSink::new(written);
    run(
        alloc,
        &mut source,
        &mut sink,
        row.flags.as_str(),
        row.pattern.as_str(),
    )
}

impl Work for Running<'_> {
    fn work(&mut self, told: &mut String) -> Result<(), Refusal> {
        self.written.clear();
        let outcome = outcome(self.alloc, self.row, &mut self.written);
        for byte in &self.written {
            told.push(char::from(*byte))?;
        }
        match outcome {
            Ok(()) => Ok(()),
            Err(ToolError::OutOfMemory) => Err(Refusal::Memory),
            Err(_) => Err(Refusal::Other),
        }
    }
}

/// Does a row's work, if it is this one.
pub(crate) fn try_row(alloc: Global, row: &Row, told: &mut String) -> Result<bool, Refusal> {
    if row.work.as_str() != "run" {
        return Ok(false);
    }
    let written = Vec::with_capacity(alloc, WRITTEN)?;
    let work = Running {
        alloc,
        row,
        written,
    };
    try_work(alloc, row, work, told)
}
