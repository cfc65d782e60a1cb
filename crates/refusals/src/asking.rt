//! A piece of work, and the requests for memory before it and behind it.

use crate::refusal::Refusal;
use crate::row::Row;
use std::alloc::{AllocError, Global};

/// A piece of work that is set up.
pub(crate) trait Work {
    /// Does the work and tells its answer, which asks for no memory itself.
    fn work(&mut self, told: &mut String) -> Result<(), Refusal>;
}

/// Asks for memory so many times at most; `Some` where a request was refused, with how many were granted before.
fn ask(alloc: Global, most: usize) -> Option<usize> {
    for granted in 0..most {
        if Vec::<u8>::with_capacity(alloc, 1).is_err() {
            return Some(granted);
        }
    }
    None
}

/// Tells that a request for memory was refused, or what else went wrong.
pub(crate) fn tell_refusal(told: &mut String, refusal: Refusal) -> Result<(), AllocError> {
    match refusal {
        Refusal::Memory => told.push_str("!memory"),
        Refusal::Other => told.push_str("!other"),
    }
}

/// Does a piece of work once, and tells what came of it.
fn tell<W: Work>(work: &mut W, told: &mut String) -> Result<(), Refusal> {
    if let Err(refusal) = work.work(told) {
        tell_refusal(told, refusal)?;
    }
    Ok(())
}

/// Does a piece of work, and once more where it may have met a refusal.
pub(crate) fn try_work<W: Work>(
    alloc: Global,
    row: &Row,
    mut work: W,
    told: &mut String,
) -> Result<bool, Refusal>
where
    W: Drop,
{
    if let Some(granted) = ask(alloc, row.before) {
        write!(told, "before {granted}")?;
        return Ok(true);
    }
    told.push_str("first ")?;
    tell(&mut work, told)?;
    if let Some(granted) = ask(alloc, row.after) {
        write!(told, "\nover {granted}")?;
        return Ok(true);
    }
    told.push_str("\nagain ")?;
    tell(&mut work, told)?;
    Ok(true)
}
