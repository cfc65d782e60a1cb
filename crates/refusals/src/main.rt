//! Does a piece of work, of whose requests for memory one may be refused, and tells what comes of it.
//!
//! `refusals WORK FLAGS PATTERN TEXT EXTRA BEFORE AFTER` sets the work up, asks for memory BEFORE times, does the work and tells
//! its answer. Then it asks for memory up to AFTER times: where one of these is refused, the work met no refusal, and it tells
//! how many were granted; else it does the work once more, with the same values, and tells that.
//!
//! The work `itself` copies the program, as it was built, to the file TEXT.
#![tactic(auto)]

mod asking;
mod building;
mod copying;
mod outcomes;
mod refusal;
mod replacing;
mod row;
mod running;
mod searching;
mod sets;
mod telling;

use crate::refusal::Refusal;
use crate::row::Row;
use std::alloc::Global;
use std::{fs, io};

/// How many bytes may be told without a request for memory.
const TOLD: usize = 0x4_0000;

/// Does the piece of work that a row names, if there is such a one.
fn try_row(alloc: Global, row: &Row, told: &mut String) -> Result<bool, Refusal> {
    let is_done = building::try_row(alloc, row, told)?
        || searching::try_row(alloc, row, told)?
        || outcomes::try_row(alloc, row, told)?
        || replacing::try_row(alloc, row, told)?
        || copying::try_row(alloc, row, told)?
        || sets::try_row(alloc, row, told)?
        || running::try_row(alloc, row, told)?;
    Ok(is_done)
}

/// What a row comes to, in words, where it comes to no answer.
fn told_of(outcome: Result<bool, Refusal>) -> &'static str {
    match outcome {
        Ok(true) => "",
        Ok(false) => "no such work",
        Err(Refusal::Memory) => "set-up refused",
        Err(Refusal::Other) => "set-up failed",
    }
}

/// Copies the program's own file to where a row says.
fn copy_itself(rt: &HostRuntime, row: &Row) -> io::Result<()> {
    fs::copy(rt, row.program.as_str(), row.text.as_str())?;
    Ok(())
}

fn main(rt: HostRuntime) -> io::Result<()> {
    let row = Row::read(&rt)?;
    if row.work.as_str() == "itself" {
        return copy_itself(&rt, &row);
    }
    let mut told = String::with_capacity(rt.alloc(), TOLD)?;
    let outcome = try_row(rt.alloc(), &row, &mut told);
    println!(rt; "{told}{}", told_of(outcome))
}
