//! How matches are told.

use crate::asking::tell_refusal;
use crate::refusal::Refusal;
use regress::{Error, Match, Range};
use std::alloc::AllocError;

/// Tells the range of a group, or `-`.
fn tell_group(told: &mut String, group: &Option<Range>) -> Result<(), AllocError> {
    match group {
        Some(range) => write!(told, "{}..{}", range.start, range.end),
        None => told.push('-'),
    }
}

/// Tells a match: its range and that of each group, with a space behind each.
pub(crate) fn tell_match(told: &mut String, found: &Match) -> Result<(), AllocError> {
    for group in found.groups() {
        tell_group(told, &group)?;
        told.push(' ')?;
    }
    Ok(())
}

/// Tells what slots hold, with a space behind each.
pub(crate) fn tell_slots(told: &mut String, slots: &[Option<Range>]) -> Result<(), AllocError> {
    for slot in slots {
        tell_group(told, slot)?;
        told.push(' ')?;
    }
    Ok(())
}

/// Tells one item of an iteration, with `|` behind it: a match, or why there is none.
pub(crate) fn tell_item(told: &mut String, item: Result<Match, Refusal>) -> Result<(), AllocError> {
    match item {
        Ok(found) => tell_match(told, &found)?,
        Err(refusal) => tell_refusal(told, refusal)?,
    }
    told.push('|')
}

/// Tells the first match, if there is one.
pub(crate) fn tell_first(
    told: &mut String,
    found: Option<Result<Match, Error>>,
) -> Result<(), AllocError> {
    match found {
        Some(item) => tell_item(told, item.map_err(Refusal::from)),
        None => Ok(()),
    }
}
