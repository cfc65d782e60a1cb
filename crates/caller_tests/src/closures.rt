//! Texts that a closure answers to matches.

use crate::told::{compiled, is_same};
use regress::{Error, Match, Regex, Tables};
use std::alloc::Global;
use std::test::Fail;

/// What `answer` does at a match that starts past 8.
const REFUSAL: Error = Error::TooLarge;

/// `$` and the start of a match in decimal, and an error where that is past 8.
fn answer(alloc: Global, found: &Match) -> Result<String, Error> {
    if found.start() > 8 {
        return Err(REFUSAL);
    }
    Ok(format!(in alloc; "${}", found.start())?)
}

/// A text with each match replaced by what `answer` says.
fn answered(alloc: Global, regex: &Regex, text: &str) -> Result<String, Error> {
    regex.replace_all_with(text, |found| answer(alloc, found))
}

/// The same, with the first match alone.
fn first_answered(alloc: Global, regex: &Regex, text: &str) -> Result<String, Error> {
    regex.replace_with(text, |found| answer(alloc, found))
}

#[test]
fn what_a_closure_answers_is_put_in_as_it_stands(rt: HostRuntime) -> Result<(), Fail> {
    let tables = Tables::small(rt.alloc())?;
    let digits = compiled(rt.alloc(), r"\d+", "", &tables)?;
    let all = answered(rt.alloc(), &digits, "é12 3")?;
    is_same(rt.alloc(), "all", all.as_str(), "é$2 $5")?;
    let first = first_answered(rt.alloc(), &digits, "12 3")?;
    is_same(rt.alloc(), "first", first.as_str(), "$0 3")?;
    let none = first_answered(rt.alloc(), &digits, "Price")?;
    is_same(rt.alloc(), "none", none.as_str(), "Price")
}

#[test]
fn the_closures_error_is_handed_on(rt: HostRuntime) -> Result<(), Fail> {
    let tables = Tables::small(rt.alloc())?;
    let regex = compiled(rt.alloc(), "a", "", &tables)?;
    assert!(rt; answered(rt.alloc(), &regex, "a12345678aa").err() == Some(REFUSAL));
    assert!(rt; first_answered(rt.alloc(), &regex, "123456789a").err() == Some(REFUSAL));
    let first = first_answered(rt.alloc(), &regex, "a12345678a")?;
    is_same(rt.alloc(), "first", first.as_str(), "$012345678a")
}
