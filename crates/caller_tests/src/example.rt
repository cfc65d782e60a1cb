//! The function of the repository's README, word for word, and one that replaces; a test of both.

use crate::told::plain;
use regress::{CompileError, Error, Flags, Regex, Tables};
use std::alloc::Global;
use std::test::Fail;

/// Where the years of the dates in a text stand, in bytes.
fn years(alloc: Global, text: &str, tables: &Tables) -> Result<Vec<(usize, usize)>, CompileError> {
    let script = Flags::parse("u")?;
    let regex = Regex::with_flags(alloc, r"(?<year>\d{4})-\d\d", script.flags, tables)?;
    let mut years = Vec::new(alloc);
    for found in regex.find_iter(text)? {
        if let Some(year) = found?.named_group("year") {
            years.push((year.start, year.end))?;
        }
    }
    Ok(years)
}

/// A text whose dates have the month before the year.
fn month_first(alloc: Global, text: &str, tables: &Tables) -> Result<String, Error> {
    let regex = plain(alloc, r"(\d{4})-(\d\d)", tables)?;
    regex.replace_all(text, "$2/$1")
}

#[test]
fn dates_are_found_and_turned(rt: HostRuntime) -> Result<(), Fail> {
    let tables = Tables::small(rt.alloc())?;
    let years = years(rt.alloc(), "from 1998-07 to 2025-06", &tables)?;
    assert!(rt; years.as_slice() == [(5, 9), (16, 20)].as_slice());
    let turned = month_first(rt.alloc(), "from 1998-07 to 2025-06", &tables)?;
    assert!(rt; turned.as_str() == "from 07/1998 to 06/2025");
    Ok(())
}
