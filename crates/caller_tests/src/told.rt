//! What compiles and searches. None of it promises anything, so that what calls it with texts of its own has little to prove.

use regress::{Error, Flags, Match, Regex, Tables};
use std::alloc::Global;
use std::test::Fail;

/// A pattern under flags.
pub(crate) fn compiled_under(
    alloc: Global,
    pattern: &str,
    flags: Flags,
    tables: &Tables,
) -> Result<Regex, Error> {
    Regex::with_flags(alloc, pattern, flags, tables)
}

/// The same, of the letters of the flags.
pub(crate) fn compiled(
    alloc: Global,
    pattern: &str,
    flags: &str,
    tables: &Tables,
) -> Result<Regex, Error> {
    compiled_under(alloc, pattern, Flags::from(flags), tables)
}

/// A pattern without flags.
pub(crate) fn plain(alloc: Global, pattern: &str, tables: &Tables) -> Result<Regex, Error> {
    Regex::new(alloc, pattern, tables)
}

/// The first match in a text.
pub(crate) fn first(regex: &Regex, text: &str) -> Result<Option<Match>, Error> {
    regex.find(text)
}

/// Where a match starts and ends.
pub(crate) fn ends(found: Option<Match>) -> Option<(usize, usize)> {
    found.map(|found| (found.start(), found.end()))
}

/// Fails, telling what came instead, unless the two texts are the same.
pub(crate) fn is_same(alloc: Global, row: &str, came: &str, expected: &str) -> Result<(), Fail> {
    if came == expected {
        return Ok(());
    }
    let why = format!(in alloc; "at {row}: {came}")?;
    Err(Fail::new(why))
}
