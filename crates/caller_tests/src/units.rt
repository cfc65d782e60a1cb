//! A pattern and a text as script interpreters have them, in 16-bit units.

use crate::told::ends;
use regress::{CodePoint, Error, Flags, Interval, Match, Regex, TableError, TableParts, Tables};
use std::alloc::{AllocError, Global};
use std::test::Fail;

/// A name that is a pair, and a character that is one.
const PATTERN: &str = r"(?<𝒜>😀)\k<𝒜>";

/// The small tables with one more letter, which is a pair.
fn tables(alloc: Global) -> Result<Tables, TableError> {
    let letter = CodePoint::from('𝒜');
    let interval = Interval {
        first: letter,
        last: letter,
    };
    let mut parts = TableParts::small(alloc)?;
    parts.id_start.push(interval)?;
    parts.id_continue.push(interval)?;
    Tables::new(alloc, parts)
}

/// The units of a text.
fn units(alloc: Global, text: &str) -> Result<Vec<u16>, AllocError> {
    text.encode_utf16().collect(alloc)
}

/// The pattern under flags.
fn compiled(alloc: Global, flags: &str, tables: &Tables) -> Result<Regex, Error> {
    let pattern = units(alloc, PATTERN)?;
    Regex::from_utf16(alloc, &pattern, Flags::from(flags), tables)
}

/// The first match in units, each one character.
fn first_unit_by_unit(regex: &Regex, text: &[u16]) -> Result<Option<Match>, Error> {
    regex.find_from_ucs2(text, 0)?.next().transpose()
}

/// The first match in units, a pair one character.
fn first(regex: &Regex, text: &[u16]) -> Result<Option<Match>, Error> {
    regex.find_from_utf16(text, 0)?.next().transpose()
}

#[test]
fn a_pattern_of_units_is_found_in_units(rt: HostRuntime) -> Result<(), Fail> {
    let tables = tables(rt.alloc())?;
    let text = units(rt.alloc(), "x😀😀")?;
    let regex = compiled(rt.alloc(), "", &tables)?;
    assert!(rt; ends(first_unit_by_unit(&regex, &text)?) == Some((1, 5)));
    let regex = compiled(rt.alloc(), "u", &tables)?;
    assert!(rt; ends(first(&regex, &text)?) == Some((1, 5)));
    Ok(())
}
