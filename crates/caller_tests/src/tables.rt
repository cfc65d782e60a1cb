//! Tables of a caller's own, by the calls of `regress` alone.

use crate::told::{compiled, first};
use regress::{CodePoint, Error, Interval, TableError, TableParts, Tables};
use std::alloc::{AllocError, Global};
use std::test::Fail;

/// All code points from one character to another, for each such pair.
fn intervals(alloc: Global, pairs: &[(char, char)]) -> Result<Vec<Interval>, AllocError> {
    let mut intervals = Vec::new(alloc);
    for (first, last) in pairs {
        let first = CodePoint::from(*first);
        let last = CodePoint::from(*last);
        if first <= last {
            intervals.push(Interval { first, last })?;
        }
    }
    Ok(intervals)
}

/// Tables that know the letters of ASCII, five of them by the key `Vowel`, and two characters as one by the key `Pair`.
fn tables(alloc: Global) -> Result<Tables, TableError> {
    let vowels = intervals(
        alloc,
        &[('a', 'a'), ('e', 'e'), ('i', 'i'), ('o', 'o'), ('u', 'u')],
    )?;
    let pair = "éa".chars().map(CodePoint::from).collect(alloc)?;
    Tables::new(
        alloc,
        TableParts {
            fold: (0x41..0x5B).map(|c| (c, c + 0x20)).collect(alloc)?,
            upper: (0x61..0x7B).map(|c| (c, c - 0x20)).collect(alloc)?,
            id_start: intervals(alloc, &[('A', 'Z'), ('a', 'z')])?,
            id_continue: intervals(alloc, &[('0', '9'), ('A', 'Z'), ('_', '_'), ('a', 'z')])?,
            properties: vec![in alloc; (String::from_str(alloc, "Vowel")?, vowels)]?,
            sequences: vec![in alloc; (String::from_str(alloc, "Pair")?, vec![in alloc; pair]?)]?,
        },
    )
}

/// Where the first match of a pattern begins and ends, under a caller's own tables.
fn first_in(
    alloc: Global,
    tables: &Tables,
    pattern: &str,
    flags: &str,
    text: &str,
) -> Result<Option<(usize, usize)>, Error> {
    let regex = compiled(alloc, pattern, flags, tables)?;
    match first(&regex, text)? {
        Some(found) => Ok(Some((found.start(), found.end()))),
        None => Ok(None),
    }
}

/// Patterns, flags, texts, and where the first match stands.
const FOUND: &[(&str, &str, &str, Option<(usize, usize)>)] = &[
    (r"\p{Vowel}+", "u", "xAeix", Some((2, 4))),
    (r"\p{Vowel}+", "iu", "xAeix", Some((1, 4))),
    (r"\p{Pair}", "v", "aéa", Some((1, 4))),
];

#[test]
fn patterns_ask_a_callers_tables(rt: HostRuntime) -> Result<(), Fail> {
    let tables = tables(rt.alloc())?;
    for (pattern, flags, text, expected) in FOUND {
        if first_in(rt.alloc(), &tables, pattern, flags, text)? != *expected {
            return Err(Fail::new(*pattern));
        }
    }
    Ok(())
}
