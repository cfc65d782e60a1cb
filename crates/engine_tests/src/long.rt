//! Long texts and deep patterns, by both executors.

use crate::found::in_utf8;
use crate::parsed::{parsed, rewritten};
use regress_front_tables::Tables;
use std::alloc::Global;
use std::test::Fail;

/// A pattern, a text made of a piece so many times and an end, and all matches.
type LongRow = (
    &'static str,
    &'static str,
    usize,
    &'static str,
    &'static str,
);

const LONG: &[LongRow] = &[
    ("(?:a|b)*c", "ab", 16_384, "c", "0..32769"),
    ("(?>(?:a|b)*)c", "ab", 16_384, "c", "0..32769"),
    ("$(?<=^a*)", "a", 4096, "", "4096..4096"),
    ("^.*b", "a", 15_999, "b", "0..16000"),
    ("^a.*b", "a", 15_999, "", ""),
    ("^(?:.*?b){2}", "a", 15_999, "b", ""),
    (
        "(?:a?){400}",
        "a",
        500,
        "b",
        "0..400|400..500|500..500|501..501",
    ),
];

/// Fails at the first row whose matches are told otherwise, before its tree is rewritten or after.
fn match_so(alloc: Global, rows: &[LongRow]) -> Result<(), Fail> {
    for (pattern, piece, count, end, expected) in rows {
        let mut text = piece.repeat(alloc, *count)?;
        text.push_str(end)?;
        let tables = Tables::small(alloc)?;
        let regex = parsed(alloc, pattern, "", &tables)?;
        let before = in_utf8(alloc, &regex, text.as_str())?;
        let regex = rewritten(alloc, pattern, "", &tables)?;
        let after = in_utf8(alloc, &regex, text.as_str())?;
        if before.as_str() != *expected || after.as_str() != *expected {
            return Err(Fail::new(format!(in alloc; "{pattern}: {before}, {after}")?));
        }
    }
    Ok(())
}

#[test]
fn long_texts_match_so(rt: HostRuntime) -> Result<(), Fail> {
    match_so(rt.alloc(), LONG)
}

/// Long texts in which what matches begin with is rare, frequent, at the end, or begins as other characters do.
const STARTS: &[LongRow] = &[
    ("abc", "x", 1000, "abc", "1000..1003"),
    ("b", "a", 1_000_000, "b", "1000000..1000001"),
    ("bcd", "abc", 300_000, "bcd", "900000..900003"),
    ("bcd", "a", 1_000_000, "", ""),
    ("[bc]d", "a", 1_000_000, "cd", "1000000..1000002"),
    ("[bcd]e", "ab", 200_000, "de", "400000..400002"),
    ("[b-e]f", "a", 1_000_000, "ef", "1000000..1000002"),
    ("é|è", "ê", 200_000, "è", "400000..400002"),
    ("😀", "😁", 100_000, "😀", "400000..400004"),
    ("^b", "a", 1_000_000, "b", ""),
    ("^a", "a", 1_000_000, "b", "0..1"),
    ("(?:aa|ab)c", "a", 100_000, "bc", "99999..100002"),
];

#[test]
fn long_texts_are_searched_so(rt: HostRuntime) -> Result<(), Fail> {
    match_so(rt.alloc(), STARTS)
}

/// A pattern made of a piece so many times, a middle and an end so many times; a text; and its matches, told from the front.
type DeepRow = (
    &'static str,
    usize,
    &'static str,
    &'static str,
    &'static str,
    &'static str,
);

const DEEP: &[DeepRow] = &[
    ("(?=", 256, "a", ")", "ba", "1..1"),
    ("(?!", 256, "a", ")", "ba", "1..1"),
    ("(?<=", 256, "a", ")", "ba", "2..2"),
    ("(?<!", 256, "a", ")", "ba", "2..2"),
    ("(?>", 256, "a", ")", "ba", "1..2"),
    ("(?:(?:", 128, "a", ")*b?)?", "aab", "0..3|3..3"),
];

/// All matches of a pattern made of a piece so many times, a middle and an end so many times.
fn deep(alloc: Global, row: &DeepRow) -> Result<String, Fail> {
    let (piece, count, middle, end, text, _) = *row;
    let mut pattern = piece.repeat(alloc, count)?;
    pattern.push_str(middle)?;
    pattern.push_str(end.repeat(alloc, count)?.as_str())?;
    let tables = Tables::small(alloc)?;
    let regex = parsed(alloc, pattern.as_str(), "", &tables)?;
    Ok(in_utf8(alloc, &regex, text)?)
}

/// Fails at the first row whose matches are told otherwise.
fn match_deep(alloc: Global, rows: &[DeepRow]) -> Result<(), Fail> {
    for row in rows {
        let told = deep(alloc, row)?;
        if told.as_str() != row.5 {
            return Err(Fail::new(format!(in alloc; "{}: {told}", row.0)?));
        }
    }
    Ok(())
}

#[test]
fn deep_patterns_match_so(rt: HostRuntime) -> Result<(), Fail> {
    match_deep(rt.alloc(), DEEP)
}

#[test]
fn there_are_as_many_groups_as_may_be(rt: HostRuntime) -> Result<(), Fail> {
    let told = deep(rt.alloc(), &("()", 65535, "a", "", "a", ""))?;
    assert!(rt; told.len() == 4 + 5 * 65535);
    assert!(rt; told.as_str().starts_with("0..1 0..0 0..0"));
    assert!(rt; told.as_str().ends_with("0..0 0..0"));
    Ok(())
}
