//! What is asked of a compiled pattern and of units, and a pattern of code points as it is shown.

use crate::told::{compiled, is_same};
use regress::{Flags, Regex, Tables, is_unit_start, is_well_formed_utf16};
use std::alloc::Global;
use std::test::Fail;

/// How many groups a match has, and the name of the first that is counted.
fn groups_of<'r>(regex: &'r Regex) -> (usize, Option<&'r str>) {
    let name = regex.group_names().first();
    (regex.captures_len(), name.map(|name| name.as_str()))
}

#[test]
fn what_is_asked_of_a_regex(rt: HostRuntime) -> Result<(), Fail> {
    let tables = Tables::small(rt.alloc())?;
    let regex = compiled(rt.alloc(), "(?<n>a)(é)?", "", &tables)?;
    let told = format!(in rt.alloc(); "<{regex}>")?;
    is_same(rt.alloc(), "text", told.as_str(), "<(?<n>a)(é)?>")?;
    assert!(rt; groups_of(&regex) == (3, Some("n")));
    Ok(())
}

/// Whether these are the bytes that are told.
fn tells(told: Option<&[u8]>, front: &[u8]) -> bool {
    match told {
        Some(bytes) => bytes == front,
        None => false,
    }
}

#[test]
fn a_literal_in_front_is_told(rt: HostRuntime) -> Result<(), Fail> {
    let tables = Tables::small(rt.alloc())?;
    let literal = compiled(rt.alloc(), "harbour (\\w+)", "", &tables)?;
    let choice = compiled(rt.alloc(), "ab|cd", "", &tables)?;
    assert!(rt; tells(literal.literal_prefix(), b"harbour ") && choice.literal_prefix().is_none());
    assert!(rt;
        tells(literal.required_literal(), b"harbour ") && choice.required_literal().is_none()
    );
    Ok(())
}

#[test]
fn a_byte_that_each_match_needs_is_told(rt: HostRuntime) -> Result<(), Fail> {
    let tables = Tables::small(rt.alloc())?;
    let date = compiled(rt.alloc(), "\\d{4}-(\\d\\d)", "", &tables)?;
    let address = compiled(rt.alloc(), "[a-z]+@[a-z]+", "", &tables)?;
    assert!(rt; tells(date.required_literal(), b"-") && date.literal_prefix().is_none());
    assert!(rt; tells(address.required_literal(), b"@"));
    Ok(())
}

#[test]
fn debug_tells_a_regex_by_its_pattern_and_sizes(rt: HostRuntime) -> Result<(), Fail> {
    let tables = Tables::small(rt.alloc())?;
    let regex = compiled(rt.alloc(), "(a)|b", "i", &tables)?;
    let told = format!(in rt.alloc(); "{regex:?}")?;
    is_same(
        rt.alloc(),
        "Debug",
        told.as_str(),
        "Regex { source: \"(a)|b\", flags: Flags { icase: true, multiline: false, dot_all: false, no_opt: false, unicode: false, unicode_sets: false }, groups: 1, byte_insns: 7, unit_insns: 7 }",
    )
}

/// A pattern that is given as code points, as it is shown.
fn shown(alloc: Global, points: &[u32], tables: &Tables) -> Result<String, Fail> {
    if !regress::are_code_points(points) {
        return Err("no code points".into());
    }
    let regex = Regex::from_unicode(alloc, points, Flags::default(), tables)?;
    Ok(String::from_str(alloc, regex.as_str())?)
}

#[test]
fn a_surrogate_is_shown_as_another_character(rt: HostRuntime) -> Result<(), Fail> {
    let tables = Tables::small(rt.alloc())?;
    let came = shown(rt.alloc(), &[0x61, 0xD83D, 0xDE00, 0x10_FFFF], &tables)?;
    is_same(
        rt.alloc(),
        "points",
        came.as_str(),
        "a\u{FFFD}\u{FFFD}\u{10FFFF}",
    )
}

/// A pair.
const PAIR: &[u16] = &[0xD83D, 0xDE00];

/// A high unit before a pair.
const UNITS: &[u16] = &[0xD83D, 0xD83D, 0xDE00];

/// Whether a search may begin at each of the first offsets of these units: not inside a pair.
const STARTS: &[bool] = &[true, true, false, true, true];

#[test]
fn units_stand_in_pairs(rt: HostRuntime) -> Result<(), Fail> {
    for (start, expected) in STARTS.iter().enumerate() {
        assert!(rt; is_unit_start(UNITS, start) == *expected);
    }
    assert!(rt; is_well_formed_utf16(PAIR) && !is_well_formed_utf16(UNITS));
    Ok(())
}
