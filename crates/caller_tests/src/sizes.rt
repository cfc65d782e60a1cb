//! Long patterns, long texts and limits: with ample memory nothing gives up before a limit.

use crate::told::{compiled, compiled_under, ends, first};
use regress::{Error, Flags, Match, Tables};
use std::alloc::{AllocError, Global};
use std::test::Fail;

/// What a text is made of: a beginning, a piece so many times, and an end.
type Parts = (&'static str, &'static str, usize, &'static str);

/// The text that is made of parts.
fn made(alloc: Global, parts: &Parts) -> Result<String, AllocError> {
    let (begin, piece, times, end) = *parts;
    let mut text = String::from_str(alloc, begin)?;
    text.push_str(piece.repeat(alloc, times)?.as_str())?;
    text.push_str(end)?;
    Ok(text)
}

/// A pattern, its flags, a text, and where its first match starts and ends, if there is one.
type Row = (Parts, &'static str, Parts, Option<(usize, usize)>);

/// Long literals, many alternatives and many repetitions.
const LONG_PATTERNS: &[Row] = &[
    (
        ("", "a", 300_000, ""),
        "",
        ("", "a", 300_000, ""),
        Some((0, 300_000)),
    ),
    (
        ("", "a|", 299_999, "b"),
        "",
        ("", "x", 3, "b"),
        Some((3, 4)),
    ),
    (("", "a|", 99_999, "a"), "", ("", "a", 1, ""), Some((0, 1))),
    (
        ("", "(?:(?:ab)*c){5}", 14_000, ""),
        "",
        ("", "abc", 70_000, ""),
        Some((0, 210_000)),
    ),
];

/// What is repeated, given back and copied, and texts past 64 KiB.
const LONG_TEXTS: &[Row] = &[
    (
        ("(?:", "abcdefghi", 1, "){3}$"),
        "",
        ("", "abcdefghi", 4, ""),
        Some((9, 36)),
    ),
    (
        ("(?:", "a", 1_000, "){2}b"),
        "",
        ("", "a", 2_001, "b"),
        Some((1, 2_002)),
    ),
    (("", "(a*)a", 1, "b$"), "", ("", "a", 500, "bb"), None),
    (
        ("", "(a*)a", 1, "b"),
        "",
        ("", "a", 2_000, "b"),
        Some((0, 2_001)),
    ),
    (
        (
            r"[\q{abcdef",
            "|bcdefa|cdefab|defabc|efabcd|fabcde",
            1,
            "}]{3}",
        ),
        "v",
        ("", "abcdef", 3, ""),
        Some((0, 18)),
    ),
    (
        ("", "b", 1, ""),
        "",
        ("", "a", 70_000, "b"),
        Some((70_000, 70_001)),
    ),
];

/// Ways to undo, and a lookbehind, over a megabyte.
const MEGABYTE: &[Row] = &[
    (
        ("", "(?:a|b)*", 1, "c"),
        "",
        ("", "ab", 524_288, "c"),
        Some((0, 1_048_577)),
    ),
    (
        ("", "$(?<=^a*)", 1, ""),
        "",
        ("", "a", 1_048_576, ""),
        Some((1_048_576, 1_048_576)),
    ),
];

/// Where the first match of a row's pattern starts and ends.
fn first_of(alloc: Global, row: &Row, no_opt: bool) -> Result<Option<(usize, usize)>, Fail> {
    let pattern = made(alloc, &row.0)?;
    let text = made(alloc, &row.2)?;
    let tables = Tables::small(alloc)?;
    let mut flags = Flags::from(row.1);
    flags.no_opt = no_opt;
    let regex = compiled_under(alloc, pattern.as_str(), flags, &tables)?;
    Ok(ends(first(&regex, text.as_str())?))
}

/// Fails at the first row whose first match is another, with or without rewriting.
fn are_found_so(alloc: Global, rows: &[Row]) -> Result<(), Fail> {
    for row in rows {
        let rewritten = first_of(alloc, row, false)?;
        let plain = first_of(alloc, row, true)?;
        if rewritten != row.3 || plain != row.3 {
            return Err(Fail::new(row.0.1));
        }
    }
    Ok(())
}

#[test]
fn long_patterns_are_found(rt: HostRuntime) -> Result<(), Fail> {
    are_found_so(rt.alloc(), LONG_PATTERNS)
}

#[test]
fn what_stands_in_long_texts_is_found(rt: HostRuntime) -> Result<(), Fail> {
    are_found_so(rt.alloc(), LONG_TEXTS)
}

#[test]
fn what_stands_in_a_megabyte_is_found(rt: HostRuntime) -> Result<(), Fail> {
    are_found_so(rt.alloc(), MEGABYTE)
}

/// What opens a level, stands in the last, and closes a level; flags; and where the first match in a text starts and ends.
type NestedRow = (
    &'static str,
    &'static str,
    &'static str,
    &'static str,
    &'static str,
    Option<(usize, usize)>,
);

/// Each kind of nesting.
const NESTED: &[NestedRow] = &[
    ("(", "(a)", ")", "", "ba", Some((1, 2))),
    ("(?:", "(?:a)", ")+", "", "baa", Some((1, 3))),
    ("b(", "(a)", ")d*", "", "x", None),
    ("(?i:", "(a)", ")", "", "bA", Some((1, 2))),
    ("(x|y", "(a)", "z|w)*", "", "xwv", Some((0, 2))),
    ("(a|", "(b)", ")", "", "cb", Some((1, 2))),
    ("(?:", "(b)", "|a)", "", "ca", Some((1, 2))),
    ("(?=", "(a)", ")", "", "ba", Some((1, 1))),
    ("(?<!", "(?<!a)", ")", "", "ba", Some((2, 2))),
    ("(?>", "(?>a)", ")", "", "ba", Some((1, 2))),
    ("[", "[a]", "]", "v", "ba", Some((1, 2))),
    ("[^", "[^a]", "]", "v", "ba", Some((1, 2))),
    ("[a&&", "[ab]", "]", "v", "ba", Some((1, 2))),
    (r"[\q{ab}", "[a]", "]", "v", "cab", Some((1, 3))),
    ("(?:", "[a]", ")", "v", "ba", Some((1, 2))),
];

/// The first match of a row's pattern with so many levels around the last.
fn first_nested(alloc: Global, row: &NestedRow, levels: usize) -> Result<Option<Match>, Error> {
    let (opening, middle, closing, letters, text, _) = *row;
    let mut pattern = made(alloc, &("", opening, levels, middle))?;
    pattern.push_str(closing.repeat(alloc, levels)?.as_str())?;
    let tables = Tables::small(alloc).map_err(|_| Error::OutOfMemory)?;
    let regex = compiled(alloc, pattern.as_str(), letters, &tables)?;
    first(&regex, text)
}

#[test]
fn patterns_nest_to_256(rt: HostRuntime) -> Result<(), Fail> {
    for row in NESTED {
        let deeper = first_nested(rt.alloc(), row, 256);
        assert!(rt; deeper.err() == Some(Error::TooDeep));
        if ends(first_nested(rt.alloc(), row, 255)?) != row.5 {
            return Err(Fail::new(row.0));
        }
    }
    Ok(())
}

/// A pattern, and why it is refused, if it is.
const LIMITS: &[(Parts, Option<Error>)] = &[
    (("", "()", 65_535, ""), None),
    (("", "()", 65_536, ""), Some(Error::TooManyGroups)),
    (("", "a*", 65_535, ""), None),
    (("", "a*", 65_536, ""), Some(Error::TooManyLoops)),
];

/// Why a pattern is refused; `None` where it is accepted.
fn refusal(alloc: Global, pattern: &str) -> Result<Option<Error>, Fail> {
    let tables = Tables::small(alloc)?;
    Ok(compiled(alloc, pattern, "", &tables).err())
}

#[test]
fn groups_and_quantifiers_end_at_65535(rt: HostRuntime) -> Result<(), Fail> {
    for (parts, expected) in LIMITS {
        let pattern = made(rt.alloc(), parts)?;
        if refusal(rt.alloc(), pattern.as_str())? != *expected {
            return Err(Fail::new(parts.1));
        }
    }
    Ok(())
}

/// So many groups, each with a name of its own.
fn named_groups(alloc: Global, count: usize) -> Result<String, AllocError> {
    let mut pattern = String::new(alloc);
    for number in 0..count {
        write!(pattern, "(?<n{number}>a)")?;
    }
    Ok(pattern)
}

/// The first match of a pattern in a text.
fn first_in(alloc: Global, pattern: &str, text: &str) -> Result<Match, Fail> {
    let tables = Tables::small(alloc)?;
    let regex = compiled(alloc, pattern, "", &tables)?;
    Ok(first(&regex, text)?.ok_or("no match")?)
}

#[test]
fn many_names_stand_apart(rt: HostRuntime) -> Result<(), Fail> {
    let mut pattern = named_groups(rt.alloc(), 1_000)?;
    let text = "a".repeat(rt.alloc(), 1_000)?;
    let found = first_in(rt.alloc(), pattern.as_str(), text.as_str())?;
    assert!(rt;
        found.named_group("n999") == Some(999..1_000) && found.group(512) == Some(511..512)
    );
    pattern.push_str("(?<n512>)")?;
    let twice = refusal(rt.alloc(), pattern.as_str())?;
    let text = "Duplicate capture group name";
    assert!(rt; twice == Some(Error::Syntax { text }));
    Ok(())
}

/// A class of 10,000 characters, from U+4E00 to U+750F.
fn class_of_letters(alloc: Global) -> Result<String, AllocError> {
    let letters: String = (0x4E00..0x7510).filter_map(char::from_u32).collect(alloc)?;
    let mut class = String::from_str(alloc, "[")?;
    class.push_str(letters.as_str())?;
    class.push(']')?;
    Ok(class)
}

#[test]
fn a_large_class_has_its_members(rt: HostRuntime) -> Result<(), Fail> {
    let class = class_of_letters(rt.alloc())?;
    let last = first_in(
        rt.alloc(),
        class.as_str(),
        "\u{4DFF}\u{7510}\u{750F}\u{4E00}",
    )?;
    let first = first_in(rt.alloc(), class.as_str(), "\u{4E00}")?;
    assert!(rt; last.range() == (6..9) && first.range() == (0..3));
    Ok(())
}
