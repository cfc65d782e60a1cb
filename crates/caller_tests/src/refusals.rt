//! Where texts are refused as no patterns.

use regress::{Error, Flags, Tables, syntax_error};
use std::alloc::Global;
use std::test::Fail;

/// Where reading a text stops, in code points, if it is no pattern.
fn stop_of(
    alloc: Global,
    pattern: &str,
    flags: Flags,
    tables: &Tables,
) -> Result<Option<usize>, Error> {
    let found = syntax_error(alloc, pattern, flags, tables)?;
    Ok(found.map(|found| found.place))
}

/// Texts, flags, and where reading each stops, in code points, where it is no pattern.
const STOPS: &[(&str, &str, Option<usize>)] = &[
    ("(", "", Some(1)),
    (")", "", Some(0)),
    ("a)b", "", Some(1)),
    ("é)b", "", Some(1)),
    ("漢😀)b", "", Some(2)),
    ("(a", "", Some(2)),
    ("((a)|b", "", Some(6)),
    ("a**", "", Some(2)),
    ("*", "", Some(0)),
    ("a|?", "", Some(2)),
    ("a{2,1}", "", Some(6)),
    ("{1}", "", Some(0)),
    ("a{", "u", Some(1)),
    ("a]", "u", Some(1)),
    ("[a", "", Some(2)),
    ("[b-a]", "", Some(4)),
    ("[[a]--[b]", "v", Some(9)),
    ("\\", "", Some(1)),
    (r"a\-", "u", Some(3)),
    (r"\p{x}", "u", Some(5)),
    (r"\u{110000}", "u", Some(2)),
    (r"(?<n>a)\k<m>", "", Some(12)),
    ("(?<n>a)(?<n>b)", "", Some(14)),
    ("(?<1>a)", "", Some(3)),
    ("(?a:b)", "", Some(2)),
    ("(?=a)*", "u", Some(6)),
    ("", "", None),
    ("a", "", None),
    ("(?<n>é)|[b-c]{1,2}", "", None),
];

#[test]
fn reading_stops_where_a_text_is_no_pattern(rt: HostRuntime) -> Result<(), Fail> {
    let tables = Tables::small(rt.alloc())?;
    for (pattern, flags, expected) in STOPS {
        if stop_of(rt.alloc(), pattern, Flags::from(*flags), &tables)? != *expected {
            return Err(Fail::new(*pattern));
        }
    }
    let deep = "(".repeat(rt.alloc(), 257)?;
    let found = stop_of(rt.alloc(), deep.as_str(), Flags::default(), &tables);
    assert!(rt; found.err() == Some(Error::TooDeep));
    Ok(())
}
