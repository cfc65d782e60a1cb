//! Patterns of which a program may have no more instructions than a limit.

use regress::{CompileError, DEFAULT_LIMIT, Error, Flags, Regex, Tables};
use std::alloc::{AllocError, Global};
use std::test::Fail;

/// Patterns, their flags, and how many instructions a program of each may have.
const MOST: &[(&str, &str, usize)] = &[
    ("", "", 6),
    ("a", "", 8),
    ("abc", "", 12),
    ("a|b", "", 14),
    ("(a)", "", 12),
    ("(?:a)", "", 10),
    (r"(?<n>a)\k<n>", "", 16),
    (r"(?:(?<n>a)|(?<n>b))\k<n>", "", 30),
    ("(?:(a)(b))*", "", 26),
    ("a{5}", "", 22),
    ("a{6}", "", 10),
    (r"[a\q{bc|d}]", "v", 26),
];

/// Why a pattern is refused under a limit; `None` where it is accepted.
fn refusal(
    alloc: Global,
    pattern: &str,
    letters: &str,
    limit: usize,
) -> Result<Option<CompileError>, Fail> {
    let tables = Tables::small(alloc)?;
    Ok(Regex::with_limit(alloc, pattern, Flags::from(letters), &tables, limit).err())
}

#[test]
fn a_limit_refuses_what_may_have_one_more(rt: HostRuntime) -> Result<(), Fail> {
    for (pattern, letters, most) in MOST {
        let at_limit = refusal(rt.alloc(), pattern, letters, *most)?;
        let past_limit = refusal(rt.alloc(), pattern, letters, most.saturating_sub(1))?;
        if at_limit.is_some() || past_limit != Some(CompileError::PastLimit) {
            return Err(Fail::new(*pattern));
        }
    }
    Ok(())
}

#[test]
fn what_is_no_pattern_passes_no_limit(rt: HostRuntime) -> Result<(), Fail> {
    let refused = refusal(rt.alloc(), "(", "", 0)?;
    assert!(rt; matches!(refused, Some(CompileError::Pattern(Error::Syntax { .. }))));
    Ok(())
}

/// `(?:(?<n>x)|..)` with so many arms more, and so many times `\k<n>` behind it.
fn arms_and_references(alloc: Global, count: usize) -> Result<String, AllocError> {
    let mut pattern = String::from_str(alloc, "(?:(?<n>x)")?;
    pattern.push_str("|(?<n>x)".repeat(alloc, count)?.as_str())?;
    pattern.push(')')?;
    pattern.push_str(r"\k<n>".repeat(alloc, count)?.as_str())?;
    Ok(pattern)
}

#[test]
fn sixteen_million_references_pass_the_default(rt: HostRuntime) -> Result<(), Fail> {
    let few = arms_and_references(rt.alloc(), 400)?;
    let accepted = refusal(rt.alloc(), few.as_str(), "", DEFAULT_LIMIT)?;
    let many = arms_and_references(rt.alloc(), 4_000)?;
    let refused = refusal(rt.alloc(), many.as_str(), "", DEFAULT_LIMIT)?;
    assert!(rt; accepted.is_none() && refused == Some(CompileError::PastLimit));
    Ok(())
}

#[test]
fn the_ends_of_a_text_may_have_ten_more(rt: HostRuntime) -> Result<(), Fail> {
    let tables = Tables::small(rt.alloc())?;
    let flags = Flags::default();
    let whole = Regex::whole_text_with_limit(rt.alloc(), "a", flags, &tables, 18)?;
    assert!(rt; whole.is_match("a")? && !whole.is_match("ba")?);
    let refused = Regex::whole_text_with_limit(rt.alloc(), "a", flags, &tables, 17).err();
    assert!(rt; refused == Some(CompileError::PastLimit));
    Ok(())
}

#[test]
fn code_points_and_units_have_the_same_limit(rt: HostRuntime) -> Result<(), Fail> {
    let tables = Tables::small(rt.alloc())?;
    let flags = Flags::default();
    let points = Regex::from_unicode_with_limit(rt.alloc(), &[0x61], flags, &tables, 8)?;
    let units = Regex::from_utf16_with_limit(rt.alloc(), &[0x61], flags, &tables, 8)?;
    assert!(rt; points.is_match("ba")? && units.is_match("ba")?);
    let refused = Regex::from_utf16_with_limit(rt.alloc(), &[0x61], flags, &tables, 7).err();
    assert!(rt; refused == Some(CompileError::PastLimit));
    Ok(())
}
