//! The named groups of a match, and the texts of groups.

use crate::told::{compiled, first, is_same};
use regress::{Error, Match, Regex, Tables};
use std::alloc::Global;
use std::test::Fail;

/// The names of a match, each with its range in bytes, or `-`, and a space behind it.
fn told(alloc: Global, found: &Match) -> Result<String, Error> {
    let mut told = String::new(alloc);
    for (name, range) in found.named_groups() {
        match range {
            Some(range) => write!(told, "{name}={}..{} ", range.start, range.end)?,
            None => write!(told, "{name}=- ")?,
        }
    }
    Ok(told)
}

#[test]
fn names_are_told_and_counted(rt: HostRuntime) -> Result<(), Fail> {
    let tables = Tables::small(rt.alloc())?;
    let regex = compiled(rt.alloc(), "(?<n>a)(?<m>b)|(?<n>c)", "", &tables)?;
    let mut found = first(&regex, "ab")?.ok_or("no match")?;
    let mut groups = found.named_groups();
    assert!(rt; groups.len() == 2 && groups.next().is_some() && groups.len() == 1);
    let same = groups.clone()?;
    assert!(rt; groups.next().is_some() && groups.next().is_none() && same.len() == 1);
    let came = told(rt.alloc(), &found)?;
    is_same(rt.alloc(), "whole", came.as_str(), "n=0..1 m=1..2 ")?;
    found.captures.clear();
    let came = told(rt.alloc(), &found)?;
    is_same(rt.alloc(), "shortened", came.as_str(), "n=- m=- ")?;
    // A name alone means the first group that has it.
    let other = first(&regex, "c")?.ok_or("no match")?;
    assert!(rt; other.named_group("n").is_none() && other.group(3) == Some(0..1));
    assert!(rt;
        other.name("n") == Some(0..1) && other.name("m").is_none() && other.name("").is_none()
    );
    Ok(())
}

#[test]
fn matches_are_compared(rt: HostRuntime) -> Result<(), Fail> {
    let tables = Tables::small(rt.alloc())?;
    let regex = compiled(rt.alloc(), "a*", "", &tables)?;
    let some = first(&regex, "aa")?.ok_or("no match")?;
    let none = first(&regex, "b")?.ok_or("no match")?;
    assert!(rt; some.len() == 2 && !some.is_empty() && none.len() == 0 && none.is_empty());
    let same = some.try_clone()?;
    assert!(rt; same == some && some != none && some.group_names().is_empty());
    Ok(())
}

/// The text of a group of the first match, and that of the group of a name.
fn texts<'t>(
    regex: &Regex,
    text: &'t str,
    group: usize,
    name: &str,
) -> Result<(Option<&'t str>, Option<&'t str>), Fail> {
    let found = regex.find(text)?.ok_or("no match")?;
    Ok((found.group_str(text, group), found.named_str(text, name)))
}

/// Groups and names, and their texts in the first match of `(?<n>é)(?<m>b)?` in `aé`.
const TEXTS: &[(usize, &str, Option<&str>, Option<&str>)] = &[
    (0, "n", Some("é"), Some("é")),
    (1, "m", Some("é"), None),
    (2, "n", None, Some("é")),
    (3, "m", None, None),
];

#[test]
fn the_text_of_a_group(rt: HostRuntime) -> Result<(), Fail> {
    let tables = Tables::small(rt.alloc())?;
    let regex = compiled(rt.alloc(), "(?<n>é)(?<m>b)?", "", &tables)?;
    for (group, name, of_group, of_name) in TEXTS {
        if texts(&regex, "aé", *group, name)? != (*of_group, *of_name) {
            return Err(Fail::new(*group));
        }
    }
    Ok(())
}
