//! What callers do with matches. What they ask of a match and of a start is said by the calls that give them; only a search that
//! goes on from a match of a loop takes a line of proof, which names that clause.
ghost use Rattle.std.specs.Prelude.{ℕ};
ghost use Rattle.regress_meaning.specs.Offsets.{Begins, of_utf8};

use crate::told::compiled;
use regress::{Error, Match, Regex, Tables};
use std::alloc::Global;
use std::test::Fail;

/// The text of each match.
fn parts<'t>(alloc: Global, regex: &Regex, text: &'t str) -> Result<Vec<&'t str>, Error> {
    let mut parts = Vec::new(alloc);
    for found in regex.find_iter(text)? {
        let found = found?;
        parts.push(found.as_str(text))?;
    }
    Ok(parts)
}

/// The text of each field of a line, without blanks.
fn fields<'t>(alloc: Global, regex: &Regex, line: &'t str) -> Result<Vec<&'t str>, Error> {
    let mut fields = Vec::new(alloc);
    for field in regex.split(line)? {
        let field = field?;
        fields.push(field.trim())?;
    }
    Ok(fields)
}

/// A key and a value, where a line has both.
fn pair<'t>(regex: &Regex, line: &'t str) -> Result<Option<(&'t str, &'t str)>, Error> {
    let mut parts = regex.splitn(line, 2)?;
    let key = parts.next().transpose()?;
    let value = parts.next().transpose()?;
    Ok(key.zip(value))
}

/// The match behind the first, by a search of its own.
fn second(regex: &Regex, text: &str) -> Result<Option<Match>, Error> {
    let Some(first) = regex.find(text)? else {
        return Ok(None);
    };
    regex.find_from(text, first.end())?.next().transpose()
}

/// Where the first match from an offset on begins.
fn first_start(regex: &Regex, text: &str, from: usize) -> Result<Option<usize>, Error>
    requires { (place : ℕ) × Begins (of_utf8 text.now) from place }
{
    let first = regex.find_from(text, from)?.next().transpose()?;
    Ok(first.map(|found| found.start()))
}

/// Of each match, where the first match behind it begins.
fn starts_behind(alloc: Global, regex: &Regex, text: &str) -> Result<Vec<Option<usize>>, Error> {
    let mut starts = Vec::new(alloc);
    for found in regex.find_iter(text)? {
        let found = found?;
        starts.push(first_start(regex, text, found.end())?)?;
    }
    Ok(starts)
}

/// The units that each match takes, in units of UTF-16.
fn unit_parts<'t>(alloc: Global, regex: &Regex, units: &'t [u16]) -> Result<Vec<&'t [u16]>, Error> {
    let mut parts = Vec::new(alloc);
    for found in regex.find_from_utf16(units, 0)? {
        if let Some(part) = units.get(found?.range()) {
            parts.push(part)?;
        }
    }
    Ok(parts)
}

#[test]
fn parts_of_a_text(rt: HostRuntime) -> Result<(), Fail> {
    let tables = Tables::small(rt.alloc())?;
    let regex = compiled(rt.alloc(), "(é+)|a", "", &tables)?;
    let parts = parts(rt.alloc(), &regex, "xaéé é")?;
    assert!(rt; parts.as_slice() == ["a", "éé", "é"].as_slice());
    Ok(())
}

#[test]
fn fields_of_a_line(rt: HostRuntime) -> Result<(), Fail> {
    let tables = Tables::small(rt.alloc())?;
    let comma = compiled(rt.alloc(), ",", "", &tables)?;
    let told = fields(rt.alloc(), &comma, "é, b ,,c")?;
    assert!(rt; told.as_slice() == ["é", "b", "", "c"].as_slice());
    assert!(rt; pair(&comma, "é,b,c")? == Some(("é", "b,c")) && pair(&comma, "é")?.is_none());
    Ok(())
}

#[test]
fn what_stands_behind_a_match(rt: HostRuntime) -> Result<(), Fail> {
    let tables = Tables::small(rt.alloc())?;
    let regex = compiled(rt.alloc(), "é", "", &tables)?;
    let found = second(&regex, "éaé")?.ok_or("no match")?;
    assert!(rt; found.range() == (3..5));
    let starts = starts_behind(rt.alloc(), &regex, "éaé")?;
    assert!(rt; starts.as_slice() == [Some(3), None].as_slice());
    Ok(())
}

#[test]
fn parts_of_units(rt: HostRuntime) -> Result<(), Fail> {
    let tables = Tables::small(rt.alloc())?;
    let regex = compiled(rt.alloc(), "[^a]", "", &tables)?;
    let units = [0xD83D, 0xDE00, 0x61, 0xE9];
    let parts = unit_parts(rt.alloc(), &regex, &units)?;
    assert!(rt; parts.len() == 2 && parts[0] == &units[..2] && parts[1] == &units[3..]);
    Ok(())
}
