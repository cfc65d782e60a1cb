//! Syntax errors as they are shown: the line, and a caret under the place.

use regress::{CompileError, Flags, Tables, syntax_error, syntax_error_in_units};
use std::alloc::Global;
use std::test::Fail;

/// Texts that are no patterns, the offset in bytes at which reading stops, and what is shown.
const SHOWN: &[(&str, usize, &str)] = &[
    ("a(b|c", 5, "Unbalanced parenthesis\na(b|c\n     ^"),
    (")", 0, "Unbalanced parenthesis\n)\n^"),
    ("é😀)b", 6, "Unbalanced parenthesis\né😀)b\n  ^"),
    ("x\n\té)y\nz", 5, "Unbalanced parenthesis\n\\té)y\n   ^"),
];

/// The offset at which reading a text stops, and what is shown of it; `None` where it is a pattern.
fn shown(alloc: Global, pattern: &str) -> Result<Option<(usize, String)>, CompileError> {
    let tables = Tables::small(alloc)?;
    let script = Flags::parse("g")?;
    let Some(refused) = syntax_error(alloc, pattern, script.flags, &tables)? else {
        return Ok(None);
    };
    let shown = refused.display(pattern).to_string(alloc)?;
    Ok(Some((refused.offset, shown)))
}

#[test]
fn a_caret_stands_under_the_place(rt: HostRuntime) -> Result<(), Fail> {
    for (pattern, offset, expected) in SHOWN {
        match shown(rt.alloc(), pattern)? {
            Some((at, text)) if at == *offset && text.as_str() == *expected => {}
            _ => return Err(Fail::new(*pattern)),
        }
    }
    Ok(())
}

/// The places in code points and in units at which reading units stops; `None` where they are a pattern.
fn places(alloc: Global, units: &[u16]) -> Result<Option<(usize, usize)>, CompileError> {
    let tables = Tables::small(alloc)?;
    let script = Flags::parse("u")?;
    let refused = syntax_error_in_units(alloc, units, script.flags, &tables)?;
    Ok(refused.map(|refused| (refused.place, refused.unit_offset)))
}

#[test]
fn places_are_told_in_units(rt: HostRuntime) -> Result<(), Fail> {
    let told = places(rt.alloc(), &[0xD83D, 0xDE00, 0x29])?; // an astral character and `)`
    assert!(rt; told == Some((1, 2)));
    Ok(())
}

#[test]
fn long_lines_are_cut(rt: HostRuntime) -> Result<(), Fail> {
    let many = "a".repeat(rt.alloc(), 100)?;
    let pattern = format!(in rt.alloc(); "{many}){many}")?;
    let Some((offset, text)) = shown(rt.alloc(), pattern.as_str())? else {
        return Err(Fail::new("no error"));
    };
    let before = "a".repeat(rt.alloc(), 60)?;
    let after = "a".repeat(rt.alloc(), 19)?;
    let spaces = " ".repeat(rt.alloc(), 60)?;
    let expected = format!(in rt.alloc(); "Unbalanced parenthesis\n{before}){after}\n{spaces}^")?;
    assert!(rt; offset == 100 && text == expected);
    Ok(())
}
