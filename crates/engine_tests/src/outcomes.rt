//! The match that begins at one offset, with no search: by both executors, over each input.
ghost use Rattle.std.specs.Prelude.{◌≡◌, false, true};
ghost use Rattle.regress_engine_search.specs.Search.{IsMadeOf};

use crate::found::tell;
use crate::parsed::rewritten;
use regress_engine_code::{CompiledRegex, emit, emit_units};
use regress_engine_copying::PikeVMExecutor;
use regress_engine_exec::BacktrackExecutor;
use regress_engine_inputs::{AsciiInput, Ucs2Input, Utf8Input, Utf16Input};
use regress_engine_search::ExecutorInput;
use regress_front_tables::Tables;
use regress_match::Match;
use std::alloc::{AllocError, Global};
use std::test::Fail;

/// Patterns, their flags, texts of ASCII, and the matches that begin at 0, where the first match does, and where it ends.
const ROWS: &[(&str, &str, &str, &str)] = &[
    ("(a)b|c", "", "abc", "0..2 0..1|0..2 0..1|2..3 -|"),
    ("(a)b|c", "", "bab", "none|1..3 1..2|none|"),
    ("a", "", "bb", "none|"),
    ("(?<=(b))a?", "", "bab", "none|1..2 0..1|none|"),
    ("(?>a|(ab))+", "u", "cabaa", "none|1..2 -|none|"),
    ("^a|$", "m", "a\na", "0..1|0..1|1..1|"),
    (r"\bK", "iu", "a k", "none|2..3|none|"),
    ("(?:(a)|b)*?$", "", "ba", "0..2 1..2|0..2 1..2|2..2 -|"),
];

/// Adds a match, or `none`.
fn tell_outcome(told: &mut String, found: Option<Match>) -> Result<(), AllocError> {
    match found {
        Some(found) => tell(told, &found)?,
        None => told.push_str("none")?,
    }
    told.push('|')
}

/// The matches that begin at 0, where the first match does, and where it ends, by the executor that undoes.
fn undoing<'r, Input: ExecutorInput>(
    alloc: Global,
    program: &'r CompiledRegex,
    input: Input,
) -> Result<String, AllocError>
    requires { IsMadeOf program.now (Input.view input) }
{
    let mut told = String::new(alloc);
    let mut executor = BacktrackExecutor::with_input(alloc, program, input);
    tell_outcome(&mut told, executor.match_at(0)?)?;
    if let Some(found) = executor.find_from(0)? {
        tell_outcome(&mut told, executor.match_at(found.start())?)?;
        tell_outcome(&mut told, executor.match_at(found.end())?)?;
    }
    Ok(told)
}

/// The same by the executor that copies.
fn copying<'r, Input: ExecutorInput>(
    alloc: Global,
    program: &'r CompiledRegex,
    input: Input,
) -> Result<String, AllocError>
    requires { IsMadeOf program.now (Input.view input) }
{
    let mut told = String::new(alloc);
    let mut executor = PikeVMExecutor::with_input(alloc, program, input);
    tell_outcome(&mut told, executor.match_at(0)?)?;
    if let Some(found) = executor.find_from(0)? {
        tell_outcome(&mut told, executor.match_at(found.start())?)?;
        tell_outcome(&mut told, executor.match_at(found.end())?)?;
    }
    Ok(told)
}

/// Fails unless both executors tell this over an input.
fn tells<Input: ExecutorInput>(
    alloc: Global,
    program: &CompiledRegex,
    input: Input,
    expected: &str,
) -> Result<(), Fail>
    requires { IsMadeOf program.now (Input.view input) }
{
    let undoing = undoing(alloc, program, input)?;
    let copying = copying(alloc, program, input)?;
    if undoing.as_str() != expected || copying.as_str() != expected {
        return Err(Fail::new(format!(in alloc; "undoing {undoing}, copying {copying}")?));
    }
    Ok(())
}

/// Fails unless both executors tell this over bytes, of UTF-8 and of ASCII.
fn bytes_tell(
    alloc: Global,
    program: &CompiledRegex,
    text: &str,
    expected: &str,
) -> Result<(), Fail>
    requires { program.now.units ≡ false }
{
    let unicode = program.flags().is_unicode();
    tells(
        alloc,
        program,
        Utf8Input::new(text, unicode, program.tables()),
        expected,
    )?;
    if !text.is_ascii() {
        return Ok(());
    }
    tells(
        alloc,
        program,
        AsciiInput::new(text, unicode, program.tables()),
        expected,
    )
}

/// Fails unless both executors tell this over 16-bit units, of UTF-16 and each a character.
fn units_tell(
    alloc: Global,
    program: &CompiledRegex,
    units: &[u16],
    expected: &str,
) -> Result<(), Fail>
    requires { program.now.units ≡ true }
{
    let unicode = program.flags().is_unicode();
    tells(
        alloc,
        program,
        Utf16Input::new(units, unicode, program.tables()),
        expected,
    )?;
    tells(
        alloc,
        program,
        Ucs2Input::new(units, unicode, program.tables()),
        expected,
    )
}

/// Fails unless both executors tell this over each input of a text of ASCII.
fn is_told(
    alloc: Global,
    pattern: &str,
    flags: &str,
    text: &str,
    expected: &str,
) -> Result<(), Fail> {
    let tables = Tables::small(alloc)?;
    let regex = rewritten(alloc, pattern, flags, &tables)?;
    let byte_program = emit(alloc, &regex)?;
    bytes_tell(alloc, &byte_program, text, expected)?;
    let unit_program = emit_units(alloc, &regex)?;
    let units: Vec<u16> = text.encode_utf16().collect(alloc)?;
    units_tell(alloc, &unit_program, &units, expected)
}

#[test]
fn matches_begin_at_one_offset(rt: HostRuntime) -> Result<(), Fail> {
    for (pattern, flags, text, expected) in ROWS {
        is_told(rt.alloc(), pattern, flags, text, expected)?;
    }
    Ok(())
}
