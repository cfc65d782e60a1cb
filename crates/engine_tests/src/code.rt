//! What a program of units tells of the first bytes of its addresses, and how long programs are.

use crate::parsed::parsed;
use regress_engine_code::{CompiledRegex, emit, emit_units};
use regress_front_tables::{Error, Tables};
use std::alloc::Global;
use std::test::Fail;

/// The program of a pattern, of units or else of bytes. It promises nothing, so what reads it has little to prove.
pub(crate) fn program(
    alloc: Global,
    pattern: &str,
    flags: &str,
    units: bool,
    tables: &Tables,
) -> Result<CompiledRegex, Error> {
    let regex = parsed(alloc, pattern, flags, tables)?;
    if units {
        emit_units(alloc, &regex)
    } else {
        emit(alloc, &regex)
    }
}

#[test]
fn a_program_of_units_begins_with_the_bytes_of_its_characters(rt: HostRuntime) -> Result<(), Fail> {
    let tables = Tables::small(rt.alloc())?;
    let program = program(rt.alloc(), "ab", "", true, &tables)?;
    assert!(rt; program.is_unit_program());
    assert!(rt; program.cannot_begin_with(0, b'b') && !program.cannot_begin_with(0, b'a'));
    assert!(rt; program.cannot_begin_with(1, b'a') && !program.cannot_begin_with(1, b'b'));
    Ok(())
}

/// A piece of a pattern, how often it stands there, and how many instructions its programs of bytes and of units have.
const LONG: &[(&str, usize, usize, usize)] = &[
    ("a", 100_000, 6_251, 100_001),
    ("a|", 50_000, 150_001, 150_001),
];

/// How many instructions the program of a pattern has.
fn length(alloc: Global, pattern: &str, units: bool) -> Result<usize, Fail> {
    let tables = Tables::small(alloc)?;
    let program = program(alloc, pattern, "", units, &tables)?;
    Ok(program.insns().len())
}

#[test]
fn long_patterns_have_programs(rt: HostRuntime) -> Result<(), Fail> {
    for (piece, times, of_bytes, of_units) in LONG {
        let pattern = piece.repeat(rt.alloc(), *times)?;
        assert!(rt; length(rt.alloc(), pattern.as_str(), false)? == *of_bytes);
        assert!(rt; length(rt.alloc(), pattern.as_str(), true)? == *of_units);
    }
    Ok(())
}
