//! Exports that compile patterns.
ghost use Rattle.std.specs.Prelude.{◌≡◌, false, true, chars};
ghost use Rattle.regress_meaning.specs.Flags.{is_unicode, options_of};
ghost use Rattle.regress_meaning.specs.TableParts.{TableParts as Parts, table_of};
ghost use Rattle.regress_pattern_units.specs.PatternUnits.{pattern_points};
ghost use Rattle.regress.specs.declared.api.Regex.{Regex as RegexValue};
ghost use Rattle.regress_calls.specs.Codes.{IfCount, IfError};
ghost use Rattle.regress_calls.specs.Compiling.{IsCompiled, MayRefuseCompile, default_limit};
ghost use Rattle.regress_calls.specs.Handles.{OfPattern, OfTables, content};
ghost use Rattle.regress_c.specs.Compiled.{MayRefuseText};

use crate::pattern_error::PatternError;
use regress_calls::{CallError, DEFAULT_LIMIT, Refusal, Slot, Source, compile, utf8};
use std::alloc::Global;

/// Compiles a pattern that is given in UTF-8, within the limit that stands where a caller says nothing.
#[unsafe(no_mangle)]
pub extern "C" fn regress_raw_compile(
    alloc: Global,
    pattern: &[u8],
    flags: &[u8],
    tables: &mut Slot,
    out: &mut Slot,
    error: &mut PatternError,
) -> i32
    ensures compiled { (ps : Parts) → content tables.old.held ≡ OfTables ps →
        IfCount result (λ _. (r : RegexValue) × (content out.new.held ≡ OfPattern r)
        × IsCompiled default_limit false (chars pattern.now) (table_of ps) (options_of (chars flags.now)) r) }
    ensures kept { content tables.new.held ≡ content tables.old.held }
    ensures refused { IfError result (MayRefuseText (content tables.old.held) default_limit false pattern.now flags.now) }
    ensures told { error.new.code ≡ result }
    ensures untouched { IfError result (λ _. content out.new.held ≡ content out.old.held) }
{
    regress_raw_compile_within(alloc, pattern, flags, DEFAULT_LIMIT, tables, out, error)
}

/// Compiles a pattern that is given in UTF-8, within a limit on how many instructions a program may have.
#[unsafe(no_mangle)]
pub extern "C" fn regress_raw_compile_within(
    alloc: Global,
    pattern: &[u8],
    flags: &[u8],
    limit: usize,
    tables: &mut Slot,
    out: &mut Slot,
    error: &mut PatternError,
) -> i32
    ensures compiled { (ps : Parts) → content tables.old.held ≡ OfTables ps →
        IfCount result (λ _. (r : RegexValue) × (content out.new.held ≡ OfPattern r)
        × IsCompiled limit false (chars pattern.now) (table_of ps) (options_of (chars flags.now)) r) }
    ensures kept { content tables.new.held ≡ content tables.old.held }
    ensures refused { IfError result (MayRefuseText (content tables.old.held) limit false pattern.now flags.now) }
    ensures told { error.new.code ≡ result }
    ensures untouched { IfError result (λ _. content out.new.held ≡ content out.old.held) }
{
    let Ok(text) = utf8(pattern) else {
        return error.tell(Err(Refusal::from(CallError::NotUtf8)));
    };
    error.tell(compile(alloc, Source::Utf8(text), flags, limit, tables, out))
}

/// Compiles a pattern that is given in 16-bit units, within the limit that stands where a caller says nothing.
#[unsafe(no_mangle)]
pub extern "C" fn regress_raw_compile_units(
    alloc: Global,
    pattern: &[u16],
    flags: &[u8],
    tables: &mut Slot,
    out: &mut Slot,
    error: &mut PatternError,
) -> i32
    ensures compiled { (ps : Parts) → content tables.old.held ≡ OfTables ps →
        IfCount result (λ _. (r : RegexValue) × (content out.new.held ≡ OfPattern r)
        × IsCompiled default_limit false (pattern_points (is_unicode (options_of (chars flags.now))) pattern.now) (table_of ps) (options_of (chars flags.now)) r) }
    ensures kept { content tables.new.held ≡ content tables.old.held }
    ensures refused { IfError result (MayRefuseCompile (content tables.old.held) default_limit false (λ o. pattern_points (is_unicode o) pattern.now) flags.now) }
    ensures told { error.new.code ≡ result }
    ensures untouched { IfError result (λ _. content out.new.held ≡ content out.old.held) }
{
    regress_raw_compile_units_within(alloc, pattern, flags, DEFAULT_LIMIT, tables, out, error)
}

/// Compiles a pattern that is given in 16-bit units, within a limit on how many instructions a program may have.
#[unsafe(no_mangle)]
pub extern "C" fn regress_raw_compile_units_within(
    alloc: Global,
    pattern: &[u16],
    flags: &[u8],
    limit: usize,
    tables: &mut Slot,
    out: &mut Slot,
    error: &mut PatternError,
) -> i32
    ensures compiled { (ps : Parts) → content tables.old.held ≡ OfTables ps →
        IfCount result (λ _. (r : RegexValue) × (content out.new.held ≡ OfPattern r)
        × IsCompiled limit false (pattern_points (is_unicode (options_of (chars flags.now))) pattern.now) (table_of ps) (options_of (chars flags.now)) r) }
    ensures kept { content tables.new.held ≡ content tables.old.held }
    ensures refused { IfError result (MayRefuseCompile (content tables.old.held) limit false (λ o. pattern_points (is_unicode o) pattern.now) flags.now) }
    ensures told { error.new.code ≡ result }
    ensures untouched { IfError result (λ _. content out.new.held ≡ content out.old.held) }
{
    error.tell(compile(alloc, Source::Units(pattern), flags, limit, tables, out))
}

/// Compiles a pattern that is given in UTF-8, and is to match whole texts alone, within the limit that stands where a caller says
/// nothing.
#[unsafe(no_mangle)]
pub extern "C" fn regress_raw_compile_whole(
    alloc: Global,
    pattern: &[u8],
    flags: &[u8],
    tables: &mut Slot,
    out: &mut Slot,
    error: &mut PatternError,
) -> i32
    ensures compiled { (ps : Parts) → content tables.old.held ≡ OfTables ps →
        IfCount result (λ _. (r : RegexValue) × (content out.new.held ≡ OfPattern r)
        × IsCompiled default_limit true (chars pattern.now) (table_of ps) (options_of (chars flags.now)) r) }
    ensures kept { content tables.new.held ≡ content tables.old.held }
    ensures refused { IfError result (MayRefuseText (content tables.old.held) default_limit true pattern.now flags.now) }
    ensures told { error.new.code ≡ result }
    ensures untouched { IfError result (λ _. content out.new.held ≡ content out.old.held) }
{
    regress_raw_compile_whole_within(alloc, pattern, flags, DEFAULT_LIMIT, tables, out, error)
}

/// Compiles a pattern that is given in UTF-8, and is to match whole texts alone, within a limit on how many instructions a program
/// may have.
#[unsafe(no_mangle)]
pub extern "C" fn regress_raw_compile_whole_within(
    alloc: Global,
    pattern: &[u8],
    flags: &[u8],
    limit: usize,
    tables: &mut Slot,
    out: &mut Slot,
    error: &mut PatternError,
) -> i32
    ensures compiled { (ps : Parts) → content tables.old.held ≡ OfTables ps →
        IfCount result (λ _. (r : RegexValue) × (content out.new.held ≡ OfPattern r)
        × IsCompiled limit true (chars pattern.now) (table_of ps) (options_of (chars flags.now)) r) }
    ensures kept { content tables.new.held ≡ content tables.old.held }
    ensures refused { IfError result (MayRefuseText (content tables.old.held) limit true pattern.now flags.now) }
    ensures told { error.new.code ≡ result }
    ensures untouched { IfError result (λ _. content out.new.held ≡ content out.old.held) }
{
    let Ok(text) = utf8(pattern) else {
        return error.tell(Err(Refusal::from(CallError::NotUtf8)));
    };
    error.tell(compile(alloc, Source::Whole(text), flags, limit, tables, out))
}
