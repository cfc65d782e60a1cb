//! Exports that find the match that begins at a start.
ghost use Rattle.std.specs.Prelude.{◌≡◌, ℕ, Option, chars, length, option_map};
ghost use Rattle.std.specs.Str.{IsAscii, IsUtf8};
ghost use Rattle.regress_meaning.specs.Flags.{Options};
ghost use Rattle.regress_meaning.specs.Offsets.{Begins, characters, of_ucs2, of_utf8, of_utf16, told};
ghost use Rattle.regress_meaning.specs.Pattern.{Pattern};
ghost use Rattle.regress_meaning.specs.Table.{Table};
ghost use Rattle.regress_engine_input.specs.Views.{utf8, utf16, ucs2};
ghost use Rattle.regress_programs.specs.declared.slots.Anchored.TheVariants.{Yes};
ghost use Rattle.regress.specs.declared.api.Regex.{Regex as RegexValue};
ghost use Rattle.regress.specs.Standing.{StandsFor, StandsInUnits, names_of_regex};
ghost use Rattle.regress_calls.specs.Codes.{IfCount, IfError};
ghost use Rattle.regress_calls.specs.Handles.{OfSearch, content};
ghost use Rattle.regress.specs.Outcomes.{outcome_at};
ghost use Rattle.regress_calls.specs.Ranges.{IsAnswerTo};
ghost use Rattle.regress_calls.specs.Refusals.{MayRefuseSearch};
ghost use Rattle.regress_c.specs.Checked.{MayRefuseChecked};

use crate::codes::count_code;
use crate::texts::{ascii, valid};
use regress_calls::{CallError, Slot, Text, TextRange, match_at, utf8};
use std::alloc::Global;

/// Finds the match that begins at `start`, in a text that is checked to be UTF-8. `regress_calls::match_at` says what it answers and writes.
#[unsafe(no_mangle)]
pub extern "C" fn regress_raw_match_at(
    alloc: Global,
    search: &mut Slot,
    text: &[u8],
    start: usize,
    ranges: &mut [TextRange],
) -> i32
    ensures found { (r : RegexValue) → (bound : Option ℕ) → content search.old.held ≡ OfSearch r bound →
        (t : Table) → (o : Options) → (p : Pattern) → StandsFor r t o p →
        (place : ℕ) → Begins (of_utf8 text.now) start place →
        IfCount result (λ count. IsAnswerTo (length (names_of_regex r)) (option_map (told (of_utf8 text.now)) (outcome_at t o p (chars text.now) place)) ranges.old count ranges.new) }
    ensures kept { content search.new.held ≡ content search.old.held }
    ensures refused { IfError result (MayRefuseChecked (content search.old.held) Yes text.now start) }
    ensures untouched { IfError result (λ _. ranges.new ≡ ranges.old) }
{
    let Ok(text) = utf8(text) else {
        return CallError::NotUtf8.code();
    };
    count_code(match_at(alloc, search, Text::Utf8(text), start, ranges))
}

/// Finds the match that begins at `start`, in UTF-8 that the caller vouches for. `regress_calls::match_at` says what it answers and writes.
#[unsafe(no_mangle)]
pub extern "C" fn regress_raw_match_at_valid(
    alloc: Global,
    search: &mut Slot,
    text: &[u8],
    start: usize,
    ranges: &mut [TextRange],
) -> i32
    requires { IsUtf8 text.now }
    ensures found { (r : RegexValue) → (bound : Option ℕ) → content search.old.held ≡ OfSearch r bound →
        (t : Table) → (o : Options) → (p : Pattern) → StandsFor r t o p →
        (place : ℕ) → Begins (of_utf8 text.now) start place →
        IfCount result (λ count. IsAnswerTo (length (names_of_regex r)) (option_map (told (of_utf8 text.now)) (outcome_at t o p (chars text.now) place)) ranges.old count ranges.new) }
    ensures kept { content search.new.held ≡ content search.old.held }
    ensures refused { IfError result (MayRefuseSearch (content search.old.held) Yes utf8 text.now start) }
    ensures untouched { IfError result (λ _. ranges.new ≡ ranges.old) }
{
    count_code(match_at(alloc, search, Text::Utf8(valid(text)), start, ranges))
}

/// Finds the match that begins at `start`, in ASCII that the caller vouches for. `regress_calls::match_at` says what it answers and writes.
#[unsafe(no_mangle)]
pub extern "C" fn regress_raw_match_at_ascii(
    alloc: Global,
    search: &mut Slot,
    text: &[u8],
    start: usize,
    ranges: &mut [TextRange],
) -> i32
    requires { IsAscii text.now }
    ensures found { (r : RegexValue) → (bound : Option ℕ) → content search.old.held ≡ OfSearch r bound →
        (t : Table) → (o : Options) → (p : Pattern) → StandsFor r t o p →
        (place : ℕ) → Begins (of_utf8 text.now) start place →
        IfCount result (λ count. IsAnswerTo (length (names_of_regex r)) (option_map (told (of_utf8 text.now)) (outcome_at t o p (chars text.now) place)) ranges.old count ranges.new) }
    ensures kept { content search.new.held ≡ content search.old.held }
    ensures refused { IfError result (MayRefuseSearch (content search.old.held) Yes utf8 text.now start) }
    ensures untouched { IfError result (λ _. ranges.new ≡ ranges.old) }
{
    count_code(match_at(alloc, search, Text::Ascii(ascii(text)), start, ranges))
}

/// Finds the match that begins at `start`, in units of UTF-16. `regress_calls::match_at` says what it answers and writes.
#[unsafe(no_mangle)]
pub extern "C" fn regress_raw_match_at_utf16(
    alloc: Global,
    search: &mut Slot,
    text: &[u16],
    start: usize,
    ranges: &mut [TextRange],
) -> i32
    ensures found { (r : RegexValue) → (bound : Option ℕ) → content search.old.held ≡ OfSearch r bound →
        (t : Table) → (o : Options) → (p : Pattern) → StandsInUnits r t o p →
        (place : ℕ) → Begins (of_utf16 text.now) start place →
        IfCount result (λ count. IsAnswerTo (length (names_of_regex r)) (option_map (told (of_utf16 text.now)) (outcome_at t o p (characters text.now) place)) ranges.old count ranges.new) }
    ensures kept { content search.new.held ≡ content search.old.held }
    ensures refused { IfError result (MayRefuseSearch (content search.old.held) Yes utf16 text.now start) }
    ensures untouched { IfError result (λ _. ranges.new ≡ ranges.old) }
{
    count_code(match_at(alloc, search, Text::Utf16(text), start, ranges))
}

/// Finds the match that begins at `start`, in 16-bit units that are one character each. `regress_calls::match_at` says what it answers and writes.
#[unsafe(no_mangle)]
pub extern "C" fn regress_raw_match_at_ucs2(
    alloc: Global,
    search: &mut Slot,
    text: &[u16],
    start: usize,
    ranges: &mut [TextRange],
) -> i32
    ensures found { (r : RegexValue) → (bound : Option ℕ) → content search.old.held ≡ OfSearch r bound →
        (t : Table) → (o : Options) → (p : Pattern) → StandsInUnits r t o p →
        (place : ℕ) → Begins (of_ucs2 text.now) start place →
        IfCount result (λ count. IsAnswerTo (length (names_of_regex r)) (option_map (told (of_ucs2 text.now)) (outcome_at t o p text.now place)) ranges.old count ranges.new) }
    ensures kept { content search.new.held ≡ content search.old.held }
    ensures refused { IfError result (MayRefuseSearch (content search.old.held) Yes ucs2 text.now start) }
    ensures untouched { IfError result (λ _. ranges.new ≡ ranges.old) }
{
    count_code(match_at(alloc, search, Text::Ucs2(text), start, ranges))
}
