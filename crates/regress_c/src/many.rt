//! Exports that find matches one after another.
ghost use Rattle.std.specs.Prelude.{◌≡◌, ◌⊎◌, ℕ, Option, chars, length, negsuc};
ghost use Rattle.std.specs.Str.{IsAscii, IsUtf8};
ghost use Rattle.regress_meaning.specs.Flags.{Options};
ghost use Rattle.regress_meaning.specs.Matches.{match_list};
ghost use Rattle.regress_meaning.specs.Offsets.{Begins, characters, of_ucs2, of_utf8, of_utf16};
ghost use Rattle.regress_meaning.specs.Pattern.{Pattern};
ghost use Rattle.regress_meaning.specs.Table.{Table};
ghost use Rattle.regress_engine_input.specs.Views.{utf8, utf16, ucs2};
ghost use Rattle.regress.specs.declared.api.Regex.{Regex as RegexValue};
ghost use Rattle.regress.specs.Standing.{StandsFor, StandsInUnits, names_of_regex};
ghost use Rattle.regress_calls.specs.Codes.{IfCount, IfError};
ghost use Rattle.regress_calls.specs.Handles.{OfSearch, content};
ghost use Rattle.regress_calls.specs.Many.{FoundAsManyAsFit, FoundMany};
ghost use Rattle.regress_calls.specs.Refusals.{MayRefuseMany};
ghost use Rattle.regress_c.specs.Checked.{MayRefuseCheckedMany};

use crate::codes::done_code;
use crate::texts::{ascii, valid};
use regress_calls::{CallError, Slot, Text, TextRange, find_many, utf8};
use std::alloc::Global;

/// Finds matches one after another from `start` on, in a text that is checked to be UTF-8, as many as there is room for. `regress_calls::find_many` says
/// what it writes.
#[unsafe(no_mangle)]
pub extern "C" fn regress_raw_find_many(
    alloc: Global,
    search: &mut Slot,
    text: &[u8],
    start: &mut usize,
    ranges: &mut [TextRange],
    width: usize,
    found: &mut usize,
) -> i32
    ensures found { (r : RegexValue) → (bound : Option ℕ) → content search.old.held ≡ OfSearch r bound →
        (t : Table) → (o : Options) → (p : Pattern) → StandsFor r t o p →
        (place : ℕ) → Begins (of_utf8 text.now) start.old place →
        IfCount result (λ _. FoundAsManyAsFit (of_utf8 text.now) (match_list t o p (chars text.now)) (length (names_of_regex r)) width place found.new start.new ranges.new) }
    ensures before { (r : RegexValue) → (bound : Option ℕ) → content search.old.held ≡ OfSearch r bound →
        (t : Table) → (o : Options) → (p : Pattern) → StandsFor r t o p →
        (place : ℕ) → Begins (of_utf8 text.now) start.old place →
        (result ≡ negsuc 0) ⊎ (result ≡ negsuc 18) → FoundMany (of_utf8 text.now) (match_list t o p (chars text.now)) (length (names_of_regex r)) width place found.new start.new ranges.new }
    ensures kept { content search.new.held ≡ content search.old.held }
    ensures refused { IfError result (MayRefuseCheckedMany (content search.old.held) text.now start.old start.new (length ranges.old) width) }
{
    let Ok(text) = utf8(text) else {
        return CallError::NotUtf8.code();
    };
    done_code(find_many(alloc, search, Text::Utf8(text), start, ranges, width, found))
}

/// Finds matches one after another from `start` on, in UTF-8 that the caller vouches for, as many as there is room for. `regress_calls::find_many` says
/// what it writes.
#[unsafe(no_mangle)]
pub extern "C" fn regress_raw_find_many_valid(
    alloc: Global,
    search: &mut Slot,
    text: &[u8],
    start: &mut usize,
    ranges: &mut [TextRange],
    width: usize,
    found: &mut usize,
) -> i32
    requires { IsUtf8 text.now }
    ensures found { (r : RegexValue) → (bound : Option ℕ) → content search.old.held ≡ OfSearch r bound →
        (t : Table) → (o : Options) → (p : Pattern) → StandsFor r t o p →
        (place : ℕ) → Begins (of_utf8 text.now) start.old place →
        IfCount result (λ _. FoundAsManyAsFit (of_utf8 text.now) (match_list t o p (chars text.now)) (length (names_of_regex r)) width place found.new start.new ranges.new) }
    ensures before { (r : RegexValue) → (bound : Option ℕ) → content search.old.held ≡ OfSearch r bound →
        (t : Table) → (o : Options) → (p : Pattern) → StandsFor r t o p →
        (place : ℕ) → Begins (of_utf8 text.now) start.old place →
        (result ≡ negsuc 0) ⊎ (result ≡ negsuc 18) → FoundMany (of_utf8 text.now) (match_list t o p (chars text.now)) (length (names_of_regex r)) width place found.new start.new ranges.new }
    ensures kept { content search.new.held ≡ content search.old.held }
    ensures refused { IfError result (MayRefuseMany (content search.old.held) utf8 text.now start.old start.new (length ranges.old) width) }
{
    done_code(find_many(
        alloc,
        search,
        Text::Utf8(valid(text)),
        start,
        ranges,
        width,
        found,
    ))
}

/// Finds matches one after another from `start` on, in ASCII that the caller vouches for, as many as there is room for. `regress_calls::find_many` says
/// what it writes.
#[unsafe(no_mangle)]
pub extern "C" fn regress_raw_find_many_ascii(
    alloc: Global,
    search: &mut Slot,
    text: &[u8],
    start: &mut usize,
    ranges: &mut [TextRange],
    width: usize,
    found: &mut usize,
) -> i32
    requires { IsAscii text.now }
    ensures found { (r : RegexValue) → (bound : Option ℕ) → content search.old.held ≡ OfSearch r bound →
        (t : Table) → (o : Options) → (p : Pattern) → StandsFor r t o p →
        (place : ℕ) → Begins (of_utf8 text.now) start.old place →
        IfCount result (λ _. FoundAsManyAsFit (of_utf8 text.now) (match_list t o p (chars text.now)) (length (names_of_regex r)) width place found.new start.new ranges.new) }
    ensures before { (r : RegexValue) → (bound : Option ℕ) → content search.old.held ≡ OfSearch r bound →
        (t : Table) → (o : Options) → (p : Pattern) → StandsFor r t o p →
        (place : ℕ) → Begins (of_utf8 text.now) start.old place →
        (result ≡ negsuc 0) ⊎ (result ≡ negsuc 18) → FoundMany (of_utf8 text.now) (match_list t o p (chars text.now)) (length (names_of_regex r)) width place found.new start.new ranges.new }
    ensures kept { content search.new.held ≡ content search.old.held }
    ensures refused { IfError result (MayRefuseMany (content search.old.held) utf8 text.now start.old start.new (length ranges.old) width) }
{
    done_code(find_many(
        alloc,
        search,
        Text::Ascii(ascii(text)),
        start,
        ranges,
        width,
        found,
    ))
}

/// Finds matches one after another from `start` on, in units of UTF-16, as many as there is room for. `regress_calls::find_many` says
/// what it writes.
#[unsafe(no_mangle)]
pub extern "C" fn regress_raw_find_many_utf16(
    alloc: Global,
    search: &mut Slot,
    text: &[u16],
    start: &mut usize,
    ranges: &mut [TextRange],
    width: usize,
    found: &mut usize,
) -> i32
    ensures found { (r : RegexValue) → (bound : Option ℕ) → content search.old.held ≡ OfSearch r bound →
        (t : Table) → (o : Options) → (p : Pattern) → StandsInUnits r t o p →
        (place : ℕ) → Begins (of_utf16 text.now) start.old place →
        IfCount result (λ _. FoundAsManyAsFit (of_utf16 text.now) (match_list t o p (characters text.now)) (length (names_of_regex r)) width place found.new start.new ranges.new) }
    ensures before { (r : RegexValue) → (bound : Option ℕ) → content search.old.held ≡ OfSearch r bound →
        (t : Table) → (o : Options) → (p : Pattern) → StandsInUnits r t o p →
        (place : ℕ) → Begins (of_utf16 text.now) start.old place →
        (result ≡ negsuc 0) ⊎ (result ≡ negsuc 18) → FoundMany (of_utf16 text.now) (match_list t o p (characters text.now)) (length (names_of_regex r)) width place found.new start.new ranges.new }
    ensures kept { content search.new.held ≡ content search.old.held }
    ensures refused { IfError result (MayRefuseMany (content search.old.held) utf16 text.now start.old start.new (length ranges.old) width) }
{
    done_code(find_many(
        alloc,
        search,
        Text::Utf16(text),
        start,
        ranges,
        width,
        found,
    ))
}

/// Finds matches one after another from `start` on, in 16-bit units that are one character each, as many as there is room for. `regress_calls::find_many` says
/// what it writes.
#[unsafe(no_mangle)]
pub extern "C" fn regress_raw_find_many_ucs2(
    alloc: Global,
    search: &mut Slot,
    text: &[u16],
    start: &mut usize,
    ranges: &mut [TextRange],
    width: usize,
    found: &mut usize,
) -> i32
    ensures found { (r : RegexValue) → (bound : Option ℕ) → content search.old.held ≡ OfSearch r bound →
        (t : Table) → (o : Options) → (p : Pattern) → StandsInUnits r t o p →
        (place : ℕ) → Begins (of_ucs2 text.now) start.old place →
        IfCount result (λ _. FoundAsManyAsFit (of_ucs2 text.now) (match_list t o p text.now) (length (names_of_regex r)) width place found.new start.new ranges.new) }
    ensures before { (r : RegexValue) → (bound : Option ℕ) → content search.old.held ≡ OfSearch r bound →
        (t : Table) → (o : Options) → (p : Pattern) → StandsInUnits r t o p →
        (place : ℕ) → Begins (of_ucs2 text.now) start.old place →
        (result ≡ negsuc 0) ⊎ (result ≡ negsuc 18) → FoundMany (of_ucs2 text.now) (match_list t o p text.now) (length (names_of_regex r)) width place found.new start.new ranges.new }
    ensures kept { content search.new.held ≡ content search.old.held }
    ensures refused { IfError result (MayRefuseMany (content search.old.held) ucs2 text.now start.old start.new (length ranges.old) width) }
{
    done_code(find_many(alloc, search, Text::Ucs2(text), start, ranges, width, found))
}
