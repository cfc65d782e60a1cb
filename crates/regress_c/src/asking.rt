//! Exports that ask a pattern, and that copy texts.
ghost use Rattle.std.specs.Prelude.{◌≡◌, ℕ, IsTrue, List, chars, encode_utf8_all, length, map, take};
ghost use Rattle.regress_meaning.specs.Flags.{Options};
ghost use Rattle.regress_meaning.specs.Literal.{escaped_text};
ghost use Rattle.regress_meaning.specs.Matches.{match_list};
ghost use Rattle.regress_meaning.specs.Offsets.{of_utf8, told};
ghost use Rattle.regress_meaning.specs.Pattern.{Pattern};
ghost use Rattle.regress_meaning.specs.Table.{Table};
ghost use Rattle.regress_replacing.specs.Replacing.{replaced};
ghost use Rattle.regress_replacing.specs.Substitution.{substitution};
ghost use Rattle.regress.specs.declared.api.Regex.{Regex as RegexValue};
ghost use Rattle.regress.specs.Linear.{is_linear};
ghost use Rattle.regress.specs.Standing.{StandsFor, names_of_regex, source_of};
ghost use Rattle.regress_call_errors.specs.declared.call_error.CallError.TheVariants.{NoRoom};
ghost use Rattle.regress_calls.specs.Codes.{IfCount, IfError};
ghost use Rattle.regress_calls.specs.Handles.{OfPattern, content};
ghost use Rattle.regress_calls.specs.Learning.{HoldsSame};
ghost use Rattle.regress_calls.specs.Names.{AreWritten, IsNumbered};
ghost use Rattle.regress_calls.specs.Refusals.{MayRefuseCopyOf, MayRefuseCounted, MayRefuseName, MayRefusePattern};
ghost use Rattle.regress_calls.specs.Stopping.{IsEnough};
ghost use Rattle.regress_c.specs.Checked.{IsTruthOf};
ghost use Rattle.regress_c.specs.Copied.{IsCopiedBy, MayRefuseChecked, MayRefuseCheckedCopy, MayRefuseCheckedCopyOf};

use crate::codes::{count_code, done_code, truth_code};
use regress_calls::{
    CallError, Slot, error_text, escape, group_count, group_name, group_numbers, is_linear,
    linear_steps, pattern_text, replace, replace_all, utf8,
};
use std::alloc::Global;

/// How many capturing groups a pattern has.
#[unsafe(no_mangle)]
pub extern "C" fn regress_raw_group_count(alloc: Global, pattern: &mut Slot) -> i32
    ensures count { (r : RegexValue) → content pattern.old.held ≡ OfPattern r → IfCount result (λ n. n ≡ length (names_of_regex r)) }
    ensures kept { content pattern.new.held ≡ content pattern.old.held }
    ensures refused { IfError result (MayRefuseCounted (content pattern.old.held)) }
{
    count_code(group_count(alloc, pattern))
}

/// Whether a pattern is linear: 1, or 0. What is learned the handle keeps.
#[unsafe(no_mangle)]
pub extern "C" fn regress_raw_is_linear(alloc: Global, pattern: &mut Slot) -> i32
    ensures linear { (r : RegexValue) → content pattern.new.held ≡ OfPattern r → IfCount result (λ count. IsTruthOf count (IsTrue (is_linear r))) }
    ensures same { HoldsSame (content pattern.old.held) (content pattern.new.held) }
    ensures untouched { IfError result (λ _. content pattern.new.held ≡ content pattern.old.held) }
    ensures refused { IfError result (MayRefusePattern (content pattern.old.held)) }
{
    truth_code(is_linear(alloc, pattern))
}

/// Writes how many steps are enough for each search in a text of so many bytes or 16-bit units, or of fewer. `regress_calls::linear_steps`
/// says what it writes, and what the handle keeps.
#[unsafe(no_mangle)]
pub extern "C" fn regress_raw_linear_steps(
    alloc: Global,
    pattern: &mut Slot,
    units: usize,
    steps: &mut usize,
) -> i32
    ensures enough { (r : RegexValue) → content pattern.new.held ≡ OfPattern r → IfCount result (λ _. IsEnough r units steps.new) }
    ensures same { HoldsSame (content pattern.old.held) (content pattern.new.held) }
    ensures untouched { IfError result (λ _. (steps.new ≡ steps.old) × (content pattern.new.held ≡ content pattern.old.held)) }
    ensures refused { IfError result (MayRefusePattern (content pattern.old.held)) }
{
    done_code(linear_steps(alloc, pattern, units, steps))
}

/// Copies the text of a pattern.
#[unsafe(no_mangle)]
pub extern "C" fn regress_raw_pattern_text(
    alloc: Global,
    pattern: &mut Slot,
    buffer: &mut [u8],
    written: &mut usize,
) -> i32
    ensures text { (r : RegexValue) → content pattern.old.held ≡ OfPattern r → IsCopiedBy (source_of r) buffer.old buffer.new written.new result }
    ensures kept { content pattern.new.held ≡ content pattern.old.held }
    ensures refused { IfError result (MayRefuseCopyOf (content pattern.old.held)) }
{
    done_code(pattern_text(alloc, pattern, buffer, written))
}

/// Copies the name of a group by its number.
#[unsafe(no_mangle)]
pub extern "C" fn regress_raw_group_name(
    alloc: Global,
    pattern: &mut Slot,
    number: usize,
    buffer: &mut [u8],
    written: &mut usize,
) -> i32
    ensures text { (r : RegexValue) → content pattern.old.held ≡ OfPattern r → (name : List ℕ) → IsNumbered (names_of_regex r) number name
        → IsCopiedBy name buffer.old buffer.new written.new result }
    ensures kept { content pattern.new.held ≡ content pattern.old.held }
    ensures refused { IfError result (MayRefuseName (content pattern.old.held) number) }
{
    done_code(group_name(alloc, pattern, number, buffer, written))
}

/// Writes the numbers of the groups that have a name, and tells how many have it.
#[unsafe(no_mangle)]
pub extern "C" fn regress_raw_group_numbers(
    alloc: Global,
    pattern: &mut Slot,
    name: &[u8],
    numbers: &mut [usize],
) -> i32
    ensures numbers { (r : RegexValue) → content pattern.old.held ≡ OfPattern r → IfCount result (λ n. AreWritten (names_of_regex r) name.now numbers.old n numbers.new) }
    ensures untouched { IfError result (λ _. numbers.new ≡ numbers.old) }
    ensures kept { content pattern.new.held ≡ content pattern.old.held }
    ensures refused { IfError result (MayRefuseChecked (content pattern.old.held) name.now) }
{
    let Ok(name) = utf8(name) else {
        return CallError::NotUtf8.code();
    };
    count_code(group_numbers(alloc, pattern, name, numbers))
}

/// Copies a text with its first match replaced by a template.
#[unsafe(no_mangle)]
pub extern "C" fn regress_raw_replace(
    alloc: Global,
    pattern: &mut Slot,
    text: &[u8],
    replacement: &[u8],
    buffer: &mut [u8],
    written: &mut usize,
) -> i32
    ensures replaced { (r : RegexValue) → content pattern.old.held ≡ OfPattern r → (t : Table) → (o : Options) → (p : Pattern) → StandsFor r t o p →
        let items = take 1 (map (told (of_utf8 text.now)) (match_list t o p (chars text.now) 0)) in
        IsCopiedBy (replaced text.now items (map (substitution (names_of_regex r) replacement.now text.now) items)) buffer.old buffer.new written.new result }
    ensures kept { content pattern.new.held ≡ content pattern.old.held }
    ensures refused { IfError result (MayRefuseCheckedCopyOf (content pattern.old.held) text.now replacement.now) }
{
    let Ok(text) = utf8(text) else {
        return CallError::NotUtf8.code();
    };
    let Ok(with) = utf8(replacement) else {
        return CallError::NotUtf8.code();
    };
    done_code(replace(alloc, pattern, text, with, buffer, written))
}

/// Copies a text with each match replaced by a template.
#[unsafe(no_mangle)]
pub extern "C" fn regress_raw_replace_all(
    alloc: Global,
    pattern: &mut Slot,
    text: &[u8],
    replacement: &[u8],
    buffer: &mut [u8],
    written: &mut usize,
) -> i32
    ensures replaced { (r : RegexValue) → content pattern.old.held ≡ OfPattern r → (t : Table) → (o : Options) → (p : Pattern) → StandsFor r t o p →
        let items = map (told (of_utf8 text.now)) (match_list t o p (chars text.now) 0) in
        IsCopiedBy (replaced text.now items (map (substitution (names_of_regex r) replacement.now text.now) items)) buffer.old buffer.new written.new result }
    ensures kept { content pattern.new.held ≡ content pattern.old.held }
    ensures refused { IfError result (MayRefuseCheckedCopyOf (content pattern.old.held) text.now replacement.now) }
{
    let Ok(text) = utf8(text) else {
        return CallError::NotUtf8.code();
    };
    let Ok(with) = utf8(replacement) else {
        return CallError::NotUtf8.code();
    };
    done_code(replace_all(alloc, pattern, text, with, buffer, written))
}

/// Copies the pattern that stands for a text as it is written.
#[unsafe(no_mangle)]
pub extern "C" fn regress_raw_escape(
    alloc: Global,
    text: &[u8],
    buffer: &mut [u8],
    written: &mut usize,
) -> i32
    ensures escaped { IsCopiedBy (encode_utf8_all (escaped_text (chars text.now))) buffer.old buffer.new written.new result }
    ensures refused { IfError result (MayRefuseCheckedCopy text.now) }
{
    let Ok(text) = utf8(text) else {
        return CallError::NotUtf8.code();
    };
    done_code(escape(alloc, text, buffer, written))
}

/// Copies the text of an error's number.
#[unsafe(no_mangle)]
pub extern "C" fn regress_raw_error_text(code: i32, buffer: &mut [u8], written: &mut usize) -> i32
    ensures refused { IfError result (λ e. (e ≡ NoRoom) × (buffer.new ≡ buffer.old)) }
{
    done_code(error_text(code, buffer, written))
}
