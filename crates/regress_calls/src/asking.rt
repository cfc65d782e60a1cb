//! What is asked of the pattern that a handle holds, and texts that are copied to a caller.
ghost use Rattle.std.specs.Prelude.{◌≡◌, ◌≤◌, ℕ, List, IfOk, IfErr, OnErr, OnOk, chars, encode_utf8_all, length, map, take};
ghost use Rattle.regress_meaning.specs.Flags.{Options};
ghost use Rattle.regress_meaning.specs.Literal.{escaped_text};
ghost use Rattle.regress_meaning.specs.Matches.{match_list};
ghost use Rattle.regress_meaning.specs.Offsets.{of_utf8, told};
ghost use Rattle.regress_meaning.specs.Pattern.{Pattern};
ghost use Rattle.regress_meaning.specs.Table.{Table};
ghost use Rattle.regress_replacing.specs.Replacing.{replaced};
ghost use Rattle.regress_replacing.specs.Substitution.{substitution};
ghost use Rattle.regress.specs.declared.api.Regex.{Regex as RegexValue};
ghost use Rattle.regress.specs.Linear.{is_linear};
ghost use Rattle.regress.specs.Standing.{StandsFor, names_of_regex, source_of};
ghost use Rattle.regress_calls.specs.Buffers.{IsCopied, IsCopiedIfMade};
ghost use Rattle.regress_calls.specs.Handles.{OfPattern, content};
ghost use Rattle.regress_calls.specs.Learning.{HoldsSame};
ghost use Rattle.regress_calls.specs.Names.{IsNumbered, AreWritten};
ghost use Rattle.regress_calls.specs.Refusals.{MayRefuseCopy, MayRefuseCopyOf, MayRefuseCounted, MayRefuseName, MayRefusePattern};
ghost use Rattle.regress_calls.specs.Stopping.{IsEnough};

use crate::buffer::copy_text;
use crate::numbers::write_numbers;
use crate::search::MAX_RANGES;
use crate::sharing::{learned_in, pattern_in};
use crate::slot::Slot;
use regress::ReplacementSyntax;
use regress_call_errors::{CallError, text_of_code};
use std::alloc::Global;

/// How many capturing groups the pattern has that a handle holds. Refused with `TooManyGroups` only where a pattern had more than
/// 65535, and no compiled one has.
pub fn group_count(alloc: Global, slot: &mut Slot) -> Result<usize, CallError>
    ensures count { (r : RegexValue) → content slot.old.held ≡ OfPattern r → IfOk result (λ n. n ≡ length (names_of_regex r)) }
    ensures few { IfOk result (λ n. n ≤ 65535) }
    ensures kept { content slot.new.held ≡ content slot.old.held }
    ensures refused { IfErr result (MayRefuseCounted (content slot.old.held)) }
{
    let regex = pattern_in(alloc, slot)?;
    let count = regex.group_names().len();
    if count >= MAX_RANGES {
        return Err(CallError::TooManyGroups);
    }
    Ok(count)
}

/// Whether the pattern that a handle holds is linear, as `Regex::learn_linear` tells it. What is learned the handle keeps; searches that are
/// made of it from then on know it too.
pub fn is_linear(alloc: Global, slot: &mut Slot) -> Result<bool, CallError>
    ensures linear { (r : RegexValue) → content slot.new.held ≡ OfPattern r → IfOk result (λ known. known ≡ is_linear r) }
    ensures same { HoldsSame (content slot.old.held) (content slot.new.held) }
    ensures untouched { OnErr result (content slot.new.held ≡ content slot.old.held) }
    ensures refused { IfErr result (MayRefusePattern (content slot.old.held)) }
{
    let regex = learned_in(alloc, slot)?;
    Ok(regex.is_linear())
}

/// Writes how many steps are enough for each search in a text of so many bytes or 16-bit units, or of fewer, as `Regex::linear_steps`
/// tells it: a search with such a bound, made from now on, is never refused as `TooManySteps` there. Writes the greatest number, which
/// stands for no bound, where the pattern isn't known to be linear, and where the text is too long. It learns as `is_linear` does.
pub fn linear_steps(
    alloc: Global,
    slot: &mut Slot,
    units: usize,
    steps: &mut usize,
) -> Result<(), CallError>
    ensures enough { (r : RegexValue) → content slot.new.held ≡ OfPattern r → OnOk result (IsEnough r units steps.new) }
    ensures same { HoldsSame (content slot.old.held) (content slot.new.held) }
    ensures untouched { OnErr result ((steps.new ≡ steps.old) × (content slot.new.held ≡ content slot.old.held)) }
    ensures refused { IfErr result (MayRefusePattern (content slot.old.held)) }
{
    let regex = learned_in(alloc, slot)?;
    *steps = regex.linear_steps(units).unwrap_or(usize::MAX);
    Ok(())
}

/// Copies the text of the pattern that a handle holds, as `Regex::as_str` has it.
pub fn pattern_text(
    alloc: Global,
    slot: &mut Slot,
    buffer: &mut [u8],
    written: &mut usize,
) -> Result<(), CallError>
    ensures text { (r : RegexValue) → content slot.old.held ≡ OfPattern r → IsCopiedIfMade (source_of r) buffer.old buffer.new written.new result }
    ensures kept { content slot.new.held ≡ content slot.old.held }
    ensures refused { IfErr result (MayRefuseCopyOf (content slot.old.held)) }
{
    let regex = pattern_in(alloc, slot)?;
    copy_text(regex.as_str().as_bytes(), buffer, written)
}

/// Copies the name of a group of the pattern that a handle holds, by its number, of which 1 is the first.
pub fn group_name(
    alloc: Global,
    slot: &mut Slot,
    number: usize,
    buffer: &mut [u8],
    written: &mut usize,
) -> Result<(), CallError>
    ensures text { (r : RegexValue) → content slot.old.held ≡ OfPattern r → (name : List ℕ) → IsNumbered (names_of_regex r) number name
        → IsCopiedIfMade name buffer.old buffer.new written.new result }
    ensures kept { content slot.new.held ≡ content slot.old.held }
    ensures refused { IfErr result (MayRefuseName (content slot.old.held) number) }
{
    let regex = pattern_in(alloc, slot)?;
    let names = regex.group_names();
    if number == 0 {
        return Err(CallError::NoGroup);
    }
    match names.get(number - 1) {
        Some(name) => copy_text(name.as_bytes(), buffer, written),
        None => Err(CallError::NoGroup),
    }
}

/// Writes the numbers of the groups with a name of the pattern that a handle holds, in order, as many as there is room for, and
/// tells how many have it. No group has the empty name. Refused as `group_count` is.
pub fn group_numbers(
    alloc: Global,
    slot: &mut Slot,
    name: &str,
    numbers: &mut [usize],
) -> Result<usize, CallError>
    ensures numbers { (r : RegexValue) → content slot.old.held ≡ OfPattern r → IfOk result (λ n. AreWritten (names_of_regex r) name.now numbers.old n numbers.new) }
    ensures few { IfOk result (λ n. n ≤ 65535) }
    ensures untouched { OnErr result (numbers.new ≡ numbers.old) }
    ensures kept { content slot.new.held ≡ content slot.old.held }
    ensures refused { IfErr result (MayRefuseCounted (content slot.old.held)) }
{
    let regex = pattern_in(alloc, slot)?;
    let names = regex.group_names();
    let count = names.len();
    if count >= MAX_RANGES {
        return Err(CallError::TooManyGroups);
    }
    Ok(write_numbers(names, name, numbers))
}

/// Copies a text with its first match replaced by a template of the standard ("GetSubstitution"), by the pattern that a handle
/// holds.
pub fn replace(
    alloc: Global,
    slot: &mut Slot,
    text: &str,
    replacement: &str,
    buffer: &mut [u8],
    written: &mut usize,
) -> Result<(), CallError>
    ensures replaced { (r : RegexValue) → content slot.old.held ≡ OfPattern r → (t : Table) → (o : Options) → (p : Pattern) → StandsFor r t o p →
        let items = take 1 (map (told (of_utf8 text.now)) (match_list t o p (chars text.now) 0)) in
        IsCopiedIfMade (replaced text.now items (map (substitution (names_of_regex r) replacement.now text.now) items)) buffer.old buffer.new written.new result }
    ensures kept { content slot.new.held ≡ content slot.old.held }
    ensures refused { IfErr result (MayRefuseCopyOf (content slot.old.held)) }
{
    let regex = pattern_in(alloc, slot)?;
    let made = regex.replace_as(text, replacement, ReplacementSyntax::EcmaScript)?;
    copy_text(made.as_bytes(), buffer, written)
}

/// Copies a text with each match replaced, as `replace` does.
pub fn replace_all(
    alloc: Global,
    slot: &mut Slot,
    text: &str,
    replacement: &str,
    buffer: &mut [u8],
    written: &mut usize,
) -> Result<(), CallError>
    ensures replaced { (r : RegexValue) → content slot.old.held ≡ OfPattern r → (t : Table) → (o : Options) → (p : Pattern) → StandsFor r t o p →
        let items = map (told (of_utf8 text.now)) (match_list t o p (chars text.now) 0) in
        IsCopiedIfMade (replaced text.now items (map (substitution (names_of_regex r) replacement.now text.now) items)) buffer.old buffer.new written.new result }
    ensures kept { content slot.new.held ≡ content slot.old.held }
    ensures refused { IfErr result (MayRefuseCopyOf (content slot.old.held)) }
{
    let regex = pattern_in(alloc, slot)?;
    let made = regex.replace_all_as(text, replacement, ReplacementSyntax::EcmaScript)?;
    copy_text(made.as_bytes(), buffer, written)
}

/// Copies the pattern that stands for a text as it is written, as `regress::escape` makes it.
pub fn escape(
    alloc: Global,
    text: &str,
    buffer: &mut [u8],
    written: &mut usize,
) -> Result<(), CallError>
    ensures escaped { IsCopiedIfMade (encode_utf8_all (escaped_text (chars text.now))) buffer.old buffer.new written.new result }
    ensures refused { IfErr result MayRefuseCopy }
{
    let escaped = regress::escape(alloc, text)?;
    copy_text(escaped.as_bytes(), buffer, written)
}

/// Copies the text of an error's number, as `text_of_code` has it.
pub fn error_text(code: i32, buffer: &mut [u8], written: &mut usize) -> Result<(), CallError>
    ensures refused { IfErr result (λ e. (e ≡ CallError.NoRoom) × (buffer.new ≡ buffer.old)) }
{
    copy_text(text_of_code(code).as_bytes(), buffer, written)
}
