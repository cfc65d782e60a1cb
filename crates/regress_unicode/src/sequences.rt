//! Properties of strings by their keys ("Binary Unicode properties of strings").
ghost use Rattle.std.specs.Prelude.{◌≡◌, ◌==◌, ◌<◌, ◌++◌, ◌∷◌, [], map, chars, IfOk, OnOk, IsOkUnless};
ghost use Rattle.std.specs.List.{flat_map, slice_split};
ghost use Rattle.regress_meaning.specs.Table.{code_points};
ghost use Rattle.regress_front_tables.specs.Entries.{entry_of};
ghost use Rattle.regress_unicode.specs.Sequences.{unicode_sequences, kinds, strings_of, between_spaces, basic_emoji, basic_of, emoji_of, is_shown_alone, is_shown_marked};

use crate::emoji::{FLAGS, JOINED, MODIFIED, TAGGED};
use regress_front_tables::{CODE_POINT_MAX, CodePoint, TableError, TableParts};
use std::alloc::{AllocError, Global};
use unicode::properties::{
    is_emoji, is_emoji_component, is_emoji_presentation, is_regional_indicator,
};

/// Asks that the character before it is shown as an emoji.
const SHOWN_AS_EMOJI: CodePoint = 0xFE0F;

/// All properties of strings, each under its key.
pub(crate) fn sequences(alloc: Global) -> Result<Vec<(String, Vec<Vec<CodePoint>>)>, TableError>
    ensures listed { IfOk result (λ sequences. map (entry_of strings_of) sequences.items ≡ unicode_sequences) }
    ensures refused { IsOkUnless result TableError.OutOfMemory }
{
    let mut sequences = kinds(alloc)?;
    let all = all_strings(alloc, &sequences)?;
    push_kind(&mut sequences, "RGI_Emoji", all)?;
    Ok(sequences)
}

/// All but `RGI_Emoji`. The keycaps are those of the small table.
fn kinds(alloc: Global) -> Result<Vec<(String, Vec<Vec<CodePoint>>)>, TableError>
    ensures listed { IfOk result (λ sequences. map (entry_of strings_of) sequences.items ≡ kinds) }
    ensures refused { IsOkUnless result TableError.OutOfMemory }
{
    let basic = basic_emoji(alloc)?;
    let modified = between_spaces(alloc, MODIFIED)?;
    let flags = between_spaces(alloc, FLAGS)?;
    let tagged = between_spaces(alloc, TAGGED)?;
    let joined = between_spaces(alloc, JOINED)?;
    let mut sequences = TableParts::small(alloc)?.sequences;
    push_kind(&mut sequences, "Basic_Emoji", basic)?;
    push_kind(&mut sequences, "RGI_Emoji_Modifier_Sequence", modified)?;
    push_kind(&mut sequences, "RGI_Emoji_Flag_Sequence", flags)?;
    push_kind(&mut sequences, "RGI_Emoji_Tag_Sequence", tagged)?;
    push_kind(&mut sequences, "RGI_Emoji_ZWJ_Sequence", joined)?;
    Ok(sequences)
}

/// Adds strings under a key.
fn push_kind(
    sequences: &mut Vec<(String, Vec<Vec<CodePoint>>)>,
    key: &str,
    strings: Vec<Vec<CodePoint>>,
) -> Result<(), AllocError>
    ensures { OnOk result (map (entry_of strings_of) sequences.new.items ≡ map (entry_of strings_of) sequences.old.items ++ (chars key.now, strings_of strings) ∷ []) }
{
    let name = String::from_str(*sequences.allocator(), key)?;
    sequences.push((name, strings))?;
    Ok(())
}

/// The emoji of one character, some with FE0F behind, from low to high.
fn basic_emoji(alloc: Global) -> Result<Vec<Vec<CodePoint>>, AllocError>
    ensures { IfOk result (λ strings. strings_of strings ≡ basic_emoji) }
{
    let mut strings = Vec::new(alloc);
    for c in 0..CODE_POINT_MAX + 1 {
        push_basic(&mut strings, c)?;
    }
    Ok(strings)
}

/// Adds the emoji of a code point, if it has one. A surrogate has none.
fn push_basic(strings: &mut Vec<Vec<CodePoint>>, c: CodePoint) -> Result<(), AllocError>
    requires { c < code_points }
    ensures { OnOk result (strings_of strings.new ≡ strings_of strings.old ++ basic_of c) }
{
    match char::from_u32(c) {
        Some(letter) => push_emoji(strings, letter),
        None => Ok(()),
    }
}

/// Adds the emoji of a character, if it has one.
fn push_emoji(strings: &mut Vec<Vec<CodePoint>>, letter: char) -> Result<(), AllocError>
    ensures { OnOk result (strings_of strings.new ≡ strings_of strings.old ++ emoji_of letter) }
{
    let alloc = *strings.allocator();
    if is_shown_alone(letter) {
        strings.push(vec![in alloc; u32::from(letter)]?)?;
    } else if is_shown_marked(letter) {
        strings.push(vec![in alloc; u32::from(letter), SHOWN_AS_EMOJI]?)?;
    }
    Ok(())
}

/// Whether a character is shown as an emoji by itself.
fn is_shown_alone(letter: char) -> bool
    ensures { result ≡ is_shown_alone letter }
{
    is_emoji_presentation(letter) && !is_regional_indicator(letter)
}

/// Whether a character is shown as an emoji with FE0F behind it.
fn is_shown_marked(letter: char) -> bool
    ensures { result ≡ is_shown_marked letter }
{
    is_emoji(letter) && !(is_emoji_presentation(letter) || is_emoji_component(letter))
}

/// The strings of a text, which spaces part.
fn between_spaces(alloc: Global, text: &str) -> Result<Vec<Vec<CodePoint>>, AllocError>
    ensures { IfOk result (λ strings. strings_of strings ≡ between_spaces text.now) }
{
    let parts = parts(alloc, text)?;
    let mut strings = Vec::new(alloc);
    for part in &parts {
        strings.push(characters(alloc, part)?)?;
    }
    Ok(strings)
}

/// The parts of a text between its spaces.
fn parts(alloc: Global, text: &str) -> Result<Vec<&str>, AllocError>
    ensures { IfOk result (λ parts. map (λ p. p.now) parts.items ≡ slice_split (λ b. b == 0x20) text.now) }
{
    text.split(' ').collect(alloc)
}

/// The characters of a text.
fn characters(alloc: Global, text: &str) -> Result<Vec<CodePoint>, AllocError>
    ensures { IfOk result (λ string. string.items ≡ chars text.now) }
{
    text.chars().map(u32::from).collect(alloc)
}

/// The strings of all these properties.
fn all_strings(
    alloc: Global,
    sequences: &[(String, Vec<Vec<CodePoint>>)],
) -> Result<Vec<Vec<CodePoint>>, AllocError>
    ensures { IfOk result (λ strings. strings_of strings ≡ flat_map (λ s. strings_of s.1) sequences.now) }
{
    let mut all = Vec::new(alloc);
    for (_, strings) in sequences {
        push_copies(&mut all, strings)?;
    }
    Ok(all)
}

/// Adds copies of strings.
fn push_copies(all: &mut Vec<Vec<CodePoint>>, strings: &[Vec<CodePoint>]) -> Result<(), AllocError>
    ensures { OnOk result (strings_of all.new ≡ strings_of all.old ++ map (λ s. s.items) strings.now) }
{
    let alloc = *all.allocator();
    for string in strings {
        all.push(Vec::from_slice(alloc, string)?)?;
    }
    Ok(())
}
