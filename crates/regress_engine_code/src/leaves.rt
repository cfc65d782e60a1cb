//! The instructions of sets and literals.
ghost use Rattle.std.specs.Prelude.{◌≡◌, ◌<◌, ◌≤◌, ◌++◌, [], length, map, chars, All, IfOk, OnOk, if◌then◌else◌};
ghost use Rattle.std.specs.Str.{IsUtf8};
ghost use Rattle.regress_front_nodes.specs.Forms.{in_reading_order};
ghost use Rattle.regress_engine_insn.specs.Instructions.{char, byte_seq};
ghost use Rattle.regress_engine_insn.specs.InsnViews.{instruction};
ghost use Rattle.regress_engine_insn.specs.Layout.{most_bytes, chunks, char_set_code, ascii_set_code, byte_set_code};

use regress_engine_insn::{Insn, MAX_BYTE_SEQ_LENGTH};
use regress_front_bytes::ByteArraySet;
use regress_front_core::MAX_CHAR_SET_LENGTH;
use regress_front_tables::CodePoint;
use std::alloc::{AllocError, Global};

/// One of at most four code points: the last fills up the places that are left.
pub(crate) fn char_set(chars: &[CodePoint]) -> Insn
    requires { length chars.now ≤ 4 }
    ensures { instruction result ≡ char_set_code chars.now }
{
    match chars {
        [] => Insn::JustFail,
        [a] => Insn::CharSet([*a, *a, *a, *a]),
        [a, b] => Insn::CharSet([*a, *b, *b, *b]),
        [a, b, c] => Insn::CharSet([*a, *b, *c, *c]),
        [a, b, c, d] => Insn::CharSet([*a, *b, *c, *d]),
        _ => unreachable!(),
    }
}

/// One of at most four ASCII characters, in a program of bytes.
fn ascii_set(bytes: &[u8]) -> Insn
    requires { length bytes.now ≤ 4 }
    ensures { instruction result ≡ ascii_set_code bytes.now }
{
    match bytes {
        [] => Insn::JustFail,
        [a] => Insn::ByteSet2(ByteArraySet([*a, *a])),
        [a, b] => Insn::ByteSet2(ByteArraySet([*a, *b])),
        [a, b, c] => Insn::ByteSet3(ByteArraySet([*a, *b, *c])),
        [a, b, c, d] => Insn::ByteSet4(ByteArraySet([*a, *b, *c, *d])),
        _ => unreachable!(),
    }
}

/// One of at most four ASCII characters.
pub(crate) fn byte_set(bytes: &[u8], units: bool) -> Insn
    requires { length bytes.now ≤ 4 }
    ensures { instruction result ≡ byte_set_code units bytes.now }
{
    if !units {
        return ascii_set(bytes);
    }
    let mut chars = [0; MAX_CHAR_SET_LENGTH];
    for (i, byte) in bytes.iter().enumerate() {
        chars[i] = u32::from(*byte);
    }
    char_set(&chars[..bytes.len()])
}

/// The bytes as an array of `N`.
fn array<const N: usize>(bytes: &[u8]) -> [u8; N]
    requires { length bytes.now ≡ N }
    ensures { result ≡ bytes.now }
{
    <[u8; N]>::try_from(bytes).unwrap()
}

/// At least one byte and at most 16.
fn byte_sequence(bytes: &[u8]) -> Insn
    requires some { 0 < length bytes.now }
    requires few { length bytes.now ≤ most_bytes }
    ensures { instruction result ≡ byte_seq bytes.now }
{
    match bytes.len() {
        1 => Insn::ByteSeq1(array(bytes)),
        2 => Insn::ByteSeq2(array(bytes)),
        3 => Insn::ByteSeq3(array(bytes)),
        4 => Insn::ByteSeq4(array(bytes)),
        5 => Insn::ByteSeq5(array(bytes)),
        6 => Insn::ByteSeq6(array(bytes)),
        7 => Insn::ByteSeq7(array(bytes)),
        8 => Insn::ByteSeq8(array(bytes)),
        9 => Insn::ByteSeq9(array(bytes)),
        10 => Insn::ByteSeq10(array(bytes)),
        11 => Insn::ByteSeq11(array(bytes)),
        12 => Insn::ByteSeq12(array(bytes)),
        13 => Insn::ByteSeq13(array(bytes)),
        14 => Insn::ByteSeq14(array(bytes)),
        15 => Insn::ByteSeq15(array(bytes)),
        16 => Insn::ByteSeq16(array(bytes)),
        _ => unreachable!(),
    }
}

/// The bytes of a literal, from first to last, 16 at once.
fn byte_sequences(alloc: Global, bytes: &[u8]) -> Result<Vec<Insn>, AllocError>
    ensures { IfOk result (λ insns. map instruction insns.items ≡ map byte_seq (chunks (length bytes.now) bytes.now)) }
{
    let mut insns = Vec::new(alloc);
    let mut rest = bytes;
    while !rest.is_empty() {
        let (chunk, behind) = rest.split_at(rest.len().min(MAX_BYTE_SEQ_LENGTH));
        insns.push(byte_sequence(chunk))?;
        rest = behind;
    }
    Ok(insns)
}

/// The characters of a text, from first to last.
fn characters(alloc: Global, text: &str) -> Result<Vec<Insn>, AllocError>
    ensures { IfOk result (λ insns. insns.items ≡ map (λ c. Insn.Char c) (chars text.now)) }
{
    text.chars()
        .map(|c| Insn::Char(CodePoint::from(c)))
        .collect(alloc)
}

/// A literal from first to last: its characters in a program of units, and else 16 bytes at once.
fn in_text_order(alloc: Global, bytes: &[u8], units: bool) -> Result<Vec<Insn>, AllocError>
    requires { IsUtf8 bytes.now }
    ensures { IfOk result (λ insns. map instruction insns.items
        ≡ (if units then map char (chars bytes.now) else map byte_seq (chunks (length bytes.now) bytes.now))) }
{
    if !units {
        return byte_sequences(alloc, bytes);
    }
    match str::from_utf8(bytes) {
        Ok(text) => characters(alloc, text),
        Err(_) => unreachable!(),
    }
}

/// A literal in the order of reading: from last to first in a lookbehind.
pub(crate) fn literal(
    alloc: Global,
    bytes: &[u8],
    backward: bool,
    units: bool,
) -> Result<Vec<Insn>, AllocError>
    requires { IsUtf8 bytes.now }
    ensures { IfOk result (λ insns. map instruction insns.items ≡ in_reading_order backward
        (if units then map char (chars bytes.now) else map byte_seq (chunks (length bytes.now) bytes.now))) }
{
    let mut insns = in_text_order(alloc, bytes, units)?;
    if backward {
        insns.reverse();
    }
    Ok(insns)
}

/// Writes the characters of a text behind other instructions.
fn push_characters(insns: &mut Vec<Insn>, text: &str) -> Result<(), AllocError>
    ensures { OnOk result (insns.new.items ≡ insns.old.items ++ map (λ c. Insn.Char c) (chars text.now)) }
{
    for c in text.chars() {
        insns.push(Insn::Char(CodePoint::from(c)))?;
    }
    Ok(())
}

/// Writes a literal behind other instructions, in the order of reading. In a program of units it has an instruction for each
/// character, so these are written where they stay.
pub(crate) fn push_literal(
    alloc: Global,
    insns: &mut Vec<Insn>,
    bytes: &[u8],
    backward: bool,
    units: bool,
) -> Result<(), AllocError>
    requires { IsUtf8 bytes.now }
    ensures { OnOk result (map instruction insns.new.items ≡ map instruction insns.old.items ++ in_reading_order backward
        (if units then map char (chars bytes.now) else map byte_seq (chunks (length bytes.now) bytes.now))) }
{
    if backward || !units {
        let mut written = literal(alloc, bytes, backward, units)?;
        insns.append(&mut written)?;
        return Ok(());
    }
    match str::from_utf8(bytes) {
        Ok(text) => push_characters(insns, text),
        Err(_) => unreachable!(),
    }
}
