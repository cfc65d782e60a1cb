//! Sets of characters and of bytes, counts of repetitions, and names of groups.

use crate::texts::{push_byte_intervals, push_intervals, push_quoted};
use regress_front::{
    AsciiBitmap, BracketContents, ByteBitmap, ByteSet, CaptureGroupName, CodePointSet, Quantifier,
};
use std::alloc::{AllocError, Global};

/// A set of code points as its intervals.
fn push_set(out: &mut String, set: &CodePointSet) -> Result<(), AllocError> {
    push_intervals(out, set.intervals())
}

/// A class: its set, with `not` before it where the characters outside are matched.
pub(crate) fn push_bracket(out: &mut String, contents: &BracketContents) -> Result<(), AllocError> {
    if contents.invert {
        out.push_str("not ")?;
    }
    push_set(out, &contents.cps)
}

/// Adds a byte behind those before it, to the last interval where it adjoins that.
fn add_byte(intervals: &mut Vec<(u8, u8)>, byte: u8) -> Result<(), AllocError> {
    if let Some((_, last)) = intervals.last_mut()
        && last.checked_add(1) == Some(byte)
    {
        *last = byte;
        return Ok(());
    }
    Ok(intervals.push((byte, byte))?)
}

/// The set of ASCII characters as its intervals.
pub(crate) fn push_ascii(
    alloc: Global,
    out: &mut String,
    set: &AsciiBitmap,
) -> Result<(), AllocError> {
    let mut intervals = Vec::new(alloc);
    for byte in 0..=0x7F {
        if set.contains(byte) {
            add_byte(&mut intervals, byte)?;
        }
    }
    push_byte_intervals(out, &intervals)
}

/// The set of bytes as its intervals.
pub(crate) fn push_bitmap(
    alloc: Global,
    out: &mut String,
    set: &ByteBitmap,
) -> Result<(), AllocError> {
    let mut intervals = Vec::new(alloc);
    for byte in 0..=u8::MAX {
        if set.contains(byte) {
            add_byte(&mut intervals, byte)?;
        }
    }
    push_byte_intervals(out, &intervals)
}

/// How often something is matched, as patterns write it: `{2,}`, `{2,3}`, and lazy `{2,3}?`.
pub(crate) fn push_quantifier(out: &mut String, quant: &Quantifier) -> Result<(), AllocError> {
    let min = quant.min;
    write!(out, "{{{min},")?;
    if let Some(max) = quant.max {
        write!(out, "{max}")?;
    }
    out.push_str(if quant.greedy { "}" } else { "}?" })
}

/// The name of a group behind its number, where it has one.
pub(crate) fn push_name(
    out: &mut String,
    name: &Option<CaptureGroupName>,
) -> Result<(), AllocError> {
    match name {
        Some(name) => {
            out.push(' ')?;
            push_quoted(out, name.as_str())
        }
        None => Ok(()),
    }
}
