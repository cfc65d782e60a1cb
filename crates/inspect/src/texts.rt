//! Characters, bytes and intervals as text.

use regress_front::{CodePoint, Interval};
use std::alloc::{AllocError, Global};

/// A code point as a character in quotes, escaped where it can't be shown; a surrogate as `'\u{d83d}'`.
pub(crate) fn push_point(out: &mut String, point: CodePoint) -> Result<(), AllocError> {
    match char::from_u32(point) {
        Some(c) => write!(out, "{c:?}"),
        None => write!(out, "'\\u{{{point:x}}}'"),
    }
}

/// A byte: of ASCII as a character in quotes, and any other as `0xc3`.
pub(crate) fn push_byte(out: &mut String, byte: u8) -> Result<(), AllocError> {
    if byte < 0x80 {
        push_point(out, u32::from(byte))
    } else {
        write!(out, "0x{byte:x}")
    }
}

/// Code points one by one, as `['a', 'b']`.
pub(crate) fn push_points(out: &mut String, points: &[CodePoint]) -> Result<(), AllocError> {
    let mut before = "[";
    for point in points {
        out.push_str(before)?;
        push_point(out, *point)?;
        before = ", ";
    }
    close(out, before)
}

/// Bytes one by one, as `['a', 0xc3]`.
pub(crate) fn push_bytes(out: &mut String, bytes: &[u8]) -> Result<(), AllocError> {
    let mut before = "[";
    for byte in bytes {
        out.push_str(before)?;
        push_byte(out, *byte)?;
        before = ", ";
    }
    close(out, before)
}

/// Intervals of code points, as `['0', 'a'..='z']`.
pub(crate) fn push_intervals(out: &mut String, intervals: &[Interval]) -> Result<(), AllocError> {
    let mut before = "[";
    for interval in intervals {
        out.push_str(before)?;
        push_interval(out, interval.first, interval.last)?;
        before = ", ";
    }
    close(out, before)
}

/// Intervals of bytes, as `['a'..='z', 0xc3]`.
pub(crate) fn push_byte_intervals(
    out: &mut String,
    intervals: &[(u8, u8)],
) -> Result<(), AllocError> {
    let mut before = "[";
    for (first, last) in intervals {
        out.push_str(before)?;
        push_byte(out, *first)?;
        if first != last {
            out.push_str("..=")?;
            push_byte(out, *last)?;
        }
        before = ", ";
    }
    close(out, before)
}

/// The end of a list, of which `before` would stand before one more.
fn close(out: &mut String, before: &str) -> Result<(), AllocError> {
    out.push_str(if before == "[" { "[]" } else { "]" })
}

/// The code points from one to another, as `'a'..='z'`; a single one stands for itself.
pub(crate) fn push_interval(
    out: &mut String,
    first: CodePoint,
    last: CodePoint,
) -> Result<(), AllocError> {
    push_point(out, first)?;
    if first == last {
        return Ok(());
    }
    out.push_str("..=")?;
    push_point(out, last)
}

/// The characters of code points; `None` where a surrogate is among them.
fn text_of(alloc: Global, points: &[CodePoint]) -> Result<Option<String>, AllocError> {
    let mut text = String::new(alloc);
    for point in points {
        match char::from_u32(*point) {
            Some(c) => text.push(c)?,
            None => return Ok(None),
        }
    }
    Ok(Some(text))
}

/// Code points as a text in quotes; where a surrogate is among them, one by one.
pub(crate) fn push_text(
    alloc: Global,
    out: &mut String,
    points: &[CodePoint],
) -> Result<(), AllocError> {
    match text_of(alloc, points)? {
        Some(text) => push_quoted(out, text.as_str()),
        None => push_points(out, points),
    }
}

/// The bytes of a literal as a text in quotes; where they are no whole characters, one by one.
pub(crate) fn push_literal(out: &mut String, bytes: &[u8]) -> Result<(), AllocError> {
    match str::from_utf8(bytes) {
        Ok(text) => push_quoted(out, text),
        Err(_) => push_bytes(out, bytes),
    }
}

/// A text in quotes, with escapes for what can't be shown.
pub(crate) fn push_quoted(out: &mut String, text: &str) -> Result<(), AllocError> {
    write!(out, "{text:?}")
}

/// So many steps of two spaces, at the beginning of a line.
pub(crate) fn indent(out: &mut String, depth: usize) -> Result<(), AllocError> {
    for _ in 0..depth {
        out.push_str("  ")?;
    }
    Ok(())
}
