//! What fields stand for: their escapes, and texts as code points, as characters and as 16-bit units.

use crate::fault::RowError;
use std::alloc::{AllocError, Global};

/// The number that hexadecimal digits tell.
fn hex(digits: &str) -> Option<u32> {
    if !digits.bytes().all(|digit| digit.is_ascii_hexdigit()) {
        return None;
    }
    u32::from_str_radix(digits, 16).ok()
}

/// The character that a letter behind a backslash stands for, or what stands for itself there.
fn control(letter: &str) -> Option<char> {
    match letter {
        "t" => Some('\t'),
        "n" => Some('\n'),
        "r" => Some('\r'),
        _ => None,
    }
}

/// The code point of the escape that begins a text which stood behind a backslash, and what stands behind the escape.
fn unescaped(text: &str) -> Option<(u32, &str)> {
    if let Some(braced) = text.strip_prefix("u{") {
        let (digits, behind) = braced.split_once('}')?;
        let point = char::from_u32(hex(digits)?)?;
        return Some((u32::from(point), behind));
    }
    if let Some(digits) = text.strip_prefix('u') {
        let unit = hex(digits.get(..4)?)?;
        if !(0xD800..0xE000).contains(&unit) {
            return None;
        }
        return Some((unit, digits.get(4..)?));
    }
    let point = control(text.get(..1)?)?;
    Some((u32::from(point), text.get(1..)?))
}

/// Adds the characters of a text that has no escapes.
fn push_plain(points: &mut Vec<u32>, text: &str) -> Result<(), RowError> {
    for c in text.chars() {
        points.push(u32::from(c))?;
    }
    Ok(())
}

/// The code points that a field stands for: `\\`, `\t`, `\n`, `\r`, `\u{..}` for a character and `\uD83D` for a surrogate
/// are escapes, and all else stands for itself. Errs with `Escape` at any other backslash, and where memory is refused.
///
/// ```rust
/// let points = points_of(alloc, r"\u{61}\uD83D")?; // 61 and D83D
/// ```
pub fn points_of(alloc: Global, field: &str) -> Result<Vec<u32>, RowError> {
    let mut points = Vec::new(alloc);
    let mut is_escape = false;
    for piece in field.split('\\') {
        if is_escape && piece.is_empty() {
            points.push(u32::from('\\'))?;
            is_escape = false;
        } else if is_escape {
            let (point, behind) = unescaped(piece).ok_or(RowError::Escape)?;
            points.push(point)?;
            push_plain(&mut points, behind)?;
        } else {
            push_plain(&mut points, piece)?;
            is_escape = true;
        }
    }
    // A backslash that ends the field has left nothing to be read behind it.
    if is_escape {
        Ok(points)
    } else {
        Err(RowError::Escape)
    }
}

/// Code points as a text; `None` where one of them is no character.
pub(crate) fn as_text(alloc: Global, points: &[u32]) -> Result<Option<String>, AllocError> {
    let mut text = String::new(alloc);
    for point in points {
        let Some(c) = char::from_u32(*point) else {
            return Ok(None);
        };
        text.push(c)?;
    }
    Ok(Some(text))
}

/// The text that a field stands for. Errs with `Surrogate` where it holds one.
pub fn text_of(alloc: Global, field: &str) -> Result<String, RowError> {
    let points = points_of(alloc, field)?;
    as_text(alloc, &points)?.ok_or(RowError::Surrogate)
}

/// The 16-bit units that a field stands for: two for a character past U+FFFF.
pub fn units_of(alloc: Global, field: &str) -> Result<Vec<u16>, RowError> {
    let mut units = Vec::new(alloc);
    for point in &points_of(alloc, field)? {
        if let Ok(unit) = u16::try_from(*point) {
            units.push(unit)?;
        } else if let Some(c) = char::from_u32(*point) {
            push_pair(&mut units, c)?;
        }
    }
    Ok(units)
}

/// Adds the units of a character.
fn push_pair(units: &mut Vec<u16>, c: char) -> Result<(), AllocError> {
    let mut pair = [0; 2];
    for unit in c.encode_utf16(&mut pair).iter() {
        units.push(*unit)?;
    }
    Ok(())
}
