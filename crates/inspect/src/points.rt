//! Fields of lines with escapes, as code points.

use regress_front::{CODE_POINT_MAX, CodePoint};
use std::alloc::{AllocError, Global};

/// Where the reader of a field stands.
#[derive(Clone, Copy)]
enum Place {
    /// In no escape.
    Outside,
    /// Behind a backslash.
    Escape,
    /// Behind `\u`.
    Number,
    /// Behind `\u{` and digits of this value.
    Braces(CodePoint),
    /// Behind `\u` and so many digits of this value.
    Unit(u32, CodePoint),
}

/// What comes behind a character: another place, and maybe a code point that ends there.
type Step = (Place, Option<CodePoint>);

/// Behind a backslash: of `\\`, `\t`, `\n` and `\r` the character, of `\u` its number.
fn escaped(c: char) -> Option<Step> {
    match c {
        '\\' => Some((Place::Outside, Some(0x5C))),
        't' => Some((Place::Outside, Some(0x09))),
        'n' => Some((Place::Outside, Some(0x0A))),
        'r' => Some((Place::Outside, Some(0x0D))),
        'u' => Some((Place::Number, None)),
        _ => None,
    }
}

/// Behind `\u`: a brace, or the first of four digits.
fn numbered(c: char) -> Option<Step> {
    if c == '{' {
        return Some((Place::Braces(0), None));
    }
    Some((Place::Unit(1, c.to_digit(16)?), None))
}

/// Behind `\u{` and digits: another digit, or the end.
fn braced(value: CodePoint, c: char) -> Option<Step> {
    if c == '}' {
        return Some((Place::Outside, Some(value)));
    }
    let value = value.saturating_mul(16).saturating_add(c.to_digit(16)?);
    Some((Place::Braces(value.min(CODE_POINT_MAX)), None))
}

/// Behind `\u` and digits: one more, of which the fourth is the last.
fn of_unit(digits: u32, value: CodePoint, c: char) -> Option<Step> {
    let value = value.saturating_mul(16).saturating_add(c.to_digit(16)?);
    if digits >= 3 {
        Some((Place::Outside, Some(value)))
    } else {
        Some((Place::Unit(digits.saturating_add(1), value), None))
    }
}

/// What comes behind a character at a place; `None` where it can't stand there.
fn step(place: Place, c: char) -> Option<Step> {
    match place {
        Place::Outside if c == '\\' => Some((Place::Escape, None)),
        Place::Outside => Some((Place::Outside, Some(u32::from(c)))),
        Place::Escape => escaped(c),
        Place::Number => numbered(c),
        Place::Braces(value) => braced(value, c),
        Place::Unit(digits, value) => of_unit(digits, value, c),
    }
}

/// The code points of a field; `None` where an escape can't be read.
pub(crate) fn points_of(alloc: Global, field: &str) -> Result<Option<Vec<CodePoint>>, AllocError> {
    let mut points = Vec::new(alloc);
    let mut place = Place::Outside;
    for c in field.chars() {
        let Some((next, point)) = step(place, c) else {
            return Ok(None);
        };
        if let Some(point) = point {
            points.push(point)?;
        }
        place = next;
    }
    Ok(if matches!(place, Place::Outside) {
        Some(points)
    } else {
        None
    })
}
