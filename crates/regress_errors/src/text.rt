//! Texts as code points.
ghost use Rattle.std.specs.Prelude.{◌≡◌, chars, string_bytes, IfOk};
ghost use Rattle.regress_errors.specs.Texts.{shown, shown_text};

use regress_front::{CodePoint, to_char_sat};
use std::alloc::{AllocError, Global};

/// The code points of a text. Errs where memory is refused alone.
///
/// ```rust
/// let points = code_points(alloc, "aé")?; // 0x61 and 0xE9
/// ```
pub fn code_points(alloc: Global, text: &str) -> Result<Vec<CodePoint>, AllocError>
    ensures { IfOk result (λ points. points.items ≡ chars text.now) }
{
    text.chars().map(CodePoint::from).collect(alloc)
}

/// The character that stands for a code point in a text: itself, and U+FFFD for a surrogate.
fn shown(c: CodePoint) -> char
    ensures { result ≡ shown c }
{
    to_char_sat(c)
}

/// Code points as a text; U+FFFD stands for each surrogate. Errs where memory is refused alone.
///
/// ```rust
/// let text = text_of(alloc, &[0x61, 0xD800])?; // `a` and U+FFFD
/// ```
pub fn text_of(alloc: Global, points: &[CodePoint]) -> Result<String, AllocError>
    ensures { IfOk result (λ text. string_bytes text ≡ shown_text points.now) }
{
    points.iter().map(|c| shown(*c)).collect(alloc)
}
