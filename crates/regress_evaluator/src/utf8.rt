//! The characters of a byte literal.
ghost use Rattle.std.specs.Prelude.{◌≡◌, ℕ, List, ◌∷◌, chars, IfOk};
ghost use Rattle.std.specs.Str.{continuation_len, lead_bits, chars_after};
ghost use Rattle.regress_evaluator.specs.Utf8Reading.{pending, IsPending};

use regress_front_tables::CodePoint;
use std::alloc::{AllocError, Global};

/// How many bytes of a character stand behind this first one, and the bits of the character that it holds.
fn lead(b: u8) -> (usize, CodePoint)
    ensures { result ≡ (continuation_len b, lead_bits b) }
{
    match b {
        0..=0x7F => (0, u32::from(b)),
        0x80..=0xDF => (1, u32::from(b).saturating_sub(0xC0)),
        0xE0..=0xEF => (2, u32::from(b) - 0xE0),
        _ => (3, u32::from(b) - 0xF0),
    }
}

/// How many bytes of a character are still to come behind the next byte, and its bits so far. Before that byte so many are
/// to come; with none, a character begins.
fn after(left: usize, bits: CodePoint, b: u8) -> (usize, CodePoint)
    requires { IsPending left bits }
    ensures pending { IsPending result.0 result.1 }
    ensures value { (bs : List ℕ) → pending left bits (b ∷ bs) ≡ chars_after result.0 result.1 bs }
{
    if left == 0 {
        return lead(b);
    }
    (left - 1, bits * 0x40 + u32::from(b.saturating_sub(0x80)))
}

/// The characters whose bytes in UTF-8 these are, as code points. Fails only where memory is refused.
pub(crate) fn characters(alloc: Global, bytes: &[u8]) -> Result<Vec<CodePoint>, AllocError>
    ensures { IfOk result (λ cs. cs.items ≡ chars bytes.now) }
{
    let mut points = Vec::new(alloc);
    let mut left = 0;
    let mut bits = 0;
    for b in bytes {
        (left, bits) = after(left, bits, *b);
        if left == 0 {
            points.push(bits)?;
        }
    }
    Ok(points)
}
