//! The characters beside an offset of bytes.
ghost use Rattle.std.specs.Prelude.{◌≡◌, ◌≤◌, length};
ghost use Rattle.std.specs.Str.{IsUtf8, IsCharBoundary};
ghost use Rattle.regress_meaning.specs.Meaning.{Forward, Backward};
ghost use Rattle.regress_meaning.specs.Inputs.{of_two, of_three, of_four, is_continuation, single_next, utf8_next};

use regress_front_bytes::is_utf8_continuation;

/// The byte behind an offset as a character, and the offset behind it.
#[inline]
pub(crate) fn single_byte_right(bytes: &[u8], at: usize) -> Option<(u8, usize)>
    ensures { result ≡ single_next bytes.now Forward at }
{
    if at < bytes.len() {
        Some((bytes[at], at + 1))
    } else {
        None
    }
}

/// The byte before an offset as a character, and the offset before it.
#[inline]
pub(crate) fn single_byte_left(bytes: &[u8], at: usize) -> Option<(u8, usize)>
    requires { at ≤ length bytes.now }
    ensures { result ≡ single_next bytes.now Backward at }
{
    if at > 0 {
        Some((bytes[at - 1], at - 1))
    } else {
        None
    }
}

/// Whether the byte is not the first of a character.
#[inline]
fn follows(b: u8) -> bool
    ensures { result ≡ is_continuation b }
{
    is_utf8_continuation(b)
}

/// The character of two bytes.
#[inline]
fn two(w: u8, x: u8) -> u32
    ensures { result ≡ of_two w x }
{
    u32::from(w) % 32 * 64 + u32::from(x) % 64
}

/// The character of three bytes.
#[inline]
fn three(w: u8, x: u8, y: u8) -> u32
    ensures { result ≡ of_three w x y }
{
    (u32::from(w) % 16 * 64 + u32::from(x) % 64) * 64 + u32::from(y) % 64
}

/// The character of four bytes.
#[inline]
fn four(w: u8, x: u8, y: u8, z: u8) -> u32
    ensures { result ≡ of_four w x y z }
{
    ((u32::from(w) % 8 * 64 + u32::from(x) % 64) * 64 + u32::from(y) % 64) * 64 + u32::from(z) % 64
}

/// The character behind an offset, and the offset behind it.
#[inline]
#[tactic(auto, using(crate::proofs::Utf8Reads::room_of_two, crate::proofs::Utf8Reads::room_of_three, crate::proofs::Utf8Reads::room_of_four))]
pub(crate) fn utf8_right(bytes: &[u8], at: usize) -> Option<(u32, usize)>
    requires utf8 { IsUtf8 bytes.now }
    requires boundary { IsCharBoundary bytes.now at }
    ensures { result ≡ utf8_next bytes.now Forward at }
{
    if at >= bytes.len() {
        return None;
    }
    let w = bytes[at];
    if w < 0x80 {
        return Some((u32::from(w), at + 1));
    }
    let x = bytes[at + 1];
    if w < 0xE0 {
        return Some((two(w, x), at + 2));
    }
    let y = bytes[at + 2];
    if w < 0xF0 {
        return Some((three(w, x, y), at + 3));
    }
    Some((four(w, x, y, bytes[at + 3]), at + 4))
}

/// The character before an offset, and the offset before it.
#[inline]
#[tactic(auto, using(crate::proofs::Utf8Reads::room_before_two))]
pub(crate) fn utf8_left(bytes: &[u8], at: usize) -> Option<(u32, usize)>
    requires utf8 { IsUtf8 bytes.now }
    requires boundary { IsCharBoundary bytes.now at }
    ensures { result ≡ utf8_next bytes.now Backward at }
{
    if at == 0 {
        return None;
    }
    let z = bytes[at - 1];
    if z < 0x80 {
        return Some((u32::from(z), at - 1));
    }
    let y = bytes[at - 2];
    if !follows(y) {
        return Some((two(y, z), at - 2));
    }
    let x = bytes[at - 3];
    if !follows(x) {
        return Some((three(x, y, z), at - 3));
    }
    Some((four(bytes[at - 4], x, y, z), at - 4))
}
