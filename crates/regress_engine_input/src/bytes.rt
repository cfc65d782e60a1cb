//! What stands beside an offset of bytes.
ghost use Rattle.std.specs.Prelude.{◌≡◌, ◌≤◌, length};
ghost use Rattle.regress_meaning.specs.Meaning.{Forward, Backward};
ghost use Rattle.regress_meaning.specs.Inputs.{Input};
ghost use Rattle.regress_meaning.specs.Steps.{literal};
ghost use Rattle.regress_engine_input.specs.Views.{direction_of, unit_beside};

use crate::cursor::Direction;

/// The byte behind an offset.
#[inline]
pub(crate) fn byte_right(bytes: &[u8], at: usize) -> Option<u8>
    ensures { result ≡ unit_beside bytes.now Forward at }
{
    bytes.get(at).copied()
}

/// The byte before an offset.
#[inline]
pub(crate) fn byte_left(bytes: &[u8], at: usize) -> Option<u8>
    requires { at ≤ length bytes.now }
    ensures { result ≡ unit_beside bytes.now Backward at }
{
    if at > 0 { Some(bytes[at - 1]) } else { None }
}

/// The offset behind some bytes that stand to the right of one, or `None` where they don't.
#[inline]
fn bytes_right(text: &[u8], part: &[u8], at: usize) -> Option<usize>
    requires { at ≤ length text.now }
    ensures { (input : Input) → input.units ≡ text.now → result ≡ literal input Forward part.now at }
{
    if part.len() <= text.len() - at && part == &text[at..at + part.len()] {
        Some(at + part.len())
    } else {
        None
    }
}

/// The offset before some bytes that stand to the left of one, or `None` where they don't.
#[inline]
fn bytes_left(text: &[u8], part: &[u8], at: usize) -> Option<usize>
    requires { at ≤ length text.now }
    ensures { (input : Input) → input.units ≡ text.now → result ≡ literal input Backward part.now at }
{
    if part.len() <= at && part == &text[at - part.len()..at] {
        Some(at - part.len())
    } else {
        None
    }
}

/// The offset past some bytes that stand beside one in a direction, or `None` where they don't:
/// `slice_beside(Backward::new(), b"abc", b"ab", 2)` is `Some(0)`.
#[inline]
pub fn slice_beside<Dir: Direction>(_dir: Dir, text: &[u8], part: &[u8], at: usize) -> Option<usize>
    requires { at ≤ length text.now }
    ensures { (input : Input) → input.units ≡ text.now → result ≡ literal input (direction_of Dir.FORWARD) part.now at }
{
    if Dir::FORWARD {
        bytes_right(text, part, at)
    } else {
        bytes_left(text, part, at)
    }
}
