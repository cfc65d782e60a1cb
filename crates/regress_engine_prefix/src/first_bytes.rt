//! The first bytes of sets of code points in UTF-8.
ghost use Rattle.std.specs.Prelude.{◌≡◌, ◌<◌, ◌≤◌, ℕ, true, Some, All, IfOk, IfSome, IsFalse, map, slice_get, encode_utf8};
ghost use Rattle.std.specs.Box.{boxed_slice_items};
ghost use Rattle.regress_meaning.specs.Text.{holds};
ghost use Rattle.regress_meaning.specs.TableParts.{is_code_point, in_intervals};
ghost use Rattle.regress_front_bytes.specs.Bitmaps.{byte_bitmap_contains};
ghost use Rattle.regress_front_sets.specs.Intervals.{ends_of};
ghost use Rattle.regress_front_sets.specs.Sets.{ends_in};
ghost use Rattle.regress_front_nodes.specs.TreeMeaning.{bracket_has};
ghost use Rattle.regress_engine_prefix.specs.FirstBytes.{AreFirstOf, AreFirstOfStrings, HasSecond};

use regress_front_bytes::{ByteBitmap, utf8_first_byte};
use regress_front_nodes::BracketContents;
use regress_front_sets::{CODE_POINT_MAX, CodePoint, Interval, add_utf8_first_bytes_to_bitmap};
use std::alloc::AllocError;
use std::boxed::BoxedSlice;

/// The first bytes of some code points in UTF-8; a number past the greatest has none. `first_of_chars(&[0x61, 0xE9])` holds `b'a'`
/// and `0xC3`.
pub fn first_of_chars(chars: &[CodePoint]) -> ByteBitmap
    ensures { AreFirstOf (holds chars.now) (byte_bitmap_contains result) }
{
    let mut set = ByteBitmap::default();
    for c in chars {
        if *c <= CODE_POINT_MAX {
            set.set(utf8_first_byte(*c));
        }
    }
    set
}

/// The first bytes of the code points of some intervals in UTF-8.
///
/// ```rust
/// let set = first_of_intervals(&[Interval { first: 0x7E, last: 0x80 }]); // 7E, 7F and C2
/// ```
pub fn first_of_intervals(intervals: &[Interval]) -> ByteBitmap
    ensures { AreFirstOf (in_intervals (ends_of intervals.now)) (byte_bitmap_contains result) }
{
    let mut set = ByteBitmap::default();
    for interval in intervals {
        add_utf8_first_bytes_to_bitmap(*interval, &mut set);
    }
    set
}

/// The first bytes of the code points that a bracket matches, in UTF-8. It errs only where memory is refused.
///
/// ```rust
/// let set = first_of_bracket(&class)?;
/// ```
pub fn first_of_bracket(contents: &BracketContents) -> Result<ByteBitmap, AllocError>
    ensures { IfOk result (λ set.
        AreFirstOf (bracket_has contents.now.invert (ends_in contents.now.cps)) (byte_bitmap_contains set)) }
{
    if !contents.invert {
        return Ok(first_of_intervals(contents.cps.intervals()));
    }
    match contents.cps.inverted() {
        Ok(others) => Ok(first_of_intervals(others.intervals())),
        Err(_) => Err(AllocError),
    }
}

/// The set of some ASCII bytes, each the first of its character: `first_of_ascii(b"ab")` holds `b'a'` and `b'b'`.
pub fn first_of_ascii(bytes: &[u8]) -> ByteBitmap
    requires { All (λ b. b < 0x80) bytes.now }
    ensures { AreFirstOf (holds bytes.now) (byte_bitmap_contains result) }
{
    ByteBitmap::new(bytes)
}

/// The first bytes of some strings, or `None` where one of them is empty.
pub(crate) fn first_of_strings(strings: &[BoxedSlice<CodePoint>]) -> Option<ByteBitmap>
    requires { All (All is_code_point) (map boxed_slice_items strings.now) }
    ensures { IfSome result (λ set. AreFirstOfStrings (map boxed_slice_items strings.now) (byte_bitmap_contains set)) }
{
    let mut set = ByteBitmap::default();
    for string in strings {
        let first = string.first()?;
        set.set(utf8_first_byte(*first));
    }
    Some(set)
}

/// These bytes, and all that go on with a character.
pub(crate) fn with_continuations(first: ByteBitmap) -> ByteBitmap
    ensures first { (b : ℕ) → byte_bitmap_contains first b ≡ true → byte_bitmap_contains result b ≡ true }
    ensures others { (b : ℕ) → 0x80 ≤ b → b < 0xC0 → byte_bitmap_contains result b ≡ true }
{
    let mut run = first;
    for byte in 0x80..0xC0 {
        run.set(byte);
    }
    run
}

/// The second byte of a code point beyond ASCII in UTF-8.
fn utf8_second_byte(cp: u32) -> u8
    requires { (0x80 ≤ cp) × (cp ≤ 0x10_FFFF) }
    ensures { slice_get (encode_utf8 cp) 1 ≡ Some result }
{
    let bits = if cp < 0x800 {
        cp
    } else if cp < 0x1_0000 {
        cp / 64
    } else {
        cp / 4096
    };
    0x80 + (bits % 64) as u8
}

/// The second bytes of some code points in UTF-8, or `None` where one of them is ASCII.
pub(crate) fn second_of_chars(chars: &[CodePoint]) -> Option<ByteBitmap>
    ensures { IfSome result (λ set. All (HasSecond (byte_bitmap_contains set)) chars.now) }
{
    let mut set = ByteBitmap::default();
    for c in chars {
        if *c < 0x80 {
            return None;
        }
        if *c <= CODE_POINT_MAX {
            set.set(utf8_second_byte(*c));
        }
    }
    Some(set)
}
