//! Searches for one of a few bytes, and tests for ASCII.
ghost use Rattle.std.specs.Prelude.{◌≡◌, ◌↔◌, ◌<◌, ◌≤◌, ℕ, true, IsFalse, IsTrue};
ghost use Rattle.memchr.specs.Find.{IsFirstByte};
ghost use Rattle.regress_meaning.specs.Text.{holds};
ghost use Rattle.regress_front_bytes.specs.Bitmaps.{byte_bitmap_contains};
ghost use Rattle.regress_engine_scanning.specs.Units.{AreAscii};

use memchr::{memchr, memchr2, memchr3};
use regress_front_bytes::ByteBitmap;

/// Where a byte first stands: `find_one([b'b'], b"ab")` is `Some(1)`.
pub fn find_one(set: [u8; 1], bytes: &[u8]) -> Option<usize>
    ensures { IsFirstByte (holds set) bytes.now result }
{
    memchr(set[0], bytes)
}

/// Where one of two bytes first stands: `find_two([b'b', b'c'], b"acb")` is `Some(1)`.
pub fn find_two(set: [u8; 2], bytes: &[u8]) -> Option<usize>
    ensures { IsFirstByte (holds set) bytes.now result }
{
    memchr2(set[0], set[1], bytes)
}

/// Where one of three bytes first stands: `find_three([b'b', b'c', b'd'], b"adb")` is `Some(1)`.
pub fn find_three(set: [u8; 3], bytes: &[u8]) -> Option<usize>
    ensures { IsFirstByte (holds set) bytes.now result }
{
    memchr3(set[0], set[1], set[2], bytes)
}

/// Whether all bytes are below 0x80: those of `b"ab"` are.
pub fn are_ascii(bytes: &[u8]) -> bool
    ensures { IsTrue result ↔ AreAscii (holds bytes.now) }
{
    bytes.is_ascii()
}

/// Whether a byte beyond ASCII is in a set: in that of `b"ab"` is none.
pub fn is_beyond_ascii(set: &ByteBitmap) -> bool
    ensures none { IsFalse result → (b : ℕ) → b < 256 → byte_bitmap_contains set.now b ≡ true → b < 0x80 }
    ensures some { IsTrue result → (b : ℕ) × (byte_bitmap_contains set.now b ≡ true) × (0x80 ≤ b) }
{
    for byte in 0x80..=u8::MAX {
        if set.contains(byte) {
            return true;
        }
    }
    false
}
