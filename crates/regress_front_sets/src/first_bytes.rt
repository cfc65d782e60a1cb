//! The first bytes of code points in UTF-8.
ghost use Rattle.std.specs.Prelude.{◌≡◌, ◌+◌, ◌*◌, ◌↔◌, ◌⊎◌, ◌||◌, ◌&&◌, ◌<◌, ◌≤◌, ◌≢◌, ℕ, true, nat_le, nat_lt};
ghost use Rattle.regress_front_bytes.specs.Bitmaps.{byte_bitmap_contains};
ghost use Rattle.regress_front_sets.specs.FirstBytes.{BeginsSome, begins_between, may_begin};

use crate::interval::Interval;
use regress_front_bytes::{ByteBitmap, utf8_first_byte};

/// Adds to the bitmap the first byte of each code point of the interval in UTF-8, where a surrogate takes three bytes: of
/// 7E to 80 (hexadecimal) the bytes 7E, 7F and C2.
pub fn add_utf8_first_bytes_to_bitmap(interval: Interval, bitmap: &mut ByteBitmap)
    ensures { (b : ℕ) → (byte_bitmap_contains bitmap.new b ≡ true)
        ↔ ((byte_bitmap_contains bitmap.old b ≡ true) ⊎ BeginsSome interval b) }
{
    let first = utf8_first_byte(interval.first);
    let last = utf8_first_byte(interval.last);
    add_first_bytes(first, last, bitmap);
}

/// How many bytes are in a row: those that one number of a bitmap tells, so that a row is added at once.
const ROW: u8 = 16;

/// Adds the sixteen bytes of a row: of row 6 those from 60 to 6F (hexadecimal). Rows are counted from 0, and there are sixteen.
///
/// ```rust
/// let mut bytes = ByteBitmap::default();
/// add_row(&mut bytes, 6); // b'a' to b'o' are among them
/// ```
pub fn add_row(bytes: &mut ByteBitmap, row: u8)
    requires { row < 16 }
    ensures { (b : ℕ) → byte_bitmap_contains bytes.new b ≡ byte_bitmap_contains bytes.old b || (nat_le (row * 16) b && nat_lt b (row * 16 + 16)) }
{
    for place in 0..ROW {
        bytes.set(row * ROW + place);
    }
}

/// Adds the bytes from one to another that may begin a UTF-8 form, one by one.
fn add_some(first: u8, last: u8, bitmap: &mut ByteBitmap)
    requires { first ≤ last }
    ensures { (b : ℕ) → byte_bitmap_contains bitmap.new b
        ≡ byte_bitmap_contains bitmap.old b || begins_between first last b }
{
    for byte in first..=last {
        if byte < 0x80 || byte >= 0xC2 {
            bitmap.set(byte);
        }
    }
}

/// Adds those of a row that may begin a UTF-8 form, where all of it may or none.
fn add_whole(row: u8, bitmap: &mut ByteBitmap)
    requires { (row < 16) × (row ≢ 12) }
    ensures { (b : ℕ) → byte_bitmap_contains bitmap.new b
        ≡ byte_bitmap_contains bitmap.old b || (may_begin b && (nat_le (row * 16) b && nat_lt b (row * 16 + 16))) }
{
    if row < 8 {
        add_row(bitmap, row);
        return;
    }
    if row > 12 {
        add_row(bitmap, row);
    }
}

/// Adds those of a row that lie from one byte to another and may begin a UTF-8 form.
fn add_of_row(first: u8, last: u8, row: u8, bitmap: &mut ByteBitmap)
    requires { (row < 16) × (first ≤ last) × (first ≤ row * 16 + 15) × (row * 16 ≤ last) }
    ensures { (b : ℕ) → byte_bitmap_contains bitmap.new b
        ≡ byte_bitmap_contains bitmap.old b || (begins_between first last b && (nat_le (row * 16) b && nat_lt b (row * 16 + 16))) }
{
    let low = row * ROW;
    let high = low + 15;
    if first <= low && high <= last && row != 12 {
        add_whole(row, bitmap);
        return;
    }
    add_some(first.max(low), last.min(high), bitmap);
}

/// Adds the bytes from one to another that may begin a UTF-8 form.
fn add_first_bytes(first: u8, last: u8, bitmap: &mut ByteBitmap)
    requires { first ≤ last }
    ensures { (b : ℕ) → byte_bitmap_contains bitmap.new b
        ≡ byte_bitmap_contains bitmap.old b || begins_between first last b }
{
    for row in first / ROW..=last / ROW {
        add_of_row(first, last, row, bitmap);
    }
}
