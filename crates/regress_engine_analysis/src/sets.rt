//! The bytes with which a match may begin that takes one character of a set first.
//!
//! Each set holds the bytes inside of characters too, since no character is read where one of them stands.
ghost use Rattle.std.specs.Prelude.{◌≡◌, ◌+◌, ◌*◌, ◌^◌, ℕ, Bool, ◌<◌, ◌||◌, ◌&&◌, ◌==◌, true, not, nat_eq, nat_le, nat_lt};
ghost use Rattle.regress_meaning.specs.Text.{holds};
ghost use Rattle.regress_meaning.specs.Inputs.{is_continuation};
ghost use Rattle.regress_meaning.specs.Meaning.{is_line_end};
ghost use Rattle.regress_front_bytes.specs.Bitmaps.{ascii_bitmap_contains, byte_bitmap_contains};
ghost use Rattle.regress_front_bytes.specs.ByteSets.{members};
ghost use Rattle.regress_engine_prefix.specs.FirstBytes.{AreFirstOf};
ghost use Rattle.regress_engine_analysis.specs.MayBegin.{may_lead};

use regress_engine_prefix::{first_of_chars, first_of_intervals};
use regress_front_bytes::{
    AsciiBitmap, ByteBitmap, ByteSet, ascii_bitmap_holds_ascii, utf8_first_byte,
};
use regress_front_sets::{CODE_POINT_MAX, CodePoint, Interval, add_row};

/// Every byte.
pub(crate) fn every_byte() -> ByteBitmap
    ensures { (b : ℕ) → b < 256 → byte_bitmap_contains result b ≡ true }
{
    let mut bytes = ByteBitmap::default();
    bytes.bitnot();
    bytes
}

/// The members of either of two sets.
pub(crate) fn either(first: ByteBitmap, second: &ByteBitmap) -> ByteBitmap
    ensures { (b : ℕ) → byte_bitmap_contains result b ≡ byte_bitmap_contains first b || byte_bitmap_contains second.now b }
{
    let mut bytes = first;
    bytes.bitor(second);
    bytes
}

/// The members of both of two sets.
pub(crate) fn both(first: ByteBitmap, second: ByteBitmap) -> ByteBitmap
    ensures { (b : ℕ) → b < 256 → byte_bitmap_contains result b ≡ byte_bitmap_contains first b && byte_bitmap_contains second b }
{
    let mut lacked = first;
    lacked.bitnot();
    let mut others = second;
    others.bitnot();
    lacked.bitor(&others);
    lacked.bitnot();
    lacked
}

/// The members of a set, and of a second one where nothing is needed of the first.
pub(crate) fn unless_needed(body: ByteBitmap, rest: &ByteBitmap, least: usize) -> ByteBitmap
    ensures { (b : ℕ) → byte_bitmap_contains result b ≡ byte_bitmap_contains body b || (least == 0 && byte_bitmap_contains rest.now b) }
{
    if least > 0 {
        return body;
    }
    either(body, rest)
}

/// How many bytes are in a row: those that one number of a set tells, so that a row is written at once.
const ROW: u8 = 16;

/// The bytes that stand inside of characters.
fn inside_of_characters() -> ByteBitmap
    ensures { (b : ℕ) → byte_bitmap_contains result b ≡ is_continuation b }
{
    let mut bytes = ByteBitmap::default();
    for row in 8..12_u8 {
        add_row(&mut bytes, row);
    }
    bytes
}

/// All others.
pub(crate) fn outside_of_characters() -> ByteBitmap
    ensures { (b : ℕ) → b < 256 → byte_bitmap_contains result b ≡ not (is_continuation b) }
{
    let mut bytes = inside_of_characters();
    bytes.bitnot();
    bytes
}

/// The bytes that may stand where a character is read that begins with one of these.
pub(crate) fn where_read(first: ByteBitmap) -> ByteBitmap
    ensures { (test : ℕ → Bool) → AreFirstOf test (byte_bitmap_contains first) → (b : ℕ) → byte_bitmap_contains result b ≡ may_lead test b }
{
    either(first, &inside_of_characters())
}

/// Those of this character.
pub(crate) fn of_char(c: CodePoint) -> ByteBitmap
    ensures { (b : ℕ) → byte_bitmap_contains result b ≡ may_lead (nat_eq c) b }
{
    where_read(first_of_chars(&[c]))
}

/// Those of these characters.
pub(crate) fn of_chars(chars: &[CodePoint]) -> ByteBitmap
    ensures { (b : ℕ) → byte_bitmap_contains result b ≡ may_lead (holds chars.now) b }
{
    where_read(first_of_chars(chars))
}

/// The first bytes of the characters whose numbers are these bytes.
fn first_of_numbers(numbers: &[u8]) -> ByteBitmap
    ensures { AreFirstOf (holds numbers.now) (byte_bitmap_contains result) }
{
    let mut bytes = ByteBitmap::default();
    for number in numbers {
        bytes.set(utf8_first_byte(u32::from(*number)));
    }
    bytes
}

/// Those of the characters whose numbers are these bytes.
pub(crate) fn of_numbers(numbers: &[u8]) -> ByteBitmap
    ensures { (b : ℕ) → byte_bitmap_contains result b ≡ may_lead (holds numbers.now) b }
{
    where_read(first_of_numbers(numbers))
}

/// Adds the members of a set of ASCII that are in a row of bytes.
fn add_members(bytes: &mut ByteBitmap, bitmap: &AsciiBitmap, row: u8)
    requires { row < 8 }
    ensures { (b : ℕ) → byte_bitmap_contains bytes.new b
        ≡ byte_bitmap_contains bytes.old b || (nat_le (row * 16) b && nat_lt b (row * 16 + 16) && ascii_bitmap_contains bitmap.now b) }
{
    for place in 0..ROW {
        let byte = row * ROW + place;
        if bitmap.contains(byte) {
            bytes.set(byte);
        }
    }
}

/// The members of a set of ASCII.
fn members(bitmap: &AsciiBitmap) -> ByteBitmap
    ensures { (b : ℕ) → byte_bitmap_contains result b ≡ ascii_bitmap_contains bitmap.now b }
{
    ascii_bitmap_holds_ascii(bitmap);
    let mut bytes = ByteBitmap::default();
    for row in 0..8_u8 {
        add_members(&mut bytes, bitmap, row);
    }
    bytes
}

/// Those of the characters of a set of ASCII.
pub(crate) fn of_ascii(bitmap: &AsciiBitmap) -> ByteBitmap
    ensures { (b : ℕ) → byte_bitmap_contains result b ≡ may_lead (holds (members (ascii_bitmap_contains bitmap.now))) b }
{
    ascii_bitmap_holds_ascii(bitmap);
    where_read(members(bitmap))
}

/// Those of all characters.
pub(crate) fn of_any() -> ByteBitmap
    ensures { (b : ℕ) → byte_bitmap_contains result b ≡ may_lead (λ c. true) b }
{
    where_read(first_of_intervals(&[Interval {
        first: 0,
        last: CODE_POINT_MAX,
    }]))
}

/// Those of all characters but line terminators.
pub(crate) fn of_any_in_line() -> ByteBitmap
    ensures { (b : ℕ) → byte_bitmap_contains result b ≡ may_lead (λ c. not (is_line_end c)) b }
{
    where_read(first_of_intervals(&[
        Interval {
            first: 0,
            last: 0x9,
        },
        Interval {
            first: 0xB,
            last: 0xC,
        },
        Interval {
            first: 0xE,
            last: 0x2027,
        },
        Interval {
            first: 0x202A,
            last: CODE_POINT_MAX,
        },
    ]))
}

/// Those of line terminators, of a match that goes on before one, where the rest of it may begin with them too. In no text does
/// a byte stand where that ends.
pub(crate) fn of_line_end(multiline: bool, rest: ByteBitmap) -> ByteBitmap
    ensures { (b : ℕ) → b < 256 → byte_bitmap_contains result b ≡ multiline && may_lead is_line_end b && byte_bitmap_contains rest b }
{
    if !multiline {
        return ByteBitmap::default();
    }
    both(
        where_read(first_of_chars(&[0xA, 0xD, 0x2028, 0x2029])),
        rest,
    )
}
