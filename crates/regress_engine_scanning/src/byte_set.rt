//! Searches for a byte of a set, sixteen units at once.
ghost use Rattle.std.specs.Prelude.{◌≡◌, ◌/◌, ◌%◌, ◌<◌, ◌≤◌, ℕ, length, map, slice_get, IfSome};
ghost use Rattle.std.specs.Simd.Lanes.{mask_l};
ghost use Rattle.regress_meaning.specs.Meaning.{is_some_and};
ghost use Rattle.regress_front_bytes.specs.ByteSets.{has_bit};
ghost use Rattle.regress_front_bytes.specs.Bitmaps.{byte_bitmap_contains};
ghost use Rattle.regress_engine_scanning.specs.Halves.{halved};
ghost use Rattle.regress_engine_scanning.specs.Units.{AreAscii, IsNextUnit};

use crate::unit::Unit;
use regress_front_bytes::ByteBitmap;
use std::simd::prelude::*;

/// The rows of a set, of sixteen bytes each.
#[inline(always)]
pub(crate) fn rows_of(set: &ByteBitmap) -> u16x16
    ensures { (b : ℕ) → byte_bitmap_contains set.now b ≡ has_bit 16 result b }
{
    u16x16::from_array(*set.rows())
}

/// The lower halves of rows.
#[inline(always)]
pub(crate) fn lower_of(rows: u16x16) -> u8x16
    ensures { result ≡ map (λ row. row % 256) rows }
{
    (rows & u16x16::splat(0xFF)).cast::<u8>()
}

/// The upper halves of rows.
#[inline(always)]
pub(crate) fn upper_of(rows: u16x16) -> u8x16
    ensures { result ≡ map (λ row. row / 256) rows }
{
    (rows >> u16x16::splat(8)).cast::<u8>()
}

/// Which of sixteen bytes are members of the set with these halves of rows, a bit for each.
#[inline(always)]
pub(crate) fn marks_of(lower: u8x16, upper: u8x16, bytes: u8x16) -> u64
    ensures { result ≡ mask_l (map (halved lower upper) bytes) }
{
    let place = bytes & u8x16::splat(15);
    let row = bytes >> u8x16::splat(4);
    let near = u8x16::from_array([1, 2, 4, 8, 16, 32, 64, 128, 0, 0, 0, 0, 0, 0, 0, 0]);
    let far = u8x16::from_array([0, 0, 0, 0, 0, 0, 0, 0, 1, 2, 4, 8, 16, 32, 64, 128]);
    let low = lower.swizzle_dyn(row) & near.swizzle_dyn(place);
    let high = upper.swizzle_dyn(row) & far.swizzle_dyn(place);
    (low | high).simd_ne(u8x16::splat(0)).to_bitmask()
}

/// Whether a byte of a set stands at an index.
#[inline(always)]
pub(crate) fn stands_at<U: Unit>(set: &ByteBitmap, units: &[U], index: usize) -> bool
    requires { U.Fits (byte_bitmap_contains set.now) }
    ensures { result ≡ is_some_and (slice_get (map U.number units.now) index) (byte_bitmap_contains set.now) }
{
    match units.get(index) {
        Some(unit) => set.contains(unit.narrowed()),
        None => false,
    }
}

/// The first index from one on at which a member stands, one by one.
fn find_slowly<U: Unit>(set: &ByteBitmap, units: &[U], from: usize) -> Option<usize>
    requires fits { U.Fits (byte_bitmap_contains set.now) }
    requires inside { from ≤ length units.now }
    ensures least { IsNextUnit (byte_bitmap_contains set.now) (map U.number units.now) from result }
    ensures inside { IfSome result (λ k. k < length units.now) }
{
    for index in from..units.len() {
        if stands_at(set, units, index) {
            return Some(index);
        }
    }
    None
}

/// The first index from one on at which a member stands, sixteen at once.
#[inline(always)]
fn find<U: Unit>(set: &ByteBitmap, units: &[U], from: usize) -> Option<usize>
    requires fits { U.Fits (byte_bitmap_contains set.now) }
    requires inside { from ≤ length units.now }
    ensures least { IsNextUnit (byte_bitmap_contains set.now) (map U.number units.now) from result }
    ensures inside { IfSome result (λ k. k < length units.now) }
{
    let rows = rows_of(set);
    let lower = lower_of(rows);
    let upper = upper_of(rows);
    let mut at = from;
    while units.len() - at >= 16 {
        let marks = marks_of(lower, upper, U::narrowed_from(units, at));
        if marks != 0 {
            return Some(at + marks.trailing_zeros() as usize);
        }
        at += 16;
    }
    find_slowly(set, units, at)
}

/// Where a byte of a set first stands: of that of `b"bc"` in `b"acb"` at 1.
pub fn find_set(set: &ByteBitmap, bytes: &[u8]) -> Option<usize>
    ensures least { IsNextUnit (byte_bitmap_contains set.now) bytes.now 0 result }
    ensures inside { IfSome result (λ k. k < length bytes.now) }
{
    find(set, bytes, 0)
}

/// Where a byte of a set first stands from an index on. Asks that all bytes of the set are below 0x80, and that the index lies
/// among the units.
///
/// ```rust
/// let index = find_byte_of(&ByteBitmap::new(b"bc"), &[0x61, 0x62], 0); // `Some(1)`
/// ```
pub fn find_byte_of(set: &ByteBitmap, units: &[u16], from: usize) -> Option<usize>
    requires ascii { AreAscii (byte_bitmap_contains set.now) }
    requires inside { from ≤ length units.now }
    ensures { IsNextUnit (byte_bitmap_contains set.now) units.now from result }
{
    find(set, units, from)
}
