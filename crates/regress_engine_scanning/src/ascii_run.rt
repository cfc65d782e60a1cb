//! Runs of characters of ASCII that are in a set, sixteen units at once.
ghost use Rattle.std.specs.Prelude.{◌≡◌, ◌<◌, ◌≤◌, ℕ, true, false, length, map, slice_index};
ghost use Rattle.std.specs.Simd.Lanes.{mask_l};
ghost use Rattle.regress_front_bytes.specs.ByteSets.{has_bit};
ghost use Rattle.regress_front_bytes.specs.Bitmaps.{ascii_bitmap_contains};
ghost use Rattle.regress_engine_scanning.specs.Runs.{IsRun};

use crate::unit::Unit;
use regress_front_bytes::{AsciiBitmap, ByteSet, ascii_bitmap_holds_ascii};
use std::simd::prelude::*;

/// The rows of a set, of eight bytes each.
#[inline(always)]
fn rows_of(set: &AsciiBitmap) -> u8x16
    ensures { (b : ℕ) → ascii_bitmap_contains set.now b ≡ has_bit 8 result b }
{
    u8x16::from_array(*set.rows())
}

/// Which of sixteen bytes are members of the set with some rows, a bit for each.
#[inline(always)]
fn marks_of(rows: u8x16, bytes: u8x16) -> u64
    ensures { result ≡ mask_l (map (has_bit 8 rows) bytes) }
{
    let beyond = bytes & u8x16::splat(0x80);
    let row = rows.swizzle_dyn((bytes >> u8x16::splat(3)) | beyond);
    let places = u8x16::from_array([1, 2, 4, 8, 16, 32, 64, 128, 1, 2, 4, 8, 16, 32, 64, 128]);
    let place = places.swizzle_dyn(bytes & u8x16::splat(7));
    (row & place).simd_ne(u8x16::splat(0)).to_bitmask()
}

/// The least index from one on, and before an end, at which no member stands, one by one; the end where there is none.
fn end_slowly<U: Unit>(set: &AsciiBitmap, units: &[U], from: usize, end: usize) -> usize
    requires fits { U.Fits (ascii_bitmap_contains set.now) }
    requires inside { (from ≤ end) × (end ≤ length units.now) }
    ensures { IsRun (ascii_bitmap_contains set.now) (map U.number units.now) from end result }
{
    for index in from..end {
        if !set.contains(units[index].narrowed()) {
            return index;
        }
    }
    end
}

/// The least index from one on, and before an end, at which no member stands, sixteen at once; the end where there is none.
#[inline(always)]
fn end_of<U: Unit>(set: &AsciiBitmap, units: &[U], from: usize, end: usize) -> usize
    requires fits { U.Fits (ascii_bitmap_contains set.now) }
    requires inside { (from ≤ end) × (end ≤ length units.now) }
    ensures { IsRun (ascii_bitmap_contains set.now) (map U.number units.now) from end result }
{
    let rows = rows_of(set);
    let mut at = from;
    while at < end && units.len() - at >= 16 {
        let others = marks_of(rows, U::narrowed_from(units, at)) ^ 0xFFFF;
        if others != 0 {
            return end.min(at + others.trailing_zeros() as usize);
        }
        at += 16;
    }
    if at >= end {
        return end;
    }
    end_slowly(set, units, at, end)
}

/// The index behind the members of a set that stand one after another from an index on, before an end: of the digits in `b"12a"`
/// from 0 on 2.
///
/// Asks that the index is not behind the end, and that this lies in the text.
#[inline(always)]
pub fn run_end(set: &AsciiBitmap, bytes: &[u8], from: usize, end: usize) -> usize
    requires { (from ≤ end) × (end ≤ length bytes.now) }
    ensures { IsRun (ascii_bitmap_contains set.now) bytes.now from end result }
{
    end_of(set, bytes, from, end)
}

/// The same among 16-bit units, where a byte is the unit of the same number.
#[inline(always)]
pub fn run_end_among(set: &AsciiBitmap, units: &[u16], from: usize, end: usize) -> usize
    requires { (from ≤ end) × (end ≤ length units.now) }
    ensures { IsRun (ascii_bitmap_contains set.now) units.now from end result }
{
    ascii_bitmap_holds_ascii(set);
    end_of(set, units, from, end)
}
