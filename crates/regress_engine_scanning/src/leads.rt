//! Searches among 16-bit units by the first bytes of their characters in UTF-8.
ghost use Rattle.std.specs.Prelude.{◌≡◌, ◌<◌, ◌≤◌, length, map, IfSome};
ghost use Rattle.regress_meaning.specs.TableParts.{is_surrogate};
ghost use Rattle.regress_front_bytes.specs.Bitmaps.{byte_bitmap_contains};
ghost use Rattle.regress_engine_scanning.specs.Units.{IsNextUnit};
ghost use Rattle.regress_engine_scanning.specs.Leads.{byte_for, has_byte_for};

use crate::byte_set::{lower_of, marks_of, rows_of, upper_of};
use regress_front_bytes::{ByteBitmap, utf8_first_byte};
use std::simd::prelude::*;

/// Whether a unit is one half of a pair.
#[inline(always)]
fn is_half(unit: u16) -> bool
    ensures { result ≡ is_surrogate unit }
{
    0xD800 <= unit && unit <= 0xDFFF
}

/// The byte for a unit: the first of its character in UTF-8, and 0xFF for one half of a pair.
#[inline(always)]
fn byte_for(unit: u16) -> u8
    ensures { result ≡ byte_for unit }
{
    if is_half(unit) {
        0xFF
    } else {
        utf8_first_byte(u32::from(unit))
    }
}

/// The bytes for sixteen units.
#[inline(always)]
fn bytes_for(units: u16x16) -> u8x16
    ensures { result ≡ map byte_for units }
{
    let two = (units >> u16x16::splat(6)) + u16x16::splat(0xC0);
    let three = (units >> u16x16::splat(12)) + u16x16::splat(0xE0);
    let half = (units >> u16x16::splat(11)).simd_eq(u16x16::splat(0x1B));
    let high = half.select(u16x16::splat(0xFF), three);
    let beyond = units.simd_lt(u16x16::splat(0x800)).select(two, high);
    units
        .simd_lt(u16x16::splat(0x80))
        .select(units, beyond)
        .cast::<u8>()
}

/// The first index from one on at which a unit stands whose byte is a member, one by one.
fn first_lead(set: &ByteBitmap, units: &[u16], from: usize) -> Option<usize>
    requires { from ≤ length units.now }
    ensures least { IsNextUnit (has_byte_for (byte_bitmap_contains set.now)) units.now from result }
    ensures inside { IfSome result (λ k. k < length units.now) }
{
    for index in from..units.len() {
        if set.contains(byte_for(units[index])) {
            return Some(index);
        }
    }
    None
}

/// Where a unit first stands from an index on whose character begins with a byte of a set in UTF-8; one half of a pair counts as 0xFF,
/// with which no character begins. Asks that the index lies among the units.
///
/// ```rust
/// let index = find_lead(&ByteBitmap::new(b"b\xC3"), &[0x61, 0xE9], 0); // `Some(1)`: `é` begins with 0xC3
/// ```
#[inline(always)]
pub fn find_lead(set: &ByteBitmap, units: &[u16], from: usize) -> Option<usize>
    requires { from ≤ length units.now }
    ensures least { IsNextUnit (has_byte_for (byte_bitmap_contains set.now)) units.now from result }
    ensures inside { IfSome result (λ k. k < length units.now) }
{
    let rows = rows_of(set);
    let lower = lower_of(rows);
    let upper = upper_of(rows);
    let mut at = from;
    while units.len() - at >= 16 {
        let bytes = bytes_for(u16x16::from_slice(&units[at..]));
        let marks = marks_of(lower, upper, bytes);
        if marks != 0 {
            return Some(at + marks.trailing_zeros() as usize);
        }
        at += 16;
    }
    first_lead(set, units, at)
}
