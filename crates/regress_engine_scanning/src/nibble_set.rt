//! Sets of bytes for which sixteen bytes are tested at once.
ghost use Rattle.std.specs.Prelude.{◌≡◌, ◌↔◌, ℕ, ◌+◌, ◌<◌, ◌≤◌, true, length, map, slice_get, slice_index, IfSome, IsTrue};
ghost use Rattle.std.specs.Simd.Lanes.{mask_l};
ghost use Rattle.std.specs.Int.{bit_at};
ghost use Rattle.regress_meaning.specs.Meaning.{is_some_and};
ghost use Rattle.regress_front_bytes.specs.Bitmaps.{byte_bitmap_contains};
ghost use Rattle.regress_engine_scanning.specs.NibbleSets.{nibble_set_contains};
ghost use Rattle.regress_engine_scanning.specs.Units.{AreAscii};

use crate::unit::Unit;
use regress_front_bytes::ByteBitmap;
use std::simd::prelude::*;

/// A set of bytes as two tables, one by the low half of a byte and one by the high half: of a member both have a bit.
#[derive(Clone, Copy, Debug)]
pub struct NibbleSet {
    low: [u8; 16],
    high: [u8; 16],
}

/// Which of the sixteen bytes with a high half are in a set: a bit for each low half.
fn row_of(set: &ByteBitmap, high: u8) -> u16
    requires { high < 16 }
{
    let mut row = 0;
    for low in 0..16 {
        if set.contains(high * 16 + low) {
            row |= 1 << low;
        }
    }
    row
}

/// Where a row is among others, or is to be put. Of more than eight rows the last ones share a place.
fn place_of(rows: &[u16; 8], row: u16) -> usize
    ensures { result < 8 }
{
    for place in 0..7 {
        if rows[place] == row || rows[place] == 0 {
            return place;
        }
    }
    7
}

impl NibbleSet {
    /// The same set, where two such tables can hold it: where the rows of sixteen bytes in it are at most eight different ones,
    /// as those of ASCII always are. `NibbleSet::new(&ByteBitmap::new(b"ab"))` holds `b'a'` and `b'b'`.
    pub fn new(set: &ByteBitmap) -> Option<NibbleSet>
        ensures { IfSome result (λ tables. (b : ℕ) → b < 256 → nibble_set_contains tables b ≡ byte_bitmap_contains set.now b) }
    {
        let tables = NibbleSet::of_rows(set);
        if tables.is_same(set) {
            Some(tables)
        } else {
            None
        }
    }

    /// Tables for the rows of a set. They may hold more than the set does, where it has too many rows.
    fn of_rows(set: &ByteBitmap) -> NibbleSet {
        let mut tables = NibbleSet {
            low: [0; 16],
            high: [0; 16],
        };
        let mut rows = [0; 8];
        for high in 0..16 {
            let row = row_of(set, high);
            if row != 0 {
                let place = place_of(&rows, row);
                rows[place] |= row;
                tables.add(high, row, place);
            }
        }
        tables
    }

    /// Adds a row at a place.
    fn add(&mut self, high: u8, row: u16, place: usize)
        requires high { high < 16 }
        requires place { place < 8 }
    {
        self.high[usize::from(high)] = 1 << place;
        for low in 0..16 {
            if row >> low & 1 == 1 {
                self.low[low] |= 1 << place;
            }
        }
    }

    /// Whether it has the members of a set.
    fn is_same(&self, set: &ByteBitmap) -> bool
        ensures { IsTrue result → (b : ℕ) → b < 256 → nibble_set_contains self.now b ≡ byte_bitmap_contains set.now b }
    {
        for byte in 0..=u8::MAX {
            if self.contains(byte) != set.contains(byte) {
                return false;
            }
        }
        true
    }

    /// Whether each member is below 0x80: of the set of `b"ab"` each is.
    pub fn is_ascii(&self) -> bool
        ensures { IsTrue result ↔ AreAscii (nibble_set_contains self.now) }
    {
        for byte in 0x80..=u8::MAX {
            if self.contains(byte) {
                return false;
            }
        }
        true
    }

    /// Whether a byte is a member: the set of `b"ab"` has `b'b'`.
    pub fn contains(&self, byte: u8) -> bool
        ensures { result ≡ nibble_set_contains self.now byte }
    {
        self.low[usize::from(byte % 16)] & self.high[usize::from(byte / 16)] != 0
    }

    /// Whether a member stands at an index.
    pub(crate) fn stands_at<U: Unit>(&self, units: &[U], index: usize) -> bool
        requires { U.Fits (nibble_set_contains self.now) }
        ensures { result ≡ is_some_and (slice_get (map U.number units.now) index) (nibble_set_contains self.now) }
    {
        match units.get(index) {
            Some(unit) => self.contains(unit.narrowed()),
            None => false,
        }
    }

    /// Which of sixteen bytes are members, a bit for each.
    #[inline(always)]
    fn marks_of(&self, bytes: u8x16) -> u64
        ensures { result ≡ mask_l (map (nibble_set_contains self.now) bytes) }
    {
        let low = u8x16::from_slice(&self.low).swizzle_dyn(bytes & u8x16::splat(15));
        let high = u8x16::from_slice(&self.high).swizzle_dyn(bytes >> u8x16::splat(4));
        (low & high).simd_ne(u8x16::splat(0)).to_bitmask()
    }

    /// Which of sixteen units from an index on are members: bit k is that of the unit k further on.
    #[inline(always)]
    pub(crate) fn marks<U: Unit>(&self, units: &[U], from: usize) -> u64
        requires fits { U.Fits (nibble_set_contains self.now) }
        requires room { from + 16 ≤ length units.now }
        ensures { (k : ℕ) → (bit_at result k ≡ 1) ↔ ((k < 16) × (nibble_set_contains self.now (slice_index (map U.number units.now) (from + k)) ≡ true)) }
    {
        self.marks_of(U::narrowed_from(units, from))
    }
}
