//! A byte that stands by each match, and where it leads.
ghost use Rattle.std.specs.Prelude.{◌≡◌, ◌-◌, ◌<◌, ◌≤◌, ℕ, true, false, length, map, slice_get, IfSome};
ghost use Rattle.memchr.specs.Find.{IsFirst};
ghost use Rattle.regress_meaning.specs.Meaning.{is_some_and};
ghost use Rattle.regress_front_bytes.specs.declared.bitmaps.ByteBitmap.{ByteBitmap};
ghost use Rattle.regress_front_bytes.specs.Bitmaps.{byte_bitmap_contains};
ghost use Rattle.regress_engine_scanning.specs.Least.{IsLeast};
ghost use Rattle.regress_engine_scanning.specs.Landmarks.{IsLow, begins_by};
ghost use Rattle.regress_engine_scanning.specs.Units.{AreAscii};

use crate::byte_set::stands_at;
use crate::unit::Unit;
use regress_front_bytes::ByteBitmap;

/// A byte that stands by each match.
#[derive(Clone, Copy, Debug)]
pub enum Landmark {
    /// This byte, so many bytes further on.
    Ahead { distance: usize, byte: u8 },
    /// This byte, behind one or more other bytes of a set.
    BehindRun { run: ByteBitmap, byte: u8 },
}

/// Where a byte of a set first stands from an index up to another.
fn first_in<U: Unit>(set: &ByteBitmap, units: &[U], from: usize, to: usize) -> Option<usize>
    requires fits { U.Fits (byte_bitmap_contains set.now) }
    requires inside { (from ≤ to) × (to ≤ length units.now) }
    ensures { IsFirst (λ k. is_some_and (slice_get (map U.number units.now) k) (byte_bitmap_contains set.now) ≡ true) from to result }
{
    for index in from..to {
        if stands_at(set, units, index) {
            return Some(index);
        }
    }
    None
}

/// The first offset from one on at which a byte of a set stands, and so many units further on another byte.
fn find_ahead<U: Unit>(
    first: &ByteBitmap,
    distance: usize,
    byte: u8,
    units: &[U],
    offset: usize,
) -> Option<usize>
    requires fits { U.Fits (byte_bitmap_contains first.now) }
    requires inside { offset ≤ length units.now }
    ensures { IsLeast (λ k. begins_by first.now (Landmark.Ahead distance byte) (map U.number units.now) k ≡ true) offset result }
{
    if distance > units.len() - offset {
        return None;
    }
    let mut from = offset + distance;
    while let Some(at) = U::next(byte, units, from) {
        let start = at - distance;
        if stands_at(first, units, start) {
            return Some(start);
        }
        from = at + 1;
    }
    None
}

/// From where on the units up to an index are all of a set, but for those in front of another index.
fn run_start<U: Unit>(run: &ByteBitmap, units: &[U], from: usize, to: usize) -> usize
    requires fits { U.Fits (byte_bitmap_contains run.now) }
    requires inside { (from ≤ to) × (to ≤ length units.now) }
    ensures inside { (from ≤ result) × (result ≤ to) }
    ensures run { (j : ℕ) → result ≤ j → j < to → is_some_and (slice_get (map U.number units.now) j) (byte_bitmap_contains run.now) ≡ true }
    ensures other { from < result → is_some_and (slice_get (map U.number units.now) (result - 1)) (byte_bitmap_contains run.now) ≡ false }
{
    let mut start = to;
    while start > from {
        if !stands_at(run, units, start - 1) {
            return start;
        }
        start -= 1;
    }
    start
}

/// The first offset from one on at which a byte of a set stands, and from which on a byte stands behind other bytes of a run.
fn find_run<U: Unit>(
    first: &ByteBitmap,
    run: ByteBitmap,
    byte: u8,
    units: &[U],
    offset: usize,
) -> Option<usize>
    requires fits { U.Fits (byte_bitmap_contains first.now) }
    requires run { U.Fits (byte_bitmap_contains run) }
    requires inside { offset ≤ length units.now }
    ensures { IsLeast (λ k. begins_by first.now (Landmark.BehindRun run byte) (map U.number units.now) k ≡ true) offset result }
{
    let mut from = offset;
    while let Some(at) = U::next(byte, units, from) {
        let start = run_start(&run, units, from, at);
        if let Some(found) = first_in(first, units, start, at) {
            return Some(found);
        }
        from = at + 1;
    }
    None
}

/// The first offset from one on at which a byte of a set stands, and the byte of a landmark by it.
fn find<U: Unit>(
    first: &ByteBitmap,
    landmark: Landmark,
    units: &[U],
    offset: usize,
) -> Option<usize>
    requires fits { U.Fits (byte_bitmap_contains first.now) }
    requires run { (run : ByteBitmap) (byte : ℕ) → landmark ≡ Landmark.BehindRun run byte → U.Fits (byte_bitmap_contains run) }
    requires inside { offset ≤ length units.now }
    ensures { IsLeast (λ k. begins_by first.now landmark (map U.number units.now) k ≡ true) offset result }
{
    match landmark {
        Landmark::Ahead { distance, byte } => find_ahead(first, distance, byte, units, offset),
        Landmark::BehindRun { run, byte } => find_run(first, run, byte, units, offset),
    }
}

/// The first offset from one on at which a byte of a set stands, and the byte of a landmark by it. Asks that the offset lies in
/// the text.
///
/// ```rust
/// let start = find_near(&digits, Landmark::Ahead { distance: 2, byte: b'-' }, b"7 12-", 0); // `Some(2)`
/// ```
pub fn find_near(
    first: &ByteBitmap,
    landmark: Landmark,
    text: &[u8],
    offset: usize,
) -> Option<usize>
    requires { offset ≤ length text.now }
    ensures least { IsLeast (λ k. begins_by first.now landmark text.now k ≡ true) offset result }
    ensures inside { IfSome result (λ k. k ≤ length text.now) }
{
    find(first, landmark, text, offset)
}

/// The first offset from one on at which a byte of a set stands, and the byte of a landmark by it. Asks that all bytes that are
/// told are below 0x80, and that the offset lies among the units.
///
/// ```rust
/// let start = find_near_units(&digits, Landmark::Ahead { distance: 1, byte: b'-' }, &[0x37, 0x2D], 0); // `Some(0)`
/// ```
pub fn find_near_units(
    first: &ByteBitmap,
    landmark: Landmark,
    units: &[u16],
    offset: usize,
) -> Option<usize>
    requires ascii { AreAscii (byte_bitmap_contains first.now) }
    requires low { IsLow landmark }
    requires inside { offset ≤ length units.now }
    ensures { IsLeast (λ k. begins_by first.now landmark units.now k ≡ true) offset result }
{
    find(first, landmark, units, offset)
}
