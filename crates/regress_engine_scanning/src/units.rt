//! Searches among 16-bit units for bytes, each of which is the unit of the same number.
ghost use Rattle.std.specs.Prelude.{◌≡◌, ◌↔◌, ◌<◌, ◌≤◌, ◌+◌, ◌||◌, ℕ, Bool, true, nat_le, length, map, take, drop, IfSome, IsNone, IsTrue};
ghost use Rattle.std.specs.Int.{bit_at};
ghost use Rattle.std.specs.Simd.Lanes.{mask_l};
ghost use Rattle.memchr.specs.Find.{OccursAt};
ghost use Rattle.regress_meaning.specs.Text.{holds};
ghost use Rattle.regress_engine_scanning.specs.Least.{IsLeast};
ghost use Rattle.regress_engine_scanning.specs.Units.{IsNextUnit, has_ends};

use memchr::arch::all::packedpair::Pair;
use std::simd::prelude::*;

/// How many units are tested at once.
const LANES: usize = 32;

/// A set of units, tested one by one or many at once: some bytes, each of which is the unit of the same number.
pub trait UnitSet {
    // a unit is a member
    ghost contains: { Self → ℕ → Bool };

    /// Whether a unit is a member: of `[b'a']` the unit 0x61 is one.
    fn contains(&self, unit: u16) -> bool
        ensures { result ≡ contains self.now unit };

    /// Which of 32 units are members, a bit for each: of `[b'a']`, where it stands first alone, 1.
    fn marks(&self, units: u16x32) -> u64
        ensures { result ≡ mask_l (map (contains self.now) units) };
}

impl UnitSet for [u8; 1] {
    ghost contains = { holds };

    #[inline(always)]
    fn contains(&self, unit: u16) -> bool {
        let [first] = *self;
        unit == u16::from(first)
    }

    #[inline(always)]
    fn marks(&self, units: u16x32) -> u64 {
        let [first] = *self;
        units.simd_eq(u16x32::splat(u16::from(first))).to_bitmask()
    }
}

impl UnitSet for [u8; 2] {
    ghost contains = { holds };

    #[inline(always)]
    fn contains(&self, unit: u16) -> bool {
        let [first, second] = *self;
        unit == u16::from(first) || unit == u16::from(second)
    }

    #[inline(always)]
    fn marks(&self, units: u16x32) -> u64 {
        let [first, second] = *self;
        (units.simd_eq(u16x32::splat(u16::from(first)))
            | units.simd_eq(u16x32::splat(u16::from(second)))).to_bitmask()
    }
}

impl UnitSet for [u8; 3] {
    ghost contains = { holds };

    #[inline(always)]
    fn contains(&self, unit: u16) -> bool {
        let [first, second, third] = *self;
        unit == u16::from(first) || unit == u16::from(second) || unit == u16::from(third)
    }

    #[inline(always)]
    fn marks(&self, units: u16x32) -> u64 {
        let [first, second, third] = *self;
        (units.simd_eq(u16x32::splat(u16::from(first)))
            | units.simd_eq(u16x32::splat(u16::from(second)))
            | units.simd_eq(u16x32::splat(u16::from(third)))).to_bitmask()
    }
}

/// Three bytes, and all units beyond ASCII.
#[derive(Clone, Copy, Debug)]
pub struct OrBeyondAscii(pub [u8; 3]);

impl UnitSet for OrBeyondAscii {
    ghost contains = { λ set unit. holds set.0 unit || nat_le 0x80 unit };

    #[inline(always)]
    fn contains(&self, unit: u16) -> bool {
        let OrBeyondAscii(bytes) = self;
        UnitSet::contains(bytes, unit) || 0x80 <= unit
    }

    #[inline(always)]
    fn marks(&self, units: u16x32) -> u64 {
        let OrBeyondAscii([first, second, third]) = *self;
        (units.simd_eq(u16x32::splat(u16::from(first)))
            | units.simd_eq(u16x32::splat(u16::from(second)))
            | units.simd_eq(u16x32::splat(u16::from(third)))
            | units.simd_ge(u16x32::splat(0x80))).to_bitmask()
    }
}

/// Where a member first stands from an index on, by one unit after another.
fn first_from<Set: UnitSet>(set: &Set, units: &[u16], from: usize) -> Option<usize>
    requires { from ≤ length units.now }
    ensures least { IsNextUnit (Set.contains set.now) units.now from result }
    ensures inside { IfSome result (λ k. k < length units.now) }
{
    for index in from..units.len() {
        if set.contains(units[index]) {
            return Some(index);
        }
    }
    None
}

/// Where a member first stands from an index on, by many units at once. Asks that the index lies among the units.
///
/// ```rust
/// let index = find_member(&[b'b'], &[0x61, 0x62], 0); // `Some(1)`
/// ```
#[inline(always)]
pub fn find_member<Set: UnitSet>(set: &Set, units: &[u16], from: usize) -> Option<usize>
    requires { from ≤ length units.now }
    ensures least { IsNextUnit (Set.contains set.now) units.now from result }
    ensures inside { IfSome result (λ k. k < length units.now) }
{
    let mut at = from;
    while units.len() - at >= LANES {
        let marks = set.marks(u16x32::from_slice(&units[at..]));
        if marks != 0 {
            return Some(at + marks.trailing_zeros() as usize);
        }
        at += LANES;
    }
    first_from(set, units, at)
}

/// Whether these bytes stand at an index.
fn stand_at(bytes: &[u8], units: &[u16], index: usize) -> bool
    requires { index ≤ length units.now }
    ensures { IsTrue result ↔ OccursAt units.now bytes.now index }
{
    if bytes.len() > units.len() - index {
        return false;
    }
    for k in 0..bytes.len() {
        if units[index + k] != u16::from(bytes[k]) {
            return false;
        }
    }
    true
}

/// Whether a byte stands at an index, and another so far behind it.
fn has_ends(first: u8, last: u8, apart: usize, units: &[u16], index: usize) -> bool
    requires { index < length units.now }
    ensures { result ≡ has_ends first last apart units.now index }
{
    units[index] == u16::from(first)
        && apart < units.len() - index
        && units[index + apart] == u16::from(last)
}

/// Where a byte first stands from an index on that has another so far behind it, by one index after another.
fn first_ends(first: u8, last: u8, apart: usize, units: &[u16], from: usize) -> Option<usize>
    requires { from ≤ length units.now }
    ensures least { IsLeast (λ k. has_ends first last apart units.now k ≡ true) from result }
    ensures inside { IfSome result (λ k. k < length units.now) }
{
    for index in from..units.len() {
        if has_ends(first, last, apart, units, index) {
            return Some(index);
        }
    }
    None
}

/// Which of 32 indices from one on have a byte there, and another so far behind it: a bit for each.
#[inline(always)]
fn ends_marked(first: u8, last: u8, apart: usize, units: &[u16], at: usize) -> u64
    requires { at + apart + 32 ≤ length units.now }
    ensures { (k : ℕ) → (bit_at result k ≡ 1) ↔ ((k < 32) × (has_ends first last apart units.now (at + k) ≡ true)) }
{
    let begun = [first].marks(u16x32::from_slice(&units[at..]));
    let ended = [last].marks(u16x32::from_slice(&units[at + apart..]));
    begun & ended
}

/// An index up to which no byte stands that has another so far behind it, by twice as many units at once.
#[inline(always)]
fn pass_ends(first: u8, last: u8, apart: usize, units: &[u16], from: usize) -> usize
    requires { from ≤ length units.now }
    ensures inside { (from ≤ result) × (result ≤ length units.now) }
    ensures none { (k : ℕ) → from ≤ k → k < result → ¬ (has_ends first last apart units.now k ≡ true) }
{
    let mut at = from;
    while units.len() - at >= 2 * LANES && units.len() - at - 2 * LANES >= apart {
        let near = ends_marked(first, last, apart, units, at);
        let far = ends_marked(first, last, apart, units, at + LANES);
        if near | far != 0 {
            break;
        }
        at += 2 * LANES;
    }
    at
}

/// The same by many units at once: a text has the first byte of a sequence at many places, and hardly ever the last as far behind it.
#[inline(always)]
fn find_ends(first: u8, last: u8, apart: usize, units: &[u16], from: usize) -> Option<usize>
    requires { from ≤ length units.now }
    ensures least { IsLeast (λ k. has_ends first last apart units.now k ≡ true) from result }
    ensures inside { IfSome result (λ k. k < length units.now) }
{
    let mut at = pass_ends(first, last, apart, units, from);
    while units.len() - at >= LANES && units.len() - at - LANES >= apart {
        let marks = ends_marked(first, last, apart, units, at);
        if marks != 0 {
            return Some(at + marks.trailing_zeros() as usize);
        }
        at += LANES;
    }
    first_ends(first, last, apart, units, at)
}

/// Where two of some bytes are that are rare in texts, the first one first. Of one byte both are that byte, and of none there is `None`.
#[inline(always)]
fn rare_of(bytes: &[u8]) -> Option<(usize, usize)>
    ensures some { IfSome result (λ rare. (rare.0 ≤ rare.1) × (rare.1 < length bytes.now)) }
    ensures none { IsNone result → length bytes.now ≡ 0 }
{
    if let Some(pair) = Pair::new(bytes) {
        let first = usize::from(pair.index1());
        let second = usize::from(pair.index2());
        return Some((first.min(second), first.max(second)));
    }
    if bytes.is_empty() { None } else { Some((0, 0)) }
}

/// Where these bytes first stand from an index on. Asks that the index lies among the units.
///
/// ```rust
/// let index = find_sequence(b"ab", &[0x61, 0x61, 0x62], 0); // `Some(1)`
/// ```
pub fn find_sequence(bytes: &[u8], units: &[u16], from: usize) -> Option<usize>
    requires { from ≤ length units.now }
    ensures { IsLeast (λ k. take (length bytes.now) (drop k units.now) ≡ bytes.now) from result }
{
    let Some((near, far)) = rare_of(bytes) else {
        return Some(from);
    };
    let mut at = from;
    while units.len() - at >= bytes.len() {
        let index = find_ends(bytes[near], bytes[far], far - near, units, at + near)?;
        let start = index - near;
        if stand_at(bytes, units, start) {
            return Some(start);
        }
        at = start + 1;
    }
    None
}
