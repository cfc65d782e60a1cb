//! Code points, and intervals of them.
ghost use Rattle.std.specs.Prelude.{◌≡◌, ℕ, ◌+◌, ◌≤◌, ◌↔◌, IsTrue, min, max};

use std::cmp::Ordering;
use std::ops::Range;

/// A code point, up to `CODE_POINT_MAX`.
pub type CodePoint = u32;

/// The greatest code point.
pub const CODE_POINT_MAX: CodePoint = 0x10_FFFF;

/// The code points from one to another, both included. There is at least one.
#[derive(Debug, Clone, Copy, Drop)]
pub struct Interval {
    /// The first of them.
    pub first: CodePoint,
    /// The last of them.
    pub last: CodePoint,
    pub ghost ordered: { first ≤ last },
    pub ghost bounded: { last ≤ 0x10_FFFF },
}

impl Interval {
    ghost use Rattle.regress_front_sets.specs.Intervals.{in_interval, interval_cmp};

    /// Where the interval lies, seen from a code point: `Less` where all of it lies before, `Equal` where it holds the
    /// code point, `Greater` where all of it lies after. Of 61 to 7A (hexadecimal) `letters.compare(0x60)` is `Greater`.
    pub fn compare(self, cp: CodePoint) -> Ordering
        ensures { result ≡ interval_cmp self cp }
    {
        if self.last < cp {
            Ordering::Less
        } else if cp < self.first {
            Ordering::Greater
        } else {
            Ordering::Equal
        }
    }

    /// Whether the code point lies in the interval, as `Interval { first: 0x61, last: 0x7A }.contains(0x7A)`.
    pub fn contains(self, cp: CodePoint) -> bool
        ensures { result ≡ in_interval self cp }
    {
        self.first <= cp && cp <= self.last
    }

    /// Whether some code point lies in both intervals: those from 1 to 5 and from 5 to 9 overlap.
    pub fn overlaps(self, other: Interval) -> bool
        ensures { IsTrue result ↔ ((c : ℕ) × IsTrue (in_interval self c) × IsTrue (in_interval other c)) }
    {
        self.first <= other.last && other.first <= self.last
    }

    /// The code points of the interval, as a range whose end is not included: `1..6` for those from 1 to 5.
    pub fn codepoints(self) -> Range<u32>
        ensures start { result.start ≡ self.first }
        ensures end { result.end ≡ self.last + 1 }
    {
        self.first..self.last + 1
    }

    /// How many code points lie in the interval: 5 in that from 1 to 5.
    pub fn count_codepoints(self) -> usize
        ensures { self.first + result ≡ self.last + 1 }
    {
        (self.last - self.first) as usize + 1
    }

    /// The least interval that holds both.
    pub(crate) fn hull(self, other: Interval) -> Interval
        ensures first { result.first ≡ min self.first other.first }
        ensures last { result.last ≡ max self.last other.last }
    {
        Interval {
            first: self.first.min(other.first),
            last: self.last.max(other.last),
        }
    }
}
