//! Two bytes, one right behind the other.
ghost use Rattle.std.specs.Prelude.{◌≡◌, ◌↔◌, ℕ, ◌<◌, ◌≤◌, true, length, map, IfSome, IsTrue};
ghost use Rattle.regress_engine_scanning.specs.Least.{IsLeast};
ghost use Rattle.regress_engine_scanning.specs.BytePairs.{IsLowPair, begins_pair};
ghost use Rattle.regress_engine_scanning.specs.NibbleSets.{nibble_set_contains};

use crate::nibble_set::NibbleSet;
use crate::unit::Unit;

/// A byte of a set, and right behind it a byte of another.
#[derive(Clone, Copy, Debug)]
pub struct BytePair {
    /// The bytes that may stand first.
    pub first: NibbleSet,
    /// The bytes that may stand behind it.
    pub second: NibbleSet,
}

impl BytePair {
    /// Whether each byte of both sets is below 0x80.
    pub fn is_ascii(&self) -> bool
        ensures { IsTrue result ↔ IsLowPair self.now }
    {
        self.first.is_ascii() && self.second.is_ascii()
    }

    /// Whether both stand at an index.
    fn stands_at<U: Unit>(&self, units: &[U], index: usize) -> bool
        requires first { U.Fits (nibble_set_contains self.now.first) }
        requires second { U.Fits (nibble_set_contains self.now.second) }
        requires inside { index < length units.now }
        ensures { result ≡ begins_pair self.now (map U.number units.now) index }
    {
        self.first.stands_at(units, index) && self.second.stands_at(units, index + 1)
    }

    /// The first index from one on at which both stand, one by one.
    fn find_slowly<U: Unit>(&self, units: &[U], from: usize) -> Option<usize>
        requires first { U.Fits (nibble_set_contains self.now.first) }
        requires second { U.Fits (nibble_set_contains self.now.second) }
        requires inside { from ≤ length units.now }
        ensures least { IsLeast (λ k. begins_pair self.now (map U.number units.now) k ≡ true) from result }
        ensures inside { IfSome result (λ k. k < length units.now) }
    {
        for index in from..units.len() {
            if self.stands_at(units, index) {
                return Some(index);
            }
        }
        None
    }

    /// The first index from one on at which both stand, sixteen at once.
    #[inline(always)]
    fn find_among<U: Unit>(&self, units: &[U], offset: usize) -> Option<usize>
        requires first { U.Fits (nibble_set_contains self.now.first) }
        requires second { U.Fits (nibble_set_contains self.now.second) }
        requires inside { offset ≤ length units.now }
        ensures least { IsLeast (λ k. begins_pair self.now (map U.number units.now) k ≡ true) offset result }
        ensures inside { IfSome result (λ k. k < length units.now) }
    {
        let mut from = offset;
        while units.len() - from > 16 {
            let marked = self.first.marks(units, from) & self.second.marks(units, from + 1);
            if marked != 0 {
                return Some(from + marked.trailing_zeros() as usize);
            }
            from += 16;
        }
        self.find_slowly(units, from)
    }

    /// The first index from one on at which both stand, sixteen at once. Asks that the offset lies in the text.
    ///
    /// ```rust
    /// let start = pair.find(b"a-ab", 0); // of `a` and `b` `Some(2)`
    /// ```
    pub fn find(&self, text: &[u8], offset: usize) -> Option<usize>
        requires { offset ≤ length text.now }
        ensures least { IsLeast (λ k. begins_pair self.now text.now k ≡ true) offset result }
        ensures inside { IfSome result (λ k. k < length text.now) }
    {
        self.find_among(text, offset)
    }

    /// The same among 16-bit units. Asks that all bytes of both sets are below 0x80, and that the offset lies among the units.
    ///
    /// ```rust
    /// let start = pair.find_units(&[0x61, 0x2D, 0x61, 0x62], 0); // of `a` and `b` `Some(2)`
    /// ```
    pub fn find_units(&self, units: &[u16], offset: usize) -> Option<usize>
        requires low { IsLowPair self.now }
        requires inside { offset ≤ length units.now }
        ensures { IsLeast (λ k. begins_pair self.now units.now k ≡ true) offset result }
    {
        self.find_among(units, offset)
    }
}
