//! A byte at which a word begins.
ghost use Rattle.std.specs.Prelude.{◌≡◌, ◌↔◌, ℕ, ◌<◌, ◌≤◌, true, length, map, IfSome, IsTrue};
ghost use Rattle.regress_engine_scanning.specs.Least.{IsLeast};
ghost use Rattle.regress_engine_scanning.specs.WordStarts.{IsLowWord, begins_word, passes_before};
ghost use Rattle.regress_engine_scanning.specs.NibbleSets.{nibble_set_contains};

use crate::nibble_set::NibbleSet;
use crate::unit::Unit;

/// A byte of a set, in front of which no byte of another stands.
#[derive(Clone, Copy, Debug)]
pub struct WordStart {
    /// The bytes that may not stand in front of it: those of words.
    pub word: NibbleSet,
    /// The bytes that may stand there.
    pub first: NibbleSet,
}

/// Whether a byte of a set stands right before an index.
fn stands_before<U: Unit>(set: &NibbleSet, units: &[U], index: usize) -> bool
    requires { U.Fits (nibble_set_contains set.now) }
    ensures { result ≡ passes_before (nibble_set_contains set.now) (map U.number units.now) index }
{
    if index == 0 {
        return false;
    }
    set.stands_at(units, index - 1)
}

impl WordStart {
    /// Whether each byte of both sets is below 0x80.
    pub fn is_ascii(&self) -> bool
        ensures { IsTrue result ↔ IsLowWord self.now }
    {
        self.word.is_ascii() && self.first.is_ascii()
    }

    /// Whether a word begins so at an index.
    fn stands_at<U: Unit>(&self, units: &[U], index: usize) -> bool
        requires word { U.Fits (nibble_set_contains self.now.word) }
        requires first { U.Fits (nibble_set_contains self.now.first) }
        requires inside { index < length units.now }
        ensures { result ≡ begins_word self.now (map U.number units.now) index }
    {
        self.first.stands_at(units, index) && !stands_before(&self.word, units, index)
    }

    /// The first index from one on at which a word begins so, one by one.
    fn find_slowly<U: Unit>(&self, units: &[U], from: usize) -> Option<usize>
        requires word { U.Fits (nibble_set_contains self.now.word) }
        requires first { U.Fits (nibble_set_contains self.now.first) }
        requires inside { from ≤ length units.now }
        ensures least { IsLeast (λ k. begins_word self.now (map U.number units.now) k ≡ true) from result }
        ensures inside { IfSome result (λ k. k < length units.now) }
    {
        for index in from..units.len() {
            if self.stands_at(units, index) {
                return Some(index);
            }
        }
        None
    }

    /// The first index from one on at which a word begins so, sixteen at once. Asks that a unit stands in front.
    #[inline(always)]
    fn find_inside<U: Unit>(&self, units: &[U], offset: usize) -> Option<usize>
        requires word { U.Fits (nibble_set_contains self.now.word) }
        requires first { U.Fits (nibble_set_contains self.now.first) }
        requires inside { (0 < offset) × (offset ≤ length units.now) }
        ensures least { IsLeast (λ k. begins_word self.now (map U.number units.now) k ≡ true) offset result }
        ensures inside { IfSome result (λ k. k < length units.now) }
    {
        let mut from = offset;
        while units.len() - from >= 16 {
            let marked = self.first.marks(units, from) & !self.word.marks(units, from - 1);
            if marked != 0 {
                return Some(from + marked.trailing_zeros() as usize);
            }
            from += 16;
        }
        self.find_slowly(units, from)
    }

    /// The first index from one on at which a word begins so.
    fn find_among<U: Unit>(&self, units: &[U], offset: usize) -> Option<usize>
        requires word { U.Fits (nibble_set_contains self.now.word) }
        requires first { U.Fits (nibble_set_contains self.now.first) }
        requires inside { offset ≤ length units.now }
        ensures least { IsLeast (λ k. begins_word self.now (map U.number units.now) k ≡ true) offset result }
        ensures inside { IfSome result (λ k. k < length units.now) }
    {
        if offset > 0 {
            return self.find_inside(units, offset);
        }
        if units.is_empty() {
            return None;
        }
        if self.stands_at(units, 0) {
            return Some(0);
        }
        self.find_inside(units, 1)
    }

    /// The first index from one on at which a word begins so. Asks that the offset lies in the text.
    ///
    /// ```rust
    /// let start = word.find(b"abc b", 0); // of `b` `Some(4)`
    /// ```
    pub fn find(&self, text: &[u8], offset: usize) -> Option<usize>
        requires { offset ≤ length text.now }
        ensures least { IsLeast (λ k. begins_word self.now text.now k ≡ true) offset result }
        ensures inside { IfSome result (λ k. k < length text.now) }
    {
        self.find_among(text, offset)
    }

    /// The same among 16-bit units. Asks that all bytes of both sets are below 0x80, and that the offset lies among the units.
    ///
    /// ```rust
    /// let start = word.find_units(&[0x61, 0x62, 0x20, 0x62], 0); // of `b` `Some(3)`
    /// ```
    pub fn find_units(&self, units: &[u16], offset: usize) -> Option<usize>
        requires low { IsLowWord self.now }
        requires inside { offset ≤ length units.now }
        ensures { IsLeast (λ k. begins_word self.now units.now k ≡ true) offset result }
    {
        self.find_among(units, offset)
    }
}
