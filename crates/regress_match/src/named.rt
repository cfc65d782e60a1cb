//! The named groups of a match, one name after another.
ghost use Rattle.std.specs.Prelude.{◌≡◌, ◌+◌, ◌<◌, ◌≤◌, ℕ, List, [], ◌∷◌, length, map, take, drop, string_bytes, IfSome, IfNone, Some, slice_index_or};
ghost use Rattle.std.specs.Iterator.{UpTo, item_count};
ghost use Rattle.std.specs.Iterator.SizeHint.{IsWithinCount};
ghost use Rattle.regress_match.specs.GroupViews.{names_of_match};
ghost use Rattle.regress_match.specs.NamedRanges.{is_new, new_names, taken_by};
ghost use Rattle.regress_match.specs.TextRanges.{LiesBetween, LiesInText};

use crate::found::{Match, Range, first_named};
use regress_front_core::CaptureGroupName;
use std::alloc::AllocError;
use std::iter::{ExactSizeIterator, FusedIterator};

/// The names of the groups of a match, each once in order of first appearance, with the range of the first group of that name
/// that took part; `None` where none did. Ranges are in bytes of the text that was searched. From `Match::named_groups`.
#[derive(Debug, Drop)]
pub struct NamedGroups<'m> {
    found: &'m Match,
    index: usize,
    ghost in_range: { index ≤ length (names_of_match found.now) },
}

/// Whether the name at an index is not empty, and none before it is the same.
fn is_first(names: &[CaptureGroupName], index: usize) -> bool
    requires { index < length names.now }
    ensures { result ≡ is_new (take index (map string_bytes names.now)) (slice_index_or (map string_bytes names.now) index []) }
{
    let name = names[index].as_str();
    match first_named(names, name) {
        Some(first) => !name.is_empty() && first == index,
        None => false,
    }
}

/// The index of the next name, from `start` on, that is not empty and that no name before it is the same as.
fn next_first(names: &[CaptureGroupName], start: usize) -> Option<usize>
    ensures there { IfSome result (λ k. k < length names.now) }
    ensures first { IfSome result (λ k. let all = map string_bytes names.now in
        new_names (take start all) (drop start all) ≡ slice_index_or all k [] ∷ new_names (take (k + 1) all) (drop (k + 1) all)) }
    ensures none { let all = map string_bytes names.now in IfNone result (new_names (take start all) (drop start all) ≡ []) }
{
    for index in start..names.len() {
        if is_first(names, index) {
            return Some(index);
        }
    }
    None
}

/// What the first group of a name took that took part.
pub(crate) fn taken(found: &Match, name: &str) -> Option<Range>
    ensures value { result ≡ taken_by found.now name.now }
    ensures inside { (bytes : List ℕ) → LiesInText bytes found.now → IfSome result (LiesBetween bytes) }
{
    for (index, other) in found.group_names().iter().enumerate() {
        if other.as_str() == name {
            if let Some(range) = found.group(index + 1) {
                return Some(range);
            }
        }
    }
    None
}

impl<'m> NamedGroups<'m> {
    ghost use Rattle.regress_match.specs.NamedRanges.{named_from};
    ghost use Rattle.regress_match.specs.NamedGroupViews.{named_left};

    /// All names of the groups of a match.
    pub(crate) fn of(found: &'m Match) -> Self
        ensures { named_left result ≡ named_from found.now 0 }
    {
        NamedGroups { found, index: 0 }
    }
}

impl<'m> Clone for NamedGroups<'m> {
    ghost use Rattle.std.specs.Prelude.{⊤};

    ghost is_clone = { λ g h. h ≡ g };

    ghost is_infallible = { λ g. ⊤ };

    /// An iterator over the same names that are still to come. It never fails.
    fn clone(&self) -> Result<Self, AllocError> {
        Ok(NamedGroups {
            found: self.found,
            index: self.index,
        })
    }
}

impl<'m> Iterator for NamedGroups<'m> {
    ghost use Rattle.regress_match.specs.NamedGroupViews.{named_left, GivesNamed};

    type Item = (&'m str, Option<Range>);

    ghost next_gives = { GivesNamed };

    ghost remaining = { item_count named_left };

    /// The next name, and its range; `None` after the last one, and ever after.
    ///
    /// ```rust
    /// let first = found.named_groups().next(); // `Some(("year", Some(range)))`
    /// ```
    fn next(&mut self) -> Option<(&'m str, Option<Range>)> {
        let names = self.found.group_names();
        let Some(index) = next_first(names, self.index) else {
            self.index = names.len();
            return None;
        };
        self.index = index + 1;
        let name = names[index].as_str();
        Some((name, taken(self.found, name)))
    }

    /// How many names are still to come, as both bounds.
    ///
    /// ```rust
    /// let (lower, upper) = found.named_groups().size_hint(); // both the number of names
    /// ```
    fn size_hint(&self) -> (usize, Option<usize>)
        ensures lower { IsWithinCount result.0 (item_count named_left self.now) }
        ensures upper { IfSome result.1 (UpTo (item_count named_left self.now)) }
        ensures exact { result ≡ (length (named_left self.now), Some (length (named_left self.now))) }
    {
        let len = self.len();
        (len, Some(len))
    }
}

impl<'m> ExactSizeIterator for NamedGroups<'m> {
    /// How many names are still to come.
    ///
    /// ```rust
    /// let count = found.named_groups().len();
    /// ```
    fn len(&self) -> usize {
        let names = self.found.group_names();
        let mut count = 0;
        for index in self.index..names.len() {
            if is_first(names, index) {
                count += 1;
            }
        }
        count
    }
}

impl<'m> FusedIterator for NamedGroups<'m> {}
