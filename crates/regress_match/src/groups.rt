//! The groups of a match, one after another.
ghost use Rattle.std.specs.Prelude.{◌≤◌, ◌+◌, vec_len};
ghost use Rattle.std.specs.Iterator.{YieldsFirst, UpTo, item_count};
ghost use Rattle.std.specs.Iterator.SizeHint.{IsWithinCount};

use crate::found::{Match, Range};
use std::alloc::AllocError;
use std::iter::{ExactSizeIterator, FusedIterator};

/// The groups of a match: the range of the whole match, then that of each capturing group in order of its number, `None`
/// where the group took no part. Ranges are in bytes of the text that was searched. From `Match::groups`.
#[derive(Debug, Drop)]
pub struct Groups<'m> {
    found: &'m Match,
    index: usize,
    ghost in_range: { index ≤ vec_len found.now.captures + 1 },
}

impl<'m> Groups<'m> {
    ghost use Rattle.std.specs.Prelude.{◌≡◌};
    ghost use Rattle.regress_match.specs.GroupViews.{groups_of, groups_left};

    /// All groups of a match.
    pub(crate) fn new(found: &'m Match) -> Self
        ensures { groups_left result ≡ groups_of found.now }
    {
        Groups { found, index: 0 }
    }
}

impl<'m> Clone for Groups<'m> {
    ghost use Rattle.std.specs.Prelude.{◌≡◌, ⊤};

    ghost is_clone = { λ g h. h ≡ g };

    ghost is_infallible = { λ g. ⊤ };

    /// An iterator over the same groups that are still to come. It never fails.
    fn clone(&self) -> Result<Self, AllocError> {
        Ok(Groups {
            found: self.found,
            index: self.index,
        })
    }
}

impl<'m> Iterator for Groups<'m> {
    ghost use Rattle.std.specs.Prelude.{◌≡◌, Some, IfSome, length};
    ghost use Rattle.regress_match.specs.GroupViews.{groups_left};

    type Item = Option<Range>;

    ghost next_gives = { YieldsFirst groups_left };

    ghost remaining = { item_count groups_left };

    /// The next group; `None` after the last one, and ever after.
    ///
    /// ```rust
    /// let whole = found.groups().next(); // `Some(Some(range))`
    /// ```
    fn next(&mut self) -> Option<Option<Range>> {
        if self.index > self.found.captures.len() {
            return None;
        }
        let group = self.found.group(self.index);
        self.index += 1;
        Some(group)
    }

    /// How many groups are still to come, as both bounds.
    ///
    /// ```rust
    /// let (lower, upper) = found.groups().size_hint(); // both the number of groups
    /// ```
    fn size_hint(&self) -> (usize, Option<usize>)
        ensures lower { IsWithinCount result.0 (item_count groups_left self.now) }
        ensures upper { IfSome result.1 (UpTo (item_count groups_left self.now)) }
        ensures exact { result ≡ (length (groups_left self.now), Some (length (groups_left self.now))) }
    {
        let len = self.len();
        (len, Some(len))
    }
}

impl<'m> ExactSizeIterator for Groups<'m> {
    /// How many groups are still to come.
    ///
    /// ```rust
    /// let count = found.groups().len();
    /// ```
    fn len(&self) -> usize {
        self.found.captures.len() + 1 - self.index
    }
}

impl<'m> FusedIterator for Groups<'m> {}
