//! A text as code points, and where each of them stands in its bytes.
ghost use Rattle.std.specs.Prelude.{◌≡◌, ◌≢◌, ◌≤◌, ◌+◌, ℕ, chars, slice_get, Some, IfOk, IfSome, IfNone, vec_len};
ghost use Rattle.regress_meaning.specs.Offsets.{offset, told};
ghost use Rattle.regress_match.specs.Views.{item_of};
ghost use Rattle.regress_match.specs.GroupNames.{shared_names};
ghost use Rattle.regress_match.specs.GroupViews.{names_of_match};
ghost use Rattle.regress_match.specs.TextRanges.{utf8_reading};
ghost use Rattle.regress_evaluator.specs.PlaceViews.{item_of as found_item, told_range};
ghost use Rattle.regress_meaning.specs.Laws.{IsItemInside};

use crate::found::{Found, Places};
use regress_front_tables::{CaptureGroupName, CodePoint};
use regress_match::{Match, Range};
use std::alloc::{AllocError, Global};
use std::sync::ArcSlice;

/// The code points of a text, and the offset in bytes of each of its places, the end included.
#[derive(Debug, Drop)]
pub(crate) struct Text {
    points: Vec<CodePoint>,
    offsets: Vec<usize>,
    ghost each_place: { vec_len offsets ≡ vec_len points + 1 },
    ghost in_bytes: { (place : ℕ) → place ≤ vec_len points
        → slice_get offsets.items place ≡ Some (offset (utf8_reading points.items) place) },
}

impl Text {
    /// The code points of `text` and the offsets of its places. Fails only where memory is refused.
    pub(crate) fn new(alloc: Global, text: &str) -> Result<Self, AllocError>
        ensures { IfOk result (λ t. t.points.items ≡ chars text.now) }
    {
        let mut points = Vec::new(alloc);
        let mut offsets = Vec::new(alloc);
        for (start, point) in text.char_indices() {
            points.push(u32::from(point))?;
            offsets.push(start)?;
        }
        offsets.push(text.len())?;
        Ok(Text { points, offsets })
    }

    /// Its code points.
    pub(crate) fn points(&self) -> &[CodePoint]
        ensures { result.now ≡ self.now.points.items }
    {
        &self.points
    }

    /// The offset in bytes of a place: how many bytes the first `place` code points take.
    pub(crate) fn offset(&self, place: usize) -> usize
        requires { place ≤ vec_len self.now.points }
        ensures { result ≡ offset (utf8_reading self.now.points.items) place }
    {
        self.offsets[place]
    }

    /// The place at an offset in bytes; `None` where no character begins and the text doesn't end there.
    pub(crate) fn place(&self, at: usize) -> Option<usize>
        ensures there { IfSome result (λ place. (place ≤ vec_len self.now.points)
            × (offset (utf8_reading self.now.points.items) place ≡ at)) }
        ensures nowhere { IfNone result ((place : ℕ) → place ≤ vec_len self.now.points
            → offset (utf8_reading self.now.points.items) place ≢ at) }
    {
        self.offsets.iter().position(|offset| *offset == at)
    }

    /// The range in bytes that lies between two places.
    fn range(&self, places: Places) -> Range
        requires start { places.start ≤ vec_len self.now.points }
        requires end { places.end ≤ vec_len self.now.points }
        ensures { result ≡ told_range self.now.points.items places }
    {
        self.offset(places.start)..self.offset(places.end)
    }

    /// The match that was found in this text, told in bytes, with the names of its groups. Fails only where memory is
    /// refused.
    pub(crate) fn told(
        &self,
        found: &Found,
        group_names: ArcSlice<CaptureGroupName>,
    ) -> Result<Match, AllocError>
        requires { IsItemInside self.now.points.items (found_item found.now) }
        ensures told { IfOk result (λ m. item_of m ≡ told (utf8_reading self.now.points.items) (found_item found.now)) }
        ensures named { IfOk result (λ m. names_of_match m ≡ shared_names group_names) }
    {
        let mut captures = Vec::new(*self.points.allocator());
        for group in &found.groups {
            captures.push(match group {
                Some(places) => Some(self.range(*places)),
                None => None,
            })?;
        }
        Ok(Match::new(self.range(found.span), captures, group_names))
    }
}
