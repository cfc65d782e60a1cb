//! What a group took, once more.
ghost use Rattle.std.specs.Prelude.{◌≡◌, ◌≢◌, true, Some, IfSome, slice_get};
ghost use Rattle.regress_meaning.specs.Steps.{repeated};
ghost use Rattle.regress_engine_input.specs.Views.{direction_of, input_of, reading_of};
ghost use Rattle.regress_engine_runs.specs.States.{range_of};
ghost use Rattle.regress_engine_runs.specs.Meets.{AreAtPlaces, IsAtPlace};
ghost use Rattle.regress_engine_search.specs.StateViews.{marks_of};

use regress_engine_input::{Backward, Direction, Forward, InputIndexer, PositionType};
use regress_engine_matchers::CharInput;
use regress_engine_matchers::matchers::{backref, backref_icase};
use regress_front_core::GroupData;
use std::ops::Range;

/// The offset behind what a range took, where that stands beside another offset once more.
#[inline]
fn once_more<Input: CharInput, Dir: Direction>(
    input: &Input,
    dir: Dir,
    icase: bool,
    range: Range<usize>,
    offset: usize,
) -> Option<usize>
    requires range { AreAtPlaces (reading_of (Input.view input.now)) (range.start, range.end) }
    requires place { IsAtPlace (reading_of (Input.view input.now)) offset }
    ensures { result ≡ repeated (input_of (Input.view input.now)) (direction_of Dir.FORWARD) icase (Some (range.start, range.end)) offset }
{
    let mut position = <Input::Position as PositionType>::new(offset);
    let start = <Input::Position as PositionType>::new(range.start);
    let end = <Input::Position as PositionType>::new(range.end);
    let stands = if icase {
        backref_icase(input, dir, start..end, &mut position)
    } else {
        backref(input, dir, start..end, &mut position)
    };
    if stands {
        Some(input.pos_to_offset(position))
    } else {
        None
    }
}

/// Whether other units stand ahead of two offsets, as the first of them tells. The offsets may be any.
///
/// ```rust
/// let other = differ_ahead(&input, 0, 1); // true of "ab"
/// ```
#[inline(always)]
pub fn differ_ahead<Input: InputIndexer>(input: &Input, start: usize, offset: usize) -> bool
    ensures { result ≡ true → slice_get (Input.view input.now).units start ≢ slice_get (Input.view input.now).units offset }
{
    if let Some(text) = input.bytes() {
        return start < text.len() && (offset >= text.len() || text[start] != text[offset]);
    }
    match input.units() {
        Some(units) => {
            start < units.len() && (offset >= units.len() || units[start] != units[offset])
        }
        None => false,
    }
}

/// The offset behind what a group took, where that stands beside an offset once more, and the offset itself where the group
/// took nothing.
#[inline]
pub(crate) fn back_reference<Input: CharInput>(
    input: &Input,
    forward: bool,
    icase: bool,
    group: &GroupData<usize>,
    offset: usize,
) -> Option<usize>
    requires range { IfSome (range_of (marks_of group.now)) (AreAtPlaces (reading_of (Input.view input.now))) }
    requires place { IsAtPlace (reading_of (Input.view input.now)) offset }
    ensures { result ≡ repeated (input_of (Input.view input.now)) (direction_of forward) icase (range_of (marks_of group.now)) offset }
{
    let (Some(start), Some(end)) = (group.start, group.end) else {
        return Some(offset);
    };
    if forward && !icase && start < end && differ_ahead(input, start, offset) {
        return None;
    }
    if forward {
        once_more(input, Forward::new(), icase, start..end, offset)
    } else {
        once_more(input, Backward::new(), icase, start..end, offset)
    }
}
