//! Ranges in a caller's memory.
ghost use Rattle.std.specs.Prelude.{◌≡◌, ◌+◌, ◌<◌, ◌≤◌, ℕ, List, Option, length, option_map, slice_get, unwrap_or, Some, None};
ghost use Rattle.std.specs.declared.ops.Range.{Range as Ends};
ghost use Rattle.regress_meaning.specs.Matches.{Item};
ghost use Rattle.regress_match.specs.Views.{ends};
ghost use Rattle.regress_calls.specs.Ranges.{IsAnswerTo, shown_range, range_numbered};
ghost use Rattle.regress_calls.specs.Slotted.{IsInSlots};

use regress::Range;

/// The range of a match or of a group as C has it; both ends are `usize::MAX` where a group took no part.
#[repr(C)]
#[derive(Clone, Copy, Debug, PartialEq, Eq)]
pub struct TextRange {
    pub start: usize,
    pub end: usize,
}

impl TextRange {
    /// What is shown of the range of a group, if there is such a group and its range is set.
    fn of(group: Option<&Option<Range>>) -> TextRange
        ensures { result ≡ shown_range (unwrap_or (option_map (λ g. option_map ends g.now) group.entry) None) }
    {
        match group {
            Some(Some(range)) => TextRange {
                start: range.start,
                end: range.end,
            },
            _ => TextRange {
                start: usize::MAX,
                end: usize::MAX,
            },
        }
    }
}

/// Writes ranges to a caller's memory in order, and unset ones past the last.
pub(crate) fn write_ranges(slots: &[Option<Range>], ranges: &mut [TextRange])
    ensures { (k : ℕ) → k < length ranges.new → slice_get ranges.new k ≡ Some (shown_range (range_numbered slots.now k)) }
{
    for (k, range) in ranges.iter_mut().enumerate() {
        *range = TextRange::of(slots.get(k));
    }
}

/// Shows the ranges of the match that stand in the slots, if one was found, and tells how many it has.
pub(crate) fn show(found: Option<Range>, slots: &[Option<Range>], ranges: &mut [TextRange]) -> usize
    ensures shown { (groups : ℕ) → length slots.now ≡ groups + 1 → (i : Option Item) → (old : List (Option (Ends ℕ))) → IsInSlots i old found slots.now →
        IsAnswerTo groups i ranges.old result ranges.new }
    ensures few { length slots.now ≤ 65536 → result ≤ 65536 }
{
    if found.is_none() {
        return 0;
    }
    write_ranges(slots, ranges);
    slots.len()
}
