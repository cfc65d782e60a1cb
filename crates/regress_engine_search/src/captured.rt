//! The captures of a match, as a list of its own or in slots of a caller.
ghost use Rattle.std.specs.Prelude.{◌≡◌, ◌∷◌, length, map, option_map, Some, IfOk};
ghost use Rattle.regress_match.specs.GroupRanges.{numbered};
ghost use Rattle.regress_match.specs.Slots.{slots_of};
ghost use Rattle.regress_match.specs.Views.{ends};
ghost use Rattle.regress_engine_runs.specs.States.{range_of};
ghost use Rattle.regress_engine_search.specs.StateViews.{marks_of};

use regress_front_core::GroupData;
use regress_match::Range;
use std::alloc::{AllocError, Global};

/// The range of a group, where it took part.
fn taken(group: &GroupData<usize>) -> Option<Range>
    ensures { option_map ends result ≡ range_of (marks_of group.now) }
{
    match (group.start, group.end) {
        (Some(start), Some(end)) => Some(start..end),
        _ => None,
    }
}

/// The ranges of groups, of those that took part: where both of its ends are known. The ends are offsets in the text. Its one
/// error is that memory is refused.
pub(crate) fn captures(
    alloc: Global,
    groups: &[GroupData<usize>],
) -> Result<Vec<Option<Range>>, AllocError>
    ensures { IfOk result (λ found. map (option_map ends) found.items ≡ map (λ g. range_of (marks_of g)) groups.now) }
{
    let mut found = Vec::with_capacity(alloc, groups.len())?;
    for group in groups {
        found.push(taken(group))?;
    }
    Ok(found)
}

/// The range for the slot of an index: first that of the whole match, then that of each group.
fn slot(range: &Range, groups: &[GroupData<usize>], index: usize) -> Option<Range>
    ensures { option_map ends result ≡ numbered (Some (ends range.now) ∷ map (λ g. range_of (marks_of g)) groups.now) index }
{
    if index == 0 {
        return Some(range.start..range.end);
    }
    taken(groups.get(index - 1)?)
}

/// Fills slots with the range of a match, and then with that of each group, as many as there is room for; behind the last group
/// with `None`.
///
/// ```rust
/// fill_slots(1..3, &groups, &mut slots);
/// ```
pub fn fill_slots(range: Range, groups: &[GroupData<usize>], slots: &mut [Option<Range>])
    ensures { map (option_map ends) slots.new ≡ slots_of (length slots.old) (Some (ends range) ∷ map (λ g. range_of (marks_of g)) groups.now) }
{
    for index in 0..slots.len() {
        slots[index] = slot(&range, groups, index);
    }
}
