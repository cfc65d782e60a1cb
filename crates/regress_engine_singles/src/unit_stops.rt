//! Classes of all characters but a few of ASCII, over 16-bit units.
ghost use Rattle.std.specs.Prelude.{◌≡◌, ◌<◌, ◌≤◌, ℕ, false, length, slice_index, IfSome};
ghost use Rattle.regress_meaning.specs.Meaning.{Forward as ahead};
ghost use Rattle.regress_meaning.specs.Text.{holds};
ghost use Rattle.regress_front_sets.specs.Intervals.{ends_of};
ghost use Rattle.regress_front_nodes.specs.TreeMeaning.{bracket_has};
ghost use Rattle.regress_engine_input.specs.Views.{input_of, CanRead};
ghost use Rattle.regress_engine_singles.specs.Passing.{scan_while, StopsAt};

use crate::stops::all_but;
use regress_engine_input::InputIndexer;
use regress_engine_scanning::{OrBeyondAscii, find_member};
use regress_front_nodes::BracketContents;

/// The least offset from one on at which the unit of one of three bytes stands, or that of the end.
fn next_unit_stop(stops: [u8; 3], units: &[u16], offset: usize) -> usize
    requires { offset ≤ length units.now }
    ensures { StopsAt stops units.now offset result }
{
    match find_member(&stops, units, offset) {
        Some(index) => index,
        None => units.len(),
    }
}

/// The least offset from one on at which the unit of one of three bytes stands or one beyond ASCII, or that of the end.
#[inline(always)]
pub(crate) fn next_other(stops: [u8; 3], units: &[u16], offset: usize) -> usize
    requires { offset ≤ length units.now }
    ensures inside { (offset ≤ result) × (result ≤ length units.now) }
    ensures each { (k : ℕ) → offset ≤ k → k < result → (slice_index units.now k < 0x80) × (holds stops (slice_index units.now k) ≡ false) }
{
    match find_member(&OrBeyondAscii(stops), units, offset) {
        Some(index) => index,
        None => units.len(),
    }
}

/// The offset behind as many characters ahead of one as a class matches one after another, where that is told by a search for
/// the next unit that it does not match: where it matches all but a few characters of ASCII, over units, of which no more
/// than `times` are left.
pub(crate) fn as_far_among_units<Input: InputIndexer>(
    input: &Input,
    class: &BracketContents,
    times: usize,
    offset: usize,
) -> Option<usize>
    requires { CanRead (Input.view input.now) offset }
    ensures { IfSome result (λ far. far ≡ scan_while (input_of (Input.view input.now)) (bracket_has class.now.invert (ends_of class.now.cps.intervals.items)) ahead times offset) }
{
    let units = input.units()?;
    let stops = all_but(class)?;
    if offset > units.len() || units.len() - offset > times {
        return None;
    }
    Some(next_unit_stop(stops, units, offset))
}
