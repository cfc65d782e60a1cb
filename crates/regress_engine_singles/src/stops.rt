//! Classes of all characters but a few of ASCII.
ghost use Rattle.std.specs.Prelude.{◌≡◌, ◌==◌, ◌≤◌, ◌<◌, ℕ, true, false, not, length, IfSome};
ghost use Rattle.regress_meaning.specs.Meaning.{Forward as ahead};
ghost use Rattle.regress_meaning.specs.Text.{holds};
ghost use Rattle.regress_front_sets.specs.Intervals.{ends_of, in_interval};
ghost use Rattle.regress_front_nodes.specs.TreeMeaning.{bracket_has};
ghost use Rattle.regress_engine_input.specs.Views.{input_of, CanRead};
ghost use Rattle.regress_engine_singles.specs.Passing.{scan_while, StopsAt};

use memchr::memchr3;
use regress_engine_input::InputIndexer;
use regress_front_nodes::BracketContents;
use regress_front_sets::Interval;

/// The one character of an interval, where it has one alone, of ASCII.
#[inline]
fn alone(interval: Interval) -> Option<u8>
    ensures only { IfSome result (λ b. (c : ℕ) → in_interval interval c ≡ (b == c)) }
    ensures ascii { IfSome result (λ b. b < 0x80) }
{
    if interval.first != interval.last || interval.first >= 0x80 {
        return None;
    }
    Some(interval.first as u8)
}

/// The characters of ASCII that an inverted class does not match, where it matches all but one to three of these.
fn stops_of(class: &BracketContents) -> Option<[u8; 3]>
    requires { class.now.invert ≡ true }
    ensures others { IfSome result (λ stops. (c : ℕ) → bracket_has class.now.invert (ends_of class.now.cps.intervals.items) c ≡ not (holds stops c)) }
    ensures ascii { IfSome result (λ stops. (c : ℕ) → 0x80 ≤ c → holds stops c ≡ false) }
{
    match class.cps.intervals() {
        [one] => {
            let first = alone(*one)?;
            Some([first, first, first])
        }
        [one, two] => {
            let first = alone(*one)?;
            let second = alone(*two)?;
            Some([first, second, second])
        }
        [one, two, three] => {
            let first = alone(*one)?;
            let second = alone(*two)?;
            let third = alone(*three)?;
            Some([first, second, third])
        }
        _ => None,
    }
}

/// The characters of ASCII that a class does not match, where it matches all but one to three of these.
#[inline(always)]
pub(crate) fn all_but(class: &BracketContents) -> Option<[u8; 3]>
    ensures others { IfSome result (λ stops. (c : ℕ) → bracket_has class.now.invert (ends_of class.now.cps.intervals.items) c ≡ not (holds stops c)) }
    ensures ascii { IfSome result (λ stops. (c : ℕ) → 0x80 ≤ c → holds stops c ≡ false) }
{
    if !class.invert {
        return None;
    }
    stops_of(class)
}

/// The least offset from one on at which one of three bytes stands, or that of the end.
pub(crate) fn next_stop(stops: [u8; 3], bytes: &[u8], offset: usize) -> usize
    requires { offset ≤ length bytes.now }
    ensures { StopsAt stops bytes.now offset result }
{
    match memchr3(stops[0], stops[1], stops[2], &bytes[offset..]) {
        Some(index) => offset + index,
        None => bytes.len(),
    }
}

/// The offset behind as many characters ahead of one as a class matches one after another, where that is told by a search for
/// the next byte that it does not match: where it matches all but a few characters of ASCII, over bytes, of which no more than
/// `times` are left.
#[inline(always)]
pub(crate) fn as_far_searched<Input: InputIndexer>(
    input: &Input,
    class: &BracketContents,
    times: usize,
    offset: usize,
) -> Option<usize>
    requires { CanRead (Input.view input.now) offset }
    ensures { IfSome result (λ far. far ≡ scan_while (input_of (Input.view input.now)) (bracket_has class.now.invert (ends_of class.now.cps.intervals.items)) ahead times offset) }
{
    let bytes = input.bytes()?;
    let stops = all_but(class)?;
    if bytes.len() - offset > times {
        return None;
    }
    Some(next_stop(stops, bytes, offset))
}
