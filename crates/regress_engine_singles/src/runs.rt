//! Runs of characters of ASCII that pass a test, among bytes and among units.
ghost use Rattle.std.specs.Prelude.{◌≡◌, ℕ, ◌<◌, ◌≤◌, not, length, IfSome};
ghost use Rattle.regress_meaning.specs.Text.{holds};
ghost use Rattle.regress_front_bytes.specs.Bitmaps.{ascii_bitmap_contains};
ghost use Rattle.regress_engine_singles.specs.Passing.{IsLowRun};

use crate::ascii::ByteMatcher;
use crate::stops::next_stop;
use crate::unit_stops::next_other;
use regress_engine_input::InputIndexer;
use regress_engine_scanning::{are_ascii, run_end, run_end_among};
use regress_front_bytes::{AsciiBitmap, ascii_bitmap_holds_ascii};

/// So many characters are looked at before it is asked whether few characters stop a class.
const NEAR: usize = 64;

/// The offset at which one of three bytes first stands from one on, or the end, where all before it is ASCII.
#[inline(always)]
fn stop_end(stops: [u8; 3], bytes: &[u8], offset: usize, end: usize) -> Option<usize>
    requires { (offset ≤ end) × (end ≤ length bytes.now) }
    ensures { IfSome result (IsLowRun (λ c. not (holds stops c)) bytes.now offset end) }
{
    let far = next_stop(stops, &bytes[..end], offset);
    if are_ascii(&bytes[offset..far]) {
        Some(far)
    } else {
        None
    }
}

/// The offset at which the unit of one of three bytes first stands from one on, or one beyond ASCII, or the end.
#[inline(always)]
fn other_end(stops: [u8; 3], units: &[u16], offset: usize, end: usize) -> usize
    requires { (offset ≤ end) × (end ≤ length units.now) }
    ensures { IsLowRun (λ c. not (holds stops c)) units.now offset end result }
{
    next_other(stops, &units[..end], offset)
}

/// The offset behind the members of a set that stand one after another from one on, before an end, where many may be: those of ASCII
/// that pass a test.
#[inline(never)]
fn far_end<Input: InputIndexer, Matcher: ByteMatcher<Input>>(
    matcher: &Matcher,
    set: &AsciiBitmap,
    bytes: &[u8],
    offset: usize,
    end: usize,
) -> usize
    requires inside { (offset ≤ end) × (end ≤ length bytes.now) }
    requires set { (c : ℕ) → c < 0x80 → Matcher.passes matcher.now c ≡ ascii_bitmap_contains set.now c }
    ensures { IsLowRun (Matcher.passes matcher.now) bytes.now offset end result }
{
    if let Some(stops) = matcher.stopped_by() {
        if let Some(far) = stop_end(stops, bytes, offset, end) {
            return far;
        }
    }
    ascii_bitmap_holds_ascii(set);
    run_end(set, bytes, offset, end)
}

/// The same among units.
#[inline(never)]
fn far_end_among<Input: InputIndexer, Matcher: ByteMatcher<Input>>(
    matcher: &Matcher,
    set: &AsciiBitmap,
    units: &[u16],
    offset: usize,
    end: usize,
) -> usize
    requires inside { (offset ≤ end) × (end ≤ length units.now) }
    requires set { (c : ℕ) → c < 0x80 → Matcher.passes matcher.now c ≡ ascii_bitmap_contains set.now c }
    ensures { IsLowRun (Matcher.passes matcher.now) units.now offset end result }
{
    if let Some(stops) = matcher.stopped_by() {
        return other_end(stops, units, offset, end);
    }
    ascii_bitmap_holds_ascii(set);
    run_end_among(set, units, offset, end)
}

/// The offset behind as many bytes from one on, and before an end, as are those of ASCII that pass, one by one.
#[inline(always)]
fn end_slowly<Input: InputIndexer, Matcher: ByteMatcher<Input>>(
    matcher: &Matcher,
    bytes: &[u8],
    offset: usize,
    end: usize,
) -> usize
    requires { (offset ≤ end) × (end ≤ length bytes.now) }
    ensures { IsLowRun (Matcher.passes matcher.now) bytes.now offset end result }
{
    let mut at = offset;
    while at < end {
        let byte = bytes[at];
        if byte >= 0x80 || !matcher.has_byte(byte) {
            break;
        }
        at += 1;
    }
    at
}

/// The offset behind bytes from one on, and before an end, that are of ASCII and pass: all that stand one after another.
#[inline(always)]
pub(crate) fn end_of<Input: InputIndexer, Matcher: ByteMatcher<Input>>(
    matcher: &Matcher,
    bytes: &[u8],
    offset: usize,
    end: usize,
) -> usize
    requires { (offset ≤ end) × (end ≤ length bytes.now) }
    ensures { IsLowRun (Matcher.passes matcher.now) bytes.now offset end result }
{
    if let Some(set) = matcher.passing() {
        ascii_bitmap_holds_ascii(set);
        let near = run_end(set, bytes, offset, end.min(offset.saturating_add(NEAR)));
        if near < end && near - offset == NEAR {
            return far_end(matcher, set, bytes, near, end);
        }
        return near;
    }
    if let Some(stops) = matcher.stopped_by() {
        if let Some(far) = stop_end(stops, bytes, offset, end) {
            return far;
        }
    }
    end_slowly(matcher, bytes, offset, end)
}

/// The same among units; the offset itself where neither the characters that pass are held as a set nor are few that do not.
#[inline(always)]
pub(crate) fn end_of_units<Input: InputIndexer, Matcher: ByteMatcher<Input>>(
    matcher: &Matcher,
    units: &[u16],
    offset: usize,
    end: usize,
) -> usize
    requires { (offset ≤ end) × (end ≤ length units.now) }
    ensures { IsLowRun (Matcher.passes matcher.now) units.now offset end result }
{
    if let Some(set) = matcher.passing() {
        ascii_bitmap_holds_ascii(set);
        let near = run_end_among(set, units, offset, end.min(offset.saturating_add(NEAR)));
        if near < end && near - offset == NEAR {
            return far_end_among(matcher, set, units, near, end);
        }
        return near;
    }
    match matcher.stopped_by() {
        Some(stops) => other_end(stops, units, offset, end),
        None => offset,
    }
}
