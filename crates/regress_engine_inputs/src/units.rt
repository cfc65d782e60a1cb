//! What stands beside an offset of 16-bit units.
ghost use Rattle.std.specs.Prelude.{◌≡◌, ◌≤◌, ◌↔◌, ℕ, true, not, length, IsTrue};
ghost use Rattle.std.specs.List.{list_any};
ghost use Rattle.regress_meaning.specs.Meaning.{Forward, Backward};
ghost use Rattle.regress_meaning.specs.Tokens.{is_high, is_low, joined};
ghost use Rattle.regress_meaning.specs.Inputs.{Input, single_next, utf16_next};
ghost use Rattle.regress_meaning.specs.TableParts.{is_surrogate};
ghost use Rattle.regress_meaning.specs.Offsets.{Begins, characters, of_utf16};
ghost use Rattle.regress_meaning.specs.Steps.{literal, splits, unless_split};
ghost use Rattle.regress_engine_input.specs.Views.{direction_of};

use regress_engine_input::Direction;

/// The unit behind an offset, and the offset behind it.
#[inline]
pub(crate) fn single_right(units: &[u16], at: usize) -> Option<(u32, usize)>
    ensures { result ≡ single_next units.now Forward at }
{
    if at < units.len() {
        Some((u32::from(units[at]), at + 1))
    } else {
        None
    }
}

/// The unit before an offset, and the offset before it.
#[inline]
pub(crate) fn single_left(units: &[u16], at: usize) -> Option<(u32, usize)>
    requires { at ≤ length units.now }
    ensures { result ≡ single_next units.now Backward at }
{
    if at > 0 {
        Some((u32::from(units[at - 1]), at - 1))
    } else {
        None
    }
}

/// Whether the unit is the first half of a pair.
#[inline]
fn is_high_unit(u: u16) -> bool
    ensures { result ≡ is_high u }
{
    0xD800 <= u && u <= 0xDBFF
}

/// Whether the unit is the second half of a pair.
#[inline]
fn is_low_unit(u: u16) -> bool
    ensures { result ≡ is_low u }
{
    0xDC00 <= u && u <= 0xDFFF
}

/// The code point of a pair.
#[inline]
fn join(high: u16, low: u16) -> u32
    requires high { is_high high ≡ true }
    requires low { is_low low ≡ true }
    ensures { result ≡ joined high low }
{
    0x1_0000 + (u32::from(high) - 0xD800) * 0x400 + (u32::from(low) - 0xDC00)
}

/// The character behind an offset, and the offset behind it.
#[inline]
pub(crate) fn utf16_right(units: &[u16], at: usize) -> Option<(u32, usize)>
    ensures { result ≡ utf16_next units.now Forward at }
{
    if at < units.len() {
        let u = units[at];
        if is_high_unit(u) && at + 1 < units.len() {
            let v = units[at + 1];
            if is_low_unit(v) {
                Some((join(u, v), at + 2))
            } else {
                Some((u32::from(u), at + 1))
            }
        } else {
            Some((u32::from(u), at + 1))
        }
    } else {
        None
    }
}

/// The character before an offset, and the offset before it.
#[inline]
pub(crate) fn utf16_left(units: &[u16], at: usize) -> Option<(u32, usize)>
    requires { at ≤ length units.now }
    ensures { result ≡ utf16_next units.now Backward at }
{
    if at > 0 {
        let v = units[at - 1];
        if at > 1 {
            let u = units[at - 2];
            if is_high_unit(u) && is_low_unit(v) {
                Some((join(u, v), at - 2))
            } else {
                Some((u32::from(v), at - 1))
            }
        } else {
            Some((u32::from(v), at - 1))
        }
    } else {
        None
    }
}

/// The offset behind some units that stand to the right of one, or `None` where they don't.
#[inline]
fn units_right(units: &[u16], part: &[u16], at: usize) -> Option<usize>
    requires { at ≤ length units.now }
    ensures { (input : Input) → input.units ≡ units.now → result ≡ literal input Forward part.now at }
{
    if part.len() <= units.len() - at && part == &units[at..at + part.len()] {
        Some(at + part.len())
    } else {
        None
    }
}

/// The offset before some units that stand to the left of one, or `None` where they don't.
#[inline]
fn units_left(units: &[u16], part: &[u16], at: usize) -> Option<usize>
    requires { at ≤ length units.now }
    ensures { (input : Input) → input.units ≡ units.now → result ≡ literal input Backward part.now at }
{
    if part.len() <= at && part == &units[at - part.len()..at] {
        Some(at - part.len())
    } else {
        None
    }
}

/// The offset past some units that stand beside one in a direction, or `None` where they don't.
#[inline]
pub(crate) fn units_beside<Dir: Direction>(
    _dir: Dir,
    units: &[u16],
    part: &[u16],
    at: usize,
) -> Option<usize>
    requires { at ≤ length units.now }
    ensures { (input : Input) → input.units ≡ units.now → result ≡ literal input (direction_of Dir.FORWARD) part.now at }
{
    if Dir::FORWARD {
        units_right(units, part, at)
    } else {
        units_left(units, part, at)
    }
}

/// Whether an offset lies inside a pair.
#[inline]
fn lies_in_pair(units: &[u16], at: usize) -> bool
    ensures { result ≡ splits units.now at }
{
    if at > 0 && at < units.len() {
        is_high_unit(units[at - 1]) && is_low_unit(units[at])
    } else {
        false
    }
}

/// An offset, or `None` where it lies inside a pair.
#[inline]
pub(crate) fn outside_pair(units: &[u16], found: Option<usize>) -> Option<usize>
    ensures { result ≡ unless_split units.now found }
{
    match found {
        Some(at) if !lies_in_pair(units, at) => Some(at),
        _ => None,
    }
}

/// Whether a search in units of UTF-16 may begin at `start`, an offset in units: not between a high unit and the low unit
/// behind it. Past the end it may.
///
/// ```rust
/// let inside = is_unit_start(&[0xD83D, 0xDE00], 1); // false: 1 stands inside a pair
/// ```
pub fn is_unit_start(units: &[u16], start: usize) -> bool
    ensures { IsTrue result ↔ ((place : ℕ) × Begins (of_utf16 units.now) start place) }
{
    !lies_in_pair(units, start)
}

/// Whether the character is one half of a pair.
fn is_half(c: u32) -> bool
    ensures { result ≡ is_surrogate c }
{
    0xD800 <= c && c <= 0xDFFF
}

/// Whether 16-bit units are well-formed UTF-16: no high or low unit stands outside a pair.
///
/// ```rust
/// let whole = is_well_formed_utf16(&[0x61, 0xD83D, 0xDE00]); // true
/// ```
pub fn is_well_formed_utf16(units: &[u16]) -> bool
    ensures { result ≡ not (list_any is_surrogate (characters units.now)) }
{
    let mut rest = units;
    while let Some((c, next)) = utf16_right(rest, 0) {
        if is_half(c) {
            return false;
        }
        rest = &rest[next..];
    }
    true
}
