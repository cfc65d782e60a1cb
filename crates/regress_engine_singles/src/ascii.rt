//! Tests on the character ahead of an offset, told by its byte where it is one of ASCII.
ghost use Rattle.std.specs.Prelude.{◌≡◌, ℕ, suc, ◌-◌, ◌<◌, ◌≤◌, not, length, IfSome, Some};
ghost use Rattle.regress_meaning.specs.Meaning.{Forward as ahead};
ghost use Rattle.regress_meaning.specs.Steps.{passed};
ghost use Rattle.regress_meaning.specs.Text.{holds};
ghost use Rattle.regress_front_bytes.specs.Bitmaps.{ascii_bitmap_contains};
ghost use Rattle.regress_engine_input.specs.Views.{input_of, CanRead};
ghost use Rattle.regress_engine_singles.specs.Passing.{IsAsciiAhead};

use crate::class::ToldBracket;
use crate::runs::{end_of, end_of_units};
use crate::stops::all_but;
use regress_engine_input::cursor::next;
use regress_engine_input::{Direction, ElementType, Forward, InputIndexer, PositionType};
use regress_engine_matchers::{MatchByteSet, SingleCharMatcher};
use regress_front_bytes::{AsciiBitmap, ByteSet};

/// A test on the character ahead, which also tests numbers under 0x100.
pub(crate) trait ByteMatcher<Input: InputIndexer>: SingleCharMatcher<Input, Forward> {
    /// Whether the character with this number passes.
    fn has_byte(&self, byte: u8) -> bool
        ensures { result ≡ Self.passes self.now byte };

    /// The characters that do not pass, where these are known to be at most three.
    #[inline(always)]
    fn stopped_by(&self) -> Option<[u8; 3]>
        ensures { IfSome result (λ stops. (c : ℕ) → Self.passes self.now c ≡ not (holds stops c)) }
    {
        None
    }

    /// The characters of ASCII that pass, where these are held as a set.
    #[inline(always)]
    fn passing(&self) -> Option<&AsciiBitmap>
        ensures { IfSome result (λ set. (c : ℕ) → c < 0x80 → Self.passes self.now c ≡ ascii_bitmap_contains set.now c) }
    {
        None
    }
}

impl<Input: InputIndexer> ByteMatcher<Input> for MatchByteSet<'_, AsciiBitmap> {
    #[inline]
    fn has_byte(&self, byte: u8) -> bool {
        self.bytes.contains(byte)
    }

    #[inline(always)]
    fn passing(&self) -> Option<&AsciiBitmap> {
        Some(self.bytes)
    }
}

impl<Input: InputIndexer> ByteMatcher<Input> for ToldBracket<'_> {
    #[inline]
    fn has_byte(&self, byte: u8) -> bool {
        self.has(u32::from(byte))
    }

    #[inline(always)]
    fn stopped_by(&self) -> Option<[u8; 3]> {
        all_but(self.bc)
    }

    #[inline(always)]
    fn passing(&self) -> Option<&AsciiBitmap> {
        Some(self.ascii)
    }
}

/// Any character but some of ASCII.
#[derive(Debug, Clone, Copy)]
pub(crate) struct AllBut {
    /// The characters that do not pass. Where there are fewer, one stands there several times.
    pub(crate) stops: [u8; 3],
}

impl AllBut {
    /// Whether the character with this number passes.
    #[inline]
    fn has(&self, number: u32) -> bool
        ensures { result ≡ not (holds self.now.stops number) }
    {
        let [first, second, third] = self.stops;
        number != u32::from(first) && number != u32::from(second) && number != u32::from(third)
    }
}

impl<Input: InputIndexer> SingleCharMatcher<Input, Forward> for AllBut {
    ghost passes = { λ m c. not (holds m.stops c) };

    ghost Suits = { λ _ _. Unit {0} };

    #[inline]
    fn matches(&self, input: &Input, dir: Forward, pos: &mut Input::Position) -> bool {
        match next(input, dir, pos) {
            Some(c) => self.has(c.as_u32()),
            None => false,
        }
    }
}

impl<Input: InputIndexer> ByteMatcher<Input> for AllBut {
    #[inline]
    fn has_byte(&self, byte: u8) -> bool {
        self.has(u32::from(byte))
    }

    #[inline(always)]
    fn stopped_by(&self) -> Option<[u8; 3]> {
        Some(self.stops)
    }
}

/// The offset behind as many characters of ASCII ahead of one as pass one after another, at most so many.
#[inline(always)]
pub(crate) fn ascii_end<Input: InputIndexer, Matcher: ByteMatcher<Input>>(
    input: &Input,
    matcher: &Matcher,
    most: usize,
    offset: usize,
) -> usize
    requires { CanRead (Input.view input.now) offset }
    ensures low { offset ≤ result }
    ensures high { result - offset ≤ most }
    ensures each { (k : ℕ) → offset ≤ k → k < result → Some (suc k) ≡ passed (Matcher.passes matcher.now) ((input_of (Input.view input.now)).next ahead k) }
    ensures ascii { (k : ℕ) → offset ≤ k → k < result → IsAsciiAhead (Input.view input.now) k }
{
    if let Some(text) = input.bytes() {
        return end_of(
            matcher,
            text,
            offset,
            offset + most.min(text.len() - offset),
        );
    }
    match input.units() {
        Some(units) if offset <= units.len() => {
            end_of_units(
                matcher,
                units,
                offset,
                offset + most.min(units.len() - offset),
            )
        }
        _ => offset,
    }
}

/// The character of ASCII ahead of an offset, and the offset behind it, where one stands there in bytes.
#[inline]
fn ascii_ahead<Input: InputIndexer>(input: &Input, offset: usize) -> Option<(u8, usize)>
    ensures { IfSome result (λ x. (input_of (Input.view input.now)).next ahead offset ≡ Some (x.0, x.1)) }
{
    let text = input.bytes()?;
    if offset >= text.len() || text[offset] >= 0x80 {
        return None;
    }
    Some((text[offset], offset + 1))
}

/// The offset behind the character ahead of one, where it passes. One of ASCII is not decoded.
#[inline(always)]
pub(crate) fn passed_ahead<Input: InputIndexer, Matcher: ByteMatcher<Input>>(
    input: &Input,
    matcher: &Matcher,
    offset: usize,
) -> Option<usize>
    requires place { CanRead (Input.view input.now) offset }
    requires suits { Matcher.Suits matcher.now (Input.view input.now) }
    ensures { result ≡ passed (Matcher.passes matcher.now) ((input_of (Input.view input.now)).next ahead offset) }
{
    if let Some((byte, behind)) = ascii_ahead(input, offset) {
        return if matcher.has_byte(byte) {
            Some(behind)
        } else {
            None
        };
    }
    let mut behind = <Input::Position as PositionType>::new(offset);
    if matcher.matches(input, Forward::new(), &mut behind) {
        Some(input.pos_to_offset(behind))
    } else {
        None
    }
}
