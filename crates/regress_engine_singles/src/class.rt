//! Classes of characters: of few intervals, or with a set of those of ASCII.
ghost use Rattle.std.proofs.Props.{props};
ghost use Rattle.std.specs.Prelude.{◌≡◌, ◌<◌, ℕ, length, slice_index_or};
ghost use Rattle.regress_meaning.specs.TableParts.{in_intervals, IntervalsRise};
ghost use Rattle.regress_front_sets.specs.Intervals.{ends_of};
ghost use Rattle.regress_front_nodes.specs.TreeMeaning.{bracket_has};
ghost use Rattle.regress_engine_code.specs.Told.{IsToldAscii};

use regress_engine_code::CompiledRegex;
use regress_engine_input::cursor::next;
use regress_engine_input::{Direction, ElementType, InputIndexer};
use regress_engine_matchers::SingleCharMatcher;
use regress_front_bytes::{AsciiBitmap, ByteSet};
use regress_front_nodes::BracketContents;
use regress_front_sets::Interval;

/// Up to so many intervals are gone over one by one, since that is faster than to halve them.
const FEW_INTERVALS: usize = 16;

/// One character that a class matches. Few intervals are gone over one by one.
#[derive(Debug, Clone, Copy)]
pub struct ScannedBracket<'a> {
    /// The class.
    pub bc: &'a BracketContents,
}

/// Whether a number lies in one of some intervals, told by going over those that do not begin above it.
#[inline]
#[tactic(auto, unfolding(regress_meaning::specs::TableParts::in_intervals))]
fn lies_in_any(intervals: &[Interval], number: u32) -> bool
    requires { IntervalsRise (ends_of intervals.now) }
    ensures { result ≡ in_intervals (ends_of intervals.now) number }
{
    for interval in intervals {
        if interval.contains(number) {
            return true;
        }
        if number < interval.first {
            return false;
        }
    }
    false
}

/// One character that a class matches; those of ASCII are told by a bitmap.
#[derive(Debug, Clone, Copy)]
pub struct ToldBracket<'a> {
    /// The class.
    pub bc: &'a BracketContents,
    /// The characters of ASCII that it matches.
    pub ascii: &'a AsciiBitmap,
    pub ghost told: { IsToldAscii bc.now ascii.now } by { Prim.hlevel props },
}

impl<'a> ToldBracket<'a> {
    /// The class with an index in a program, as an instruction names it.
    ///
    /// ```rust
    /// let class = ToldBracket::of(&program, 0);
    /// ```
    #[inline]
    pub fn of(program: &'a CompiledRegex, index: usize) -> ToldBracket<'a>
        requires { index < length program.now.brackets.items }
        ensures { result.bc.now ≡ slice_index_or program.now.brackets.items index result.bc.now }
    {
        ToldBracket {
            bc: &program.brackets()[index],
            ascii: program.ascii_of(index),
        }
    }

    /// Whether the class matches the character with this number.
    #[inline]
    pub fn has(&self, number: u32) -> bool
        ensures { result ≡ bracket_has self.now.bc.now.invert (ends_of self.now.bc.now.cps.intervals.items) number }
    {
        if number < 0x80 {
            return self.ascii.contains(number as u8);
        }
        (ScannedBracket { bc: self.bc }).has(number)
    }
}

impl<Input: InputIndexer, Dir: Direction> SingleCharMatcher<Input, Dir> for ToldBracket<'_> {
    ghost passes = { λ m. bracket_has m.bc.now.invert (ends_of m.bc.now.cps.intervals.items) };

    ghost Suits = { λ _ _. Unit {0} };

    #[inline]
    fn matches(&self, input: &Input, dir: Dir, pos: &mut Input::Position) -> bool {
        match next(input, dir, pos) {
            Some(c) => self.has(c.as_u32()),
            None => false,
        }
    }
}

impl<'a> ScannedBracket<'a> {
    /// Whether the class matches the character with this number: where `bc` is `BracketContents { invert: true, cps }`, one
    /// that `cps` does not contain.
    #[inline]
    pub fn has(&self, number: u32) -> bool
        ensures { result ≡ bracket_has self.now.bc.now.invert (ends_of self.now.bc.now.cps.intervals.items) number }
    {
        let intervals = self.bc.cps.intervals();
        let member = if intervals.len() <= FEW_INTERVALS {
            lies_in_any(intervals, number)
        } else {
            self.bc.cps.contains(number)
        };
        member != self.bc.invert
    }
}

impl<Input: InputIndexer, Dir: Direction> SingleCharMatcher<Input, Dir> for ScannedBracket<'_> {
    ghost passes = { λ m. bracket_has m.bc.now.invert (ends_of m.bc.now.cps.intervals.items) };

    ghost Suits = { λ _ _. Unit {0} };

    #[inline]
    fn matches(&self, input: &Input, dir: Dir, pos: &mut Input::Position) -> bool {
        match next(input, dir, pos) {
            Some(c) => self.has(c.as_u32()),
            None => false,
        }
    }
}
