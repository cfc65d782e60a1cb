//! Tests on the character beside a position.
ghost use Rattle.std.specs.Prelude.{◌≡◌, ◌==◌, ℕ, Bool, true, not};
ghost use Rattle.regress_meaning.specs.Text.{holds};
ghost use Rattle.regress_meaning.specs.Meaning.{is_line_end};
ghost use Rattle.regress_meaning.specs.Steps.{passed, only_if};
ghost use Rattle.regress_front_sets.specs.Intervals.{ends_of};
ghost use Rattle.regress_front_nodes.specs.TreeMeaning.{bracket_has};
ghost use Rattle.regress_engine_input.specs.Views.{View, direction_of, input_of, CanRead};

use crate::properties::{CharInput, CharProperties};
use regress_engine_input::cursor::next;
use regress_engine_input::{Direction, ElementType, InputIndexer};
use regress_front_nodes::BracketContents;
use regress_front_tables::{MAX_CHAR_SET_LENGTH, charset_contains};

/// A test on the character beside a position.
pub trait SingleCharMatcher<Input: InputIndexer, Dir: Direction> {
    // the characters that pass
    ghost passes: { Self → ℕ → Bool };

    // the inputs over which it tests one character
    ghost Suits: { Self → View → Type 0 };

    /// Whether there is a character beside the position, to its right or to its left by the direction, that passes. Where
    /// there is, the position moves past it, else it may be any.
    fn matches(&self, input: &Input, dir: Dir, pos: &mut Input::Position) -> bool
        requires position { CanRead (Input.view input.now) (Input.Position.offset pos.old) }
        requires suits { Suits self.now (Input.view input.now) }
        ensures { only_if result (Input.Position.offset pos.new) ≡ passed (passes self.now) ((input_of (Input.view input.now)).next (direction_of Dir.FORWARD) (Input.Position.offset pos.old)) };
}

/// One character of the text.
#[derive(Debug, Drop)]
pub struct Char<Input: InputIndexer> {
    /// The character.
    pub c: Input::Element,
}

impl<Input: InputIndexer, Dir: Direction> SingleCharMatcher<Input, Dir> for Char<Input> {
    ghost passes = { λ m c. Input.Element.code m.c == c };

    ghost Suits = { λ _ _. Unit {0} };

    #[inline]
    fn matches(&self, input: &Input, dir: Dir, pos: &mut Input::Position) -> bool {
        match next(input, dir, pos) {
            Some(c) => self.c == c,
            None => false,
        }
    }
}

/// One of at most four characters.
#[derive(Debug, Clone, Copy)]
pub struct CharSet<'a> {
    /// The characters. Where there are fewer, one stands there several times.
    pub chars: &'a [u32; MAX_CHAR_SET_LENGTH],
}

impl<Input: InputIndexer, Dir: Direction> SingleCharMatcher<Input, Dir> for CharSet<'_> {
    ghost passes = { λ m. holds m.chars.now };

    ghost Suits = { λ _ _. Unit {0} };

    #[inline]
    fn matches(&self, input: &Input, dir: Dir, pos: &mut Input::Position) -> bool {
        match next(input, dir, pos) {
            Some(c) => charset_contains(self.chars, c.as_u32()),
            None => false,
        }
    }
}

/// One character that a class matches.
#[derive(Debug, Clone, Copy)]
pub struct Bracket<'a> {
    /// The class.
    pub bc: &'a BracketContents,
}

impl<Input: CharInput, Dir: Direction> SingleCharMatcher<Input, Dir> for Bracket<'_> {
    ghost passes = { λ m. bracket_has m.bc.now.invert (ends_of m.bc.now.cps.intervals.items) };

    ghost Suits = { λ _ _. Unit {0} };

    #[inline]
    fn matches(&self, input: &Input, dir: Dir, pos: &mut Input::Position) -> bool {
        match next(input, dir, pos) {
            Some(c) => <Input::CharProps as CharProperties>::bracket(self.bc, c),
            None => false,
        }
    }
}

/// Any character.
#[derive(Debug, Clone, Copy)]
pub struct MatchAny;

impl MatchAny {
    /// The test that every character passes: `MatchAny::new()`.
    #[inline]
    pub fn new() -> MatchAny {
        MatchAny
    }
}

impl<Input: InputIndexer, Dir: Direction> SingleCharMatcher<Input, Dir> for MatchAny {
    ghost passes = { λ _ _. true };

    ghost Suits = { λ _ _. Unit {0} };

    #[inline]
    fn matches(&self, input: &Input, dir: Dir, pos: &mut Input::Position) -> bool {
        next(input, dir, pos).is_some()
    }
}

/// Any character that does not end a line.
#[derive(Debug, Clone, Copy)]
pub struct MatchAnyExceptLineTerminator;

impl MatchAnyExceptLineTerminator {
    /// The test that every character passes but for line terminators: `MatchAnyExceptLineTerminator::new()`.
    #[inline]
    pub fn new() -> MatchAnyExceptLineTerminator {
        MatchAnyExceptLineTerminator
    }
}

impl<Input: CharInput, Dir: Direction> SingleCharMatcher<Input, Dir>
    for MatchAnyExceptLineTerminator {
    ghost passes = { λ _ c. not (is_line_end c) };

    ghost Suits = { λ _ _. Unit {0} };

    #[inline]
    fn matches(&self, input: &Input, dir: Dir, pos: &mut Input::Position) -> bool {
        match next(input, dir, pos) {
            Some(c) => !<Input::CharProps as CharProperties>::is_line_terminator(c),
            None => false,
        }
    }
}
