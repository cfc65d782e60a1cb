//! Classes, prepared for many tests.
ghost use Rattle.std.specs.Prelude.{◌≡◌, ◌<◌, ℕ};
ghost use Rattle.regress_meaning.specs.TableParts.{in_intervals};
ghost use Rattle.regress_front_bytes.specs.Bitmaps.{ascii_bitmap_contains};
ghost use Rattle.regress_front_sets.specs.Intervals.{ends_of};
ghost use Rattle.regress_front_nodes.specs.TreeMeaning.{bracket_has};
ghost use Rattle.std.proofs.Props.{props};

use crate::single::SingleCharMatcher;
use regress_engine_input::cursor::next;
use regress_engine_input::{Direction, ElementType, InputIndexer};
use regress_front_nodes::BracketContents;
use regress_front_tables::{AsciiBitmap, ByteSet};

/// One character that a class matches. A bitmap tells it of ASCII, so no intervals are searched there.
#[derive(Debug, Clone, Copy)]
pub struct PreparedBracket<'a> {
    bc: &'a BracketContents,
    ascii: AsciiBitmap,
    ghost members: { (c : ℕ) → c < 0x80 → ascii_bitmap_contains ascii c ≡ in_intervals (ends_of bc.now.cps.intervals.items) c } by { Prim.hlevel props },
}

impl<'a> PreparedBracket<'a> {
    /// The test on the characters that the class `bc` matches, as `Bracket { bc }` is one: `PreparedBracket::new(&bc)`. It goes
    /// over the intervals of ASCII once.
    pub fn new(bc: &'a BracketContents) -> PreparedBracket<'a>
        ensures { result.bc.now ≡ bc.now }
    {
        PreparedBracket {
            bc,
            ascii: bc.cps.ascii_members(),
        }
    }

    /// Whether the class matches the character with this number.
    #[inline]
    fn has(&self, number: u32) -> bool
        ensures { result ≡ bracket_has self.now.bc.now.invert (ends_of self.now.bc.now.cps.intervals.items) number }
    {
        let member = if number < 0x80 {
            self.ascii.contains(number as u8)
        } else {
            self.bc.cps.contains(number)
        };
        member != self.bc.invert
    }
}

impl<Input: InputIndexer, Dir: Direction> SingleCharMatcher<Input, Dir> for PreparedBracket<'_> {
    ghost passes = { λ m. bracket_has m.bc.now.invert (ends_of m.bc.now.cps.intervals.items) };

    ghost Suits = { λ _ _. Unit {0} };

    #[inline]
    fn matches(&self, input: &Input, dir: Dir, pos: &mut Input::Position) -> bool {
        match next(input, dir, pos) {
            Some(c) => self.has(c.as_u32()),
            None => false,
        }
    }
}
