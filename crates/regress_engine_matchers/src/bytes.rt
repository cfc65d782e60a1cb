//! Tests on the bytes of the character beside a position.
ghost use Rattle.std.specs.Prelude.{◌≡◌, ◌≤◌, ℕ, true, false, [], ◌∷◌, length, chars};
ghost use Rattle.regress_meaning.specs.Text.{same_text};
ghost use Rattle.regress_front_nodes.specs.WellFormed.{AreCharacters};
ghost use Rattle.regress_engine_input.specs.Views.{are_bytes};

use crate::single::SingleCharMatcher;
use regress_engine_input::cursor::{next, next_byte};
use regress_engine_input::{CodeUnit, Direction, ElementType, InputIndexer};
use regress_front_tables::{ByteArraySet, ByteSet, SmallArraySet};

/// One ASCII character of a set of bytes.
#[derive(Debug, Clone, Copy)]
pub struct MatchByteSet<'a, Bytes: ByteSet> {
    /// The set, all of whose members are ASCII.
    pub bytes: &'a Bytes,
}

/// Whether the number is that of a member.
#[inline]
fn holds_number<Bytes: ByteSet>(bytes: &Bytes, number: u32) -> bool
    requires { (c : ℕ) → 0x80 ≤ c → Bytes.contains bytes.now c ≡ false }
    ensures { result ≡ Bytes.contains bytes.now number }
{
    match <u8 as TryFrom<u32>>::try_from(number) {
        Ok(b) => bytes.contains(b),
        Err(_) => false,
    }
}

impl<Input: InputIndexer, Dir: Direction, Bytes: ByteSet> SingleCharMatcher<Input, Dir>
    for MatchByteSet<'_, Bytes> {
    ghost passes = { λ m. Bytes.contains m.bytes.now };

    ghost Suits = { λ m _. (c : ℕ) → 0x80 ≤ c → Bytes.contains m.bytes.now c ≡ false };

    #[inline]
    fn matches(&self, input: &Input, dir: Dir, pos: &mut Input::Position) -> bool {
        if <Input::Unit as CodeUnit>::IS_BYTE {
            match next_byte(input, dir, pos) {
                Some(b) => self.bytes.contains(b),
                None => false,
            }
        } else {
            match next(input, dir, pos) {
                Some(c) => holds_number(self.bytes, c.as_u32()),
                None => false,
            }
        }
    }
}

/// One ASCII character of a small set of bytes, over bytes.
#[derive(Debug, Clone, Copy)]
pub struct MatchByteArraySet<ArraySet: SmallArraySet>(pub ByteArraySet<ArraySet>);

impl<Input: InputIndexer, Dir: Direction, ArraySet: SmallArraySet> SingleCharMatcher<Input, Dir>
    for MatchByteArraySet<ArraySet> {
    ghost passes = { λ m. ArraySet.contains m.0.0 };

    ghost Suits = { λ m v. (are_bytes v.kind ≡ true) × ((c : ℕ) → 0x80 ≤ c → ArraySet.contains m.0.0 c ≡ false) };

    #[inline]
    fn matches(&self, input: &Input, dir: Dir, pos: &mut Input::Position) -> bool {
        match next_byte(input, dir, pos) {
            Some(b) => self.0.contains(b),
            None => false,
        }
    }
}

/// One character, by its bytes in UTF-8, over bytes.
#[derive(Debug, Clone, Copy)]
pub struct MatchByteSeq<'a>(
    /// The bytes, which spell one character.
    pub &'a [u8],
);

impl<Input: InputIndexer, Dir: Direction> SingleCharMatcher<Input, Dir> for MatchByteSeq<'_> {
    ghost passes = { λ m c. same_text (chars m.0.now) (c ∷ []) };

    ghost Suits = { λ m v. (are_bytes v.kind ≡ true) × AreCharacters m.0.now × (length (chars m.0.now) ≡ 1) };

    #[inline]
    fn matches(&self, input: &Input, dir: Dir, pos: &mut Input::Position) -> bool {
        input.match_bytes(dir, pos, self.0)
    }
}
