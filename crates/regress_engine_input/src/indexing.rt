//! Inputs, as an executor reads them.
ghost use Rattle.std.specs.Prelude.{Some, ◌≡◌, ◌≤◌, ◌-◌, ℕ, option_map, length, slice_range, nat_le};
ghost use Rattle.regress_meaning.specs.Meaning.{Forward as forward, Backward as backward};
ghost use Rattle.regress_meaning.specs.Steps.{point, only_if, literal};
ghost use Rattle.regress_front_tables.specs.TableViews.{table};
ghost use Rattle.regress_engine_input.specs.Views.{View, direction_of, are_bytes, input_of, CanRead, LiesIn, behind, unit_beside, in_bytes, in_units, moved_right, found_from, units_repeated, AreOfKind};

use crate::bytes::{byte_left, byte_right, slice_beside};
use crate::cursor::Direction;
use crate::element::{CodeUnit, ElementType};
use crate::position::PositionType;
use regress_front_tables::{ByteSearcher, Tables};
use std::fmt::Debug;
use std::ops::Range;

/// A text with the tables and the mode by which it is matched. Positions stand for offsets in its bytes or 16-bit units.
pub trait InputIndexer: Debug + Copy {
    /// A character.
    type Element: ElementType;

    /// What holds the text: bytes or 16-bit units.
    type Unit: CodeUnit;

    /// A position in the text.
    type Position: PositionType;

    // the kind, the units, the table and the mode
    ghost view: { Self → View };

    /// Whether patterns are matched in Unicode mode, as given to `new`.
    fn unicode(&self) -> bool
        ensures { result ≡ (view self.now).unicode };

    /// The tables, as given to `new`.
    fn tables(&self) -> &Tables
        ensures { table result.now ≡ (view self.now).table };

    /// The part of the text in a range, as an input of its own whose positions begin at 0. Both ends have to be positions
    /// at which characters may be read, the start no later than the end.
    fn subinput(&self, range: Range<Self::Position>) -> Self
        requires order { Self.Position.offset range.start ≤ Self.Position.offset range.end }
        requires start { CanRead (view self.now) (Self.Position.offset range.start) }
        requires end { CanRead (view self.now) (Self.Position.offset range.end) }
        ensures { view result ≡ record (view self.now) { units = slice_range (view self.now).units (Self.Position.offset range.start) (Self.Position.offset range.end) } };

    /// The character to the right of a position, which moves behind it; `None` at the end, where it stays. In UTF-8 a
    /// character has to begin there, or the text to end.
    fn next_right(&self, pos: &mut Self::Position) -> Option<Self::Element>
        requires { CanRead (view self.now) (Self.Position.offset pos.old) }
        ensures point { option_map Self.Element.code result ≡ point (input_of (view self.now)) forward (Self.Position.offset pos.old) }
        ensures position { Self.Position.offset pos.new ≡ behind (Self.Position.offset pos.old) ((input_of (view self.now)).next forward (Self.Position.offset pos.old)) };

    /// The character to the left of a position, which moves before it; `None` at the start, where it stays. In UTF-8 a
    /// character has to end there, or the text to begin.
    fn next_left(&self, pos: &mut Self::Position) -> Option<Self::Element>
        requires { CanRead (view self.now) (Self.Position.offset pos.old) }
        ensures point { option_map Self.Element.code result ≡ point (input_of (view self.now)) backward (Self.Position.offset pos.old) }
        ensures position { Self.Position.offset pos.new ≡ behind (Self.Position.offset pos.old) ((input_of (view self.now)).next backward (Self.Position.offset pos.old)) };

    /// The position behind the character to the right of one, as `next_right` moves it; `None` at the end.
    #[inline]
    fn next_right_pos(&self, pos: Self::Position) -> Option<Self::Position>
        requires { CanRead (view self.now) (Self.Position.offset pos) }
        ensures { option_map Self.Position.offset result ≡ option_map (λ x. x.1) ((input_of (view self.now)).next forward (Self.Position.offset pos)) }
    {
        let mut behind = pos;
        self.next_right(&mut behind)?;
        Some(behind)
    }

    /// The position before the character to the left of one, as `next_left` moves it; `None` at the start.
    #[inline]
    fn next_left_pos(&self, pos: Self::Position) -> Option<Self::Position>
        requires { CanRead (view self.now) (Self.Position.offset pos) }
        ensures { option_map Self.Position.offset result ≡ option_map (λ x. x.1) ((input_of (view self.now)).next backward (Self.Position.offset pos)) }
    {
        let mut before = pos;
        self.next_left(&mut before)?;
        Some(before)
    }

    /// The character to the right of a position, as `next_right` answers it; `None` at the end.
    #[inline]
    fn peek_right(&self, pos: Self::Position) -> Option<Self::Element>
        requires { CanRead (view self.now) (Self.Position.offset pos) }
        ensures { option_map Self.Element.code result ≡ point (input_of (view self.now)) forward (Self.Position.offset pos) }
    {
        let mut moved = pos;
        self.next_right(&mut moved)
    }

    /// The character to the left of a position, as `next_left` answers it; `None` at the start.
    #[inline]
    fn peek_left(&self, pos: Self::Position) -> Option<Self::Element>
        requires { CanRead (view self.now) (Self.Position.offset pos) }
        ensures { option_map Self.Element.code result ≡ point (input_of (view self.now)) backward (Self.Position.offset pos) }
    {
        let mut moved = pos;
        self.next_left(&mut moved)
    }

    /// The bytes that hold the text, or `None` over units.
    fn bytes(&self) -> Option<&[u8]>
        ensures { option_map (λ bytes. bytes.now) result ≡ in_bytes (view self.now).kind (Some (view self.now).units) };

    /// The 16-bit units that hold the text, or `None` over bytes.
    fn units(&self) -> Option<&[u16]>
        ensures { option_map (λ units. units.now) result ≡ in_units (view self.now).kind (Some (view self.now).units) };

    /// The byte to the right of a position; `None` at the end, and over units, which are no bytes.
    #[inline]
    fn peek_byte_right(&self, pos: Self::Position) -> Option<u8>
        requires { LiesIn (view self.now) (Self.Position.offset pos) }
        ensures { result ≡ in_bytes (view self.now).kind (unit_beside (view self.now).units forward (Self.Position.offset pos)) }
    {
        byte_right(self.bytes()?, self.pos_to_offset(pos))
    }

    /// The byte to the left of a position; `None` at the start, and over units, which are no bytes.
    #[inline]
    fn peek_byte_left(&self, pos: Self::Position) -> Option<u8>
        requires { LiesIn (view self.now) (Self.Position.offset pos) }
        ensures { result ≡ in_bytes (view self.now).kind (unit_beside (view self.now).units backward (Self.Position.offset pos)) }
    {
        byte_left(self.bytes()?, self.pos_to_offset(pos))
    }

    /// The position at offset 0.
    #[inline]
    fn left_end(&self) -> Self::Position
        ensures { Self.Position.offset result ≡ 0 }
    {
        <Self::Position as PositionType>::new(0)
    }

    /// The position where the text ends, which is at the number of its bytes or units.
    fn right_end(&self) -> Self::Position
        ensures { Self.Position.offset result ≡ length (view self.now).units };

    /// The position `amt` bytes or units to the right of one, or `None` where the text ends before it.
    #[inline]
    fn try_move_right(&self, pos: Self::Position, amt: usize) -> Option<Self::Position>
        requires { LiesIn (view self.now) (Self.Position.offset pos) }
        ensures { option_map Self.Position.offset result ≡ moved_right (view self.now) (Self.Position.offset pos) amt }
    {
        let offset = self.pos_to_offset(pos);
        if amt <= self.pos_to_offset(self.right_end()) - offset {
            Some(<Self::Position as PositionType>::new(offset + amt))
        } else {
            None
        }
    }

    /// The position `amt` bytes or units to the left of one, or `None` where the text begins behind it.
    #[inline]
    fn try_move_left(&self, pos: Self::Position, amt: usize) -> Option<Self::Position>
        requires { LiesIn (view self.now) (Self.Position.offset pos) }
        ensures { option_map Self.Position.offset result ≡ only_if (nat_le amt (Self.Position.offset pos)) (Self.Position.offset pos - amt) }
    {
        let offset = self.pos_to_offset(pos);
        if amt <= offset {
            Some(<Self::Position as PositionType>::new(offset - amt))
        } else {
            None
        }
    }

    /// The number of bytes or units before a position.
    fn pos_to_offset(&self, pos: Self::Position) -> usize
        requires { LiesIn (view self.now) (Self.Position.offset pos) }
        ensures { result ≡ Self.Position.offset pos };

    /// Where `search` finds something in the bytes from a position on; `None` where it finds nothing there, and over units,
    /// which are no bytes.
    #[inline]
    #[tactic(auto, using(crate::proofs::ByteReads::found_none, crate::proofs::ByteReads::found_some))]
    fn find_bytes<Search: ByteSearcher>(
        &self,
        pos: Self::Position,
        search: &Search,
    ) -> Option<Self::Position>
        requires { LiesIn (view self.now) (Self.Position.offset pos) }
        ensures { option_map Self.Position.offset result ≡ found_from (view self.now) (Search.find_in search.now) (Self.Position.offset pos) }
    {
        let rest = &self.bytes()?[self.pos_to_offset(pos)..];
        let index = search.find_in(rest)?;
        self.try_move_right(pos, index)
    }

    /// Whether the bytes or units of a range stand once more beside a position, to its right or to its left by the
    /// direction, and over UTF-16 end outside a pair. Where they do the position moves past them, else it may be any.
    fn subrange_eq<Dir: Direction>(
        &self,
        dir: Dir,
        pos: &mut Self::Position,
        range: Range<Self::Position>,
    ) -> bool
        requires order { Self.Position.offset range.start ≤ Self.Position.offset range.end }
        requires end { LiesIn (view self.now) (Self.Position.offset range.end) }
        requires position { LiesIn (view self.now) (Self.Position.offset pos.old) }
        ensures { only_if result (Self.Position.offset pos.new) ≡ units_repeated (view self.now) (direction_of Dir.FORWARD) (Self.Position.offset range.start) (Self.Position.offset range.end) (Self.Position.offset pos.old) };

    /// Whether these bytes stand beside a position, to its right or to its left by the direction. Where they do the position
    /// moves past them, else it may be any. Over units, which are no bytes, they never do.
    #[inline]
    fn match_bytes<Dir: Direction>(&self, dir: Dir, pos: &mut Self::Position, bytes: &[u8]) -> bool
        requires { LiesIn (view self.now) (Self.Position.offset pos.old) }
        ensures { only_if result (Self.Position.offset pos.new) ≡ in_bytes (view self.now).kind (literal (input_of (view self.now)) (direction_of Dir.FORWARD) bytes.now (Self.Position.offset pos.old)) }
    {
        let Some(text) = self.bytes() else {
            return false;
        };
        match slice_beside(dir, text, bytes, self.pos_to_offset(*pos)) {
            Some(end) => {
                *pos = <Self::Position as PositionType>::new(end);
                true
            }
            None => false,
        }
    }

    // the units are those of a text of the kind
    ghost are_of_kind: { (s : Self) → AreOfKind (view s).kind (view s).units };

    // the type of the units goes by the kind
    ghost bytes_by_kind: { (s : Self) → Self.Unit.IS_BYTE ≡ are_bytes (view s).kind };
}
