//! Bytes of UTF-8.
ghost use Rattle.std.specs.Str.{IsUtf8};
ghost use Rattle.std.proofs.Props.{props};
ghost use Rattle.std.proofs.Common.{rules};

use crate::bytes::{utf8_left, utf8_right};
use crate::position::DefPosition;
use regress_engine_input::{Direction, InputIndexer, PositionType, slice_beside};
use regress_engine_matchers::{CharInput, UTF8CharProperties};
use regress_engine_search::{ExecutorInput, Shown};
use regress_front_tables::Tables;
use std::ops::Range;

/// A text of UTF-8.
#[derive(Debug, Clone, Copy)]
pub struct Utf8Input<'u, 't> {
    text: &'t str,
    unicode: bool,
    tables: &'u Tables,
    ghost utf8: { IsUtf8 text.now } by { Prim.hlevel props },
}

impl<'u, 't> Utf8Input<'u, 't> {
    ghost use Rattle.std.specs.Prelude.{◌≡◌};
    ghost use Rattle.regress_front_tables.specs.TableViews.{table};
    ghost use Rattle.regress_engine_input.specs.Views.{utf8};
    ghost use Rattle.regress_engine_inputs.specs.InputViews.{utf8_view};

    /// The text, with the mode and the tables by which it is matched: `Utf8Input::new("é", true, &tables)`.
    #[inline]
    pub fn new(text: &'t str, unicode: bool, tables: &'u Tables) -> Utf8Input<'u, 't>
        ensures { utf8_view result ≡ record { kind = utf8; units = text.now; table = table tables.now; unicode = unicode } }
    {
        Utf8Input {
            text,
            unicode,
            tables,
        }
    }

    /// The bytes of the text.
    #[inline]
    fn contents(&self) -> &[u8]
        ensures { result.now ≡ self.now.text.now }
    {
        self.text.as_bytes()
    }
}

impl<'u, 't> InputIndexer for Utf8Input<'u, 't> {
    ghost use Rattle.std.specs.Prelude.{◌≡◌, ◌≤◌, slice_range};
    ghost use Rattle.regress_meaning.specs.Steps.{only_if};
    ghost use Rattle.regress_engine_input.specs.Views.{direction_of, CanRead, LiesIn, units_repeated};
    ghost use Rattle.regress_engine_inputs.specs.InputViews.{utf8_view};

    type Element = char;

    type Unit = u8;

    type Position = DefPosition;

    ghost view = { utf8_view };

    #[inline]
    fn unicode(&self) -> bool {
        self.unicode
    }

    #[inline]
    fn tables(&self) -> &Tables {
        self.tables
    }

    #[inline]
    fn subinput(&self, range: Range<Self::Position>) -> Self
        requires order { range.start.offset ≤ range.end.offset }
        requires start { CanRead (utf8_view self.now) range.start.offset }
        requires end { CanRead (utf8_view self.now) range.end.offset }
        ensures { utf8_view result ≡ record (utf8_view self.now) { units = slice_range self.now.text.now range.start.offset range.end.offset } }
    {
        Utf8Input::new(
            &self.text[range.start.offset()..range.end.offset()],
            self.unicode,
            self.tables,
        )
    }

    #[inline]
    fn next_right(&self, pos: &mut Self::Position) -> Option<char> {
        let (c, behind) = utf8_right(self.contents(), pos.offset())?;
        *pos = DefPosition::new(behind);
        char::from_u32(c)
    }

    #[inline]
    fn next_left(&self, pos: &mut Self::Position) -> Option<char> {
        let (c, before) = utf8_left(self.contents(), pos.offset())?;
        *pos = DefPosition::new(before);
        char::from_u32(c)
    }

    #[inline]
    fn next_right_pos(&self, pos: Self::Position) -> Option<Self::Position> {
        let (_, behind) = utf8_right(self.contents(), pos.offset())?;
        Some(DefPosition::new(behind))
    }

    #[inline]
    fn next_left_pos(&self, pos: Self::Position) -> Option<Self::Position> {
        let (_, before) = utf8_left(self.contents(), pos.offset())?;
        Some(DefPosition::new(before))
    }

    #[inline]
    fn bytes(&self) -> Option<&[u8]> {
        Some(self.contents())
    }

    #[inline]
    fn units(&self) -> Option<&[u16]> {
        None
    }

    #[inline]
    fn right_end(&self) -> Self::Position {
        DefPosition::new(self.text.len())
    }

    #[inline]
    fn pos_to_offset(&self, pos: Self::Position) -> usize {
        pos.offset()
    }

    #[inline]
    fn subrange_eq<Dir: Direction>(
        &self,
        dir: Dir,
        pos: &mut Self::Position,
        range: Range<Self::Position>,
    ) -> bool
        requires order { range.start.offset ≤ range.end.offset }
        requires end { LiesIn (utf8_view self.now) range.end.offset }
        requires position { LiesIn (utf8_view self.now) pos.old.offset }
        ensures { only_if result pos.new.offset ≡ units_repeated (utf8_view self.now) (direction_of Dir.FORWARD) range.start.offset range.end.offset pos.old.offset }
    {
        let part = &self.contents()[range.start.offset()..range.end.offset()];
        pos.move_to(slice_beside(dir, self.contents(), part, pos.offset()))
    }

    ghost are_of_kind = { λ s. s.utf8 };

    ghost bytes_by_kind = { Prim.search rules };
}

impl<'u, 't> CharInput for Utf8Input<'u, 't> {
    ghost use Rattle.std.specs.Prelude.{refl};

    type CharProps = UTF8CharProperties;

    ghost canon_by_table = { λ _ _ _ _ _. refl };
}

impl<'u, 't> Shown for Utf8Input<'u, 't> {
    ghost use Rattle.regress_engine_inputs.specs.InputViews.{utf8_view};

    ghost shown = { utf8_view };
}

impl<'u, 't> ExecutorInput for Utf8Input<'u, 't> {
    ghost use Rattle.std.specs.Prelude.{refl};

    ghost shows = { λ _. refl };
}
