//! Bytes of ASCII.
ghost use Rattle.std.specs.Str.{IsAscii};
ghost use Rattle.std.proofs.Props.{props};
ghost use Rattle.std.proofs.Common.{rules};

use crate::bytes::{single_byte_left, single_byte_right};
use crate::position::DefPosition;
use regress_engine_input::{Direction, InputIndexer, PositionType, slice_beside};
use regress_engine_matchers::{ASCIICharProperties, CharInput};
use regress_engine_search::{ExecutorInput, Shown};
use regress_front_tables::Tables;
use std::ops::Range;

/// A text of ASCII, each byte one character.
#[derive(Debug, Clone, Copy)]
pub struct AsciiInput<'u, 't> {
    text: &'t str,
    unicode: bool,
    tables: &'u Tables,
    ghost ascii: { IsAscii text.now } by { Prim.hlevel props },
}

impl<'u, 't> AsciiInput<'u, 't> {
    ghost use Rattle.std.specs.Prelude.{◌≡◌};
    ghost use Rattle.regress_front_tables.specs.TableViews.{table};
    ghost use Rattle.regress_engine_input.specs.Views.{ascii};
    ghost use Rattle.regress_engine_inputs.specs.InputViews.{ascii_view};

    /// A text of ASCII, with the mode and the tables by which it is matched: `AsciiInput::new("abc", true, &tables)`.
    #[inline]
    pub fn new(text: &'t str, unicode: bool, tables: &'u Tables) -> AsciiInput<'u, 't>
        requires { IsAscii text.now }
        ensures { ascii_view result ≡ record { kind = ascii; units = text.now; table = table tables.now; unicode = unicode } }
    {
        AsciiInput {
            text,
            unicode,
            tables,
        }
    }

    /// The bytes of the text.
    #[inline]
    fn contents(&self) -> &[u8]
        ensures { result.now ≡ self.now.text.now }
    {
        self.text.as_bytes()
    }
}

impl<'u, 't> InputIndexer for AsciiInput<'u, 't> {
    ghost use Rattle.std.specs.Prelude.{◌≡◌, ◌≤◌, slice_range};
    ghost use Rattle.regress_meaning.specs.Steps.{only_if};
    ghost use Rattle.regress_engine_input.specs.Views.{direction_of, CanRead, LiesIn, units_repeated};
    ghost use Rattle.regress_engine_inputs.specs.InputViews.{ascii_view};

    type Element = u8;

    type Unit = u8;

    type Position = DefPosition;

    ghost view = { ascii_view };

    #[inline]
    fn unicode(&self) -> bool {
        self.unicode
    }

    #[inline]
    fn tables(&self) -> &Tables {
        self.tables
    }

    #[inline]
    fn subinput(&self, range: Range<Self::Position>) -> Self
        requires order { range.start.offset ≤ range.end.offset }
        requires start { CanRead (ascii_view self.now) range.start.offset }
        requires end { CanRead (ascii_view self.now) range.end.offset }
        ensures { ascii_view result ≡ record (ascii_view self.now) { units = slice_range self.now.text.now range.start.offset range.end.offset } }
    {
        AsciiInput::new(
            &self.text[range.start.offset()..range.end.offset()],
            self.unicode,
            self.tables,
        )
    }

    #[inline]
    fn next_right(&self, pos: &mut Self::Position) -> Option<u8> {
        let (c, behind) = single_byte_right(self.contents(), pos.offset())?;
        *pos = DefPosition::new(behind);
        Some(c)
    }

    #[inline]
    fn next_left(&self, pos: &mut Self::Position) -> Option<u8> {
        let (c, before) = single_byte_left(self.contents(), pos.offset())?;
        *pos = DefPosition::new(before);
        Some(c)
    }

    #[inline]
    fn bytes(&self) -> Option<&[u8]> {
        Some(self.contents())
    }

    #[inline]
    fn units(&self) -> Option<&[u16]> {
        None
    }

    #[inline]
    fn right_end(&self) -> Self::Position {
        DefPosition::new(self.text.len())
    }

    #[inline]
    fn pos_to_offset(&self, pos: Self::Position) -> usize {
        pos.offset()
    }

    #[inline]
    fn subrange_eq<Dir: Direction>(
        &self,
        dir: Dir,
        pos: &mut Self::Position,
        range: Range<Self::Position>,
    ) -> bool
        requires order { range.start.offset ≤ range.end.offset }
        requires end { LiesIn (ascii_view self.now) range.end.offset }
        requires position { LiesIn (ascii_view self.now) pos.old.offset }
        ensures { only_if result pos.new.offset ≡ units_repeated (ascii_view self.now) (direction_of Dir.FORWARD) range.start.offset range.end.offset pos.old.offset }
    {
        let part = &self.contents()[range.start.offset()..range.end.offset()];
        pos.move_to(slice_beside(dir, self.contents(), part, pos.offset()))
    }

    ghost are_of_kind = { λ s. s.ascii };

    ghost bytes_by_kind = { Prim.search rules };
}

impl<'u, 't> CharInput for AsciiInput<'u, 't> {
    ghost use Rattle.regress_front_tables.specs.TableViews.{parts};
    ghost use Rattle.regress_engine_inputs.specs.AsciiByTable.{ascii-by_table};

    type CharProps = ASCIICharProperties;

    ghost canon_by_table = { λ s dir o c read. ascii-by_table (parts s.tables.now) s.tables.now.lawful s.unicode s.text.now s.ascii dir o c read };
}

impl<'u, 't> Shown for AsciiInput<'u, 't> {
    ghost use Rattle.regress_engine_inputs.specs.InputViews.{ascii_view};

    ghost shown = { ascii_view };
}

impl<'u, 't> ExecutorInput for AsciiInput<'u, 't> {
    ghost use Rattle.std.specs.Prelude.{refl};

    ghost shows = { λ _. refl };
}
