//! 16-bit units, in which a pair is one character.
ghost use Rattle.std.specs.Prelude.{All, ◌<◌};
ghost use Rattle.std.proofs.Props.{props};
ghost use Rattle.std.proofs.Common.{rules};

use crate::position::DefPosition;
use crate::units::{outside_pair, units_beside, utf16_left, utf16_right};
use regress_engine_input::{Direction, InputIndexer, PositionType};
use regress_engine_matchers::{CharInput, Utf16CharProperties};
use regress_engine_search::{ExecutorInput, Shown};
use regress_front_tables::Tables;
use std::ops::Range;

/// A text of 16-bit units. A high unit (D800 to DBFF) before a low one (DC00 to DFFF) is one character, any other unit is one
/// alone.
#[derive(Debug, Clone, Copy)]
pub struct Utf16Input<'u, 't> {
    units: &'t [u16],
    unicode: bool,
    tables: &'u Tables,
    ghost in_range: { All (λ u. u < 0x1_0000) units.now } by { Prim.hlevel props },
}

impl<'u, 't> Utf16Input<'u, 't> {
    ghost use Rattle.std.specs.Prelude.{◌≡◌};
    ghost use Rattle.regress_front_tables.specs.TableViews.{table};
    ghost use Rattle.regress_engine_input.specs.Views.{utf16};
    ghost use Rattle.regress_engine_inputs.specs.InputViews.{utf16_view};

    /// The text of these units, with the mode and the tables by which it is matched: `Utf16Input::new(&units, true, &tables)`.
    #[inline]
    pub fn new(units: &'t [u16], unicode: bool, tables: &'u Tables) -> Utf16Input<'u, 't>
        ensures { utf16_view result ≡ record { kind = utf16; units = units.now; table = table tables.now; unicode = unicode } }
    {
        Utf16Input {
            units,
            unicode,
            tables,
        }
    }
}

impl<'u, 't> InputIndexer for Utf16Input<'u, 't> {
    ghost use Rattle.std.specs.Prelude.{◌≡◌, ◌≤◌, slice_range};
    ghost use Rattle.regress_meaning.specs.Steps.{only_if};
    ghost use Rattle.regress_engine_input.specs.Views.{direction_of, CanRead, LiesIn, units_repeated};
    ghost use Rattle.regress_engine_inputs.specs.InputViews.{utf16_view};

    type Element = u32;

    type Unit = u16;

    type Position = DefPosition;

    ghost view = { utf16_view };

    #[inline]
    fn unicode(&self) -> bool {
        self.unicode
    }

    #[inline]
    fn tables(&self) -> &Tables {
        self.tables
    }

    #[inline]
    fn subinput(&self, range: Range<Self::Position>) -> Self
        requires order { range.start.offset ≤ range.end.offset }
        requires start { CanRead (utf16_view self.now) range.start.offset }
        requires end { CanRead (utf16_view self.now) range.end.offset }
        ensures { utf16_view result ≡ record (utf16_view self.now) { units = slice_range self.now.units.now range.start.offset range.end.offset } }
    {
        Utf16Input::new(
            &self.units[range.start.offset()..range.end.offset()],
            self.unicode,
            self.tables,
        )
    }

    #[inline]
    fn next_right(&self, pos: &mut Self::Position) -> Option<u32> {
        let (c, behind) = utf16_right(self.units, pos.offset())?;
        *pos = DefPosition::new(behind);
        Some(c)
    }

    #[inline]
    fn next_left(&self, pos: &mut Self::Position) -> Option<u32> {
        let (c, before) = utf16_left(self.units, pos.offset())?;
        *pos = DefPosition::new(before);
        Some(c)
    }

    #[inline]
    fn bytes(&self) -> Option<&[u8]> {
        None
    }

    #[inline]
    fn units(&self) -> Option<&[u16]> {
        Some(self.units)
    }

    #[inline]
    fn right_end(&self) -> Self::Position {
        DefPosition::new(self.units.len())
    }

    #[inline]
    fn pos_to_offset(&self, pos: Self::Position) -> usize {
        pos.offset()
    }

    #[inline]
    fn subrange_eq<Dir: Direction>(
        &self,
        dir: Dir,
        pos: &mut Self::Position,
        range: Range<Self::Position>,
    ) -> bool
        requires order { range.start.offset ≤ range.end.offset }
        requires end { LiesIn (utf16_view self.now) range.end.offset }
        requires position { LiesIn (utf16_view self.now) pos.old.offset }
        ensures { only_if result pos.new.offset ≡ units_repeated (utf16_view self.now) (direction_of Dir.FORWARD) range.start.offset range.end.offset pos.old.offset }
    {
        let part = &self.units[range.start.offset()..range.end.offset()];
        let found = units_beside(dir, self.units, part, pos.offset());
        pos.move_to(outside_pair(self.units, found))
    }

    ghost are_of_kind = { λ s. s.in_range };

    ghost bytes_by_kind = { Prim.search rules };
}

impl<'u, 't> CharInput for Utf16Input<'u, 't> {
    ghost use Rattle.std.specs.Prelude.{refl};

    type CharProps = Utf16CharProperties;

    ghost canon_by_table = { λ _ _ _ _ _. refl };
}

impl<'u, 't> Shown for Utf16Input<'u, 't> {
    ghost use Rattle.regress_engine_inputs.specs.InputViews.{utf16_view};

    ghost shown = { utf16_view };
}

impl<'u, 't> ExecutorInput for Utf16Input<'u, 't> {
    ghost use Rattle.std.specs.Prelude.{refl};

    ghost shows = { λ _. refl };
}
