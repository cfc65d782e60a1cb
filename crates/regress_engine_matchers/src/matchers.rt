//! What a group took, beside a position once more.
ghost use Rattle.std.specs.Prelude.{◌≡◌, ◌≤◌, Some, false, true, length};
ghost use Rattle.regress_meaning.specs.Table.{canon};
ghost use Rattle.regress_meaning.specs.Steps.{only_if, repeated};
ghost use Rattle.regress_engine_input.specs.Views.{direction_of, input_of, CanRead, LiesIn, units_repeated};
ghost use Rattle.regress_engine_matchers.specs.References.{IsPlace, begin_in, alike, part_repeated};

use crate::properties::CharInput;
use regress_engine_input::cursor::next;
use regress_engine_input::{Direction, ElementType, InputIndexer};
use std::ops::Range;

/// Whether the bytes or units of a range stand beside the position once more, to its right or to its left by the direction,
/// and over UTF-16 end outside a pair ("BackreferenceMatcher"). Between characters this is so where the characters of the range
/// stand there. Where it is so the position moves past them, else it may be any. In `abab`, with the range of the first `ab`
/// and a position at its end, `backref(&input, Forward::new(), range, &mut pos)` is true.
#[inline]
pub fn backref<Input: InputIndexer, Dir: Direction>(
    input: &Input,
    dir: Dir,
    range: Range<Input::Position>,
    pos: &mut Input::Position,
) -> bool
    requires order { Input.Position.offset range.start ≤ Input.Position.offset range.end }
    requires end { LiesIn (Input.view input.now) (Input.Position.offset range.end) }
    requires position { LiesIn (Input.view input.now) (Input.Position.offset pos.old) }
    ensures units { only_if result (Input.Position.offset pos.new)
        ≡ units_repeated (Input.view input.now) (direction_of Dir.FORWARD) (Input.Position.offset range.start) (Input.Position.offset range.end) (Input.Position.offset pos.old) }
    ensures between { IsPlace (Input.view input.now) (Input.Position.offset range.start) → IsPlace (Input.view input.now) (Input.Position.offset range.end)
        → IsPlace (Input.view input.now) (Input.Position.offset pos.old) → only_if result (Input.Position.offset pos.new)
        ≡ repeated (input_of (Input.view input.now)) (direction_of Dir.FORWARD) false (Some (Input.Position.offset range.start, Input.Position.offset range.end)) (Input.Position.offset pos.old) }
{
    input.subrange_eq(dir, pos, range)
}

/// Whether the text of a range, read as one of its own, stands beside the position once more, each character with the same
/// fold or upper case by the mode, to its right or to its left by the direction ("BackreferenceMatcher", where case is
/// ignored). Between characters the range is read as the text is; over UTF-16 a half of a pair that is cut stands alone. Where
/// it is so the position moves past it, else it may be any. In `abAB`, with the range of `ab` and a position at its end,
/// `backref_icase(&input, Forward::new(), range, &mut pos)` is true.
#[inline]
pub fn backref_icase<Input: CharInput, Dir: Direction>(
    input: &Input,
    dir: Dir,
    range: Range<Input::Position>,
    pos: &mut Input::Position,
) -> bool
    requires order { Input.Position.offset range.start ≤ Input.Position.offset range.end }
    requires start { CanRead (Input.view input.now) (Input.Position.offset range.start) }
    requires end { CanRead (Input.view input.now) (Input.Position.offset range.end) }
    requires position { CanRead (Input.view input.now) (Input.Position.offset pos.old) }
    ensures part { only_if result (Input.Position.offset pos.new)
        ≡ part_repeated (Input.view input.now) (direction_of Dir.FORWARD) (Input.Position.offset range.start) (Input.Position.offset range.end) (Input.Position.offset pos.old) }
    ensures between { IsPlace (Input.view input.now) (Input.Position.offset range.start) → IsPlace (Input.view input.now) (Input.Position.offset range.end)
        → only_if result (Input.Position.offset pos.new)
        ≡ repeated (input_of (Input.view input.now)) (direction_of Dir.FORWARD) true (Some (Input.Position.offset range.start, Input.Position.offset range.end)) (Input.Position.offset pos.old) }
{
    let part = input.subinput(range);
    let mut at = begin(&part, dir);
    while let Some(c) = next(&part, dir, &mut at) {
        if !next_alike(input, dir, c, pos) {
            return false;
        }
    }
    true
}

/// The position at which a text begins, as it is read in a direction.
#[inline]
fn begin<Input: InputIndexer, Dir: Direction>(input: &Input, _dir: Dir) -> Input::Position
    ensures { Input.Position.offset result ≡ begin_in (direction_of Dir.FORWARD) (length (Input.view input.now).units) }
{
    if Dir::FORWARD {
        input.left_end()
    } else {
        input.right_end()
    }
}

/// Whether the character beside a position has the same canon as this one. Where it has, the position moves past it, else it
/// may be any.
#[inline]
fn next_alike<Input: CharInput, Dir: Direction>(
    input: &Input,
    dir: Dir,
    c: Input::Element,
    pos: &mut Input::Position,
) -> bool
    requires canon { Input.CharProps.canon (Input.view input.now).table (Input.view input.now).unicode (Input.Element.code c)
        ≡ canon (Input.view input.now).table (Input.view input.now).unicode (Input.Element.code c) }
    requires position { CanRead (Input.view input.now) (Input.Position.offset pos.old) }
    ensures { only_if result (Input.Position.offset pos.new)
        ≡ alike (input_of (Input.view input.now)) (direction_of Dir.FORWARD) (Input.Element.code c) (Input.Position.offset pos.old) }
{
    let Some(d) = next(input, dir, pos) else {
        return false;
    };
    input.fold_equals(c, d)
}
