//! The character beside an offset.
ghost use Rattle.std.specs.Prelude.{◌≡◌, option_map, Some, IfSome};
ghost use Rattle.regress_meaning.specs.Meaning.{Forward as ahead, Backward as backward};
ghost use Rattle.regress_engine_input.specs.Views.{direction_of, input_of, CanRead};

use regress_engine_input::cursor::next;
use regress_engine_input::{Backward, Direction, ElementType, Forward, InputIndexer, PositionType};

/// The character beside an offset, in a direction, and the offset behind it.
#[inline]
fn read<Input: InputIndexer, Dir: Direction>(
    input: &Input,
    dir: Dir,
    offset: usize,
) -> Option<(Input::Element, usize)>
    requires { CanRead (Input.view input.now) offset }
    ensures { option_map (λ x. (Input.Element.code x.0, x.1)) result ≡ (input_of (Input.view input.now)).next (direction_of Dir.FORWARD) offset }
{
    let mut position = <Input::Position as PositionType>::new(offset);
    let character = next(input, dir, &mut position)?;
    Some((character, input.pos_to_offset(position)))
}

/// The character ahead of an offset, and the offset behind it, where a character of ASCII stands there in bytes.
#[inline(always)]
fn ascii_ahead<Input: InputIndexer>(input: &Input, offset: usize) -> Option<(Input::Element, usize)>
    ensures { IfSome result (λ x. (input_of (Input.view input.now)).next ahead offset ≡ Some (Input.Element.code x.0, x.1)) }
{
    let text = input.bytes()?;
    if offset >= text.len() || text[offset] >= 0x80 {
        return None;
    }
    let c = <Input::Element as ElementType>::try_from(u32::from(text[offset]))?;
    Some((c, offset + 1))
}

/// The character before an offset, and the offset before it, where a character of ASCII stands there in bytes.
#[inline(always)]
fn ascii_before<Input: InputIndexer>(
    input: &Input,
    offset: usize,
) -> Option<(Input::Element, usize)>
    ensures { IfSome result (λ x. (input_of (Input.view input.now)).next backward offset ≡ Some (Input.Element.code x.0, x.1)) }
{
    let text = input.bytes()?;
    if offset == 0 || offset > text.len() || text[offset - 1] >= 0x80 {
        return None;
    }
    let c = <Input::Element as ElementType>::try_from(u32::from(text[offset - 1]))?;
    Some((c, offset - 1))
}

/// The character ahead of an offset, and the offset behind it, where a character of ASCII stands there in units.
#[inline(always)]
fn unit_ahead<Input: InputIndexer>(input: &Input, offset: usize) -> Option<(Input::Element, usize)>
    ensures { IfSome result (λ x. (input_of (Input.view input.now)).next ahead offset ≡ Some (Input.Element.code x.0, x.1)) }
{
    let text = input.units()?;
    if offset >= text.len() || text[offset] >= 0x80 {
        return None;
    }
    let c = <Input::Element as ElementType>::try_from(u32::from(text[offset]))?;
    Some((c, offset + 1))
}

/// The character before an offset, and the offset before it, where a character of ASCII stands there in units.
#[inline(always)]
fn unit_before<Input: InputIndexer>(input: &Input, offset: usize) -> Option<(Input::Element, usize)>
    ensures { IfSome result (λ x. (input_of (Input.view input.now)).next backward offset ≡ Some (Input.Element.code x.0, x.1)) }
{
    let text = input.units()?;
    if offset == 0 || offset > text.len() || text[offset - 1] >= 0x80 {
        return None;
    }
    let c = <Input::Element as ElementType>::try_from(u32::from(text[offset - 1]))?;
    Some((c, offset - 1))
}

/// The character ahead of an offset, and the offset behind it, where a character of ASCII stands there, in bytes or in units.
#[inline(always)]
pub(crate) fn plain_ahead<Input: InputIndexer>(
    input: &Input,
    offset: usize,
) -> Option<(Input::Element, usize)>
    ensures { IfSome result (λ x. (input_of (Input.view input.now)).next ahead offset ≡ Some (Input.Element.code x.0, x.1)) }
{
    match ascii_ahead(input, offset) {
        Some(found) => Some(found),
        None => unit_ahead(input, offset),
    }
}

/// The character before an offset, and the offset before it, where a character of ASCII stands there, in bytes or in units.
#[inline(always)]
pub(crate) fn plain_before<Input: InputIndexer>(
    input: &Input,
    offset: usize,
) -> Option<(Input::Element, usize)>
    ensures { IfSome result (λ x. (input_of (Input.view input.now)).next backward offset ≡ Some (Input.Element.code x.0, x.1)) }
{
    match ascii_before(input, offset) {
        Some(found) => Some(found),
        None => unit_before(input, offset),
    }
}

/// The character beside an offset, forward or backward, and the offset behind it. One of ASCII is read at once.
///
/// Asks that characters may be read from the offset on.
///
/// ```rust
/// let read = beside(&input, true, 0);
/// ```
#[inline(always)]
pub fn beside<Input: InputIndexer>(
    input: &Input,
    forward: bool,
    offset: usize,
) -> Option<(Input::Element, usize)>
    requires { CanRead (Input.view input.now) offset }
    ensures { option_map (λ x. (Input.Element.code x.0, x.1)) result ≡ (input_of (Input.view input.now)).next (direction_of forward) offset }
{
    if forward {
        if let Some(found) = plain_ahead(input, offset) {
            return Some(found);
        }
        return read(input, Forward::new(), offset);
    }
    if let Some(found) = plain_before(input, offset) {
        return Some(found);
    }
    read(input, Backward::new(), offset)
}
