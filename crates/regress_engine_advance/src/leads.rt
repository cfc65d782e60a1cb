//! The byte with which the character ahead of an offset begins.
ghost use Rattle.std.specs.Prelude.{◌≡◌, false, Some, slice_get};
ghost use Rattle.regress_meaning.specs.Meaning.{Forward as ahead};
ghost use Rattle.regress_engine_input.specs.Views.{are_bytes, in_bytes, unit_beside};
ghost use Rattle.regress_engine_singles.specs.Leads.{lead_ahead};

use crate::reading::beside;
use regress_engine_input::{ElementType, InputIndexer, PositionType};
use regress_front_bytes::utf8_first_byte;

/// The byte ahead of an offset, which may be any; `None` where the text ends, and over units.
#[inline(always)]
fn next_byte<Input: InputIndexer>(input: &Input, offset: usize) -> Option<u8>
    ensures { result ≡ in_bytes (Input.view input.now).kind (unit_beside (Input.view input.now).units ahead offset) }
{
    if offset > input.pos_to_offset(input.right_end()) {
        return None;
    }
    let position = <Input::Position as PositionType>::new(offset);
    input.peek_byte_right(position)
}

/// The byte with which the character ahead of an offset of units begins in UTF-8, where this unit stands there: told by the unit, or
/// where that may be one half of a pair by the character.
#[inline(never)]
fn lead_beyond<Input: InputIndexer>(input: &Input, unit: u16, offset: usize) -> Option<u8>
    requires kind { are_bytes (Input.view input.now).kind ≡ false }
    requires unit { slice_get (Input.view input.now).units offset ≡ Some unit }
    ensures { result ≡ lead_ahead (Input.view input.now) offset }
{
    if unit < 0xD800 {
        return Some(utf8_first_byte(u32::from(unit)));
    }
    let (c, _) = beside(input, true, offset)?;
    Some(utf8_first_byte(c.as_u32()))
}

/// The same, at once where that is one of ASCII.
#[inline(always)]
fn unit_lead<Input: InputIndexer>(input: &Input, units: &[u16], offset: usize) -> Option<u8>
    requires kind { are_bytes (Input.view input.now).kind ≡ false }
    requires units { units.now ≡ (Input.view input.now).units }
    ensures { result ≡ lead_ahead (Input.view input.now) offset }
{
    if offset >= units.len() {
        return None;
    }
    let unit = units[offset];
    if unit < 0x80 {
        return Some(unit as u8);
    }
    lead_beyond(input, unit, offset)
}

/// The byte with which the character ahead of an offset begins in UTF-8, whatever holds the text; over bytes that is the one that
/// stands there. The offset may be any; `None` where the text ends.
///
/// ```rust
/// let byte = lead_ahead(&input, 0); // before `é` `Some(0xC3)`
/// ```
#[inline(always)]
pub fn lead_ahead<Input: InputIndexer>(input: &Input, offset: usize) -> Option<u8>
    ensures { result ≡ lead_ahead (Input.view input.now) offset }
{
    match input.units() {
        Some(units) => unit_lead(input, units, offset),
        None => next_byte(input, offset),
    }
}
