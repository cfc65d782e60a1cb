//! Tests on the character beside an offset.
ghost use Rattle.std.specs.Prelude.{◌≡◌, true, not, nat_eq};
ghost use Rattle.regress_meaning.specs.Text.{holds};
ghost use Rattle.regress_meaning.specs.Meaning.{is_line_end};
ghost use Rattle.regress_meaning.specs.Steps.{passed};
ghost use Rattle.regress_front_bytes.specs.ByteSets.{members};
ghost use Rattle.regress_front_bytes.specs.Bitmaps.{ascii_bitmap_contains};
ghost use Rattle.regress_engine_input.specs.Views.{direction_of, input_of, CanRead};
ghost use Rattle.regress_engine_singles.specs.Passing.{class_has};

use crate::reading::beside;
use regress_engine_input::{ElementType, InputIndexer};
use regress_engine_matchers::{CharInput, CharProperties};
use regress_engine_singles::ToldBracket;
use regress_front_bytes::{AsciiBitmap, ByteSet};
use regress_front_core::MAX_CHAR_SET_LENGTH;
use regress_front_tables::charset_contains;

/// Whether a number is that of one of these bytes.
#[inline]
fn has_number(bytes: &[u8], number: u32) -> bool
    ensures { result ≡ holds bytes.now number }
{
    bytes.iter().any(|byte| u32::from(*byte) == number)
}

/// The offset behind the character beside one, where that is the wanted one.
///
/// Asks that characters may be read from the offset on.
///
/// ```rust
/// let behind = this_char(&input, true, 0, 0x61);
/// ```
#[inline]
pub fn this_char<Input: InputIndexer>(
    input: &Input,
    forward: bool,
    offset: usize,
    wanted: u32,
) -> Option<usize>
    requires { CanRead (Input.view input.now) offset }
    ensures { result ≡ passed (nat_eq wanted) ((input_of (Input.view input.now)).next (direction_of forward) offset) }
{
    let (c, past) = beside(input, forward, offset)?;
    if wanted == c.as_u32() {
        Some(past)
    } else {
        None
    }
}

/// The offset behind the character beside one, where that is in a set of at most four.
#[inline]
pub(crate) fn char_set<Input: InputIndexer>(
    input: &Input,
    forward: bool,
    offset: usize,
    set: &[u32; MAX_CHAR_SET_LENGTH],
) -> Option<usize>
    requires { CanRead (Input.view input.now) offset }
    ensures { result ≡ passed (holds set.now) ((input_of (Input.view input.now)).next (direction_of forward) offset) }
{
    let (c, past) = beside(input, forward, offset)?;
    if charset_contains(set, c.as_u32()) {
        Some(past)
    } else {
        None
    }
}

/// The offset behind the character beside one, where its number is one of these bytes.
#[inline]
pub(crate) fn byte_set<Input: InputIndexer>(
    input: &Input,
    forward: bool,
    offset: usize,
    bytes: &[u8],
) -> Option<usize>
    requires { CanRead (Input.view input.now) offset }
    ensures { result ≡ passed (holds bytes.now) ((input_of (Input.view input.now)).next (direction_of forward) offset) }
{
    let (c, past) = beside(input, forward, offset)?;
    if has_number(bytes, c.as_u32()) {
        Some(past)
    } else {
        None
    }
}

/// The offset behind the character beside one, where that is in a set of ASCII.
///
/// Asks that characters may be read from the offset on.
///
/// ```rust
/// let behind = ascii_bracket(&input, true, 0, &bitmap);
/// ```
#[inline]
#[tactic(auto, using(regress_engine_insn::proofs::BitmapLemmas::member_byte, regress_engine_insn::proofs::BitmapLemmas::member_beyond))]
pub fn ascii_bracket<Input: InputIndexer>(
    input: &Input,
    forward: bool,
    offset: usize,
    bitmap: &AsciiBitmap,
) -> Option<usize>
    requires { CanRead (Input.view input.now) offset }
    ensures { result ≡ passed (holds (members (ascii_bitmap_contains bitmap.now))) ((input_of (Input.view input.now)).next (direction_of forward) offset) }
{
    let (c, past) = beside(input, forward, offset)?;
    let byte = <u8 as TryFrom<u32>>::try_from(c.as_u32()).ok()?;
    if bitmap.contains(byte) {
        Some(past)
    } else {
        None
    }
}

/// The same; ahead in bytes it is told by the byte alone.
#[inline(always)]
pub(crate) fn ascii_member<Input: InputIndexer>(
    input: &Input,
    forward: bool,
    offset: usize,
    bitmap: &AsciiBitmap,
) -> Option<usize>
    requires { CanRead (Input.view input.now) offset }
    ensures { result ≡ passed (holds (members (ascii_bitmap_contains bitmap.now))) ((input_of (Input.view input.now)).next (direction_of forward) offset) }
{
    if forward {
        if let Some(text) = input.bytes() {
            let _rows = &bitmap.rows()[..];
            return if offset < text.len() && bitmap.contains(text[offset]) {
                Some(offset + 1)
            } else {
                None
            };
        }
    }
    ascii_bracket(input, forward, offset, bitmap)
}

/// The offset behind the character beside one.
///
/// Asks that characters may be read from the offset on.
///
/// ```rust
/// let behind = any(&input, true, 0);
/// ```
#[inline]
pub fn any<Input: InputIndexer>(input: &Input, forward: bool, offset: usize) -> Option<usize>
    requires { CanRead (Input.view input.now) offset }
    ensures { result ≡ passed (λ c. true) ((input_of (Input.view input.now)).next (direction_of forward) offset) }
{
    let (_, past) = beside(input, forward, offset)?;
    Some(past)
}

/// The offset behind the character beside one, where that ends no line.
///
/// Asks that characters may be read from the offset on.
///
/// ```rust
/// let behind = any_in_line(&input, true, 0);
/// ```
#[inline(always)]
pub fn any_in_line<Input: CharInput>(input: &Input, forward: bool, offset: usize) -> Option<usize>
    requires { CanRead (Input.view input.now) offset }
    ensures { result ≡ passed (λ c. not (is_line_end c)) ((input_of (Input.view input.now)).next (direction_of forward) offset) }
{
    let (c, past) = beside(input, forward, offset)?;
    if <Input::CharProps as CharProperties>::is_line_terminator(c) {
        None
    } else {
        Some(past)
    }
}

/// The same, apart, so that no step makes room for it.
#[inline(never)]
pub(crate) fn in_line<Input: CharInput>(
    input: &Input,
    forward: bool,
    offset: usize,
) -> Option<usize>
    requires { CanRead (Input.view input.now) offset }
    ensures { result ≡ passed (λ c. not (is_line_end c)) ((input_of (Input.view input.now)).next (direction_of forward) offset) }
{
    any_in_line(input, forward, offset)
}

/// The offset behind the character beside one, where a class matches that.
///
/// Asks that characters may be read from the offset on.
///
/// ```rust
/// let behind = bracket(&input, true, 0, &class);
/// ```
#[inline]
pub fn bracket<Input: InputIndexer>(
    input: &Input,
    forward: bool,
    offset: usize,
    class: &ToldBracket<'_>,
) -> Option<usize>
    requires { CanRead (Input.view input.now) offset }
    ensures { result ≡ passed (class_has class.now.bc.now) ((input_of (Input.view input.now)).next (direction_of forward) offset) }
{
    let (c, past) = beside(input, forward, offset)?;
    if class.has(c.as_u32()) {
        Some(past)
    } else {
        None
    }
}
