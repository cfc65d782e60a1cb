//! Reading in a direction.
ghost use Rattle.std.specs.Prelude.{◌≡◌, Bool, true, false, option_map, is_some, if◌then◌else◌};
ghost use Rattle.regress_meaning.specs.Steps.{point, only_if, literal};
ghost use Rattle.regress_engine_input.specs.Views.{direction_of, input_of, CanRead, LiesIn, behind, unit_beside, in_bytes, past_unit};

use crate::indexing::InputIndexer;
use std::fmt::Debug;

/// In which direction a text is read.
pub trait Direction: Debug + Copy {
    // whether it is forward
    ghost FORWARD: { Bool };

    /// Whether it is read forward.
    const FORWARD: bool;

    /// The direction itself: `Forward::new()`.
    fn new() -> Self;
}

/// From the left to the right.
#[derive(Debug, Clone, Copy)]
pub struct Forward;

/// From the right to the left, as in a lookbehind.
#[derive(Debug, Clone, Copy)]
pub struct Backward;

impl Direction for Forward {
    ghost FORWARD = { true };

    const FORWARD: bool = true;

    #[inline]
    fn new() -> Forward {
        Forward
    }
}

impl Direction for Backward {
    ghost FORWARD = { false };

    const FORWARD: bool = false;

    #[inline]
    fn new() -> Backward {
        Backward
    }
}

/// The character beside a position in a direction, past which the position moves; `None` where the text ends, and the
/// position stays. In UTF-8 the position has to lie between characters. `next(&input, Backward::new(), &mut pos)` behind `é`
/// gives `é`, and the position before it.
#[inline]
pub fn next<Input: InputIndexer, Dir: Direction>(
    input: &Input,
    _dir: Dir,
    pos: &mut Input::Position,
) -> Option<Input::Element>
    requires { CanRead (Input.view input.now) (Input.Position.offset pos.old) }
    ensures point { option_map Input.Element.code result ≡ point (input_of (Input.view input.now)) (direction_of Dir.FORWARD) (Input.Position.offset pos.old) }
    ensures position { Input.Position.offset pos.new ≡ behind (Input.Position.offset pos.old) ((input_of (Input.view input.now)).next (direction_of Dir.FORWARD) (Input.Position.offset pos.old)) }
{
    if Dir::FORWARD {
        input.next_right(pos)
    } else {
        input.next_left(pos)
    }
}

/// The byte beside a position in a direction, past which the position moves; `None` where the text ends, and over units,
/// which are no bytes, and the position stays. `next_byte(&input, Forward::new(), &mut pos)` before `é` gives `0xC3`.
#[inline]
#[tactic(auto, using(crate::proofs::ByteReads::byte_right, crate::proofs::ByteReads::byte_left))]
pub fn next_byte<Input: InputIndexer, Dir: Direction>(
    input: &Input,
    _dir: Dir,
    pos: &mut Input::Position,
) -> Option<u8>
    requires { LiesIn (Input.view input.now) (Input.Position.offset pos.old) }
    ensures byte { result ≡ in_bytes (Input.view input.now).kind (unit_beside (Input.view input.now).units (direction_of Dir.FORWARD) (Input.Position.offset pos.old)) }
    ensures position { Input.Position.offset pos.new ≡ (if is_some result then past_unit (direction_of Dir.FORWARD) (Input.Position.offset pos.old) else Input.Position.offset pos.old) }
{
    if Dir::FORWARD {
        let byte = input.peek_byte_right(*pos)?;
        *pos = input.try_move_right(*pos, 1)?;
        Some(byte)
    } else {
        let byte = input.peek_byte_left(*pos)?;
        *pos = input.try_move_left(*pos, 1)?;
        Some(byte)
    }
}

/// Whether these bytes stand beside a position in a direction. Where they do the position moves past them, else it may be
/// any. Over units, which are no bytes, they never do. `try_match_lit(&input, Forward::new(), &mut pos, b"ab")` is true before
/// `abc`, and the position stands before `c`.
#[inline]
pub fn try_match_lit<const N: usize, Input: InputIndexer, Dir: Direction>(
    input: &Input,
    dir: Dir,
    pos: &mut Input::Position,
    wanted: &[u8; N],
) -> bool
    requires { LiesIn (Input.view input.now) (Input.Position.offset pos.old) }
    ensures { only_if result (Input.Position.offset pos.new) ≡ in_bytes (Input.view input.now).kind (literal (input_of (Input.view input.now)) (direction_of Dir.FORWARD) wanted.now (Input.Position.offset pos.old)) }
{
    input.match_bytes(dir, pos, wanted)
}
