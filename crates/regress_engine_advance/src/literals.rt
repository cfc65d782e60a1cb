//! Bytes beside an offset.
ghost use Rattle.std.specs.Prelude.{◌≡◌, ◌<◌, ℕ, true, false, not, None, List, ◌∷◌, length};
ghost use Rattle.regress_meaning.specs.Meaning.{Forward as ahead};
ghost use Rattle.regress_meaning.specs.Steps.{literal};
ghost use Rattle.regress_engine_code.specs.Standing.{program_of};
ghost use Rattle.regress_engine_insn.specs.InsnViews.{instruction};
ghost use Rattle.regress_engine_input.specs.Views.{direction_of, input_of, are_bytes};
ghost use Rattle.regress_engine_runs.specs.States.{Marks};
ghost use Rattle.regress_engine_runs.specs.Meets.{reads_character};
ghost use Rattle.regress_engine_runs.specs.Runs.{advance};
ghost use Rattle.regress_engine_runs.specs.Closed.{Fits};

use regress_engine_code::CompiledRegex;
use regress_engine_input::{Backward, Direction, InputIndexer, PositionType};
use regress_engine_insn::{Insn, bytes_of};

/// Whether another byte stands ahead of an offset, or none. The offset may be any.
///
/// Asks that the text is one of bytes.
///
/// ```rust
/// let other = other_ahead(&input, 0, b'a');
/// ```
#[inline(always)]
pub fn other_ahead<Input: InputIndexer>(input: &Input, offset: usize, byte: u8) -> bool
    requires { are_bytes (Input.view input.now).kind ≡ true }
    ensures { (rest : List ℕ) → result ≡ true → None ≡ literal (input_of (Input.view input.now)) ahead (byte ∷ rest) offset }
{
    if offset > input.pos_to_offset(input.right_end()) {
        return true;
    }
    let position = <Input::Position as PositionType>::new(offset);
    input.peek_byte_right(position) != Some(byte)
}

/// The offset behind some bytes ahead of one, where they stand there. The offset may be any. They are looked at one by one, since
/// most that do not stand there differ in the first few.
#[inline(always)]
fn bytes_ahead<Input: InputIndexer>(input: &Input, offset: usize, bytes: &[u8]) -> Option<usize>
    requires kind { are_bytes (Input.view input.now).kind ≡ true }
    requires some { 0 < length bytes.now }
    ensures { result ≡ literal (input_of (Input.view input.now)) ahead bytes.now offset }
{
    let text = input.bytes()?;
    if offset > text.len() || text.len() - offset < bytes.len() {
        return None;
    }
    for k in 0..bytes.len() {
        if text[offset + k] != bytes[k] {
            return None;
        }
    }
    Some(offset + bytes.len())
}

/// The offset behind some bytes beside one, where they stand there. The offset may be any.
///
/// Asks that the text is one of bytes, and that there is a byte.
///
/// ```rust
/// let behind = bytes_beside(&input, true, 0, b"ab");
/// ```
#[inline]
pub fn bytes_beside<Input: InputIndexer>(
    input: &Input,
    forward: bool,
    offset: usize,
    bytes: &[u8],
) -> Option<usize>
    requires kind { are_bytes (Input.view input.now).kind ≡ true }
    requires some { 0 < length bytes.now }
    ensures { result ≡ literal (input_of (Input.view input.now)) (direction_of forward) bytes.now offset }
{
    if forward {
        return bytes_ahead(input, offset, bytes);
    }
    if offset > input.pos_to_offset(input.right_end()) {
        return None;
    }
    let mut position = <Input::Position as PositionType>::new(offset);
    if input.match_bytes(Backward::new(), &mut position, bytes) {
        Some(input.pos_to_offset(position))
    } else {
        None
    }
}

/// The offset behind a byte beside one, where that stands there. The offset may be any.
#[inline(always)]
pub(crate) fn one_byte<Input: InputIndexer>(
    input: &Input,
    forward: bool,
    offset: usize,
    byte: &[u8; 1],
) -> Option<usize>
    requires { are_bytes (Input.view input.now).kind ≡ true }
    ensures { result ≡ literal (input_of (Input.view input.now)) (direction_of forward) byte.now offset }
{
    if !forward {
        return bytes_beside(input, false, offset, byte);
    }
    let text = input.bytes()?;
    if offset < text.len() && text[offset] == byte[0] {
        Some(offset + 1)
    } else {
        None
    }
}

/// The offset behind the bytes of an instruction, where it has some and they stand beside an offset, which may be any.
#[inline(always)]
pub(crate) fn byte_seq<Input: InputIndexer>(
    program: &CompiledRegex,
    input: &Input,
    insn: &Insn,
    forward: bool,
    offset: usize,
) -> Option<usize>
    requires kind { are_bytes (Input.view input.now).kind ≡ not (program_of program.now).units }
    requires fits { Fits (program_of program.now) 0 (instruction insn.now) }
    ensures { (groups : List Marks) → reads_character (instruction insn.now) ≡ false
        → result ≡ advance (program_of program.now) (input_of (Input.view input.now)) (instruction insn.now) (direction_of forward) groups offset }
{
    let bytes = bytes_of(insn);
    if bytes.is_empty() {
        return None;
    }
    bytes_beside(input, forward, offset, bytes)
}
