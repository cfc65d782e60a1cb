//! Characters of ASCII that a class does not take.
ghost use Rattle.std.specs.Prelude.{◌≡◌, true, slice_index, List, None, IfSome};
ghost use Rattle.regress_meaning.specs.Meaning.{Forward as ahead};
ghost use Rattle.regress_engine_input.specs.Views.{input_of};
ghost use Rattle.regress_engine_insn.specs.InsnViews.{instruction};
ghost use Rattle.regress_engine_code.specs.Standing.{program_of};
ghost use Rattle.regress_engine_runs.specs.States.{Marks};
ghost use Rattle.regress_engine_runs.specs.Runs.{advance};
ghost use Rattle.regress_engine_runs.specs.Closed.{Fits};
ghost use Rattle.regress_engine_singles.specs.Passing.{IsAsciiAhead};

use crate::class::ToldBracket;
use regress_engine_code::CompiledRegex;
use regress_engine_input::InputIndexer;
use regress_engine_insn::Insn;
use regress_front_bytes::{ByteSet, ascii_bitmap_holds_ascii, charset_contains};

/// The character of ASCII ahead of an offset, where one stands there. The offset may be any.
#[inline(always)]
pub(crate) fn ascii_byte<Input: InputIndexer>(input: &Input, offset: usize) -> Option<u8>
    ensures { IfSome result (λ b. IsAsciiAhead (Input.view input.now) offset × (slice_index (Input.view input.now).units offset ≡ b)) }
{
    if let Some(text) = input.bytes() {
        if offset >= text.len() || text[offset] >= 0x80 {
            return None;
        }
        return Some(text[offset]);
    }
    let units = input.units()?;
    if offset >= units.len() || units[offset] >= 0x80 {
        return None;
    }
    Some(units[offset] as u8)
}

/// Whether an instruction that takes one character surely does not take the one ahead of an offset: that is one of ASCII, and another.
///
/// Asks that the instruction fits the program. The offset may be any.
///
/// ```rust
/// let stopped = is_stopped(&program, &input, &Insn::Bracket(0), 0);
/// ```
#[inline(always)]
pub fn is_stopped<Input: InputIndexer>(
    program: &CompiledRegex,
    input: &Input,
    insn: &Insn,
    offset: usize,
) -> bool
    requires { Fits (program_of program.now) 0 (instruction insn.now) }
    ensures { result ≡ true → (groups : List Marks)
        → None ≡ advance (program_of program.now) (input_of (Input.view input.now)) (instruction insn.now) ahead groups offset }
{
    let Some(byte) = ascii_byte(input, offset) else {
        return false;
    };
    match insn {
        Insn::AsciiBracket(bitmap) => {
            ascii_bitmap_holds_ascii(bitmap);
            !bitmap.contains(byte)
        }
        Insn::Bracket(index) => {
            let class = ToldBracket::of(program, *index);
            !class.ascii.contains(byte)
        }
        Insn::ByteSet2(set) => !set.contains(byte),
        Insn::CharSet(set) => !charset_contains(set, u32::from(byte)),
        Insn::Char(c) => *c != u32::from(byte),
        Insn::ByteSeq1(first) => first[0] != byte,
        _ => false,
    }
}
