//! Whether a program leads nowhere from an address on, told by a few of its instructions.
ghost use Rattle.std.specs.Prelude.{◌≡◌, ◌<◌, true, List, get_or, nat_eq, IfSome};
ghost use Rattle.regress_meaning.specs.Meaning.{Forward as ahead};
ghost use Rattle.regress_meaning.specs.Steps.{literal, passed};
ghost use Rattle.regress_engine_insn.specs.InsnViews.{instruction};
ghost use Rattle.regress_engine_code.specs.Standing.{program_of};
ghost use Rattle.regress_engine_input.specs.Views.{are_bytes, input_of, reading_of, CanRead};
ghost use Rattle.regress_engine_runs.specs.States.{Marks};
ghost use Rattle.regress_engine_runs.specs.Runs.{advance};
ghost use Rattle.regress_engine_runs.specs.Closed.{Fits};
ghost use Rattle.regress_engine_runs.specs.Meets.{IsAtPlace};
ghost use Rattle.regress_engine_search.specs.Search.{Suits};
ghost use Rattle.regress_engine_singles.specs.Failing.{IsDead};
ghost use Rattle.regress_engine_analysis.specs.Planned.{is_class};

use regress_engine_advance::{ascii_bracket, bracket, bytes_beside, holds_at, this_char};
use regress_engine_analysis::is_class;
use regress_engine_code::CompiledRegex;
use regress_engine_input::InputIndexer;
use regress_engine_insn::Insn;
use regress_engine_matchers::CharInput;
use regress_engine_singles::{ToldBracket, is_assertion};

/// So many instructions are looked at.
pub(crate) const LOOKED_AT: usize = 8;

/// The offset behind the character ahead of one, where a class matches that.
#[inline(always)]
pub(crate) fn class_ahead<Input: CharInput>(
    program: &CompiledRegex,
    input: &Input,
    insn: &Insn,
    offset: usize,
) -> Option<usize>
    requires class { is_class (instruction insn.now) ≡ true }
    requires fits { Fits (program_of program.now) 0 (instruction insn.now) }
    requires place { CanRead (Input.view input.now) offset }
    ensures { (groups : List Marks) → result ≡ advance (program_of program.now) (input_of (Input.view input.now)) (instruction insn.now) ahead groups offset }
{
    match insn {
        Insn::AsciiBracket(bitmap) => ascii_bracket(input, true, offset, bitmap),
        Insn::Bracket(index) => { bracket(input, true, offset, &ToldBracket::of(program, *index)) }
        _ => None,
    }
}

/// The offset behind a character of ASCII ahead of one, where that stands there.
#[inline]
fn byte_ahead<Input: CharInput>(input: &Input, offset: usize, byte: &[u8; 1]) -> Option<usize>
    requires kind { are_bytes (Input.view input.now).kind ≡ true }
    requires ascii { get_or byte.now 0 0 < 0x80 }
    requires place { IsAtPlace (reading_of (Input.view input.now)) offset }
    ensures stands { result ≡ literal (input_of (Input.view input.now)) ahead byte.now offset }
    ensures place { IfSome result (IsAtPlace (reading_of (Input.view input.now))) }
{
    bytes_beside(input, true, offset, byte)
}

/// The offset behind the character ahead of one, where that is the wanted one.
#[inline]
fn char_ahead<Input: InputIndexer>(input: &Input, offset: usize, wanted: u32) -> Option<usize>
    requires { IsAtPlace (reading_of (Input.view input.now)) offset }
    ensures stands { result ≡ passed (nat_eq wanted) ((input_of (Input.view input.now)).next ahead offset) }
    ensures place { IfSome result (IsAtPlace (reading_of (Input.view input.now))) }
{
    this_char(input, true, offset, wanted)
}

/// Whether surely no match can be reached from an address and an offset on, read forward: bytes or a character are taken there
/// that don't stand, or a class that does not match, or what is asked of the offset is not so; before these may come ends
/// and beginnings of groups, what is asked and is so, and characters that stand there, as bytes those of ASCII.
pub(crate) fn fails<Input: CharInput>(
    program: &CompiledRegex,
    input: &Input,
    left: usize,
    at: usize,
    offset: usize,
) -> bool
    requires suits { Suits (program_of program.now) (Input.view input.now) }
    requires place { IsAtPlace (reading_of (Input.view input.now)) offset }
    ensures { result ≡ true → IsDead (program_of program.now) (input_of (Input.view input.now)) ahead at offset }
{
    let insns = program.insns();
    if at >= insns.len() || left == 0 {
        return false;
    }
    let insn = &insns[at];
    if is_assertion(insn) {
        if !holds_at(input, insn, offset) {
            return true;
        }
        return fails(program, input, left - 1, at + 1, offset);
    }
    match insn {
        Insn::BeginCaptureGroup(_) => fails(program, input, left - 1, at + 1, offset),
        Insn::EndCaptureGroup(_) => fails(program, input, left - 1, at + 1, offset),
        Insn::ByteSeq1(bytes) => {
            if bytes[0] >= 0x80 {
                return false;
            }
            match byte_ahead(input, offset, bytes) {
                Some(behind) => fails(program, input, left - 1, at + 1, behind),
                None => true,
            }
        }
        Insn::Char(c) => match char_ahead(input, offset, *c) {
            Some(behind) => fails(program, input, left - 1, at + 1, behind),
            None => true,
        },
        _ => is_class(insn) && class_ahead(program, input, insn, offset).is_none(),
    }
}
