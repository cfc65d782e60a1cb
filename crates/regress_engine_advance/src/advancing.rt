//! The offset to which an instruction leads that changes nothing but the offset.
ghost use Rattle.std.specs.Prelude.{◌≡◌, map};
ghost use Rattle.regress_engine_code.specs.Standing.{program_of};
ghost use Rattle.regress_engine_insn.specs.InsnViews.{instruction};
ghost use Rattle.regress_engine_input.specs.Views.{direction_of, input_of};
ghost use Rattle.regress_engine_runs.specs.Runs.{advance};
ghost use Rattle.regress_engine_search.specs.Search.{Suits};
ghost use Rattle.regress_engine_search.specs.StateViews.{marks_of};
ghost use Rattle.regress_engine_search.specs.Ready.{IsReady};

use crate::characters::{any, ascii_member, bracket, byte_set, char_set, in_line, this_char};
use crate::edges::{boundary, line_edge};
use crate::literals::{byte_seq, one_byte};
use crate::references::back_reference;
use regress_engine_code::CompiledRegex;
use regress_engine_insn::Insn;
use regress_engine_matchers::CharInput;
use regress_engine_singles::ToldBracket;
use regress_front_core::GroupData;

/// The offset to which an instruction leads, forward or backward, that changes nothing but the offset, where it leads to any.
///
/// Asks that the program suits the text, and that the instruction may be asked at the offset: it fits the program, there are
/// as many groups as the program has, and what it reads is at places.
///
/// ```rust
/// let behind = advance(&program, &input, &Insn::MatchAny, true, &groups, 0);
/// ```
#[inline(always)]
pub fn advance<Input: CharInput>(
    program: &CompiledRegex,
    input: &Input,
    insn: &Insn,
    forward: bool,
    groups: &[GroupData<usize>],
    offset: usize,
) -> Option<usize>
    requires suits { Suits (program_of program.now) (Input.view input.now) }
    requires ready { IsReady (program_of program.now) (Input.view input.now) (instruction insn.now) (map marks_of groups.now) offset }
    ensures { result ≡ advance (program_of program.now) (input_of (Input.view input.now)) (instruction insn.now) (direction_of forward)
        (map marks_of groups.now) offset }
{
    match insn {
        Insn::Char(c) => this_char(input, forward, offset, *c),
        Insn::CharSet(set) => char_set(input, forward, offset, set),
        Insn::ByteSet2(set) => byte_set(input, forward, offset, &set.0),
        Insn::ByteSet3(set) => byte_set(input, forward, offset, &set.0),
        Insn::ByteSet4(set) => byte_set(input, forward, offset, &set.0),
        Insn::AsciiBracket(bitmap) => ascii_member(input, forward, offset, bitmap),
        Insn::Bracket(index) => {
            bracket(input, forward, offset, &ToldBracket::of(program, *index))
        }
        Insn::MatchAny => any(input, forward, offset),
        Insn::MatchAnyExceptLineTerminator => in_line(input, forward, offset),
        Insn::StartOfLine { multiline } => {
            line_edge(input, false, *multiline, offset).then_some(offset)
        }
        Insn::EndOfLine { multiline } => {
            line_edge(input, true, *multiline, offset).then_some(offset)
        }
        Insn::WordBoundary { invert } => {
            (boundary(input, false, offset) != *invert).then_some(offset)
        }
        Insn::WordBoundaryUnicodeICase { invert } => {
            (boundary(input, true, offset) != *invert).then_some(offset)
        }
        Insn::BackRef { group, icase } => {
            back_reference(input, forward, *icase, &groups[*group as usize], offset)
        }
        Insn::Loop1CharBody { .. } => None,
        Insn::ByteSeq1(byte) => one_byte(input, forward, offset, byte),
        _ => byte_seq(program, input, insn, forward, offset),
    }
}
