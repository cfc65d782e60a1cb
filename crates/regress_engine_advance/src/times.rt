//! An instruction that takes one character, again and again.
ghost use Rattle.std.specs.Prelude.{◌≡◌, ◌-◌, ◌<◌, ℕ, IfSome, map, length};
ghost use Rattle.regress_engine_insn.specs.Instructions.{Stands};
ghost use Rattle.regress_engine_insn.specs.InsnViews.{instruction};
ghost use Rattle.regress_engine_code.specs.Standing.{program_of};
ghost use Rattle.regress_engine_input.specs.Views.{direction_of, input_of, reading_of};
ghost use Rattle.regress_engine_runs.specs.Runs.{after_times, as_far};
ghost use Rattle.regress_engine_runs.specs.Meets.{IsAtPlace};
ghost use Rattle.regress_engine_search.specs.StateViews.{marks_of};
ghost use Rattle.regress_engine_search.specs.Ready.{IsBody};
ghost use Rattle.regress_engine_search.specs.Search.{Suits};

use crate::advancing::advance;
use regress_engine_code::CompiledRegex;
use regress_engine_insn::Insn;
use regress_engine_matchers::CharInput;
use regress_engine_singles::as_far_ahead;
use regress_front_core::GroupData;

/// The offset behind so many iterations of an instruction that takes one character, where there are so many.
///
/// Asks that the program suits the text, that the instruction is what a loop there repeats, and that there are as many groups
/// as the program has.
///
/// ```rust
/// let behind = after_times(&program, &input, &Insn::MatchAny, 2, true, &groups, 0);
/// ```
#[inline(always)]
pub fn after_times<Input: CharInput>(
    program: &CompiledRegex,
    input: &Input,
    insn: &Insn,
    times: usize,
    forward: bool,
    groups: &[GroupData<usize>],
    offset: usize,
) -> Option<usize>
    requires suits { Suits (program_of program.now) (Input.view input.now) }
    requires body { (at : ℕ) × Stands (program_of program.now) (at - 1) (instruction insn.now)
        × IsBody (program_of program.now) (Input.view input.now) at offset }
    requires groups { length groups.now ≡ program.now.groups }
    ensures behind { result ≡ after_times (program_of program.now) (input_of (Input.view input.now)) times
        (instruction insn.now) (direction_of forward) (map marks_of groups.now) offset }
    ensures place { IfSome result (IsAtPlace (reading_of (Input.view input.now))) }
{
    let mut behind = offset;
    let mut left = times;
    while left > 0 {
        let Some(next) = advance(program, input, insn, forward, groups, behind) else {
            return None;
        };
        behind = next;
        left -= 1;
    }
    Some(behind)
}

/// The offset behind as many iterations of an instruction that takes one character as there are, at most so many.
///
/// Asks the same as `after_times`.
///
/// ```rust
/// let behind = as_far(&program, &input, &Insn::MatchAny, usize::MAX, true, &groups, 0);
/// ```
#[inline(always)]
pub fn as_far<Input: CharInput>(
    program: &CompiledRegex,
    input: &Input,
    insn: &Insn,
    times: usize,
    forward: bool,
    groups: &[GroupData<usize>],
    offset: usize,
) -> usize
    requires suits { Suits (program_of program.now) (Input.view input.now) }
    requires body { (at : ℕ) × Stands (program_of program.now) (at - 1) (instruction insn.now)
        × IsBody (program_of program.now) (Input.view input.now) at offset }
    requires groups { length groups.now ≡ program.now.groups }
    ensures far { result ≡ as_far (program_of program.now) (input_of (Input.view input.now)) times
        (instruction insn.now) (direction_of forward) (map marks_of groups.now) offset }
    ensures place { IsAtPlace (reading_of (Input.view input.now)) result }
{
    if forward {
        if let Some(far) = as_far_ahead(program, input, insn, times, offset) {
            return far;
        }
    }
    as_far_slowly(program, input, insn, times, forward, groups, offset)
}

/// The same for any instruction and direction, one by one. It is apart, so that no loop of a class makes room for it.
#[inline(never)]
fn as_far_slowly<Input: CharInput>(
    program: &CompiledRegex,
    input: &Input,
    insn: &Insn,
    times: usize,
    forward: bool,
    groups: &[GroupData<usize>],
    offset: usize,
) -> usize
    requires suits { Suits (program_of program.now) (Input.view input.now) }
    requires body { (at : ℕ) × Stands (program_of program.now) (at - 1) (instruction insn.now)
        × IsBody (program_of program.now) (Input.view input.now) at offset }
    requires groups { length groups.now ≡ program.now.groups }
    ensures far { result ≡ as_far (program_of program.now) (input_of (Input.view input.now)) times
        (instruction insn.now) (direction_of forward) (map marks_of groups.now) offset }
    ensures place { IsAtPlace (reading_of (Input.view input.now)) result }
{
    let mut behind = offset;
    let mut left = times;
    while left > 0 {
        let Some(next) = advance(program, input, insn, forward, groups, behind) else {
            break;
        };
        behind = next;
        left -= 1;
    }
    behind
}
