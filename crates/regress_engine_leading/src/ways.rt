//! Programs that take one character, each in a way of its own, and then have a loop of a class.
ghost use Rattle.std.specs.Prelude.{◌≡◌, ◌+◌, ◌^◌, ◌<◌, ℕ, true, IfSome};
ghost use Rattle.regress_meaning.specs.Meaning.{Forward as ahead};
ghost use Rattle.regress_engine_insn.specs.Instructions.{Instruction, jump};
ghost use Rattle.regress_engine_insn.specs.InsnViews.{instruction};
ghost use Rattle.regress_engine_code.specs.Standing.{program_of};
ghost use Rattle.regress_engine_input.specs.Views.{View, CanRead, input_of, reading_of};
ghost use Rattle.regress_engine_runs.specs.Closed.{Fits};
ghost use Rattle.regress_engine_runs.specs.Meets.{IsAtPlace};
ghost use Rattle.regress_engine_analysis.specs.Planned.{is_class};
ghost use Rattle.regress_engine_search.specs.Search.{Suits};
ghost use Rattle.regress_engine_singles.specs.Failing.{IsDead};
ghost use Rattle.regress_engine_singles.specs.Passed.{PassesOver};
ghost use Rattle.regress_engine_leading.specs.Exits.{ComesTo, Ends, IsDeadEnd, IsLoop, Stops, TakesFirst};

use crate::failing::class_ahead;
use regress_engine_advance::{beside, is_dead_ahead, lead_ahead, units_ahead};
use regress_engine_analysis::is_class;
use regress_engine_code::CompiledRegex;
use regress_engine_insn::Insn;
use regress_engine_matchers::CharInput;
use regress_engine_singles::{as_far_ahead, takes_one};

/// Whether an instruction is a jump to an address.
#[inline]
fn jumps_to(insn: &Insn, to: usize) -> bool
    ensures { result ≡ true → instruction insn.now ≡ jump to }
{
    match insn {
        Insn::Jump { target } => *target as usize == to,
        _ => false,
    }
}

/// The address that all ways come to which the program begins with, where each takes one character before; else `None`.
#[inline]
fn behind_ways(program: &CompiledRegex) -> Option<usize>
    ensures { (v : View) → IfSome result (TakesFirst (program_of program.now) v 0) }
{
    let insns = program.insns();
    if insns.len() < 3 {
        return None;
    }
    let Insn::Jump { target } = &insns[2] else {
        return None;
    };
    let together = *target as usize;
    let mut at = 0;
    'ways: while at < insns.len() {
        let Insn::Alt { secondary } = &insns[at] else {
            break;
        };
        let second = *secondary as usize;
        let last = at + 2;
        if second <= at || last >= insns.len() {
            return None;
        }
        if !takes_one(&insns[at + 1]) || !jumps_to(&insns[last], together) {
            return None;
        }
        at = second;
    }
    if at >= insns.len() {
        return None;
    }
    let next = at + 1;
    if next != together || !takes_one(&insns[at]) {
        return None;
    }
    Some(together)
}

/// Whether surely no match can be reached from an exit, by the byte ahead. It is compiled into its caller, since there are many.
#[inline(always)]
fn exit_fails<Input: CharInput>(
    program: &CompiledRegex,
    input: &Input,
    at: usize,
    offset: usize,
) -> bool
    requires { Suits (program_of program.now) (Input.view input.now) }
    ensures { result ≡ true → IsDead (program_of program.now) (input_of (Input.view input.now)) ahead at offset }
{
    match lead_ahead(input, offset) {
        Some(byte) => is_dead_ahead(program, at, byte),
        None => false,
    }
}

/// Whether from none of the exits of a loop of a class, from one offset to where it stops, a match can be reached, by the bytes there.
#[inline(always)]
fn exits_fail<Input: CharInput>(
    program: &CompiledRegex,
    input: &Input,
    at: usize,
    near: usize,
    far: usize,
) -> bool
    requires suits { Suits (program_of program.now) (Input.view input.now) }
    requires place { IsAtPlace (reading_of (Input.view input.now)) near }
    requires room { at + 2 < 2 ^ 64 }
    ensures { result ≡ true → (most : ℕ) (j : Instruction) → IsLoop (program_of program.now) at most j → Stops (program_of program.now) (Input.view input.now) j far
        → ComesTo (program_of program.now) (Input.view input.now) j most near far → Ends (program_of program.now) (Input.view input.now) at j far most near }
{
    let mut offset = near;
    'exits: loop {
        if !exit_fails(program, input, at + 2, offset) {
            return false;
        }
        if offset == far {
            return true;
        }
        let Some((_, behind)) = beside(input, true, offset) else {
            return false;
        };
        offset = behind;
    }
}

/// Whether a class surely takes nothing where it comes to in at most so many characters: there are not so many, or it is asked.
#[inline(always)]
fn stops<Input: CharInput>(
    program: &CompiledRegex,
    input: &Input,
    class: &Insn,
    most: usize,
    near: usize,
    far: usize,
) -> bool
    requires class { is_class (instruction class.now) ≡ true }
    requires fits { Fits (program_of program.now) 0 (instruction class.now) }
    requires near { CanRead (Input.view input.now) near }
    requires far { CanRead (Input.view input.now) far }
    ensures { result ≡ true → ComesTo (program_of program.now) (Input.view input.now) (instruction class.now) most near far
        → Stops (program_of program.now) (Input.view input.now) (instruction class.now) far }
{
    let left = units_ahead(input, true, near);
    if most > left {
        return true;
    }
    class_ahead(program, input, class, far).is_none()
}

/// Where a greedy loop of a class at an address stops, from an offset on, where no match can be reached from any of its exits.
#[inline(always)]
fn dead_end<Input: CharInput>(
    program: &CompiledRegex,
    input: &Input,
    at: usize,
    near: usize,
) -> Option<usize>
    requires suits { Suits (program_of program.now) (Input.view input.now) }
    requires place { IsAtPlace (reading_of (Input.view input.now)) near }
    ensures { IfSome result (IsDeadEnd (program_of program.now) (Input.view input.now) at near) }
{
    let insns = program.insns();
    if at >= insns.len() {
        return None;
    }
    if at + 1 >= insns.len() {
        return None;
    }
    let Insn::Loop1CharBody {
        min_iters,
        max_iters,
        greedy,
    } = &insns[at]
    else {
        return None;
    };
    let class = &insns[at + 1];
    if *min_iters > 0 || !*greedy || !is_class(class) {
        return None;
    }
    let far = as_far_ahead(program, input, class, *max_iters, near)?;
    if !exits_fail(program, input, at, near, far) {
        return None;
    }
    if !stops(program, input, class, *max_iters, near, far) {
        return None;
    }
    Some(far)
}

/// How far no run has an answer, where the program takes one character in one of some ways and then has a greedy loop of a class: up to
/// where that stops, where no match can be reached from any of its exits.
#[inline(never)]
pub(crate) fn passed_ways<Input: CharInput>(
    program: &CompiledRegex,
    input: &Input,
    start: usize,
) -> Option<usize>
    requires suits { Suits (program_of program.now) (Input.view input.now) }
    requires place { IsAtPlace (reading_of (Input.view input.now)) start }
    ensures { IfSome result (PassesOver (program_of program.now) (Input.view input.now) start) }
{
    let at = behind_ways(program)?;
    let (_, near) = beside(input, true, start)?;
    dead_end(program, input, at, near)
}
