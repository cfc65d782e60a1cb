//! Programs that begin with a word and then refer to it: `\b(\w+)\s+\1`.
ghost use Rattle.std.specs.Prelude.{◌≡◌, ◌<◌, ℕ, true, false, length, List, IfSome};
ghost use Rattle.regress_meaning.specs.Steps.{at_boundary};
ghost use Rattle.regress_engine_insn.specs.Instructions.{Stands, begin_group, boundary, end_group, single_loop};
ghost use Rattle.regress_engine_insn.specs.InsnViews.{instruction};
ghost use Rattle.regress_engine_code.specs.Standing.{program_of};
ghost use Rattle.regress_engine_input.specs.Views.{input_of, reading_of};
ghost use Rattle.regress_engine_runs.specs.States.{Marks};
ghost use Rattle.regress_engine_runs.specs.Meets.{IsAtPlace};
ghost use Rattle.regress_engine_runs.specs.Closed.{Fits};
ghost use Rattle.regress_engine_search.specs.Search.{Suits};
ghost use Rattle.regress_engine_analysis.specs.Planned.{is_class};
ghost use Rattle.regress_engine_singles.specs.Passed.{PassesOver};
ghost use Rattle.regress_engine_leading.specs.Repeating.{AllDiffer, IsRepeating};

use crate::failing::class_ahead;
use regress_engine_advance::differ_ahead;
use regress_engine_analysis::is_class;
use regress_engine_code::CompiledRegex;
use regress_engine_insn::Insn;
use regress_engine_matchers::CharInput;
use regress_engine_singles::{as_far_ahead, is_possessive};

/// How long a word may be behind its first character, and what stands between it and the reference behind the first character of that.
#[derive(Debug, Clone, Copy)]
struct Lengths {
    word: usize,
    between: usize,
}

/// Whether an instruction begins a group.
#[inline(always)]
fn begins(insn: &Insn, group: u32) -> bool
    ensures { result ≡ true → instruction insn.now ≡ begin_group group }
{
    match insn {
        Insn::BeginCaptureGroup(id) => u32::from(*id) == group,
        _ => false,
    }
}

/// Whether an instruction ends a group.
#[inline(always)]
fn ends(insn: &Insn, group: u32) -> bool
    ensures { result ≡ true → instruction insn.now ≡ end_group group }
{
    match insn {
        Insn::EndCaptureGroup(id) => u32::from(*id) == group,
        _ => false,
    }
}

/// How often a greedy one-character loop may be gone through that need not be at all; of other instructions `None`.
#[inline(always)]
fn times_of(insn: &Insn) -> Option<usize>
    ensures { IfSome result (λ most. instruction insn.now ≡ single_loop 0 most true) }
{
    match insn {
        Insn::Loop1CharBody {
            min_iters: 0,
            max_iters,
            greedy: true,
        } => Some(*max_iters),
        _ => None,
    }
}

/// What a program asks for behind its first instruction, where that is a word, something between, and the word once more.
#[inline(always)]
fn repeated(program: &CompiledRegex) -> Option<Lengths>
    ensures size { IfSome result (λ r. 9 < length program.now.insns.items) }
    ensures asked { IfSome result (λ r. (k : ℕ) × IsRepeating (program_of program.now) k r.word r.between) }
{
    let insns = program.insns();
    if insns.len() < 10 {
        return None;
    }
    let Insn::BackRef { group, icase } = &insns[9] else {
        return None;
    };
    if *icase || !begins(&insns[1], *group) || !ends(&insns[5], *group) {
        return None;
    }
    let word = times_of(&insns[3])?;
    let between = times_of(&insns[7])?;
    if !is_class(&insns[2])
        || !is_class(&insns[4])
        || !is_class(&insns[6])
        || !is_class(&insns[8])
    {
        return None;
    }
    Some(Lengths { word, between })
}

/// Whether other units than ahead of an offset stand ahead of each exit of a loop of a class from another one on.
#[inline(always)]
fn exits_differ<Input: CharInput>(
    program: &CompiledRegex,
    input: &Input,
    class: &Insn,
    most: usize,
    near: usize,
    start: usize,
) -> bool
    requires suits { Suits (program_of program.now) (Input.view input.now) }
    requires class { is_class (instruction class.now) ≡ true }
    requires fits { Fits (program_of program.now) 0 (instruction class.now) }
    requires place { IsAtPlace (reading_of (Input.view input.now)) near }
    ensures { result ≡ true → (groups : List Marks) → AllDiffer (program_of program.now) (Input.view input.now) (instruction class.now) start most groups near }
{
    let mut exit = near;
    let mut left = most;
    'exits: loop {
        if !differ_ahead(input, start, exit) {
            return false;
        }
        if left == 0 {
            return true;
        }
        match class_ahead(program, input, class, exit) {
            Some(behind) => exit = behind,
            None => return true,
        }
        left -= 1;
    }
}

/// The offset behind the first character of a word, where the program asks for a word that begins there, and then for the same
/// again, and what stands behind the word begins otherwise: no run from the start has an answer.
#[inline(never)]
pub(crate) fn passed_repeated<Input: CharInput>(
    program: &CompiledRegex,
    input: &Input,
    start: usize,
) -> Option<usize>
    requires suits { Suits (program_of program.now) (Input.view input.now) }
    requires place { IsAtPlace (reading_of (Input.view input.now)) start }
    requires first { Stands (program_of program.now) 0 (boundary false false) }
    requires edge { at_boundary (input_of (Input.view input.now)) false start ≡ true }
    ensures { IfSome result (PassesOver (program_of program.now) (Input.view input.now) start) }
{
    let asked = repeated(program)?;
    if !is_possessive(program, 3) {
        return None;
    }
    let insns = program.insns();
    let near = class_ahead(program, input, &insns[2], start)?;
    let far = as_far_ahead(program, input, &insns[4], asked.word, near)?;
    match class_ahead(program, input, &insns[6], far) {
        None => Some(near),
        Some(behind) => {
            if !exits_differ(program, input, &insns[8], asked.between, behind, start) {
                return None;
            }
            Some(near)
        }
    }
}
