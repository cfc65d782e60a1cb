//! The way along what is told to have an answer.
ghost use Rattle.std.specs.Prelude.{◌≡◌, ◌+◌, ◌*◌, ◌-◌, ◌^◌, ◌<◌, ◌≤◌, if◌then◌else◌, ℕ, suc, [], ◌∷◌, false, true, None, Some, IfOk, OnOk, get_or, length, map, replicate, slice_get, slice_set};
ghost use Rattle.regress_meaning.specs.Meaning.{Forward};
ghost use Rattle.regress_engine_code.specs.Standing.{program_of};
ghost use Rattle.regress_engine_input.specs.Views.{direction_of, input_of, reading_of};
ghost use Rattle.regress_engine_insn.specs.InsnViews.{instruction};
ghost use Rattle.regress_engine_insn.specs.Instructions.{Instruction, Stands};
ghost use Rattle.regress_engine_runs.specs.Meets.{IsAtPlace, reads_character};
ghost use Rattle.regress_engine_runs.specs.Runs.{fields_of, one_by_one, room};
ghost use Rattle.regress_engine_runs.specs.States.{begun, ended, first_state, unset};
ghost use Rattle.regress_engine_runs.specs.UndoStack.{ReadOn, outermost};
ghost use Rattle.regress_engine_search.specs.Answering.{IsAnswer};
ghost use Rattle.regress_engine_search.specs.Ready.{IsBody};
ghost use Rattle.regress_engine_search.specs.Search.{Suits};
ghost use Rattle.regress_engine_search.specs.StateViews.{marks_of};
ghost use Rattle.regress_engine_linear.specs.Answered.{exit_at, first_at, is_single, last_at};
ghost use Rattle.regress_engine_answers.specs.AnswerTables.{exits_by, told_by};
ghost use Rattle.regress_engine_answers.specs.Filled.{AreRight};
ghost use Rattle.regress_engine_linear.specs.Linear.{IsLinear, too_long};
ghost use Rattle.regress_engine_linear.specs.LinearViews.{flow_in, heights_in};
ghost use Rattle.regress_engine_answers.specs.Filling.{IsReadyIn};
ghost use Rattle.regress_engine_ways.specs.Ways.{again_at, either_of, first_of, led, marked, station_at, written_by};
ghost use Rattle.regress_engine_answers.specs.Filled.{AreExitsKnown};
ghost use Rattle.regress_engine_walks.specs.Searched.{StepsTo};
ghost use Rattle.regress_engine_walks.specs.Walked.{AreExitsTold};

use crate::walker::Walker;
use regress_engine_advance::{advance, after_times};
use regress_engine_answers::{Answering, Answers, station_at};
use regress_engine_insn::Insn;
use regress_engine_linear::LinearTable;
use regress_engine_search::ExecutorInput;
use regress_engine_ways::Station;
use regress_front_core::GroupData;
use std::alloc::AllocError;

/// An offset where it is told of, else what was found before.
fn latest(is_told: bool, offset: usize, found: Option<usize>) -> Option<usize>
    ensures { result ≡ (if is_told then Some offset else found) }
{
    if is_told { Some(offset) } else { found }
}

/// The marks of a group.
fn marks_at(groups: &[GroupData<usize>], group: usize) -> GroupData<usize>
    requires { group < length groups.now }
    ensures { marks_of result ≡ get_or (map marks_of groups.now) group unset }
{
    groups[group]
}

/// Writes the marks of a group.
fn write(groups: &mut Vec<GroupData<usize>>, group: usize, marks: GroupData<usize>)
    requires { group < length groups.old.items }
    ensures count { length groups.new.items ≡ length groups.old.items }
    ensures marks { map marks_of groups.new.items ≡ slice_set (map marks_of groups.old.items) group (marks_of marks) }
{
    groups[group] = marks;
}

/// Marks with where a group begins that is read forward, or backward.
fn begun(marks: GroupData<usize>, forward: bool, offset: usize) -> GroupData<usize>
    ensures { marks_of result ≡ begun (direction_of forward) offset (marks_of marks) }
{
    if forward {
        GroupData {
            start: Some(offset),
            ..marks
        }
    } else {
        GroupData {
            end: Some(offset),
            ..marks
        }
    }
}

/// Marks with where a group ends that is read forward, or backward.
fn ended(marks: GroupData<usize>, forward: bool, offset: usize) -> GroupData<usize>
    ensures { marks_of result ≡ ended (direction_of forward) offset (marks_of marks) }
{
    begun(marks, !forward, offset)
}

/// Writes that a group begins at an offset.
fn begin(groups: &mut Vec<GroupData<usize>>, group: usize, forward: bool, offset: usize)
    requires { group < length groups.old.items }
    ensures count { length groups.new.items ≡ length groups.old.items }
    ensures marks { map marks_of groups.new.items
        ≡ slice_set (map marks_of groups.old.items) group (begun (direction_of forward) offset (get_or (map marks_of groups.old.items) group unset)) }
{
    let marks = marks_at(groups, group);
    write(groups, group, begun(marks, forward, offset));
}

/// Writes that a group ends at an offset.
fn end(groups: &mut Vec<GroupData<usize>>, group: usize, forward: bool, offset: usize)
    requires { group < length groups.old.items }
    ensures count { length groups.new.items ≡ length groups.old.items }
    ensures marks { map marks_of groups.new.items
        ≡ slice_set (map marks_of groups.old.items) group (ended (direction_of forward) offset (get_or (map marks_of groups.old.items) group unset)) }
{
    let marks = marks_at(groups, group);
    write(groups, group, ended(marks, forward, offset));
}

/// Writes that a group has taken nothing.
fn forget(groups: &mut Vec<GroupData<usize>>, group: usize)
    requires { group < length groups.old.items }
    ensures count { length groups.new.items ≡ length groups.old.items }
    ensures marks { map marks_of groups.new.items ≡ slice_set (map marks_of groups.old.items) group unset }
{
    write(groups, group, GroupData::new());
}

/// Writes what an instruction says of groups at an offset, if it does. Asks that the group is there that it names.
fn mark(insn: &Insn, forward: bool, offset: usize, groups: &mut Vec<GroupData<usize>>)
    requires { (k : ℕ) → written_by (instruction insn.now) ≡ Some k → k < length groups.old.items }
    ensures count { length groups.new.items ≡ length groups.old.items }
    ensures marks { map marks_of groups.new.items ≡ marked (direction_of forward) (instruction insn.now) offset (map marks_of groups.old.items) }
{
    match insn {
        Insn::BeginCaptureGroup(group) => begin(groups, *group as usize, forward, offset),
        Insn::EndCaptureGroup(group) => end(groups, *group as usize, forward, offset),
        Insn::ResetCaptureGroup(group) => forget(groups, *group as usize),
        _ => {}
    }
}

/// As many groups, none of which has taken anything. It errs where memory is refused.
fn reset(groups: &mut Vec<GroupData<usize>>, count: usize) -> Result<(), AllocError>
    ensures count { OnOk result (length groups.new.items ≡ count) }
    ensures marks { OnOk result (map marks_of groups.new.items ≡ replicate count unset) }
{
    groups.clear();
    groups.resize(count, GroupData::new())?;
    Ok(())
}

/// The first offset at which the loop that ends at an address may be left and runs have an answer: behind no character, or one, or more,
/// at most so many.
fn near_exit<Input: ExecutorInput>(
    answering: &Answering<'_, Input>,
    answers: &Answers,
    body: &Insn,
    left: usize,
    forward: bool,
    at: usize,
    near: usize,
) -> Option<usize>
    requires suits { Suits (program_of answering.now.program.now) (Input.view answering.now.input) }
    requires groups { length answering.now.groups.now ≡ (program_of answering.now.program.now).groups }
    requires stands { Stands (program_of answering.now.program.now) (at - 1) (instruction body.now) }
    requires body { IsBody (program_of answering.now.program.now) (Input.view answering.now.input) at near }
    ensures { result ≡ first_at (told_by answers.now) at (one_by_one (program_of answering.now.program.now) (input_of (Input.view answering.now.input)) left
        (instruction body.now) (direction_of forward) (map marks_of answering.now.groups.now) near) }
{
    let mut behind = near;
    let mut rest = left;
    'places: loop {
        if answers.are_told(at, behind) {
            return Some(behind);
        }
        if rest == 0 {
            return None;
        }
        let Some(next) = advance(
            answering.program,
            &answering.input,
            body,
            forward,
            answering.groups,
            behind,
        ) else {
            return None;
        };
        behind = next;
        rest -= 1;
    }
}

/// The last of these offsets, of the loop that begins at another address. It looks no further than where it is told that none is left.
fn far_exit<Input: ExecutorInput>(
    answering: &Answering<'_, Input>,
    answers: &Answers,
    body: &Insn,
    left: usize,
    forward: bool,
    from: usize,
    at: usize,
    near: usize,
) -> Option<usize>
    requires suits { Suits (program_of answering.now.program.now) (Input.view answering.now.input) }
    requires groups { length answering.now.groups.now ≡ (program_of answering.now.program.now).groups }
    requires stands { Stands (program_of answering.now.program.now) (at - 1) (instruction body.now) }
    requires exits { AreExitsTold (program_of answering.now.program.now) (Input.view answering.now.input) (direction_of forward) (map marks_of answering.now.groups.now)
        answers.now (instruction body.now) from at }
    requires body { IsBody (program_of answering.now.program.now) (Input.view answering.now.input) at near }
    ensures { result ≡ last_at (told_by answers.now) at (one_by_one (program_of answering.now.program.now) (input_of (Input.view answering.now.input)) left
        (instruction body.now) (direction_of forward) (map marks_of answering.now.groups.now) near) None }
{
    let mut found: Option<usize> = None;
    let mut behind = near;
    let mut rest = left;
    'places: loop {
        let is_told = answers.are_told(at, behind);
        found = latest(is_told, behind, found);
        if rest == 0 {
            return found;
        }
        if !answers.are_exits_told(from, behind) {
            return found;
        }
        let Some(next) = advance(
            answering.program,
            &answering.input,
            body,
            forward,
            answering.groups,
            behind,
        ) else {
            return found;
        };
        behind = next;
        rest -= 1;
    }
}

/// The preferred offset at which a one-character loop may be left, from one address to another, where runs have an answer from there.
fn exit<Input: ExecutorInput>(
    answering: &Answering<'_, Input>,
    answers: &Answers,
    body: &Insn,
    least: usize,
    most: usize,
    greedy: bool,
    forward: bool,
    from: usize,
    at: usize,
    offset: usize,
) -> Option<usize>
    requires suits { Suits (program_of answering.now.program.now) (Input.view answering.now.input) }
    requires groups { length answering.now.groups.now ≡ (program_of answering.now.program.now).groups }
    requires stands { Stands (program_of answering.now.program.now) (at - 1) (instruction body.now) }
    requires body { IsBody (program_of answering.now.program.now) (Input.view answering.now.input) at offset }
    requires exits { AreExitsTold (program_of answering.now.program.now) (Input.view answering.now.input) (direction_of forward) (map marks_of answering.now.groups.now)
        answers.now (instruction body.now) from at }
    requires order { least ≤ most }
    ensures { result ≡ exit_at (told_by answers.now) (program_of answering.now.program.now) (input_of (Input.view answering.now.input)) (direction_of forward)
        (map marks_of answering.now.groups.now) least most greedy (instruction body.now) at offset }
{
    let Some(near) = after_times(
        answering.program,
        &answering.input,
        body,
        least,
        forward,
        answering.groups,
        offset,
    ) else {
        return None;
    };
    if greedy {
        far_exit(
            answering,
            answers,
            body,
            most - least,
            forward,
            from,
            at,
            near,
        )
    } else {
        near_exit(answering, answers, body, most - least, forward, at, near)
    }
}

/// Where the way goes on from an address and an offset, by the instruction that stands there.
fn led<Input: ExecutorInput>(
    answering: &Answering<'_, Input>,
    answers: &Answers,
    insn: &Insn,
    forward: bool,
    at: usize,
    offset: usize,
) -> Option<Station>
    requires suits { Suits (program_of answering.now.program.now) (Input.view answering.now.input) }
    requires groups { length answering.now.groups.now ≡ (program_of answering.now.program.now).groups }
    requires stands { Stands (program_of answering.now.program.now) at (instruction insn.now) }
    requires ready { IsReadyIn Input.view answering.now (instruction insn.now) offset }
    requires place { reads_character (instruction insn.now) ≡ true → IsAtPlace (reading_of (Input.view answering.now.input)) offset }
    requires room { at + 1 < 2 ^ 64 }
    requires exits { (i : Instruction) → is_single (instruction insn.now) ≡ true → Stands (program_of answering.now.program.now) (at + 1) i
        → AreExitsTold (program_of answering.now.program.now) (Input.view answering.now.input) (direction_of forward) (map marks_of answering.now.groups.now) answers.now i at (at + 2) }
    ensures { result ≡ led (told_by answers.now) (program_of answering.now.program.now) (input_of (Input.view answering.now.input)) (direction_of forward)
        (map marks_of answering.now.groups.now) (instruction insn.now) at offset }
{
    match insn {
        Insn::Loop1CharBody {
            min_iters,
            max_iters,
            greedy,
        } => {
            let body = answering.instruction(at + 1);
            let exit = exit(
                answering,
                answers,
                body,
                *min_iters,
                *max_iters,
                *greedy,
                forward,
                at,
                at + 2,
                offset,
            );
            station_at(at + 2, exit)
        }
        _ => answering.led_on(answers, insn, forward, at, offset),
    }
}

/// Follows the way from an offset to where the run from there has its answer: it answers the offset where that ends, and writes its groups.
/// It counts each instruction that is done: at most as many as there are addresses and offsets up to where it ends, and where it begins with
/// the text so many once more. It errs where memory is refused.
pub(crate) fn follow<Input: ExecutorInput>(
    answering: &Answering<'_, Input>,
    table: &LinearTable,
    answers: &Answers,
    start: usize,
    groups: &mut Vec<GroupData<usize>>,
    steps: &mut usize,
) -> Result<usize, AllocError>
    requires suits { Suits (program_of answering.now.program.now) (Input.view answering.now.input) }
    requires groups { length answering.now.groups.now ≡ (program_of answering.now.program.now).groups }
    requires linear { IsLinear (flow_in table.now) (heights_in table.now) (program_of answering.now.program.now) }
    requires short { suc (length (Input.view answering.now.input).units) < too_long }
    requires begins { 0 < length (program_of answering.now.program.now).instructions }
    requires right { AreRight (flow_in table.now) (heights_in table.now) (program_of answering.now.program.now) (Input.view answering.now.input) answers.now }
    requires exits { AreExitsKnown (flow_in table.now) (heights_in table.now) (program_of answering.now.program.now) (Input.view answering.now.input) answers.now }
    requires place { IsAtPlace (reading_of (Input.view answering.now.input)) start }
    requires reads { ReadOn (program_of answering.now.program.now) (input_of (Input.view answering.now.input)) (reading_of (Input.view answering.now.input)) Forward
        (first_state (program_of answering.now.program.now) start ∷ []) (outermost []) }
    requires told { told_by answers.now 0 start ≡ true }
    ensures answer { IfOk result (λ end. IsAnswer (program_of answering.now.program.now) (input_of (Input.view answering.now.input)) start (Some end)
        (map marks_of groups.new.items)) }
    ensures counted { IfOk result (λ end. StepsTo table.now (Input.view answering.now.input) steps.old steps.new (Some (start, end))) }
{
    reset(groups, answering.groups.len())?;
    let mut walker = Walker::new(*groups.allocator(), start);
    'way: loop {
        let here = walker.here;
        let insn = answering.instruction(here.at);
        *steps = steps.saturating_add(1);
        mark(insn, walker.forward, here.offset, groups);
        let next = led(
            answering,
            answers,
            insn,
            walker.forward,
            here.at,
            here.offset,
        );
        if !walker.goes(insn, next)? {
            return Ok(here.offset);
        }
    }
}
