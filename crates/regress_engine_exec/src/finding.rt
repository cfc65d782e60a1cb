//! The first place of a text from which a run has an answer.
ghost use Rattle.std.specs.Prelude.{◌≡◌, Some, IfOk};
ghost use Rattle.regress_engine_code.specs.Standing.{program_of};
ghost use Rattle.regress_engine_input.specs.Views.{reading_of};
ghost use Rattle.regress_engine_runs.specs.Meets.{IsAtPlace};
ghost use Rattle.regress_engine_search.specs.Contexts.{IsAnswerIn, IsFoundIn};
ghost use Rattle.regress_engine_search.specs.Ending.{IfEnded, IfStopped};
ghost use Rattle.regress_engine_search.specs.Skipping.{IsNextStart};
ghost use Rattle.regress_engine_leading.specs.Known.{IsKnown};
ghost use Rattle.regress_engine_attempt.specs.Attempts.{Remembers, searched};
ghost use Rattle.regress_engine_exec.specs.Counting.{CountsRunIn, CountsSearchIn};
ghost use Rattle.regress_engine_exec.specs.Searches.{groups_of};

use crate::scratch::Scratch;
use regress_engine_advance::beside;
use regress_engine_attempt::{Attempt, Remembered};
use regress_engine_leading::{Beginning, known_at};
use regress_engine_search::{Budget, Ended, ExecutorInput, SearchContext};
use regress_engine_walks::next_place;
use std::alloc::AllocError;

/// The place from which a search goes on from an offset. Once failures are kept runs may end at once, so that nothing is passed any
/// more that runs from there would pass too.
#[inline(always)]
fn start_from<Input: ExecutorInput>(
    context: &SearchContext<'_, Input>,
    remembered: &Remembered,
    offset: usize,
) -> Option<usize>
    requires place { IsAtPlace (reading_of (Input.view context.now.input)) offset }
    ensures start { IsNextStart (program_of context.now.program.now) (Input.view context.now.input) offset result }
{
    if remembered.has_begun() {
        next_place(context, offset)
    } else {
        context.next_start(offset)
    }
}

/// What is known of a place before a run begins there. Once failures are kept nothing is looked for.
#[inline(always)]
fn known_of<Input: ExecutorInput>(
    context: &SearchContext<'_, Input>,
    remembered: &Remembered,
    start: usize,
) -> Beginning
    requires place { IsAtPlace (reading_of (Input.view context.now.input)) start }
    ensures known { IsKnown (program_of context.now.program.now) (Input.view context.now.input) start result }
{
    if remembered.has_begun() {
        Beginning::At(0)
    } else {
        known_at(context.program, &context.input, start)
    }
}

/// Searches from an offset on, where the text goes on as the program's start predicate says. It answers the offset from which the
/// first run has an answer, and where that ends; the scratch has the answer's groups. Or it answers that no more steps may be counted.
#[inline(always)]
pub(crate) fn first_from<Input: ExecutorInput, B: Budget>(
    context: &SearchContext<'_, Input>,
    scratch: &mut Scratch,
    remembered: &mut Remembered,
    budget: &mut B,
    offset: usize,
) -> Result<Ended<(usize, usize)>, AllocError>
    requires place { IsAtPlace (reading_of (Input.view context.now.input)) offset }
    requires so { Remembers (searched Input.view context.now) remembered.old }
    ensures found { IfOk result (λ ended. IfEnded ended (λ found. IsFoundIn Input.view context.now offset found (groups_of scratch.new))) }
    ensures counted { IfOk result (λ ended. CountsSearchIn Input.view context.now offset (B.left budget.old) (B.left budget.new)) }
    ensures stopped { IfOk result (λ ended. IfStopped ended (B.left budget.new ≡ Some 0)) }
    ensures so { Remembers (searched Input.view context.now) remembered.new }
{
    let mut from = offset;
    'places: loop {
        let Some(start) = start_from(context, remembered, from) else {
            return Ok(Ended::With(None));
        };
        let first = match known_of(context, remembered, start) {
            Beginning::Passed(past) => {
                from = past;
                continue;
            }
            Beginning::At(first) => first,
        };
        let attempt = Attempt {
            program: context.program,
            input: context.input,
            start,
        };
        let Ended::With(found) = attempt.run_within(
            first,
            &mut scratch.memory,
            &mut scratch.answer,
            remembered,
            budget,
        )?
        else {
            return Ok(Ended::TooManySteps);
        };
        if let Some(end) = found {
            return Ok(Ended::With(Some((start, end))));
        }
        let Some((_, behind)) = beside(&context.input, true, start) else {
            return Ok(Ended::With(None));
        };
        from = behind;
    }
}

/// Runs the program from an offset. It answers where the run's answer ends, whose groups the scratch has; or that no more steps may
/// be counted.
pub(crate) fn run_from<Input: ExecutorInput, B: Budget>(
    context: &SearchContext<'_, Input>,
    scratch: &mut Scratch,
    remembered: &mut Remembered,
    budget: &mut B,
    offset: usize,
) -> Result<Ended<usize>, AllocError>
    requires place { IsAtPlace (reading_of (Input.view context.now.input)) offset }
    requires so { Remembers (searched Input.view context.now) remembered.old }
    ensures answer { IfOk result (λ ended. IfEnded ended (λ end. IsAnswerIn Input.view context.now offset end (groups_of scratch.new))) }
    ensures counted { IfOk result (λ ended. CountsRunIn Input.view context.now offset (B.left budget.old) (B.left budget.new)) }
    ensures stopped { IfOk result (λ ended. IfStopped ended (B.left budget.new ≡ Some 0)) }
    ensures so { Remembers (searched Input.view context.now) remembered.new }
{
    let attempt = Attempt {
        program: context.program,
        input: context.input,
        start: offset,
    };
    attempt.run_within(
        0,
        &mut scratch.memory,
        &mut scratch.answer,
        remembered,
        budget,
    )
}
