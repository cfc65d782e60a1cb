//! Where runs end inside of atomic groups.
ghost use Rattle.std.specs.Prelude.{◌≡◌, ◌+◌, ◌-◌, ◌^◌, ◌<◌, ◌≤◌, ◌==◌, ◌&&◌, ℕ, [], None, OnOk, true, false, if◌then◌else◌, length, map};
ghost use Rattle.regress_engine_code.specs.Standing.{program_of};
ghost use Rattle.regress_engine_input.specs.Views.{direction_of, input_of, reading_of};
ghost use Rattle.regress_engine_insn.specs.InsnViews.{instruction};
ghost use Rattle.regress_engine_insn.specs.Instructions.{Instruction, Stands};
ghost use Rattle.regress_engine_runs.specs.Meets.{IsAtPlace, reads_character, referred};
ghost use Rattle.regress_engine_runs.specs.Runs.{after_times, one_by_one};
ghost use Rattle.regress_engine_search.specs.Search.{Suits};
ghost use Rattle.regress_engine_search.specs.StateViews.{marks_of};
ghost use Rattle.regress_engine_linear.specs.Answered.{is_single, IsRepeated};
ghost use Rattle.regress_engine_answers.specs.AnswerTables.{ends_by, exit_ends_by, told_by};
ghost use Rattle.regress_engine_answers.specs.Ended.{IsEndKept, single_beyond, single_end};
ghost use Rattle.regress_engine_answers.specs.Filling.{IsReadyIn};
ghost use Rattle.regress_engine_ways.specs.Ways.{end_at, end_beyond, end_near, preferred, preferred_of};

use crate::answers::{Answering, Answers};
use regress_engine_insn::Insn;
use regress_engine_search::ExecutorInput;
use std::alloc::AllocError;

/// Of where runs end from an exit of a one-character loop, and from those behind it, the preferred one.
fn preferred(greedy: bool, here: Option<usize>, beyond: Option<usize>) -> Option<usize>
    ensures { result ≡ preferred greedy here beyond }
{
    if greedy {
        beyond.or(here)
    } else {
        here.or(beyond)
    }
}

impl Answers {
    /// Where runs end from the exits of a one-character loop behind at least one more character; `next` is the offset behind one.
    fn end_beyond(&self, at: usize, greedy: bool, next: Option<usize>) -> Option<usize>
        requires { at + 2 < 2 ^ 64 }
        ensures { result ≡ end_beyond (ends_by self.now (at + 2)) (exit_ends_by self.now at) greedy next }
    {
        let offset = next?;
        preferred(
            greedy,
            self.end(at + 2, offset),
            self.exit_ends.kept(at, offset),
        )
    }

    /// Where runs end from the exits of a one-character loop from the offset `near` on. Of `offset` it is not kept yet where they end behind at
    /// least one more character: `beyond` says it.
    fn end_from(
        &self,
        at: usize,
        greedy: bool,
        near: usize,
        offset: usize,
        beyond: Option<usize>,
    ) -> Option<usize>
        requires { at + 2 < 2 ^ 64 }
        ensures { result ≡ preferred greedy (ends_by self.now (at + 2) near) (if near == offset then beyond else exit_ends_by self.now at near) }
    {
        let behind = if near == offset {
            beyond
        } else {
            self.exit_ends.kept(at, near)
        };
        preferred(greedy, self.end(at + 2, near), behind)
    }
}

impl<'a, Input: ExecutorInput> Answering<'a, Input> {
    /// Where runs from an address and an offset end that have an answer, by where those end to which the instruction leads. It is no
    /// one-character loop.
    fn end_at(
        &self,
        answers: &Answers,
        insn: &Insn,
        forward: bool,
        at: usize,
        offset: usize,
    ) -> Option<usize>
        requires suits { Suits (program_of self.now.program.now) (Input.view self.now.input) }
        requires ready { IsReadyIn Input.view self.now (instruction insn.now) offset }
        requires room { at + 1 < 2 ^ 64 }
        requires plain { is_single (instruction insn.now) ≡ false }
        ensures { result ≡ end_at (told_by answers.now) (ends_by answers.now) (program_of self.now.program.now) (input_of (Input.view self.now.input))
            (direction_of forward) (map marks_of self.now.groups.now) (instruction insn.now) at offset }
    {
        match insn {
            Insn::Goal => Some(offset),
            Insn::Atomic { continuation, .. } => {
                let end = answers.end(at + 1, offset)?;
                answers.end(*continuation as usize, end)
            }
            _ => {
                let next = self.led_on(answers, insn, forward, at, offset)?;
                answers.end(next.at, next.offset)
            }
        }
    }

    /// Where runs end from the exits of a one-character loop behind at most so many characters.
    fn end_among(
        &self,
        answers: &Answers,
        body: &Insn,
        greedy: bool,
        times: usize,
        forward: bool,
        at: usize,
        offset: usize,
    ) -> Option<usize>
        requires room { at + 2 < 2 ^ 64 }
        requires suits { Suits (program_of self.now.program.now) (Input.view self.now.input) }
        requires groups { length self.now.groups.now ≡ (program_of self.now.program.now).groups }
        requires repeated { IsRepeated (program_of self.now.program.now) at (instruction body.now) }
        requires place { IsAtPlace (reading_of (Input.view self.now.input)) offset }
        ensures { result ≡ preferred_of (ends_by answers.now (at + 2)) greedy (one_by_one (program_of self.now.program.now) (input_of (Input.view self.now.input))
            times (instruction body.now) (direction_of forward) [] offset) }
    {
        let mut found = None;
        let mut behind = offset;
        let mut left = times;
        'exits: loop {
            let end = preferred(greedy, found, answers.end(at + 2, behind));
            if left == 0 {
                return end;
            }
            let Some(next) = self.next(body, forward, behind) else {
                return end;
            };
            found = end;
            behind = next;
            left -= 1;
        }
    }

    /// Where runs from a one-character loop and an offset end. `beyond` says where they end from its exits behind at least one more character.
    fn end_of_single(
        &self,
        answers: &Answers,
        body: &Insn,
        least: usize,
        most: usize,
        greedy: bool,
        beyond: Option<usize>,
        forward: bool,
        at: usize,
        offset: usize,
    ) -> Option<usize>
        requires room { at + 2 < 2 ^ 64 }
        requires suits { Suits (program_of self.now.program.now) (Input.view self.now.input) }
        requires groups { length self.now.groups.now ≡ (program_of self.now.program.now).groups }
        requires repeated { IsRepeated (program_of self.now.program.now) at (instruction body.now) }
        requires place { IsAtPlace (reading_of (Input.view self.now.input)) offset }
        requires order { least ≤ most }
        ensures { result ≡ end_near (ends_by answers.now (at + 2)) (λ q. if q == offset then beyond else exit_ends_by answers.now at q)
            (program_of self.now.program.now) (input_of (Input.view self.now.input)) (direction_of forward) greedy (instruction body.now) (most - least)
            (length (Input.view self.now.input).units)
            (after_times (program_of self.now.program.now) (input_of (Input.view self.now.input)) least (instruction body.now) (direction_of forward) [] offset) }
    {
        let near = self.after(body, least, forward, offset)?;
        let left = most - least;
        if left < self.text_len() {
            self.end_among(answers, body, greedy, left, forward, at, near)
        } else {
            answers.end_from(at, greedy, near, offset, beyond)
        }
    }

    /// Keeps where runs from an address and an offset end, where it is told whether they have an answer. The instruction is no one-character
    /// loop. It errs where memory is refused.
    fn keep_plain_end(
        &self,
        answers: &mut Answers,
        insn: &Insn,
        forward: bool,
        at: usize,
        offset: usize,
    ) -> Result<(), AllocError>
        requires suits { Suits (program_of self.now.program.now) (Input.view self.now.input) }
        requires ready { IsReadyIn Input.view self.now (instruction insn.now) offset }
        requires room { at + 1 < 2 ^ 64 }
        requires index { offset + 1 < 2 ^ 64 }
        requires plain { is_single (instruction insn.now) ≡ false }
        requires within { at < length answers.old.ends.rows.items }
        ensures count { length answers.new.ends.rows.items ≡ length answers.old.ends.rows.items }
        ensures offsets { answers.new.offsets ≡ answers.old.offsets }
        ensures exits { answers.new.exits ≡ answers.old.exits }
        ensures exit_ends { answers.new.exit_ends ≡ answers.old.exit_ends }
        ensures ends { OnOk result ((b q : ℕ) → ends_by answers.new b q ≡ (if (b == at) && (q == offset) then (if told_by answers.old at offset
            then end_at (told_by answers.old) (ends_by answers.old) (program_of self.now.program.now) (input_of (Input.view self.now.input))
            (direction_of forward) (map marks_of self.now.groups.now) (instruction insn.now) at offset else None) else ends_by answers.old b q)) }
    {
        let end = if answers.are_told(at, offset) {
            self.end_at(answers, insn, forward, at, offset)
        } else {
            None
        };
        answers.ends.keep(at, offset, end)
    }

    /// Keeps where runs from a one-character loop and an offset end, and where they end from its exits behind at least one more character. It
    /// errs where memory is refused.
    fn keep_single_end(
        &self,
        answers: &mut Answers,
        body: &Insn,
        least: usize,
        most: usize,
        greedy: bool,
        forward: bool,
        at: usize,
        offset: usize,
    ) -> Result<(), AllocError>
        requires room { at + 2 < 2 ^ 64 }
        requires index { offset + 1 < 2 ^ 64 }
        requires suits { Suits (program_of self.now.program.now) (Input.view self.now.input) }
        requires groups { length self.now.groups.now ≡ (program_of self.now.program.now).groups }
        requires repeated { IsRepeated (program_of self.now.program.now) at (instruction body.now) }
        requires place { IsAtPlace (reading_of (Input.view self.now.input)) offset }
        requires order { least ≤ most }
        requires within { at < length answers.old.ends.rows.items }
        requires within_exits { at < length answers.old.exit_ends.rows.items }
        ensures count { length answers.new.ends.rows.items ≡ length answers.old.ends.rows.items }
        ensures count_exits { length answers.new.exit_ends.rows.items ≡ length answers.old.exit_ends.rows.items }
        ensures offsets { answers.new.offsets ≡ answers.old.offsets }
        ensures exits { answers.new.exits ≡ answers.old.exits }
        ensures exit_ends { OnOk result ((b q : ℕ) → exit_ends_by answers.new b q ≡ (if (b == at) && (q == offset)
            then single_beyond (program_of self.now.program.now) (Input.view self.now.input) (direction_of forward) answers.old at greedy (instruction body.now) offset
            else exit_ends_by answers.old b q)) }
        ensures ends { OnOk result ((b q : ℕ) → ends_by answers.new b q ≡ (if (b == at) && (q == offset)
            then single_end (program_of self.now.program.now) (Input.view self.now.input) (direction_of forward) answers.old at least most greedy (instruction body.now) offset
            else ends_by answers.old b q)) }
    {
        let next = self.next(body, forward, offset);
        let beyond = answers.end_beyond(at, greedy, next);
        let end = self.end_of_single(
            answers, body, least, most, greedy, beyond, forward, at, offset,
        );
        answers.exit_ends.keep(at, offset, beyond)?;
        answers.ends.keep(at, offset, end)
    }

    /// Keeps where runs from an address and an offset end, where it is told whether they have an answer. It errs where memory is refused.
    pub(crate) fn keep_end(
        &self,
        answers: &mut Answers,
        forward: bool,
        at: usize,
        offset: usize,
    ) -> Result<(), AllocError>
        requires suits { Suits (program_of self.now.program.now) (Input.view self.now.input) }
        requires groups { length self.now.groups.now ≡ (program_of self.now.program.now).groups }
        requires stands { (i : Instruction) × Stands (program_of self.now.program.now) at i }
        requires place { (i : Instruction) → Stands (program_of self.now.program.now) at i → reads_character i ≡ true → IsAtPlace (reading_of (Input.view self.now.input)) offset }
        requires calm { (b : ℕ) → (i : Instruction) → Stands (program_of self.now.program.now) b i → referred i ≡ None }
        requires index { offset + 1 < 2 ^ 64 }
        requires within { at < length answers.old.ends.rows.items }
        requires within_exits { at < length answers.old.exit_ends.rows.items }
        ensures count { length answers.new.ends.rows.items ≡ length answers.old.ends.rows.items }
        ensures count_exits { length answers.new.exit_ends.rows.items ≡ length answers.old.exit_ends.rows.items }
        ensures offsets { answers.new.offsets ≡ answers.old.offsets }
        ensures exits { answers.new.exits ≡ answers.old.exits }
        ensures kept { OnOk result (IsEndKept (program_of self.now.program.now) (Input.view self.now.input) (direction_of forward) (map marks_of self.now.groups.now)
            at offset answers.old answers.new) }
    {
        let insn = self.instruction(at);
        match insn {
            Insn::Loop1CharBody {
                min_iters,
                max_iters,
                greedy,
            } => {
                let body = self.instruction(at + 1);
                self.keep_single_end(
                    answers, body, *min_iters, *max_iters, *greedy, forward, at, offset,
                )
            }
            _ => self.keep_plain_end(answers, insn, forward, at, offset),
        }
    }
}
