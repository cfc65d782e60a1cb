//! How a table of answers is filled: level by level, of each offset by offset, and at each offset by rank.
ghost use Rattle.std.specs.Prelude.{◌≡◌, ℕ, ◌+◌, ◌-◌, ◌*◌, ◌^◌, ◌<◌, ◌≤◌, suc, false, true, IfOk, OnOk, length, slice_get};
ghost use Rattle.regress_engine_code.specs.Standing.{program_of};
ghost use Rattle.regress_engine_input.specs.Views.{direction_of, reading_of};
ghost use Rattle.regress_engine_insn.specs.InsnViews.{instruction};
ghost use Rattle.regress_engine_runs.specs.Meets.{IsAtPlace, reads_character};
ghost use Rattle.regress_engine_search.specs.Search.{Suits};
ghost use Rattle.regress_engine_answers.specs.AnswerTables.{IsSized, exits_by, in_set, told_by};
ghost use Rattle.regress_engine_answers.specs.Filled.{AreExitsKnown, AreRight};
ghost use Rattle.regress_engine_search.specs.Places.{IsAwaited, IsBehind, IsNextPlace};
ghost use Rattle.regress_engine_answers.specs.Filling.{IsFilledIn, IsFilledToIn, fill_steps};
ghost use Rattle.regress_engine_linear.specs.Levels.{IsLevel};
ghost use Rattle.regress_engine_linear.specs.Linear.{IsLinear, too_long};
ghost use Rattle.regress_engine_linear.specs.LinearViews.{flow_in, heights_in};

use crate::answers::{Answering, Answers};
use crate::rows::Rows;
use regress_engine_advance::beside;
use regress_engine_insn::Insn;
use regress_engine_linear::{Level, LinearTable};
use regress_engine_memory::Bits;
use regress_engine_search::ExecutorInput;
use std::alloc::{AllocError, Global};

/// Whether an instruction reads the characters beside the offset where it stands.
fn reads_character(insn: &Insn) -> bool
    ensures { result ≡ reads_character (instruction insn.now) }
{
    match insn {
        Insn::Char(_)
        | Insn::StartOfLine { .. }
        | Insn::EndOfLine { .. }
        | Insn::MatchAny
        | Insn::MatchAnyExceptLineTerminator
        | Insn::Loop1CharBody { .. }
        | Insn::BackRef { .. }
        | Insn::Bracket(_)
        | Insn::AsciiBracket(_)
        | Insn::WordBoundary { .. }
        | Insn::WordBoundaryUnicodeICase { .. }
        | Insn::CharSet(_)
        | Insn::ByteSet2(_)
        | Insn::ByteSet3(_)
        | Insn::ByteSet4(_) => true,
        _ => false,
    }
}

/// As many empty sets.
fn empty_sets(alloc: Global, count: usize) -> Result<Vec<Bits>, AllocError>
    ensures count { IfOk result (λ sets. length sets.items ≡ count) }
    ensures empty { IfOk result (λ sets. (k n : ℕ) → in_set (slice_get sets.items k) n ≡ false) }
{
    let mut sets: Vec<Bits> = Vec::new(alloc);
    for _ in 0..count {
        sets.push(Bits::new(alloc))?;
    }
    Ok(sets)
}

impl Answers {
    /// A table for so many addresses that tells of no answer yet.
    fn empty(alloc: Global, count: usize) -> Result<Answers, AllocError>
        ensures offsets { IfOk result (λ answers. length answers.offsets.items ≡ count) }
        ensures exits { IfOk result (λ answers. length answers.exits.items ≡ count) }
        ensures ends { IfOk result (λ answers. length answers.ends.rows.items ≡ count) }
        ensures exit_ends { IfOk result (λ answers. length answers.exit_ends.rows.items ≡ count) }
        ensures none { IfOk result (λ answers. (at o : ℕ) → told_by answers at o ≡ false) }
        ensures none_behind { IfOk result (λ answers. (at o : ℕ) → exits_by answers at o ≡ false) }
    {
        Ok(Answers {
            offsets: empty_sets(alloc, count)?,
            exits: empty_sets(alloc, count)?,
            ends: Rows::empty(alloc, count)?,
            exit_ends: Rows::empty(alloc, count)?,
        })
    }
}

impl<'a, Input: ExecutorInput> Answering<'a, Input> {
    /// Works out the address at an index of the order, at an offset. What reads characters is worked out at places alone: no run comes to it
    /// elsewhere.
    fn fill_at(
        &self,
        table: &LinearTable,
        answers: &mut Answers,
        level: Level,
        is_place: bool,
        index: usize,
        offset: usize,
    ) -> Result<(), AllocError>
        requires suits { Suits (program_of self.now.program.now) (Input.view self.now.input) }
        requires groups { length self.now.groups.now ≡ (program_of self.now.program.now).groups }
        requires linear { IsLinear (flow_in table.now) (heights_in table.now) (program_of self.now.program.now) }
        requires short { suc (length (Input.view self.now.input).units) < too_long }
        requires level { IsLevel (heights_in table.now) level }
        requires from { level.from ≤ index }
        requires within { index < level.to }
        requires lies { offset ≤ length (Input.view self.now.input).units }
        requires place { is_place ≡ true → IsAtPlace (reading_of (Input.view self.now.input)) offset }
        requires apart { is_place ≡ false → IsAtPlace (reading_of (Input.view self.now.input)) offset → ⊥ }
        requires sized { IsSized (program_of self.now.program.now) answers.old }
        requires filled { IsFilledIn Input.view self.now table.now answers.old level index offset }
        ensures sized { OnOk result (IsSized (program_of self.now.program.now) answers.new) }
        ensures filled { OnOk result (IsFilledIn Input.view self.now table.now answers.new level (suc index) offset) }
    {
        let at = table.address(index);
        if !is_place && reads_character(self.instruction(at)) {
            return Ok(());
        }
        self.work_at(answers, level.forward, at, offset)?;
        if table.is_inside(at) {
            self.keep_end(answers, level.forward, at, offset)?;
        }
        Ok(())
    }

    /// Works out all addresses of a level at an offset, the lowest rank first. It counts a step for each.
    fn fill_offset(
        &self,
        table: &LinearTable,
        answers: &mut Answers,
        level: Level,
        is_place: bool,
        offset: usize,
        steps: &mut usize,
    ) -> Result<(), AllocError>
        requires suits { Suits (program_of self.now.program.now) (Input.view self.now.input) }
        requires groups { length self.now.groups.now ≡ (program_of self.now.program.now).groups }
        requires linear { IsLinear (flow_in table.now) (heights_in table.now) (program_of self.now.program.now) }
        requires short { suc (length (Input.view self.now.input).units) < too_long }
        requires level { IsLevel (heights_in table.now) level }
        requires lies { offset ≤ length (Input.view self.now.input).units }
        requires place { is_place ≡ true → IsAtPlace (reading_of (Input.view self.now.input)) offset }
        requires apart { is_place ≡ false → IsAtPlace (reading_of (Input.view self.now.input)) offset → ⊥ }
        requires sized { IsSized (program_of self.now.program.now) answers.old }
        requires filled { IsFilledIn Input.view self.now table.now answers.old level level.from offset }
        ensures sized { OnOk result (IsSized (program_of self.now.program.now) answers.new) }
        ensures filled { OnOk result (IsFilledIn Input.view self.now table.now answers.new level level.to offset) }
        ensures counted { OnOk result (steps.new ≤ steps.old + (level.to - level.from)) }
    {
        for index in level.from..level.to {
            *steps = steps.saturating_add(1);
            self.fill_at(table, answers, level, is_place, index, offset)?;
        }
        Ok(())
    }

    /// The place behind one that is left behind next, or the place itself where there is none.
    fn next_place(&self, forward: bool, place: usize) -> usize
        requires { IsAtPlace (reading_of (Input.view self.now.input)) place }
        ensures { IsNextPlace (Input.view self.now.input) (direction_of forward) place result }
    {
        match beside(&self.input, !forward, place) {
            Some((_, next)) => next,
            None => place,
        }
    }

    /// Works out all addresses of a level at an offset, where `place` is the next place to come, and makes it the one behind.
    fn fill_next(
        &self,
        table: &LinearTable,
        answers: &mut Answers,
        level: Level,
        offset: usize,
        place: &mut usize,
        steps: &mut usize,
    ) -> Result<(), AllocError>
        requires suits { Suits (program_of self.now.program.now) (Input.view self.now.input) }
        requires groups { length self.now.groups.now ≡ (program_of self.now.program.now).groups }
        requires linear { IsLinear (flow_in table.now) (heights_in table.now) (program_of self.now.program.now) }
        requires short { suc (length (Input.view self.now.input).units) < too_long }
        requires level { IsLevel (heights_in table.now) level }
        requires lies { offset ≤ length (Input.view self.now.input).units }
        requires awaited { IsAwaited (Input.view self.now.input) (direction_of level.forward) offset place.old }
        requires sized { IsSized (program_of self.now.program.now) answers.old }
        requires filled { IsFilledIn Input.view self.now table.now answers.old level level.from offset }
        ensures sized { OnOk result (IsSized (program_of self.now.program.now) answers.new) }
        ensures filled { OnOk result (IsFilledIn Input.view self.now table.now answers.new level level.to offset) }
        ensures awaited { OnOk result ((q : ℕ) → q ≤ length (Input.view self.now.input).units → IsBehind (Input.view self.now.input) level.forward offset q
            → IsAwaited (Input.view self.now.input) (direction_of level.forward) q place.new) }
        ensures counted { OnOk result (steps.new ≤ steps.old + (level.to - level.from)) }
    {
        let is_place = offset == *place;
        self.fill_offset(table, answers, level, is_place, offset, steps)?;
        if is_place {
            *place = self.next_place(level.forward, *place);
        }
        Ok(())
    }

    /// Works out a level at each offset of the text: against the direction in which it is read, so that what is ahead is told. It counts a
    /// step for each of its addresses at each offset.
    fn fill_level(
        &self,
        table: &LinearTable,
        answers: &mut Answers,
        level: Level,
        steps: &mut usize,
    ) -> Result<(), AllocError>
        requires suits { Suits (program_of self.now.program.now) (Input.view self.now.input) }
        requires groups { length self.now.groups.now ≡ (program_of self.now.program.now).groups }
        requires linear { IsLinear (flow_in table.now) (heights_in table.now) (program_of self.now.program.now) }
        requires short { suc (length (Input.view self.now.input).units) < too_long }
        requires level { IsLevel (heights_in table.now) level }
        requires sized { IsSized (program_of self.now.program.now) answers.old }
        requires filled { IsFilledToIn Input.view self.now table.now answers.old level.from }
        ensures sized { OnOk result (IsSized (program_of self.now.program.now) answers.new) }
        ensures filled { OnOk result (IsFilledToIn Input.view self.now table.now answers.new level.to) }
        ensures counted { OnOk result (steps.new ≤ steps.old + suc (length (Input.view self.now.input).units) * (level.to - level.from)) }
    {
        let forward = level.forward;
        let last = self.text_len();
        let mut place = if forward { last } else { 0 };
        let mut step = 0;
        loop {
            let offset = if forward { last - step } else { step };
            self.fill_next(table, answers, level, offset, &mut place, steps)?;
            if step == last {
                return Ok(());
            }
            step += 1;
        }
    }

    /// Works out for each address and each offset of the text whether runs from there have an answer, the deepest level first. It counts a
    /// step for each. It errs where memory is refused.
    ///
    /// Asks that the program is linear, as its table says, and that the text has no more units than there may be.
    ///
    /// ```rust
    /// let answers = answering.answers(alloc, &table, &mut steps)?;
    /// ```
    pub fn answers(
        &self,
        alloc: Global,
        table: &LinearTable,
        steps: &mut usize,
    ) -> Result<Answers, AllocError>
        requires suits { Suits (program_of self.now.program.now) (Input.view self.now.input) }
        requires groups { length self.now.groups.now ≡ (program_of self.now.program.now).groups }
        requires linear { IsLinear (flow_in table.now) (heights_in table.now) (program_of self.now.program.now) }
        requires short { suc (length (Input.view self.now.input).units) < too_long }
        ensures right { IfOk result (AreRight (flow_in table.now) (heights_in table.now) (program_of self.now.program.now) (Input.view self.now.input)) }
        ensures exits { IfOk result (AreExitsKnown (flow_in table.now) (heights_in table.now) (program_of self.now.program.now) (Input.view self.now.input)) }
        ensures counted { OnOk result (steps.new ≤ steps.old + fill_steps table.now (Input.view self.now.input)) }
    {
        let mut answers = Answers::empty(alloc, self.program.insns().len())?;
        let mut from = 0;
        'levels: while from < table.count() {
            let level = table.level(from);
            self.fill_level(table, &mut answers, level, steps)?;
            from = level.to;
        }
        answers.forget_ends(alloc);
        Ok(answers)
    }
}
