//! Whether runs from the addresses of a program and the offsets of a text have an answer.
ghost use Rattle.std.specs.Prelude.{◌≡◌, ◌+◌, ◌^◌, ◌<◌, ◌≤◌, ◌&&◌, ◌||◌, ◌==◌, ℕ, Bool, [], false, true, None, IfSome, OnErr, OnOk, if◌then◌else◌, length, slice_get};
ghost use Rattle.regress_engine_code.specs.Standing.{program_of};
ghost use Rattle.regress_engine_input.specs.Views.{direction_of, input_of, reading_of};
ghost use Rattle.regress_engine_insn.specs.InsnViews.{instruction};
ghost use Rattle.regress_engine_insn.specs.Instructions.{Instruction, Stands};
ghost use Rattle.regress_engine_runs.specs.Meets.{IsAtPlace, reads_character, referred};
ghost use Rattle.regress_engine_runs.specs.Runs.{advance, after_times, counted, fields_of, one_by_one};
ghost use Rattle.regress_engine_search.specs.Search.{Suits};
ghost use Rattle.regress_engine_linear.specs.Answered.{again, behind, exits_at, exits_value_at, is_single, one_at, one_beyond, AreExitsOf, AreExitsRight, IsRepeated};
ghost use Rattle.regress_engine_answers.specs.AnswerTables.{ends_by, exits_by, in_set, told_by};
ghost use Rattle.regress_engine_answers.specs.Filling.{IsReadyIn};
ghost use Rattle.regress_engine_ways.specs.Ways.{told_if, value_at};

use crate::rows::Rows;
use regress_engine_advance::{advance, after_times};
use regress_engine_code::CompiledRegex;
use regress_engine_insn::Insn;
use regress_engine_memory::Bits;
use regress_engine_search::{ExecutorInput, Shown};
use regress_front_core::GroupData;
use std::alloc::{AllocError, Global};

/// Adds a number to one of some sets, if that is asked. It errs where memory is refused, and then the sets stay as they are.
fn insert_if(sets: &mut Vec<Bits>, has: bool, k: usize, number: usize) -> Result<(), AllocError>
    requires { k < length sets.old.items }
    ensures count { length sets.new.items ≡ length sets.old.items }
    ensures ok { OnOk result ((j n : ℕ) → in_set (slice_get sets.new.items j) n ≡ (in_set (slice_get sets.old.items j) n || (((j == k) && (number == n)) && has))) }
    ensures err { OnErr result ((j n : ℕ) → in_set (slice_get sets.new.items j) n ≡ in_set (slice_get sets.old.items j) n) }
{
    if has {
        sets[k].insert(number)?;
    }
    Ok(())
}

/// For each address of a program the offsets of a text from which runs have an answer.
#[derive(Debug, Drop)]
pub struct Answers {
    /// Those of each address.
    pub(crate) offsets: Vec<Bits>,
    /// Of each address of a one-character loop those from which one of its exits has behind at least one more character.
    pub(crate) exits: Vec<Bits>,
    /// Of each address inside of an atomic group where runs from each offset end.
    pub(crate) ends: Rows,
    /// Of each address of a one-character loop inside of one where runs from its exits behind at least one more character end.
    pub(crate) exit_ends: Rows,
}

impl Answers {
    /// Whether it is told that runs from an address and an offset have an answer.
    ///
    /// ```rust
    /// let has = answers.are_told(0, 3);
    /// ```
    #[inline]
    pub fn are_told(&self, at: usize, offset: usize) -> bool
        ensures { result ≡ told_by self.now at offset }
    {
        at < self.offsets.len() && self.offsets[at].contains(offset)
    }

    /// Forgets where runs end, which is not asked once the table is full.
    pub(crate) fn forget_ends(&mut self, alloc: Global)
        ensures offsets { self.new.offsets ≡ self.old.offsets }
        ensures exits { self.new.exits ≡ self.old.exits }
    {
        self.ends = Rows::none(alloc);
        self.exit_ends = Rows::none(alloc);
    }

    /// Where it is kept that runs from an address and an offset end.
    pub(crate) fn end(&self, at: usize, offset: usize) -> Option<usize>
        ensures { result ≡ ends_by self.now at offset }
    {
        self.ends.kept(at, offset)
    }

    /// Whether it is told that one of the exits of the one-character loop at an address has an answer, behind at least one more character
    /// from an offset on.
    ///
    /// ```rust
    /// let has = answers.are_exits_told(0, 3);
    /// ```
    pub fn are_exits_told(&self, at: usize, offset: usize) -> bool
        ensures { result ≡ exits_by self.now at offset }
    {
        at < self.exits.len() && self.exits[at].contains(offset)
    }

    /// Whether runs have an answer one address further, at an offset, if there is one.
    fn are_told_behind(&self, at: usize, next: Option<usize>) -> bool
        requires { at + 1 < 2 ^ 64 }
        ensures { result ≡ behind (told_by self.now) at next }
    {
        match next {
            Some(offset) => self.are_told(at + 1, offset),
            None => false,
        }
    }

    /// Whether runs have an answer at an address, at an offset, if there is one.
    fn are_told_at(&self, at: usize, end: Option<usize>) -> bool
        ensures { result ≡ told_if (told_by self.now) at end }
    {
        match end {
            Some(offset) => self.are_told(at, offset),
            None => false,
        }
    }

    /// Whether one of the exits of a one-character loop has an answer behind at least one more character; `next` is the offset behind one.
    fn have_exits(&self, at: usize, next: Option<usize>) -> bool
        requires { at + 2 < 2 ^ 64 }
        ensures { result ≡ exits_at (told_by self.now) (exits_by self.now at) at next }
    {
        match next {
            Some(offset) => self.are_told(at + 2, offset) || self.are_exits_told(at, offset),
            None => false,
        }
    }

    /// Whether one of the exits of a one-character loop has an answer from the offset `near` on, the one there among them. Of `offset` it is
    /// not told yet whether one has behind at least one more character: `beyond` says it.
    fn have_exits_from(&self, at: usize, near: usize, offset: usize, beyond: bool) -> bool
        requires { at + 2 < 2 ^ 64 }
        ensures { result ≡ (told_by self.now (at + 2) near || (if near == offset then beyond else exits_by self.now at near)) }
    {
        self.are_told(at + 2, near)
            || if near == offset {
                beyond
            } else {
                self.are_exits_told(at, near)
            }
    }
}

/// A program and a text, whose answers are worked out.
#[derive(Debug, Drop)]
pub struct Answering<'a, Input: Shown> {
    /// The program.
    pub program: &'a CompiledRegex,
    /// The text.
    pub input: Input,
    /// As many groups as the program has, none of which took anything.
    pub groups: &'a [GroupData<usize>],
}

impl<'a, Input: ExecutorInput> Answering<'a, Input> {
    /// The instruction at an address.
    ///
    /// ```rust
    /// let insn = answering.instruction(0);
    /// ```
    pub fn instruction(&self, at: usize) -> &Insn
        requires { (i : Instruction) × Stands (program_of self.now.program.now) at i }
        ensures stands { Stands (program_of self.now.program.now) at (instruction result.now) }
        ensures room { at + 1 < 2 ^ 64 }
    {
        let insns = self.program.insns();
        &insns[at]
    }

    /// Whether a repetition that begins at an address goes on where runs have an answer, where an iteration ends: with one more iteration, if
    /// it has more than one, or behind it.
    fn again(&self, answers: &Answers, begin: usize, offset: usize) -> bool
        requires { begin + 1 < 2 ^ 64 }
        ensures { result ≡ again (told_by answers.now) offset begin (fields_of (slice_get (program_of self.now.program.now).instructions begin)) }
    {
        match self.program.insns().get(begin) {
            Some(Insn::EnterLoop(repetition)) => {
                (repetition.max_iters > 1 && answers.are_told(begin + 1, offset))
                    || answers.are_told(repetition.exit as usize, offset)
            }
            _ => false,
        }
    }

    /// Whether runs from an address and an offset have an answer, where it is told of those to which its instruction leads. The
    /// instruction is no one-character loop.
    pub(crate) fn answer(
        &self,
        answers: &Answers,
        insn: &Insn,
        forward: bool,
        at: usize,
        offset: usize,
    ) -> bool
        requires suits { Suits (program_of self.now.program.now) (Input.view self.now.input) }
        requires ready { IsReadyIn Input.view self.now (instruction insn.now) offset }
        requires room { at + 1 < 2 ^ 64 }
        requires plain { is_single (instruction insn.now) ≡ false }
        requires unreferring { referred (instruction insn.now) ≡ None }
        ensures { result ≡ value_at (told_by answers.now) (ends_by answers.now) (program_of self.now.program.now) (input_of (Input.view self.now.input))
            (direction_of forward) (instruction insn.now) at offset }
    {
        match insn {
            Insn::Goal => true,
            Insn::JustFail | Insn::Loop1CharBody { .. } => false,
            Insn::Atomic { continuation, .. } => {
                answers.are_told_at(*continuation as usize, answers.end(at + 1, offset))
            }
            Insn::Lookahead {
                negate,
                continuation,
                ..
            }
            | Insn::Lookbehind {
                negate,
                continuation,
                ..
            } => {
                answers.are_told(at + 1, offset) != *negate
                    && answers.are_told(*continuation as usize, offset)
            }
            Insn::Jump { target } => answers.are_told(*target as usize, offset),
            Insn::Alt { secondary } => {
                answers.are_told(at + 1, offset) || answers.are_told(*secondary as usize, offset)
            }
            Insn::BeginCaptureGroup(_) | Insn::EndCaptureGroup(_) | Insn::ResetCaptureGroup(_) => {
                answers.are_told(at + 1, offset)
            }
            Insn::EnterLoop(repetition) => {
                answers.are_told(at + 1, offset)
                    || (repetition.min_iters == 0
                        && answers.are_told(repetition.exit as usize, offset))
            }
            Insn::LoopAgain { begin } => self.again(answers, *begin as usize, offset),
            _ => {
                let next = advance(
                    self.program,
                    &self.input,
                    insn,
                    forward,
                    self.groups,
                    offset,
                );
                answers.are_told_behind(at, next)
            }
        }
    }

    /// Works out whether runs from an address and an offset have an answer, where that is told of those to which its instruction leads, and
    /// tells it. It errs where memory is refused, and then no more is told.
    pub(crate) fn work_out(
        &self,
        answers: &mut Answers,
        insn: &Insn,
        forward: bool,
        at: usize,
        offset: usize,
    ) -> Result<(), AllocError>
        requires suits { Suits (program_of self.now.program.now) (Input.view self.now.input) }
        requires ready { IsReadyIn Input.view self.now (instruction insn.now) offset }
        requires room { at + 1 < 2 ^ 64 }
        requires within { at < length answers.old.offsets.items }
        requires plain { is_single (instruction insn.now) ≡ false }
        requires unreferring { referred (instruction insn.now) ≡ None }
        ensures count { length answers.new.offsets.items ≡ length answers.old.offsets.items }
        ensures exits { answers.new.exits ≡ answers.old.exits }
        ensures ends { answers.new.ends ≡ answers.old.ends }
        ensures exit_ends { answers.new.exit_ends ≡ answers.old.exit_ends }
        ensures told { OnOk result ((a o : ℕ) → told_by answers.new a o ≡ (told_by answers.old a o || (((a == at) && (offset == o))
            && value_at (told_by answers.old) (ends_by answers.old) (program_of self.now.program.now) (input_of (Input.view self.now.input))
            (direction_of forward) (instruction insn.now) at offset))) }
    {
        let has = self.answer(answers, insn, forward, at, offset);
        insert_if(&mut answers.offsets, has, at, offset)
    }

    /// How many units the text has.
    pub(crate) fn text_len(&self) -> usize
        ensures { result ≡ length (Input.view self.now.input).units }
    {
        self.input.pos_to_offset(self.input.right_end())
    }

    /// The offset behind one more character that a one-character loop repeats, where there is one.
    pub(crate) fn next(&self, body: &Insn, forward: bool, offset: usize) -> Option<usize>
        requires suits { Suits (program_of self.now.program.now) (Input.view self.now.input) }
        requires groups { length self.now.groups.now ≡ (program_of self.now.program.now).groups }
        requires repeated { (at : ℕ) × IsRepeated (program_of self.now.program.now) at (instruction body.now) }
        requires place { IsAtPlace (reading_of (Input.view self.now.input)) offset }
        ensures next { result ≡ advance (program_of self.now.program.now) (input_of (Input.view self.now.input)) (instruction body.now)
            (direction_of forward) [] offset }
        ensures place { IfSome result (IsAtPlace (reading_of (Input.view self.now.input))) }
    {
        advance(
            self.program,
            &self.input,
            body,
            forward,
            self.groups,
            offset,
        )
    }

    /// The offset behind so many more, where there are so many.
    pub(crate) fn after(
        &self,
        body: &Insn,
        times: usize,
        forward: bool,
        offset: usize,
    ) -> Option<usize>
        requires suits { Suits (program_of self.now.program.now) (Input.view self.now.input) }
        requires groups { length self.now.groups.now ≡ (program_of self.now.program.now).groups }
        requires repeated { (at : ℕ) × IsRepeated (program_of self.now.program.now) at (instruction body.now) }
        requires place { IsAtPlace (reading_of (Input.view self.now.input)) offset }
        ensures after { result ≡ after_times (program_of self.now.program.now) (input_of (Input.view self.now.input)) times (instruction body.now)
            (direction_of forward) [] offset }
        ensures place { IfSome result (IsAtPlace (reading_of (Input.view self.now.input))) }
    {
        after_times(
            self.program,
            &self.input,
            body,
            times,
            forward,
            self.groups,
            offset,
        )
    }

    /// Whether one of the exits of a one-character loop has an answer, from an offset on and behind at most so many characters.
    fn is_exit_told(
        &self,
        answers: &Answers,
        body: &Insn,
        times: usize,
        forward: bool,
        at: usize,
        offset: usize,
    ) -> bool
        requires room { at + 2 < 2 ^ 64 }
        requires suits { Suits (program_of self.now.program.now) (Input.view self.now.input) }
        requires groups { length self.now.groups.now ≡ (program_of self.now.program.now).groups }
        requires repeated { IsRepeated (program_of self.now.program.now) at (instruction body.now) }
        requires place { IsAtPlace (reading_of (Input.view self.now.input)) offset }
        ensures { result ≡ one_at (told_by answers.now) (at + 2) (one_by_one (program_of self.now.program.now) (input_of (Input.view self.now.input)) times
            (instruction body.now) (direction_of forward) [] offset) }
    {
        let mut behind = offset;
        let mut left = times;
        while left > 0 {
            if answers.are_told(at + 2, behind) {
                return true;
            }
            let Some(next) = self.next(body, forward, behind) else {
                return false;
            };
            behind = next;
            left -= 1;
        }
        answers.are_told(at + 2, behind)
    }

    /// Whether runs from a one-character loop and an offset have an answer. `beyond` says whether one of its exits has behind at least one
    /// more character.
    fn has_single(
        &self,
        answers: &Answers,
        body: &Insn,
        least: usize,
        most: usize,
        beyond: bool,
        forward: bool,
        at: usize,
        offset: usize,
    ) -> bool
        requires room { at + 2 < 2 ^ 64 }
        requires suits { Suits (program_of self.now.program.now) (Input.view self.now.input) }
        requires groups { length self.now.groups.now ≡ (program_of self.now.program.now).groups }
        requires repeated { IsRepeated (program_of self.now.program.now) at (instruction body.now) }
        requires place { IsAtPlace (reading_of (Input.view self.now.input)) offset }
        requires order { least ≤ most }
        requires here { beyond ≡ one_beyond (told_by answers.now) (program_of self.now.program.now) (Input.view self.now.input) (direction_of forward) at
            (instruction body.now) offset }
        requires exits { AreExitsOf (told_by answers.now) (exits_by answers.now) (program_of self.now.program.now) (Input.view self.now.input)
            (direction_of forward) at offset (instruction body.now) }
        ensures { (greedy : Bool) → result ≡ one_at (told_by answers.now) (at + 2) (counted (program_of self.now.program.now)
            (input_of (Input.view self.now.input)) least most greedy (instruction body.now) (direction_of forward) [] offset) }
    {
        let Some(near) = self.after(body, least, forward, offset) else {
            return false;
        };
        let left = most - least;
        if left < self.text_len() {
            return self.is_exit_told(answers, body, left, forward, at, near);
        }
        answers.have_exits_from(at, near, offset, beyond)
    }

    /// Works out whether runs from a one-character loop and an offset have an answer, and whether one of its exits has behind at least one
    /// more character, and tells both. Of the exits it has to be told right at each place further on. It errs where memory is refused.
    pub(crate) fn work_out_single(
        &self,
        answers: &mut Answers,
        body: &Insn,
        least: usize,
        most: usize,
        forward: bool,
        at: usize,
        offset: usize,
    ) -> Result<(), AllocError>
        requires room { at + 2 < 2 ^ 64 }
        requires suits { Suits (program_of self.now.program.now) (Input.view self.now.input) }
        requires groups { length self.now.groups.now ≡ (program_of self.now.program.now).groups }
        requires repeated { IsRepeated (program_of self.now.program.now) at (instruction body.now) }
        requires place { IsAtPlace (reading_of (Input.view self.now.input)) offset }
        requires order { least ≤ most }
        requires within { at < length answers.old.offsets.items }
        requires within_exits { at < length answers.old.exits.items }
        requires exits { AreExitsOf (told_by answers.old) (exits_by answers.old) (program_of self.now.program.now) (Input.view self.now.input)
            (direction_of forward) at offset (instruction body.now) }
        ensures count { length answers.new.offsets.items ≡ length answers.old.offsets.items }
        ensures count_exits { length answers.new.exits.items ≡ length answers.old.exits.items }
        ensures ends { answers.new.ends ≡ answers.old.ends }
        ensures exit_ends { answers.new.exit_ends ≡ answers.old.exit_ends }
        ensures exits { OnOk result ((a o : ℕ) → exits_by answers.new a o ≡ (exits_by answers.old a o || (((a == at) && (offset == o))
            && exits_at (told_by answers.old) (exits_by answers.old at) at (advance (program_of self.now.program.now) (input_of (Input.view self.now.input))
            (instruction body.now) (direction_of forward) [] offset)))) }
        ensures told { OnOk result ((greedy : Bool) (a o : ℕ) → told_by answers.new a o ≡ (told_by answers.old a o || (((a == at) && (offset == o))
            && one_at (told_by answers.old) (at + 2) (counted (program_of self.now.program.now) (input_of (Input.view self.now.input)) least most greedy
            (instruction body.now) (direction_of forward) [] offset)))) }
    {
        let next = self.next(body, forward, offset);
        let beyond = answers.have_exits(at, next);
        let has = self.has_single(answers, body, least, most, beyond, forward, at, offset);
        insert_if(&mut answers.exits, beyond, at, offset)?;
        insert_if(&mut answers.offsets, has, at, offset)
    }

    /// Works out an address and an offset, by the instruction that stands there. Of the exits of a one-character loop it has to be told right
    /// at each place further on. It errs where memory is refused.
    pub(crate) fn work_at(
        &self,
        answers: &mut Answers,
        forward: bool,
        at: usize,
        offset: usize,
    ) -> Result<(), AllocError>
        requires suits { Suits (program_of self.now.program.now) (Input.view self.now.input) }
        requires groups { length self.now.groups.now ≡ (program_of self.now.program.now).groups }
        requires stands { (i : Instruction) × Stands (program_of self.now.program.now) at i }
        requires place { (i : Instruction) → Stands (program_of self.now.program.now) at i → reads_character i ≡ true → IsAtPlace (reading_of (Input.view self.now.input)) offset }
        requires within { at < length (program_of self.now.program.now).instructions }
        requires count { length answers.old.offsets.items ≡ length (program_of self.now.program.now).instructions }
        requires count_exits { length answers.old.exits.items ≡ length (program_of self.now.program.now).instructions }
        requires calm { (b : ℕ) → (i : Instruction) → Stands (program_of self.now.program.now) b i → referred i ≡ None }
        requires exits { AreExitsRight (told_by answers.old) (exits_by answers.old) (program_of self.now.program.now) (Input.view self.now.input)
            (direction_of forward) at offset }
        ensures count { length answers.new.offsets.items ≡ length answers.old.offsets.items }
        ensures count_exits { length answers.new.exits.items ≡ length answers.old.exits.items }
        ensures ends { answers.new.ends ≡ answers.old.ends }
        ensures exit_ends { answers.new.exit_ends ≡ answers.old.exit_ends }
        ensures told { OnOk result ((i : Instruction) → Stands (program_of self.now.program.now) at i → (a o : ℕ) → told_by answers.new a o
            ≡ (told_by answers.old a o || (((a == at) && (offset == o)) && value_at (told_by answers.old) (ends_by answers.old) (program_of self.now.program.now)
            (input_of (Input.view self.now.input)) (direction_of forward) i at offset))) }
        ensures exits { OnOk result ((i : Instruction) → Stands (program_of self.now.program.now) at i → (a o : ℕ) → exits_by answers.new a o
            ≡ (exits_by answers.old a o || (((a == at) && (offset == o)) && exits_value_at (told_by answers.old) (exits_by answers.old) (program_of self.now.program.now)
            (input_of (Input.view self.now.input)) (direction_of forward) i at offset))) }
    {
        let insn = self.instruction(at);
        match insn {
            Insn::Loop1CharBody {
                min_iters,
                max_iters,
                ..
            } => {
                let body = self.instruction(at + 1);
                self.work_out_single(answers, body, *min_iters, *max_iters, forward, at, offset)
            }
            _ => self.work_out(answers, insn, forward, at, offset),
        }
    }
}
