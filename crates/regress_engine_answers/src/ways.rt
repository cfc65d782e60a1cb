//! Where the way along what is told goes on behind an instruction.
ghost use Rattle.std.specs.Prelude.{◌≡◌, ◌+◌, ◌^◌, ◌<◌, ℕ, false, length, map, slice_get};
ghost use Rattle.regress_engine_code.specs.Standing.{program_of};
ghost use Rattle.regress_engine_input.specs.Views.{direction_of, input_of};
ghost use Rattle.regress_engine_insn.specs.InsnViews.{instruction};
ghost use Rattle.regress_engine_runs.specs.Runs.{fields_of};
ghost use Rattle.regress_engine_search.specs.Search.{Suits};
ghost use Rattle.regress_engine_search.specs.StateViews.{marks_of};
ghost use Rattle.regress_engine_linear.specs.Answered.{is_single};
ghost use Rattle.regress_engine_answers.specs.AnswerTables.{told_by};
ghost use Rattle.regress_engine_answers.specs.Filling.{IsReadyIn};
ghost use Rattle.regress_engine_ways.specs.Ways.{again_at, either_of, first_of, led, station_at};

use crate::answers::{Answering, Answers};
use regress_engine_advance::advance;
use regress_engine_insn::Insn;
use regress_engine_search::ExecutorInput;
use regress_engine_ways::Station;

/// An address with an offset, if there is one.
///
/// ```rust
/// let next = station_at(4, Some(3));
/// ```
pub fn station_at(at: usize, offset: Option<usize>) -> Option<Station>
    ensures { result ≡ station_at at offset }
{
    match offset {
        Some(offset) => Some(Station { at, offset }),
        None => None,
    }
}

impl Answers {
    /// Of two addresses the first, where runs from it and an offset have an answer, else the second.
    fn first_of(&self, offset: usize, first: usize, second: usize) -> usize
        ensures { result ≡ first_of (told_by self.now) offset first second }
    {
        if self.are_told(first, offset) {
            first
        } else {
            second
        }
    }

    /// Where a repetition goes on, with one more iteration or behind it: the preferred one, where runs from there have an answer, else the other.
    fn either_of(&self, greedy: bool, offset: usize, more: usize, exit: usize) -> usize
        ensures { result ≡ either_of (told_by self.now) greedy offset more exit }
    {
        if greedy {
            self.first_of(offset, more, exit)
        } else {
            self.first_of(offset, exit, more)
        }
    }
}

impl<'a, Input: ExecutorInput> Answering<'a, Input> {
    /// Where a repetition goes on that begins at an address, where an iteration ends.
    fn again_at(&self, answers: &Answers, begin: usize, offset: usize) -> Option<Station>
        requires { begin + 1 < 2 ^ 64 }
        ensures { result ≡ again_at (told_by answers.now) offset begin (fields_of (slice_get (program_of self.now.program.now).instructions begin)) }
    {
        match self.program.insns().get(begin) {
            Some(Insn::EnterLoop(repetition)) => {
                let more = begin + 1;
                let exit = repetition.exit as usize;
                let at = if repetition.max_iters > 1 {
                    answers.either_of(repetition.greedy, offset, more, exit)
                } else {
                    exit
                };
                Some(Station { at, offset })
            }
            _ => None,
        }
    }

    /// Where the way goes on from an address and an offset, by an instruction that is no one-character loop.
    ///
    /// ```rust
    /// let next = answering.led_on(&answers, insn, true, 0, 3);
    /// ```
    pub fn led_on(
        &self,
        answers: &Answers,
        insn: &Insn,
        forward: bool,
        at: usize,
        offset: usize,
    ) -> Option<Station>
        requires suits { Suits (program_of self.now.program.now) (Input.view self.now.input) }
        requires ready { IsReadyIn Input.view self.now (instruction insn.now) offset }
        requires room { at + 1 < 2 ^ 64 }
        requires plain { is_single (instruction insn.now) ≡ false }
        ensures { result ≡ led (told_by answers.now) (program_of self.now.program.now) (input_of (Input.view self.now.input)) (direction_of forward)
            (map marks_of self.now.groups.now) (instruction insn.now) at offset }
    {
        match insn {
            Insn::Goal | Insn::JustFail | Insn::Loop1CharBody { .. } => None,
            Insn::Lookahead { continuation, .. }
            | Insn::Lookbehind { continuation, .. }
            | Insn::Atomic { continuation, .. } => Some(Station {
                at: *continuation as usize,
                offset,
            }),
            Insn::Jump { target } => Some(Station {
                at: *target as usize,
                offset,
            }),
            Insn::Alt { secondary } => {
                let at = answers.first_of(offset, at + 1, *secondary as usize);
                Some(Station { at, offset })
            }
            Insn::BeginCaptureGroup(_) | Insn::EndCaptureGroup(_) | Insn::ResetCaptureGroup(_) => {
                Some(Station { at: at + 1, offset })
            }
            Insn::EnterLoop(repetition) => {
                if repetition.min_iters == 0 {
                    let exit = repetition.exit as usize;
                    let at = answers.either_of(repetition.greedy, offset, at + 1, exit);
                    Some(Station { at, offset })
                } else {
                    Some(Station { at: at + 1, offset })
                }
            }
            Insn::LoopAgain { begin } => self.again_at(answers, *begin as usize, offset),
            _ => {
                let next = advance(
                    self.program,
                    &self.input,
                    insn,
                    forward,
                    self.groups,
                    offset,
                );
                station_at(at + 1, next)
            }
        }
    }
}
