//! The run from one offset.
ghost use Rattle.std.specs.Prelude.{◌≡◌, true, Some, IfOk};
ghost use Rattle.regress_engine_code.specs.Standing.{program_of};
ghost use Rattle.regress_engine_input.specs.Views.{input_of};
ghost use Rattle.regress_engine_search.specs.Answering.{IsAnswer};
ghost use Rattle.regress_engine_search.specs.Search.{Suits};
ghost use Rattle.regress_engine_undo.specs.Held.{held};
ghost use Rattle.regress_engine_attempt.specs.Attempts.{Remembers, world};
ghost use Rattle.regress_engine_trying.specs.Counting.{CountsRun};
ghost use Rattle.regress_engine_search.specs.Ending.{IfEnded, IfStopped};
ghost use Rattle.regress_engine_trying.specs.Trying.{IsWay, ReadsFrom};

use crate::attempt::Attempt;
use crate::remembered::Remembered;
use regress_engine_search::{Budget, Ended, ExecutorInput, Unbounded};
use regress_engine_undo::{Memory, Spot};
use regress_front_core::GroupData;
use std::alloc::AllocError;

impl<'a, Input: ExecutorInput> Attempt<'a, Input> {
    /// Runs the program from the offset, at an address to which the run comes with nothing changed. It answers where the run's answer ends,
    /// whose groups `memory` then has, if there is one. `answer` is room for groups. Failures are remembered. Only refused memory is an error.
    ///
    /// ```rust
    /// let end = attempt.run(0, &mut memory, &mut answer, &mut remembered)?;
    /// ```
    pub fn run(
        &self,
        first: usize,
        memory: &mut Memory,
        answer: &mut Vec<GroupData<usize>>,
        remembered: &mut Remembered,
    ) -> Result<Option<usize>, AllocError>
        requires suits { Suits (program_of self.now.program.now) (Input.view self.now.input) }
        requires begun { IsWay (program_of self.now.program.now) (input_of (Input.view self.now.input)) true self.now.start 0 first }
        requires reads { ReadsFrom (program_of self.now.program.now) (Input.view self.now.input) self.now.start }
        requires so { Remembers (world Input.view self.now) remembered.old }
        ensures answer { IfOk result (λ found. IsAnswer (program_of self.now.program.now) (input_of (Input.view self.now.input))
            self.now.start found (held memory.new).groups) }
        ensures so { Remembers (world Input.view self.now) remembered.new }
    {
        let ended = self.run_within(first, memory, answer, remembered, &mut Unbounded)?;
        match ended {
            Ended::With(found) => Ok(found),
            Ended::TooManySteps => unreachable!(),
        }
    }

    /// Runs the program as `run` does, and counts each step against a budget: each instruction that is done, or state that is dropped, and one
    /// more for each 64 units that a one-character loop passes over, or has to take and may not, or that a back reference compares. It answers
    /// what the run does, or that no more may be counted. It counts no more than the run takes, where each step may pass over the whole text.
    ///
    /// ```rust
    /// let ended = attempt.run_within(0, &mut memory, &mut answer, &mut remembered, &mut budget)?;
    /// ```
    pub fn run_within<B: Budget>(
        &self,
        first: usize,
        memory: &mut Memory,
        answer: &mut Vec<GroupData<usize>>,
        remembered: &mut Remembered,
        budget: &mut B,
    ) -> Result<Ended<usize>, AllocError>
        requires suits { Suits (program_of self.now.program.now) (Input.view self.now.input) }
        requires begun { IsWay (program_of self.now.program.now) (input_of (Input.view self.now.input)) true self.now.start 0 first }
        requires reads { ReadsFrom (program_of self.now.program.now) (Input.view self.now.input) self.now.start }
        requires so { Remembers (world Input.view self.now) remembered.old }
        ensures answer { IfOk result (λ ended. IfEnded ended (λ found. IsAnswer (program_of self.now.program.now) (input_of (Input.view self.now.input))
            self.now.start found (held memory.new).groups)) }
        ensures counted { IfOk result (λ ended. CountsRun (program_of self.now.program.now) (Input.view self.now.input) self.now.start (B.left budget.old) (B.left budget.new)) }
        ensures stopped { IfOk result (λ ended. IfStopped ended (B.left budget.new ≡ Some 0)) }
        ensures so { Remembers (world Input.view self.now) remembered.new }
    {
        memory.begin(
            self.program.loops() as usize,
            self.program.groups() as usize,
        )?;
        remembered.counts.more = 0;
        let mut spot = Spot {
            at: first,
            offset: self.start,
            forward: true,
        };
        'steps: loop {
            let Some(going) = self.try_step(memory, answer, remembered, &mut spot)? else {
                return Ok(Ended::With(Some(spot.offset)));
            };
            if !budget.count(&mut remembered.counts.more) {
                return Ok(Ended::TooManySteps);
            }
            if going {
                continue;
            }
            if !self.back(memory, remembered, &mut spot)? {
                return Ok(Ended::With(None));
            }
        }
    }
}
