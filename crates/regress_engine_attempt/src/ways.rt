//! Where it continues at once, since one of two ways surely leads nowhere.
ghost use Rattle.std.specs.Prelude.{◌+◌, ◌^◌, ◌<◌, ℕ, true, false, Some};
ghost use Rattle.regress_engine_insn.specs.Instructions.{Stands, alt};
ghost use Rattle.regress_engine_code.specs.Standing.{program_of};
ghost use Rattle.regress_engine_search.specs.Search.{Suits};
ghost use Rattle.regress_engine_attempt.specs.Attempts.{world};
ghost use Rattle.regress_engine_trying.specs.Trying.{IsWayIn, StandsAhead};

use crate::attempt::Attempt;
use regress_engine_advance::{is_dead_behind, lead_ahead};
use regress_engine_search::ExecutorInput;

impl<'a, Input: ExecutorInput> Attempt<'a, Input> {
    /// The address at which it continues from two ways, read backward, by what stands before an offset.
    #[inline(never)]
    fn way_behind(&self, at: usize, second: usize, offset: usize) -> usize
        requires suits { Suits (program_of self.now.program.now) (Input.view self.now.input) }
        requires stands { Stands (program_of self.now.program.now) at (alt second) }
        requires room { at + 1 < 2 ^ 64 }
        ensures { IsWayIn (world Input.view self.now) false offset at result }
    {
        if is_dead_behind(self.program, &self.input, at + 1, offset) {
            return second;
        }
        if is_dead_behind(self.program, &self.input, second, offset) {
            return at + 1;
        }
        at
    }

    /// The address at which it continues from two ways, by what stands beside an offset: that of both where neither surely leads nowhere.
    #[inline(always)]
    pub(crate) fn way_of_two(&self, at: usize, second: usize, forward: bool, offset: usize) -> usize
        requires suits { Suits (program_of self.now.program.now) (Input.view self.now.input) }
        requires stands { Stands (program_of self.now.program.now) at (alt second) }
        requires room { at + 1 < 2 ^ 64 }
        ensures { IsWayIn (world Input.view self.now) forward offset at result }
    {
        if forward {
            return match lead_ahead(&self.input, offset) {
                Some(byte) => self.program.way_from(at, byte),
                None => at,
            };
        }
        self.way_behind(at, second, offset)
    }
}
