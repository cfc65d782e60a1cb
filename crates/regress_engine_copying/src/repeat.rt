//! One-character loops.
ghost use Rattle.std.specs.Prelude.{◌≡◌, ◌+◌, ◌-◌, ◌≤◌, ◌<◌, ◌^◌, ℕ, true, IfSome, map, length, OnOk};
ghost use Rattle.regress_engine_insn.specs.Instructions.{Stands, single_loop};
ghost use Rattle.regress_engine_insn.specs.InsnViews.{instruction};
ghost use Rattle.regress_engine_code.specs.Standing.{program_of};
ghost use Rattle.regress_engine_input.specs.Views.{direction_of, input_of, reading_of};
ghost use Rattle.regress_engine_runs.specs.Runs.{after_times, one_by_one, successors};
ghost use Rattle.regress_engine_runs.specs.Meets.{IsAtPlace};
ghost use Rattle.regress_engine_search.specs.Ready.{IsBody};
ghost use Rattle.regress_engine_search.specs.Search.{Suits};
ghost use Rattle.regress_engine_search.specs.StateViews.{marks_of};
ghost use Rattle.regress_engine_copying.specs.StateOf.{state_of};
ghost use Rattle.regress_engine_copying.specs.Held.{held, put};
ghost use Rattle.regress_engine_copying.specs.Sound.{IsWhole};

use crate::attempt::Attempt;
use crate::stack::Stack;
use crate::state::State;
use regress_engine_advance::{advance, after_times};
use regress_engine_insn::Insn;
use regress_engine_matchers::CharInput;
use regress_front_core::GroupData;
use std::alloc::AllocError;

impl<'a, Input: CharInput> Attempt<'a, Input> {
    /// Collects the offsets behind none, one, two and more iterations of an instruction that takes one character, at most so many.
    fn collect(
        &self,
        insn: &Insn,
        times: usize,
        forward: bool,
        groups: &[GroupData<usize>],
        offset: usize,
        ends: &mut Vec<usize>,
    ) -> Result<(), AllocError>
        requires suits { Suits (program_of self.now.program.now) (Input.view self.now.input) }
        requires body { (at : ℕ) × Stands (program_of self.now.program.now) (at - 1) (instruction insn.now) × IsBody (program_of self.now.program.now) (Input.view self.now.input) at offset }
        requires groups { length groups.now ≡ self.now.program.now.groups }
        ensures { OnOk result (ends.new.items ≡ one_by_one (program_of self.now.program.now) (input_of (Input.view self.now.input)) times (instruction insn.now) (direction_of forward) (map marks_of groups.now) offset) }
    {
        ends.clear();
        let mut behind = offset;
        let mut left = times;
        'iterations: loop {
            ends.push(behind)?;
            if left == 0 {
                return Ok(());
            }
            let Some(next) = advance(self.program, &self.input, insn, forward, groups, behind)
            else {
                return Ok(());
            };
            behind = next;
            left -= 1;
        }
    }

    /// Puts the states behind a one-character loop on top, the preferred one topmost.
    pub(crate) fn repeat(
        &self,
        least: usize,
        most: usize,
        greedy: bool,
        state: &State,
        stack: &mut Stack,
        ends: &mut Vec<usize>,
    ) -> Result<(), AllocError>
        requires suits { Suits (program_of self.now.program.now) (Input.view self.now.input) }
        requires whole { IsWhole (program_of self.now.program.now) (state_of state.now) }
        requires order { least ≤ most }
        requires body { IsBody (program_of self.now.program.now) (Input.view self.now.input) (state.now.at + 2) state.now.offset }
        ensures { OnOk result (held stack.new ≡ put (successors (program_of self.now.program.now) (input_of (Input.view self.now.input)) (single_loop least most greedy) (direction_of stack.old.forward) (state_of state.now)) (held stack.old)) }
    {
        let insn = self.instruction(state.at + 1);
        let forward = stack.forward;
        let Some(near) = after_times(
            self.program,
            &self.input,
            insn,
            least,
            forward,
            &state.groups,
            state.offset,
        ) else {
            return Ok(());
        };
        self.collect(insn, most - least, forward, &state.groups, near, ends)?;
        let at = state.at + 2;
        if greedy {
            return stack.push_each(state, at, ends.as_slice());
        }
        ends.reverse();
        stack.push_each(state, at, ends.as_slice())
    }
}
