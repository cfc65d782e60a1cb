//! Instructions that lead to their successors, whatever else waits.
ghost use Rattle.std.specs.Prelude.{◌≡◌, ◌+◌, ◌^◌, ◌<◌, true, if◌then◌else◌, [], ◌∷◌, length, slice_set, OnOk};
ghost use Rattle.regress_engine_insn.specs.Instructions.{Stands, loop_again};
ghost use Rattle.regress_engine_insn.specs.InsnViews.{fields, instruction};
ghost use Rattle.regress_engine_code.specs.Standing.{program_of};
ghost use Rattle.regress_engine_input.specs.Views.{direction_of, input_of, reading_of};
ghost use Rattle.regress_engine_runs.specs.States.{onward};
ghost use Rattle.regress_engine_runs.specs.Runs.{choices, is_idle, is_plain, successors};
ghost use Rattle.regress_engine_runs.specs.Meets.{reads_character, ReadsPlaces};
ghost use Rattle.regress_engine_search.specs.Ready.{is_simple};
ghost use Rattle.regress_engine_search.specs.Search.{Suits};
ghost use Rattle.regress_engine_copying.specs.StateOf.{state_of};
ghost use Rattle.regress_engine_copying.specs.Held.{held, put};
ghost use Rattle.regress_engine_copying.specs.Sound.{IsWhole};

use crate::attempt::Attempt;
use crate::stack::Stack;
use crate::state::State;
use regress_engine_advance::{advance, units_ahead};
use regress_engine_insn::{Insn, LoopFields};
use regress_engine_matchers::CharInput;
use std::alloc::AllocError;

impl Stack {
    /// Puts a state on top one instruction further, and below it one at another address.
    fn fork(&mut self, target: usize, mut state: State) -> Result<(), AllocError>
        requires { state.at + 1 < 2 ^ 64 }
        ensures { OnOk result (held self.new ≡ put (onward (state_of state) ∷ record (state_of state) { at = target } ∷ []) (held self.old)) }
    {
        self.push(state.copy_at(target)?)?;
        state.at += 1;
        self.push(state)
    }

    /// Puts one more iteration of a repetition and the way out of it on top, those that may be, the preferred one topmost.
    fn choose(
        &mut self,
        repetition: &LoopFields,
        begin: usize,
        mut state: State,
    ) -> Result<(), AllocError>
        requires there { repetition.now.loop_id < length (state_of state).loops }
        requires begin { begin + 1 < 2 ^ 64 }
        ensures { OnOk result (held self.new ≡ put (choices (fields repetition.now) begin (state_of state)) (held self.old)) }
    {
        let id = repetition.loop_id as usize;
        let exit = repetition.exit as usize;
        let count = state.loop_data(id).iters;
        if count >= repetition.max_iters {
            if count >= repetition.min_iters {
                state.at = exit;
                return self.push(state);
            }
            return Ok(());
        }
        if count < repetition.min_iters {
            state.iterate(id, count, begin);
            return self.push(state);
        }
        let out = state.copy_at(exit)?;
        state.iterate(id, count, begin);
        if repetition.greedy {
            self.push(out)?;
            return self.push(state);
        }
        self.push(state)?;
        self.push(out)
    }

    /// Enters a repetition, of which so many iterations are taken as done.
    fn enter(
        &mut self,
        repetition: &LoopFields,
        done: usize,
        mut state: State,
    ) -> Result<(), AllocError>
        requires there { repetition.now.loop_id < length (state_of state).loops }
        requires room { state.at + 1 < 2 ^ 64 }
        ensures { OnOk result (held self.new ≡ put (choices (fields repetition.now) state.at (record (state_of state) { loops = slice_set (state_of state).loops repetition.now.loop_id (done, state.offset) })) (held self.old)) }
    {
        state.enter(repetition.loop_id as usize, done);
        let begin = state.at;
        self.choose(repetition, begin, state)
    }

    /// Ends an iteration of the repetition that begins at an address.
    fn again(
        &mut self,
        repetition: &LoopFields,
        begin: usize,
        state: State,
    ) -> Result<(), AllocError>
        requires there { repetition.now.loop_id < length (state_of state).loops }
        requires begin { begin + 1 < 2 ^ 64 }
        ensures { OnOk result (held self.new ≡ put (if is_idle (fields repetition.now) (state_of state) then [] else choices (fields repetition.now) begin (state_of state)) (held self.old)) }
    {
        if state.is_idle(repetition) {
            return Ok(());
        }
        self.choose(repetition, begin, state)
    }
}

impl<'a, Input: CharInput> Attempt<'a, Input> {
    /// Does an instruction that changes nothing but the offset.
    fn take(&self, insn: &Insn, mut state: State, stack: &mut Stack) -> Result<(), AllocError>
        requires suits { Suits (program_of self.now.program.now) (Input.view self.now.input) }
        requires whole { IsWhole (program_of self.now.program.now) (state_of state) }
        requires simple { is_simple (instruction insn.now) ≡ true }
        requires stands { Stands (program_of self.now.program.now) state.at (instruction insn.now) }
        requires room { state.at + 1 < 2 ^ 64 }
        requires reads { reads_character (instruction insn.now) ≡ true → ReadsPlaces (reading_of (Input.view self.now.input)) (instruction insn.now) (state_of state) }
        ensures { OnOk result (held stack.new ≡ put (successors (program_of self.now.program.now) (input_of (Input.view self.now.input)) (instruction insn.now) (direction_of stack.old.forward) (state_of state)) (held stack.old)) }
    {
        let Some(next) = advance(
            self.program,
            &self.input,
            insn,
            stack.forward,
            &state.groups,
            state.offset,
        ) else {
            return Ok(());
        };
        state.at += 1;
        state.offset = next;
        stack.push(state)
    }

    /// Ends an iteration of the repetition that begins at an address.
    fn end_iteration(&self, begin: usize, state: State, stack: &mut Stack) -> Result<(), AllocError>
        requires suits { Suits (program_of self.now.program.now) (Input.view self.now.input) }
        requires whole { IsWhole (program_of self.now.program.now) (state_of state) }
        requires stands { Stands (program_of self.now.program.now) state.at (loop_again begin) }
        ensures { OnOk result (held stack.new ≡ put (successors (program_of self.now.program.now) (input_of (Input.view self.now.input)) (loop_again begin) (direction_of stack.old.forward) (state_of state)) (held stack.old)) }
    {
        match self.instruction(begin) {
            Insn::EnterLoop(repetition) => stack.again(repetition, begin, state),
            _ => Ok(()),
        }
    }

    /// Does an instruction that leads to its successors, whatever else waits: they are put on top, the preferred one topmost.
    pub(crate) fn go(
        &self,
        insn: &Insn,
        mut state: State,
        stack: &mut Stack,
        ends: &mut Vec<usize>,
    ) -> Result<(), AllocError>
        requires suits { Suits (program_of self.now.program.now) (Input.view self.now.input) }
        requires whole { IsWhole (program_of self.now.program.now) (state_of state) }
        requires plain { is_plain (instruction insn.now) ≡ true }
        requires stands { Stands (program_of self.now.program.now) state.at (instruction insn.now) }
        requires room { state.at + 1 < 2 ^ 64 }
        requires reads { reads_character (instruction insn.now) ≡ true → ReadsPlaces (reading_of (Input.view self.now.input)) (instruction insn.now) (state_of state) }
        ensures { OnOk result (held stack.new ≡ put (successors (program_of self.now.program.now) (input_of (Input.view self.now.input)) (instruction insn.now) (direction_of stack.old.forward) (state_of state)) (held stack.old)) }
    {
        match insn {
            Insn::Jump { target } => {
                state.at = *target as usize;
                stack.push(state)
            }
            Insn::Alt { secondary } => stack.fork(*secondary as usize, state),
            Insn::BeginCaptureGroup(group) => {
                state.mark(*group as usize, stack.forward);
                stack.push(state)
            }
            Insn::EndCaptureGroup(group) => {
                state.mark(*group as usize, !stack.forward);
                stack.push(state)
            }
            Insn::ResetCaptureGroup(group) => {
                state.reset(*group as usize);
                stack.push(state)
            }
            Insn::EnterLoop(repetition) => {
                let ahead = units_ahead(&self.input, stack.forward, state.offset);
                stack.enter(repetition, repetition.surplus(ahead), state)
            }
            Insn::LoopAgain { begin } => self.end_iteration(*begin as usize, state, stack),
            Insn::Loop1CharBody {
                min_iters,
                max_iters,
                greedy,
            } => self.repeat(*min_iters, *max_iters, *greedy, &state, stack, ends),
            _ => self.take(insn, state, stack),
        }
    }
}
