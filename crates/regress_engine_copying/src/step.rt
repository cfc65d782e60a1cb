//! One step of a run.
ghost use Rattle.std.specs.Prelude.{◌≡◌, true, option_map, IfOk};
ghost use Rattle.regress_engine_insn.specs.Instructions.{Instruction, Stands};
ghost use Rattle.regress_engine_code.specs.Standing.{program_of};
ghost use Rattle.regress_engine_input.specs.Views.{input_of, reading_of};
ghost use Rattle.regress_engine_runs.specs.Meets.{reads_character, ReadsPlaces};
ghost use Rattle.regress_engine_search.specs.Search.{Suits};
ghost use Rattle.regress_engine_copying.specs.StateOf.{state_of};
ghost use Rattle.regress_engine_copying.specs.Held.{held};
ghost use Rattle.regress_engine_copying.specs.Sound.{IsWhole, AreSound};
ghost use Rattle.regress_engine_copying.specs.Stepping.{Steps};

use crate::attempt::Attempt;
use crate::stack::{Frame, Stack};
use crate::state::State;
use regress_engine_insn::Insn;
use regress_engine_matchers::CharInput;
use regress_engine_search::Submatch;
use std::alloc::AllocError;

impl<'a, Input: CharInput> Attempt<'a, Input> {
    /// Does the instruction at a state: what follows it is put on the stack. It answers the state where that is the end of the
    /// run.
    pub(crate) fn step(
        &self,
        state: State,
        stack: &mut Stack,
        ends: &mut Vec<usize>,
    ) -> Result<Option<State>, AllocError>
        requires suits { Suits (program_of self.now.program.now) (Input.view self.now.input) }
        requires whole { IsWhole (program_of self.now.program.now) (state_of state) }
        requires sound { AreSound (program_of self.now.program.now) (held stack.old).entries }
        requires stands { (i : Instruction) × Stands (program_of self.now.program.now) state.at i }
        requires reads { (i : Instruction) → Stands (program_of self.now.program.now) state.at i → reads_character i ≡ true → ReadsPlaces (reading_of (Input.view self.now.input)) i (state_of state) }
        ensures leads { IfOk result (λ found. Steps (program_of self.now.program.now) (input_of (Input.view self.now.input)) (state_of state) (held stack.old) (option_map state_of found) (held stack.new)) }
        ensures sound { IfOk result (λ found. AreSound (program_of self.now.program.now) (held stack.new).entries) }
    {
        let insn = self.instruction(state.at);
        match insn {
            Insn::Goal => stack.leave(state),
            Insn::Lookahead {
                negate,
                start_group,
                end_group,
                continuation,
            } => {
                let frame = Frame {
                    kind: Submatch::Lookaround {
                        negated: *negate,
                        backward: false,
                    },
                    first: *start_group,
                    last: *end_group,
                    continuation: *continuation as usize,
                    forward: stack.forward,
                };
                stack.begin_submatch(frame, state)?;
                Ok(None)
            }
            Insn::Lookbehind {
                negate,
                start_group,
                end_group,
                continuation,
            } => {
                let frame = Frame {
                    kind: Submatch::Lookaround {
                        negated: *negate,
                        backward: true,
                    },
                    first: *start_group,
                    last: *end_group,
                    continuation: *continuation as usize,
                    forward: stack.forward,
                };
                stack.begin_submatch(frame, state)?;
                Ok(None)
            }
            Insn::Atomic {
                start_group,
                end_group,
                continuation,
            } => {
                let frame = Frame {
                    kind: Submatch::Atomic,
                    first: *start_group,
                    last: *end_group,
                    continuation: *continuation as usize,
                    forward: stack.forward,
                };
                stack.begin_submatch(frame, state)?;
                Ok(None)
            }
            _ => {
                self.go(insn, state, stack, ends)?;
                Ok(None)
            }
        }
    }
}
