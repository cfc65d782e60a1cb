//! A run of a program from one offset of a text.
ghost use Rattle.std.specs.Prelude.{◌+◌, ◌^◌, ◌<◌, [], ◌∷◌, option_map, IfOk};
ghost use Rattle.regress_meaning.specs.Meaning.{Forward as forward};
ghost use Rattle.regress_engine_insn.specs.Instructions.{Instruction, Stands};
ghost use Rattle.regress_engine_insn.specs.InsnViews.{instruction};
ghost use Rattle.regress_engine_code.specs.Standing.{program_of};
ghost use Rattle.regress_engine_input.specs.Views.{input_of, reading_of};
ghost use Rattle.regress_engine_runs.specs.States.{first_state};
ghost use Rattle.regress_engine_runs.specs.Computed.{IsComputed};
ghost use Rattle.regress_engine_runs.specs.UndoStack.{ReadOn, outermost};
ghost use Rattle.regress_engine_runs.proofs.OneAnswer.{IsComputed-prop};
ghost use Rattle.regress_engine_search.specs.Answering.{IsAnswer};
ghost use Rattle.regress_engine_search.specs.Search.{Suits};
ghost use Rattle.regress_engine_copying.specs.StateOf.{groups_of};

use crate::stack::Stack;
use crate::state::State;
use regress_engine_code::CompiledRegex;
use regress_engine_insn::Insn;
use regress_engine_matchers::CharInput;
use std::alloc::{AllocError, Global};

/// A program, a text, and an offset of it at which a run begins that ends.
#[derive(Debug, Drop)]
pub(crate) struct Attempt<'a, Input: CharInput> {
    pub(crate) program: &'a CompiledRegex,
    pub(crate) input: Input,
    pub(crate) start: usize,
    pub(crate) ghost ends: { IsComputed (program_of program.now) (input_of (Input.view input)) forward (first_state (program_of program.now) start ∷ []) } by { IsComputed-prop (program_of program.now) (input_of (Input.view input)) forward (first_state (program_of program.now) start ∷ []) },
}

impl<'a, Input: CharInput> Attempt<'a, Input> {
    /// The instruction at an address.
    pub(crate) fn instruction(&self, at: usize) -> &Insn
        requires { (i : Instruction) × Stands (program_of self.now.program.now) at i }
        ensures stands { Stands (program_of self.now.program.now) at (instruction result.now) }
        ensures room { at + 1 < 2 ^ 64 }
    {
        let insns = self.program.insns();
        &insns[at]
    }

    /// Runs the program from the offset. It answers the state at the goal that is the run's answer, or `None` where it has none.
    /// `ends` is room for offsets.
    pub(crate) fn run(
        &self,
        alloc: Global,
        stack: &mut Stack,
        ends: &mut Vec<usize>,
    ) -> Result<Option<State>, AllocError>
        requires suits { Suits (program_of self.now.program.now) (Input.view self.now.input) }
        requires reads { ReadOn (program_of self.now.program.now) (input_of (Input.view self.now.input)) (reading_of (Input.view self.now.input)) forward (first_state (program_of self.now.program.now) self.now.start ∷ []) (outermost []) }
        ensures { IfOk result (λ found. IsAnswer (program_of self.now.program.now) (input_of (Input.view self.now.input)) self.now.start (option_map (λ s. s.offset) found) (groups_of found)) }
    {
        let loops = self.program.loops() as usize;
        let groups = self.program.groups() as usize;
        stack.begin(State::first(alloc, loops, groups, self.start)?)?;
        while let Some(state) = stack.next() {
            if let Some(found) = self.step(state, stack, ends)? {
                return Ok(Some(found));
            }
        }
        Ok(None)
    }
}
