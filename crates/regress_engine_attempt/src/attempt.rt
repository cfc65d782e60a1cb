//! A run of a program from one offset of a text.
ghost use Rattle.std.specs.Prelude.{◌≡◌, ◌+◌, ◌^◌, ◌<◌, [], ◌∷◌, length};
ghost use Rattle.regress_meaning.specs.Meaning.{Forward as forward};
ghost use Rattle.regress_engine_insn.specs.Instructions.{Instruction, Stands};
ghost use Rattle.regress_engine_insn.specs.InsnViews.{instruction};
ghost use Rattle.regress_engine_code.specs.Standing.{program_of};
ghost use Rattle.regress_engine_input.specs.Views.{input_of};
ghost use Rattle.regress_engine_runs.specs.States.{first_state};
ghost use Rattle.regress_engine_runs.specs.Computed.{IsComputed};
ghost use Rattle.regress_engine_runs.proofs.OneAnswer.{IsComputed-prop};

use regress_engine_code::CompiledRegex;
use regress_engine_insn::Insn;
use regress_engine_search::{ExecutorInput, Shown};

/// A program, a text, and an offset of it, in units, at which a run begins that ends.
///
/// ```rust
/// let attempt = Attempt { program: &program, input, start: 0 };
/// ```
#[derive(Debug, Drop)]
pub struct Attempt<'a, Input: Shown> {
    pub program: &'a CompiledRegex,
    pub input: Input,
    pub start: usize,
    pub ghost ends: { IsComputed (program_of program.now) (input_of (Input.shown input)) forward (first_state (program_of program.now) start ∷ []) } by { IsComputed-prop (program_of program.now) (input_of (Input.shown input)) forward (first_state (program_of program.now) start ∷ []) },
}

impl<'a, Input: ExecutorInput> Attempt<'a, Input> {
    /// The instruction at an address.
    #[inline]
    pub(crate) fn instruction(&self, at: usize) -> &Insn
        requires { (i : Instruction) × Stands (program_of self.now.program.now) at i }
        ensures stands { Stands (program_of self.now.program.now) at (instruction result.now) }
        ensures room { at + 1 < 2 ^ 64 }
    {
        let insns = self.program.insns();
        &insns[at]
    }

    /// How many units the text has.
    #[inline]
    pub(crate) fn text_len(&self) -> usize
        ensures { result ≡ length (Input.view self.now.input).units }
    {
        self.input.pos_to_offset(self.input.right_end())
    }
}
