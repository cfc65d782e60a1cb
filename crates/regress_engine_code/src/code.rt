//! A program while it is written.
ghost use Rattle.std.specs.Prelude.{◌≡◌, ◌+◌, ◌-◌, ◌<◌, [], ◌∷◌, ◌++◌, length, map, All, IfOk, IfErr, OnOk};
ghost use Rattle.regress_front_core.specs.Quantifiers.{most};
ghost use Rattle.regress_engine_insn.specs.Instructions.{fail, goal, begin_group, end_group, loop_again, single_loop, enter_loop};
ghost use Rattle.regress_engine_insn.specs.InsnViews.{instruction};
ghost use Rattle.regress_engine_insn.specs.Layout.{resets};
ghost use Rattle.regress_engine_insn.specs.ProgramViews.{bracket_ends};
ghost use Rattle.regress_engine_code.specs.Written.{written, with, changed, closed, MayRefuse};

use regress_engine_insn::{Insn, LoopFields};
use regress_front_core::{CaptureGroupID, Error, LoopID};
use regress_front_nodes::{BracketContents, Quantifier};
use std::alloc::{AllocError, Global};

/// The instructions and brackets of a program so far, and how many loops begin in them.
#[derive(Debug, Drop)]
pub(crate) struct Code {
    pub(crate) insns: Vec<Insn>,
    pub(crate) brackets: Vec<BracketContents>,
    pub(crate) loops: LoopID,
}

/// There is room for so many instructions at first, so that a short program asks for memory once.
const FEW: usize = 16;

impl Code {
    /// Nothing is written yet.
    pub(crate) fn new(alloc: Global) -> Result<Code, AllocError>
        ensures { IfOk result (λ code. written code ≡ record { instructions = []; brackets = []; loops = 0 }) }
    {
        Ok(Code {
            insns: Vec::with_capacity(alloc, FEW)?,
            brackets: Vec::new(alloc),
            loops: 0,
        })
    }

    /// Writes an instruction behind the others. `OutOfMemory` is the only error.
    pub(crate) fn push(&mut self, insn: Insn) -> Result<(), Error>
        ensures ok { OnOk result (written self.new ≡ with (written self.old) (instruction insn ∷ [])) }
        ensures err { IfErr result (MayRefuse 0 0) }
    {
        self.insns.push(insn)?;
        Ok(())
    }

    /// Writes an instruction that fails.
    #[inline(never)]
    fn push_fail(&mut self) -> Result<(), AllocError>
        ensures { OnOk result (written self.new ≡ with (written self.old) (fail ∷ [])) }
    {
        Ok(self.insns.push(Insn::JustFail)?)
    }

    /// Writes the end of what a lookaround or an atomic group holds.
    #[inline(never)]
    pub(crate) fn push_goal(&mut self) -> Result<(), AllocError>
        ensures { OnOk result (written self.new ≡ with (written self.old) (goal ∷ [])) }
    {
        Ok(self.insns.push(Insn::Goal)?)
    }

    /// Writes where a group begins.
    #[inline(never)]
    pub(crate) fn begin_group(&mut self, id: CaptureGroupID) -> Result<(), AllocError>
        ensures { OnOk result (written self.new ≡ with (written self.old) (begin_group id ∷ [])) }
    {
        Ok(self.insns.push(Insn::BeginCaptureGroup(id))?)
    }

    /// Writes where a group ends.
    #[inline(never)]
    pub(crate) fn end_group(&mut self, id: CaptureGroupID) -> Result<(), AllocError>
        ensures { OnOk result (written self.new ≡ with (written self.old) (end_group id ∷ [])) }
    {
        Ok(self.insns.push(Insn::EndCaptureGroup(id))?)
    }

    /// Writes the end of an iteration of the repetition that begins at an address.
    #[inline(never)]
    pub(crate) fn push_again(&mut self, begin: u32) -> Result<(), AllocError>
        ensures { OnOk result (written self.new ≡ with (written self.old) (loop_again begin ∷ [])) }
    {
        Ok(self.insns.push(Insn::LoopAgain { begin })?)
    }

    /// Writes a repetition of what the next instruction takes.
    #[inline(never)]
    pub(crate) fn push_single_loop(&mut self, quant: &Quantifier) -> Result<(), AllocError>
        ensures { OnOk result (written self.new
            ≡ with (written self.old) (single_loop quant.now.min (most quant.now) quant.now.greedy ∷ [])) }
    {
        Ok(
            self.insns.push(Insn::Loop1CharBody {
                min_iters: quant.min,
                max_iters: quant.most(),
                greedy: quant.greedy,
            })?,
        )
    }

    /// Writes instructions behind the others. `OutOfMemory` is the only error.
    pub(crate) fn append(&mut self, mut insns: Vec<Insn>) -> Result<(), Error>
        ensures ok { OnOk result (written self.new ≡ with (written self.old) (map instruction insns.items)) }
        ensures err { IfErr result (MayRefuse 0 0) }
    {
        self.insns.append(&mut insns)?;
        Ok(())
    }

    /// Resets groups, from the first up to before the last. `OutOfMemory` is the only error.
    pub(crate) fn push_resets(
        &mut self,
        first: CaptureGroupID,
        last: CaptureGroupID,
    ) -> Result<(), Error>
        ensures ok { OnOk result (written self.new ≡ with (written self.old) (resets first (last - first))) }
        ensures err { IfErr result (MayRefuse 0 0) }
    {
        for group in first..last {
            self.push(Insn::ResetCaptureGroup(group))?;
        }
        Ok(())
    }

    /// The address of the next instruction. It errs with `TooLarge` where that is past `u32::MAX`.
    pub(crate) fn next_address(&self) -> Result<u32, Error>
        ensures ok { IfOk result (λ address. address ≡ length (written self.now).instructions) }
        ensures err { IfErr result (MayRefuse (length (written self.now).instructions) 0) }
    {
        u32::try_from(self.insns.len()).map_err(|_| Error::TooLarge)
    }

    /// The address of the instruction behind the next `more`. It errs with `TooLarge` where that is past `u32::MAX`.
    pub(crate) fn address_behind(&self, more: usize) -> Result<u32, Error>
        ensures ok { IfOk result (λ address. address ≡ length (written self.now).instructions + more) }
        ensures err { IfErr result (MayRefuse (length (written self.now).instructions + more) 0) }
    {
        u32::try_from(self.insns.len().saturating_add(more)).map_err(|_| Error::TooLarge)
    }

    /// Keeps a place for an instruction that is written later, and answers its address. It errs with `TooLarge` where that is
    /// past `u32::MAX`, and with `OutOfMemory`.
    pub(crate) fn reserve(&mut self) -> Result<u32, Error>
        ensures address { IfOk result (λ address. address ≡ length (written self.old).instructions) }
        ensures kept { OnOk result (written self.new ≡ with (written self.old) (fail ∷ [])) }
        ensures err { IfErr result (MayRefuse (length (written self.old).instructions) 0) }
    {
        let address = self.next_address()?;
        self.push_fail()?;
        Ok(address)
    }

    /// Writes an instruction in the place of the one at an address.
    pub(crate) fn change(&mut self, address: u32, insn: Insn)
        requires { address < length (written self.old).instructions }
        ensures { written self.new ≡ changed (written self.old) address (instruction insn) }
    {
        self.insns[address as usize] = insn;
    }

    /// Writes a repetition in the place of the instruction at an address.
    #[inline(never)]
    pub(crate) fn enter_loop(
        &mut self,
        address: u32,
        loop_id: LoopID,
        quant: &Quantifier,
        exit: u32,
    )
        requires { address < length (written self.old).instructions }
        ensures { written self.new ≡ changed (written self.old) address (enter_loop (record {
          loop_id = loop_id;
          least = quant.now.min;
          most = most quant.now;
          greedy = quant.now.greedy;
          exit = exit;
        })) }
    {
        let fields = LoopFields {
            loop_id,
            min_iters: quant.min,
            max_iters: quant.most(),
            greedy: quant.greedy,
            exit,
        };
        self.change(address, Insn::EnterLoop(fields));
    }

    /// Writes at some addresses, from the last on, jumps to the end. It errs with `TooLarge` where the end has no address.
    pub(crate) fn close(&mut self, mut jumps: Vec<u32>) -> Result<(), Error>
        requires { All (λ j. j < length (written self.old).instructions) jumps.items }
        ensures ok { OnOk result (written self.new ≡ closed (written self.old) jumps.items (length (written self.old).instructions)) }
        ensures err { IfErr result (MayRefuse (length (written self.old).instructions) 0) }
    {
        let target = self.next_address()?;
        while let Some(jump) = jumps.pop() {
            self.change(jump, Insn::Jump { target });
        }
        Ok(())
    }

    /// Adds a bracket, and answers its index. `OutOfMemory` is the only error.
    pub(crate) fn add_bracket(&mut self, contents: BracketContents) -> Result<usize, Error>
        ensures index { IfOk result (λ index. index ≡ length (written self.old).brackets) }
        ensures added { OnOk result (written self.new
            ≡ record (written self.old) { brackets = (written self.old).brackets ++ bracket_ends contents ∷ [] }) }
        ensures err { IfErr result (MayRefuse 0 0) }
    {
        let index = self.brackets.len();
        self.brackets.push(contents)?;
        Ok(index)
    }

    /// The number of the next loop. It errs with `TooLarge` where 65535 loops begin already.
    pub(crate) fn next_loop(&mut self) -> Result<LoopID, Error>
        ensures id { IfOk result (λ id. id ≡ (written self.old).loops) }
        ensures counted { OnOk result (written self.new ≡ record (written self.old) { loops = (written self.old).loops + 1 }) }
        ensures err { IfErr result (MayRefuse 0 ((written self.old).loops + 1)) }
    {
        let id = self.loops;
        self.loops = id.checked_add(1).ok_or(Error::TooLarge)?;
        Ok(id)
    }
}
