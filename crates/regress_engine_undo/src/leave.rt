//! How a goal is left: that of a lookaround or an atomic group, or that of the whole program.
ghost use Rattle.std.specs.Prelude.{◌≡◌, ◌<◌, ◌≤◌, ℕ, map, length, option_map, IfOk, OnOk};
ghost use Rattle.regress_engine_insn.specs.Instructions.{Program};
ghost use Rattle.regress_engine_input.specs.Views.{View};
ghost use Rattle.regress_engine_runs.specs.States.{mixed};
ghost use Rattle.regress_engine_search.specs.StateViews.{marks_of};
ghost use Rattle.regress_engine_undo.specs.Held.{held, undo_of, pushed, frame_of};
ghost use Rattle.regress_engine_undo.specs.Sound.{IsHeld};
ghost use Rattle.regress_engine_undo.specs.Tasks.{StaysSound};
ghost use Rattle.regress_engine_undo.specs.Leaving.{IsSameWork, Leaves, LeavesSound, PutsBack, StaysUnwound, Unwinds};

use crate::memory::Memory;
use crate::undo::{Frame, Spot, Undo};
use regress_front_core::{CaptureGroupID, GroupData};
use std::alloc::AllocError;

impl Memory {
    /// Undoes a record without going on, or answers the frame that it is.
    fn put_back(&mut self, undo: Undo) -> Option<Frame>
        requires { (program : Program) × (v : View) × IsHeld program v (pushed (undo_of undo) (held self.old)) }
        ensures rest { PutsBack (pushed (undo_of undo) (held self.old)) (option_map frame_of result) (held self.new) }
        ensures sound { StaysUnwound (pushed (undo_of undo) (held self.old)) (option_map frame_of result) (held self.new) }
        ensures stack { (held self.new).stack ≡ (held self.old).stack }
    {
        match undo {
            Undo::OldLoop { id, data } => {
                self.restore_loop(id, data);
                None
            }
            Undo::OldGroup { group, data } => {
                self.restore_group(group, data);
                None
            }
            Undo::Resume { .. } => None,
            Undo::Iterate { .. } => None,
            Undo::GiveBack { .. } => None,
            Undo::TakeOn { .. } => None,
            Undo::Submatch(frame) => Some(frame),
            Undo::Tried { .. } => None,
        }
    }

    /// Undoes records down to the innermost lookaround or atomic group whose contents are tried, or all of them where there is
    /// none.
    fn unwind(&mut self) -> Option<Frame>
        requires { (program : Program) × (v : View) × IsHeld program v (held self.old) }
        ensures rest { Unwinds (held self.old) (option_map frame_of result) (held self.new) }
        ensures sound { StaysUnwound (held self.old) (option_map frame_of result) (held self.new) }
    {
        while let Some(undo) = self.pop() {
            if let Some(frame) = self.put_back(undo) {
                return Some(frame);
            }
        }
        None
    }

    /// Takes groups from others, from the first up to before the last, and records the old ones.
    fn carry(
        &mut self,
        first: CaptureGroupID,
        last: CaptureGroupID,
        others: &[GroupData<usize>],
    ) -> Result<(), AllocError>
        requires there { (k : ℕ) → first ≤ k → k < last → k < length (held self.old).groups }
        requires count { length others.now ≡ length (held self.old).groups }
        ensures loops { OnOk result ((held self.new).loops ≡ (held self.old).loops) }
        ensures groups { OnOk result ((held self.new).groups ≡ mixed 0 first last (map marks_of others.now) (held self.old).groups) }
        ensures same { OnOk result (IsSameWork (held self.old) (held self.new)) }
        ensures sound { OnOk result (StaysSound (held self.old) (held self.new)) }
    {
        for group in first..last {
            let marks = others[group as usize];
            self.write_group(group as usize, marks)?;
        }
        Ok(())
    }

    /// Leaves a goal: that of a lookaround or an atomic group, and answers whether the run continues behind it, or that of the
    /// whole program, and answers `None`. `answer` is room for the groups that are carried out. It errs where memory is refused.
    ///
    /// ```rust
    /// let left = memory.leave(&mut answer, &mut spot)?;
    /// ```
    #[inline(always)]
    pub fn leave(
        &mut self,
        answer: &mut Vec<GroupData<usize>>,
        spot: &mut Spot,
    ) -> Result<Option<bool>, AllocError>
        requires { (program : Program) × (v : View) × IsHeld program v (held self.old) }
        ensures leaves { IfOk result (λ left. Leaves spot.old (held self.old) left spot.new (held self.new)) }
        ensures sound { IfOk result (λ left. LeavesSound (held self.old) left (held self.new)) }
    {
        if self.stack.as_slice().is_empty() {
            return Ok(None);
        }
        answer.clear();
        answer.extend_from_slice(&self.groups)?;
        let Some(frame) = self.unwind() else {
            self.groups.clear();
            self.groups.extend_from_slice(answer)?;
            return Ok(None);
        };
        spot.forward = frame.spot.forward;
        if frame.kind.is_negated() {
            return Ok(Some(false));
        }
        self.carry(frame.first, frame.last, answer)?;
        spot.at = frame.continuation;
        spot.offset = frame.kind.end_offset(frame.spot.offset, spot.offset);
        Ok(Some(true))
    }
}
