//! One-character loops.
ghost use Rattle.std.specs.Prelude.{◌≡◌, ◌⊎◌, ◌+◌, ◌^◌, ◌<◌, ◌≤◌, true, IfOk, OnOk};
ghost use Rattle.regress_engine_insn.specs.Instructions.{Stands, goal, single_loop};
ghost use Rattle.regress_engine_insn.specs.InsnViews.{instruction};
ghost use Rattle.regress_engine_code.specs.Standing.{program_of};
ghost use Rattle.regress_engine_search.specs.Ready.{IsBody};
ghost use Rattle.regress_engine_search.specs.Search.{Suits};
ghost use Rattle.regress_engine_undo.specs.Held.{held};
ghost use Rattle.regress_engine_attempt.specs.Attempts.{world};
ghost use Rattle.regress_engine_attempt.specs.Loops.{Spares};
ghost use Rattle.regress_engine_trying.specs.Passing.{Passes};
ghost use Rattle.regress_engine_trying.specs.Trying.{Does, IsHeldIn};

use crate::attempt::Attempt;
use crate::counts::Counts;
use regress_engine_advance::{after_times, as_far};
use regress_engine_insn::Insn;
use regress_engine_search::ExecutorInput;
use regress_engine_singles::{is_possessive, is_stopped};
use regress_engine_undo::{Memory, Spot};
use std::alloc::AllocError;

impl<'a, Input: ExecutorInput> Attempt<'a, Input> {
    /// Whether a goal stands at an address.
    #[inline]
    pub(crate) fn is_goal(&self, at: usize) -> bool
        ensures { result ≡ true → Stands (program_of self.now.program.now) at goal }
    {
        matches!(self.program.insns().get(at), Some(Insn::Goal))
    }

    /// Whether a one-character loop at an address gives nothing back, read forward: as is known of the program, or since a goal stands behind it.
    #[inline(always)]
    fn spares(&self, at: usize) -> bool
        requires suits { Suits (program_of self.now.program.now) (Input.view self.now.input) }
        requires room { at + 2 < 2 ^ 64 }
        ensures { result ≡ true → Spares (program_of self.now.program.now) (Input.view self.now.input) at }
    {
        is_possessive(self.program, at) || self.is_goal(at + 2)
    }

    /// Does a greedy one-character loop that may take nothing and gives nothing back, read forward. It is apart, with no room for what others need.
    #[inline(never)]
    fn repeat_all(
        &self,
        insn: &Insn,
        most: usize,
        counts: &mut Counts,
        memory: &Memory,
        spot: &mut Spot,
    )
        requires suits { Suits (program_of self.now.program.now) (Input.view self.now.input) }
        requires sound { IsHeldIn (world Input.view self.now) (held memory.now) }
        requires stands { Stands (program_of self.now.program.now) (spot.old.at + 1) (instruction insn.now) }
        requires body { IsBody (program_of self.now.program.now) (Input.view self.now.input) (spot.old.at + 2) spot.old.offset }
        requires spares { Spares (program_of self.now.program.now) (Input.view self.now.input) spot.old.at }
        requires forward { spot.old.forward ≡ true }
        requires room { spot.old.at + 2 < 2 ^ 64 }
        ensures leads { Does (world Input.view self.now) (single_loop 0 most true) spot.old (held memory.now) spot.new (held memory.now) true }
        ensures counted { Passes (Input.view self.now.input) 1 counts.old.more counts.new.more }
    {
        let near = spot.offset;
        let groups = &memory.groups;
        let far = as_far(self.program, &self.input, insn, most, true, groups, near);
        counts.pass(near, far);
        counts.spare = counts.spare.saturating_sub(far.abs_diff(near) / 8);
        spot.at += 2;
        spot.offset = far;
    }

    /// Does any other greedy one-character loop that may take nothing, read forward. It is apart, with no room for what others need.
    #[inline(never)]
    fn repeat_back(
        &self,
        insn: &Insn,
        most: usize,
        counts: &mut Counts,
        memory: &mut Memory,
        spot: &mut Spot,
    ) -> Result<bool, AllocError>
        requires suits { Suits (program_of self.now.program.now) (Input.view self.now.input) }
        requires sound { IsHeldIn (world Input.view self.now) (held memory.old) }
        requires stands { Stands (program_of self.now.program.now) (spot.old.at + 1) (instruction insn.now) }
        requires body { IsBody (program_of self.now.program.now) (Input.view self.now.input) (spot.old.at + 2) spot.old.offset }
        requires forward { spot.old.forward ≡ true }
        ensures leads { IfOk result (Does (world Input.view self.now) (single_loop 0 most true) spot.old (held memory.old) spot.new (held memory.new)) }
        ensures sound { OnOk result (IsHeldIn (world Input.view self.now) (held memory.new)) }
        ensures counted { OnOk result (Passes (Input.view self.now.input) 1 counts.old.more counts.new.more) }
    {
        let near = spot.offset;
        let at = spot.at + 2;
        let groups = &memory.groups;
        let far = as_far(self.program, &self.input, insn, most, true, groups, near);
        if near == far {
            spot.at = at;
            spot.offset = far;
            return Ok(true);
        }
        counts.pass(near, far);
        let going = self.give_back(at, near, far, &mut counts.spare, memory, spot)?;
        Ok(going)
    }

    /// Does any one-character loop, as `repeat` does.
    fn repeat_ways(
        &self,
        least: usize,
        most: usize,
        greedy: bool,
        counts: &mut Counts,
        memory: &mut Memory,
        spot: &mut Spot,
    ) -> Result<bool, AllocError>
        requires suits { Suits (program_of self.now.program.now) (Input.view self.now.input) }
        requires sound { IsHeldIn (world Input.view self.now) (held memory.old) }
        requires order { least ≤ most }
        requires body { IsBody (program_of self.now.program.now) (Input.view self.now.input) (spot.old.at + 2) spot.old.offset }
        ensures leads { IfOk result (Does (world Input.view self.now) (single_loop least most greedy) spot.old (held memory.old) spot.new (held memory.new)) }
        ensures sound { OnOk result (IsHeldIn (world Input.view self.now) (held memory.new)) }
        ensures counted { OnOk result (Passes (Input.view self.now.input) 1 counts.old.more counts.new.more) }
    {
        let insn = self.instruction(spot.at + 1);
        let groups = &memory.groups;
        let from = spot.offset;
        let ahead = spot.forward;
        let Some(near) = after_times(self.program, &self.input, insn, least, ahead, groups, from)
        else {
            counts.pass(0, least.min(self.text_len()));
            return Ok(false);
        };
        let left = most - least;
        let at = spot.at + 2;
        if greedy {
            let far = as_far(self.program, &self.input, insn, left, ahead, groups, near);
            counts.pass(spot.offset, far);
            if spot.forward && is_possessive(self.program, spot.at) {
                counts.spare = counts.spare.saturating_sub(far.abs_diff(near) / 8);
                spot.at = at;
                spot.offset = far;
                return Ok(true);
            }
            if near == far || self.is_goal(at) {
                spot.at = at;
                spot.offset = far;
                return Ok(true);
            }
            let going = self.give_back(at, near, far, &mut counts.spare, memory, spot)?;
            return Ok(going);
        }
        let going = self.take_on(at, spot.offset, near, left, counts, memory, spot)?;
        Ok(going)
    }

    /// Does a one-character loop: goes on at one of its ways, and later at the others. It answers whether there is any.
    #[inline(always)]
    pub(crate) fn repeat(
        &self,
        least: usize,
        most: usize,
        greedy: bool,
        counts: &mut Counts,
        memory: &mut Memory,
        spot: &mut Spot,
    ) -> Result<bool, AllocError>
        requires suits { Suits (program_of self.now.program.now) (Input.view self.now.input) }
        requires sound { IsHeldIn (world Input.view self.now) (held memory.old) }
        requires order { least ≤ most }
        requires body { IsBody (program_of self.now.program.now) (Input.view self.now.input) (spot.old.at + 2) spot.old.offset }
        ensures leads { IfOk result (Does (world Input.view self.now) (single_loop least most greedy) spot.old (held memory.old) spot.new (held memory.new)) }
        ensures sound { OnOk result (IsHeldIn (world Input.view self.now) (held memory.new)) }
        ensures counted { OnOk result (Passes (Input.view self.now.input) 1 counts.old.more counts.new.more) }
    {
        let insn = self.instruction(spot.at + 1);
        if greedy && least == 0 && spot.forward {
            if is_stopped(self.program, &self.input, insn, spot.offset) {
                spot.at += 2;
                return Ok(true);
            }
            if self.spares(spot.at) {
                self.repeat_all(insn, most, counts, memory, spot);
                return Ok(true);
            }
            return self.repeat_back(insn, most, counts, memory, spot);
        }
        self.repeat_ways(least, most, greedy, counts, memory, spot)
    }
}
