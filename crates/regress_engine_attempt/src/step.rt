//! One step of a run.
ghost use Rattle.std.specs.Prelude.{◌≡◌, ◌+◌, ◌^◌, ◌<◌, true, length, IfOk, IfSome, OnOk};
ghost use Rattle.regress_engine_insn.specs.Instructions.{Instruction, Stands, loop_again};
ghost use Rattle.regress_engine_insn.specs.InsnViews.{instruction};
ghost use Rattle.regress_engine_code.specs.Standing.{program_of};
ghost use Rattle.regress_engine_search.specs.Ready.{is_simple};
ghost use Rattle.regress_engine_undo.specs.Held.{held};
ghost use Rattle.regress_engine_search.specs.Search.{Suits};
ghost use Rattle.regress_engine_attempt.specs.Attempts.{world};
ghost use Rattle.regress_engine_trying.specs.Passing.{Passes};
ghost use Rattle.regress_engine_trying.specs.Trying.{IsHeldIn, ReadsAt, ReadsHere, ReadsOn, Steps};

use crate::attempt::Attempt;
use crate::counts::Counts;
use regress_engine_advance::{advance, is_dead, units_ahead};
use regress_engine_insn::Insn;
use regress_engine_search::ExecutorInput;
use regress_engine_undo::{Memory, Spot, begun, ended};
use regress_front_core::GroupData;
use std::alloc::AllocError;

impl<'a, Input: ExecutorInput> Attempt<'a, Input> {
    /// Does an instruction that changes nothing but the offset, and answers whether it leads anywhere.
    #[inline(always)]
    fn take(&self, insn: &Insn, memory: &Memory, spot: &mut Spot) -> bool
        requires suits { Suits (program_of self.now.program.now) (Input.view self.now.input) }
        requires sound { IsHeldIn (world Input.view self.now) (held memory.now) }
        requires simple { is_simple (instruction insn.now) ≡ true }
        requires stands { Stands (program_of self.now.program.now) spot.old.at (instruction insn.now) }
        requires room { spot.old.at + 1 < 2 ^ 64 }
        requires reads { ReadsHere (world Input.view self.now) spot.old (held memory.now) (instruction insn.now) }
        ensures { Steps (world Input.view self.now) spot.old (held memory.now) spot.new (held memory.now) (Some result) }
    {
        let forward = spot.forward;
        let groups = &memory.groups;
        let offset = spot.offset;
        let Some(next) = advance(self.program, &self.input, insn, forward, groups, offset) else {
            return false;
        };
        spot.at += 1;
        spot.offset = next;
        true
    }

    /// Counts what a back reference compares at most: what its group took.
    #[inline]
    fn count_reference(&self, group: usize, memory: &Memory, counts: &mut Counts)
        requires { group < length (held memory.now).groups }
        ensures { Passes (Input.view self.now.input) 1 counts.old.more counts.new.more }
    {
        let marks = memory.group_data(group);
        if let (Some(start), Some(end)) = (marks.start, marks.end) {
            let last = self.text_len();
            counts.pass(start.min(last), end.min(last));
        }
    }

    /// Ends an iteration of the repetition that begins at an address, and answers whether it continues.
    #[inline]
    fn again(&self, begin: usize, memory: &mut Memory, spot: &mut Spot) -> Result<bool, AllocError>
        requires suits { Suits (program_of self.now.program.now) (Input.view self.now.input) }
        requires sound { IsHeldIn (world Input.view self.now) (held memory.old) }
        requires stands { Stands (program_of self.now.program.now) spot.old.at (loop_again begin) }
        ensures leads { IfOk result (λ going. Steps (world Input.view self.now) spot.old (held memory.old) spot.new (held memory.new) (Some going)) }
        ensures sound { OnOk result (IsHeldIn (world Input.view self.now) (held memory.new)) }
    {
        match self.instruction(begin) {
            Insn::EnterLoop(repetition) => {
                let exit = repetition.exit as usize;
                let dead = is_dead(self.program, &self.input, exit, spot.forward, spot.offset);
                memory.again(repetition, begin, dead, spot)
            }
            _ => Ok(false),
        }
    }

    /// Does the instruction at a spot. It answers whether it continues, or `None` where that is the end of the run.
    #[inline(always)]
    pub(crate) fn step(
        &self,
        memory: &mut Memory,
        answer: &mut Vec<GroupData<usize>>,
        counts: &mut Counts,
        spot: &mut Spot,
    ) -> Result<Option<bool>, AllocError>
        requires suits { Suits (program_of self.now.program.now) (Input.view self.now.input) }
        requires sound { IsHeldIn (world Input.view self.now) (held memory.old) }
        requires stands { (i : Instruction) × Stands (program_of self.now.program.now) spot.old.at i }
        requires reads { ReadsAt (world Input.view self.now) spot.old (held memory.old) }
        requires later { ReadsOn (world Input.view self.now) spot.old (held memory.old) }
        ensures leads { IfOk result (Steps (world Input.view self.now) spot.old (held memory.old) spot.new (held memory.new)) }
        ensures sound { IfOk result (λ left. IfSome left (λ going. IsHeldIn (world Input.view self.now) (held memory.new))) }
        ensures counted { OnOk result (Passes (Input.view self.now.input) 1 counts.old.more counts.new.more) }
    {
        let insn = self.instruction(spot.at);
        match insn {
            Insn::Goal if !self.program.has_submatches() => Ok(None),
            Insn::Goal => memory.leave(answer, spot),
            Insn::Jump { target } => {
                spot.at = *target as usize;
                Ok(Some(true))
            }
            Insn::Alt { secondary } => {
                let second = *secondary as usize;
                if self.is_turn_at(spot.at) {
                    self.choose(second, counts, memory, spot)?;
                    return Ok(Some(true));
                }
                let way = self.way_of_two(spot.at, second, spot.forward, spot.offset);
                if way != spot.at {
                    spot.at = way;
                    return Ok(Some(true));
                }
                memory.fork(second, spot)?;
                Ok(Some(true))
            }
            Insn::BeginCaptureGroup(group) => {
                let marks = begun(spot, memory.group_data(*group as usize));
                memory.mark(*group as usize, marks, spot)?;
                Ok(Some(true))
            }
            Insn::EndCaptureGroup(group) => {
                let marks = ended(spot, memory.group_data(*group as usize));
                memory.mark(*group as usize, marks, spot)?;
                Ok(Some(true))
            }
            Insn::ResetCaptureGroup(group) => {
                memory.mark(*group as usize, GroupData::new(), spot)?;
                Ok(Some(true))
            }
            Insn::EnterLoop(repetition) => {
                let exit = repetition.exit as usize;
                let dead = is_dead(self.program, &self.input, exit, spot.forward, spot.offset);
                let ahead = units_ahead(&self.input, spot.forward, spot.offset);
                let going = memory.enter(repetition, repetition.surplus(ahead), dead, spot)?;
                Ok(Some(going))
            }
            Insn::LoopAgain { begin } => { Ok(Some(self.again(*begin as usize, memory, spot)?)) }
            Insn::Loop1CharBody {
                min_iters,
                max_iters,
                greedy,
            } => {
                let going = self.repeat(*min_iters, *max_iters, *greedy, counts, memory, spot)?;
                Ok(Some(going))
            }
            Insn::Lookahead {
                negate,
                start_group,
                end_group,
                continuation,
            } => {
                let target = *continuation as usize;
                memory.begin_around(*negate, false, *start_group, *end_group, target, spot)?;
                Ok(Some(true))
            }
            Insn::Lookbehind {
                negate,
                start_group,
                end_group,
                continuation,
            } => {
                let target = *continuation as usize;
                memory.begin_around(*negate, true, *start_group, *end_group, target, spot)?;
                Ok(Some(true))
            }
            Insn::Atomic {
                start_group,
                end_group,
                continuation,
            } => {
                memory.begin_atomic(*start_group, *end_group, *continuation as usize, spot)?;
                Ok(Some(true))
            }
            _ => {
                if let Insn::BackRef { group, .. } = insn {
                    self.count_reference(*group as usize, memory, counts);
                }
                Ok(Some(self.take(insn, memory, spot)))
            }
        }
    }
}
