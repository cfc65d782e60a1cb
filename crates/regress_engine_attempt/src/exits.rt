//! The exits of one-character loops, where it is remembered which of them fail.
ghost use Rattle.std.specs.Prelude.{◌≡◌, ◌⊎◌, ◌+◌, ◌-◌, ◌<◌, ◌≤◌, ℕ, true, false, length, map, IfOk, IfSome, OnOk};
ghost use Rattle.regress_engine_insn.specs.InsnViews.{instruction};
ghost use Rattle.regress_engine_insn.specs.Instructions.{Stands, single_loop};
ghost use Rattle.regress_engine_code.specs.Standing.{program_of};
ghost use Rattle.regress_engine_input.specs.Views.{input_of, reading_of};
ghost use Rattle.regress_engine_runs.specs.Meets.{IsAtPlace};
ghost use Rattle.regress_engine_runs.specs.UndoStack.{give_back, take_on};
ghost use Rattle.regress_engine_search.specs.Ready.{IsBody};
ghost use Rattle.regress_engine_search.specs.Search.{Suits};
ghost use Rattle.regress_engine_undo.specs.Held.{held, pushed};
ghost use Rattle.regress_engine_memory.specs.Held.{FailsWith};
ghost use Rattle.regress_engine_memory.specs.Remembered.{keyed_of};
ghost use Rattle.regress_engine_memory.specs.TableViews.{table_of};
ghost use Rattle.regress_engine_attempt.specs.Attempts.{world};
ghost use Rattle.regress_engine_trying.specs.Passing.{Passes, TakesUpMore, UndoesOver};
ghost use Rattle.regress_engine_trying.specs.Remembering.{AreOf, Drops, GivesUpTo, IsBodyOf, RestFails, TakesUp};
ghost use Rattle.regress_engine_trying.specs.Trying.{Does, IsHeldIn, Undoes};

use crate::attempt::Attempt;
use crate::counts::Counts;
use regress_engine_advance::{after_times, beside, is_dead, taken_first};
use regress_engine_insn::Insn;
use regress_engine_memory::Failures;
use regress_engine_search::ExecutorInput;
use regress_engine_trying::Exit;
use regress_engine_undo::{Memory, Spot, Undo};
use std::alloc::AllocError;

impl<'a, Input: ExecutorInput> Attempt<'a, Input> {
    /// What a one-character loop repeats that goes on at an address, if one does.
    fn body_before(&self, at: usize) -> Option<&Insn>
        requires suits { Suits (program_of self.now.program.now) (Input.view self.now.input) }
        ensures { IfSome result (λ body. IsBodyOf (world Input.view self.now) at (instruction body.now)) }
    {
        let insns = self.program.insns();
        if at < 2 || at - 1 >= insns.len() {
            return None;
        }
        if let Insn::Loop1CharBody { .. } = &insns[at - 2] {
            return Some(&insns[at - 1]);
        }
        None
    }

    /// Whether an exit of a one-character loop surely fails: what stands there tells it, or it is known.
    fn exit_fails(&self, exit: &Spot, memory: &Memory, failures: &Failures) -> bool
        requires suits { Suits (program_of self.now.program.now) (Input.view self.now.input) }
        requires sound { IsHeldIn (world Input.view self.now) (held memory.now) }
        requires so { AreOf (world Input.view self.now) failures.now }
        requires place { IsAtPlace (reading_of (Input.view self.now.input)) exit.now.offset }
        ensures { result ≡ true → FailsWith (program_of self.now.program.now) (input_of (Input.view self.now.input)) (keyed_of (table_of failures.now.table)) exit.now (held memory.now).loops }
    {
        let (at, forward, offset) = (exit.at, exit.forward, exit.offset);
        let stands = match taken_first(self.program, at) {
            Some(insn) => self.once(insn, forward, &memory.groups, offset).is_some(),
            None => !is_dead(self.program, &self.input, at, forward, offset),
        };
        if !stands {
            return true;
        }
        failures.is_known(exit, memory.loops())
    }

    /// Whether no exit of a one-character loop follows one, or it is known that all that follow fail.
    fn is_rest_known(&self, body: &Insn, exit: &Spot, memory: &Memory, failures: &Failures) -> bool
        requires suits { Suits (program_of self.now.program.now) (Input.view self.now.input) }
        requires sound { IsHeldIn (world Input.view self.now) (held memory.now) }
        requires so { AreOf (world Input.view self.now) failures.now }
        requires body { IsBodyOf (world Input.view self.now) exit.now.at (instruction body.now) }
        requires place { IsAtPlace (reading_of (Input.view self.now.input)) exit.now.offset }
        ensures { result ≡ true → RestFails (world Input.view self.now) failures.now (instruction body.now) exit.now (held memory.now) }
    {
        let Some(next) = self.once(body, exit.forward, &memory.groups, exit.offset) else {
            return true;
        };
        let further = Spot {
            at: exit.at,
            offset: next,
            forward: exit.forward,
        };
        failures.are_exits_known(&further, memory.loops())
    }

    /// Learns that all exits of a one-character loop from one on fail, where it fails, and that of the next one is known, if
    /// there is one. It answers whether that is new, or whether it is the first of some, where it was known before.
    fn learn_exit(
        &self,
        body: &Insn,
        exit: &Spot,
        is_first: bool,
        memory: &Memory,
        failures: &mut Failures,
    ) -> bool
        requires suits { Suits (program_of self.now.program.now) (Input.view self.now.input) }
        requires sound { IsHeldIn (world Input.view self.now) (held memory.now) }
        requires so { AreOf (world Input.view self.now) failures.old }
        requires body { IsBodyOf (world Input.view self.now) exit.now.at (instruction body.now) }
        requires place { IsAtPlace (reading_of (Input.view self.now.input)) exit.now.offset }
        ensures { AreOf (world Input.view self.now) failures.new }
    {
        if failures.are_exits_known(exit, memory.loops()) {
            return is_first;
        }
        if !self.exit_fails(exit, memory, failures) {
            return false;
        }
        if !self.is_rest_known(body, exit, memory, failures) {
            return false;
        }
        failures.learn_exits(exit, memory.loops());
        failures.are_exits_known(exit, memory.loops())
    }

    /// Learns of the exits of a one-character loop from one back that all from there on fail, as far as they do.
    fn learn_back(&self, body: &Insn, from: &Spot, memory: &Memory, failures: &mut Failures)
        requires suits { Suits (program_of self.now.program.now) (Input.view self.now.input) }
        requires sound { IsHeldIn (world Input.view self.now) (held memory.now) }
        requires so { AreOf (world Input.view self.now) failures.old }
        requires body { IsBodyOf (world Input.view self.now) from.now.at (instruction body.now) }
        requires place { IsAtPlace (reading_of (Input.view self.now.input)) from.now.offset }
        ensures { AreOf (world Input.view self.now) failures.new }
    {
        let last = self.text_len();
        let mut offset = from.offset;
        for passed in 0..last {
            let exit = Spot {
                at: from.at,
                offset,
                forward: from.forward,
            };
            if !self.learn_exit(body, &exit, passed == 0, memory, failures) {
                return;
            }
            let Some((_, before)) = beside(&self.input, !from.forward, offset) else {
                return;
            };
            offset = before;
        }
    }

    /// Learns of the exits of a one-character loop that lie behind an offset, one that failed first, and from there back.
    fn learn_behind(
        &self,
        at: usize,
        far: usize,
        forward: bool,
        memory: &Memory,
        failures: &mut Failures,
    )
        requires suits { Suits (program_of self.now.program.now) (Input.view self.now.input) }
        requires sound { IsHeldIn (world Input.view self.now) (held memory.now) }
        requires so { AreOf (world Input.view self.now) failures.old }
        requires place { IsAtPlace (reading_of (Input.view self.now.input)) far }
        ensures { AreOf (world Input.view self.now) failures.new }
    {
        let Some(body) = self.body_before(at) else {
            return;
        };
        let last = Spot {
            at,
            offset: far,
            forward,
        };
        let Some(next) = self.once(body, forward, &memory.groups, far) else {
            self.learn_back(body, &last, memory, failures);
            return;
        };
        let failed = Spot {
            at,
            offset: next,
            forward,
        };
        self.learn_back(body, &failed, memory, failures);
    }

    /// Records that the exit at a spot is tried, so that it is known to fail where it does, also where too little text is left there.
    fn record_exit(&self, memory: &mut Memory, spot: &Spot) -> Result<(), AllocError>
        requires sound { IsHeldIn (world Input.view self.now) (held memory.old) }
        ensures leads { OnOk result (Drops (world Input.view self.now) spot.now (held memory.old) (held memory.new) false) }
        ensures sound { OnOk result (IsHeldIn (world Input.view self.now) (held memory.new)) }
    {
        memory.push(Undo::Tried {
            at: spot.at,
            offset: spot.offset,
        })?;
        Ok(())
    }

    /// What `give_back` does, where it is remembered which exits fail.
    pub(crate) fn give_back_known(
        &self,
        at: usize,
        near: usize,
        far: usize,
        memory: &mut Memory,
        failures: &mut Failures,
        spot: &mut Spot,
    ) -> Result<bool, AllocError>
        requires suits { Suits (program_of self.now.program.now) (Input.view self.now.input) }
        requires sound { IsHeldIn (world Input.view self.now) (pushed (give_back at near far) (held memory.old)) }
        requires so { AreOf (world Input.view self.now) failures.old }
        ensures leads { IfOk result (Undoes (world Input.view self.now) (give_back at near far) spot.old (held memory.old) spot.new (held memory.new)) }
        ensures sound { OnOk result (IsHeldIn (world Input.view self.now) (held memory.new)) }
        ensures rest { IfOk result (λ going. going ≡ false → (held memory.new).stack ≡ (held memory.old).stack) }
        ensures so { AreOf (world Input.view self.now) failures.new }
    {
        self.learn_behind(at, far, spot.forward, memory, failures);
        let mut spare = 0;
        let going = self.give_back(at, near, far, &mut spare, memory, spot)?;
        if going {
            self.record_exit(memory, spot)?;
        }
        Ok(going)
    }

    /// The first exit of a lazy one-character loop from an offset on that may lead on; where none does, the last one that was looked at.
    fn exit_ahead(
        &self,
        at: usize,
        offset: usize,
        left: usize,
        forward: bool,
        memory: &Memory,
        failures: &Failures,
    ) -> Exit
        requires suits { Suits (program_of self.now.program.now) (Input.view self.now.input) }
        requires sound { IsHeldIn (world Input.view self.now) (held memory.now) }
        requires so { AreOf (world Input.view self.now) failures.now }
        requires body { IsBody (program_of self.now.program.now) (Input.view self.now.input) at offset }
        ensures leads { TakesUp (world Input.view self.now) forward at offset left result (held memory.now) }
        ensures over { (result.offset ≡ offset) ⊎ TakesUpMore (world Input.view self.now) forward at offset left result (held memory.now) }
        ensures body { IsBody (program_of self.now.program.now) (Input.view self.now.input) at result.offset }
    {
        let body = self.instruction(at - 1);
        let mut near = offset;
        let mut rest = left;
        'places: loop {
            let exit = Spot {
                at,
                offset: near,
                forward,
            };
            if failures.are_exits_known(&exit, memory.loops()) {
                return Exit {
                    offset: near,
                    left: rest,
                    may_go: false,
                };
            }
            if !self.exit_fails(&exit, memory, failures) {
                return Exit {
                    offset: near,
                    left: rest,
                    may_go: true,
                };
            }
            if rest == 0 {
                return Exit {
                    offset: near,
                    left: rest,
                    may_go: false,
                };
            }
            let Some(next) = self.once(body, forward, &memory.groups, near) else {
                return Exit {
                    offset: near,
                    left: rest,
                    may_go: false,
                };
            };
            near = next;
            rest -= 1;
        }
    }

    /// What `take_on` does, where it is remembered which exits fail.
    pub(crate) fn take_on_known(
        &self,
        at: usize,
        from: usize,
        offset: usize,
        left: usize,
        memory: &mut Memory,
        failures: &mut Failures,
        counts: &mut Counts,
        spot: &mut Spot,
    ) -> Result<bool, AllocError>
        requires suits { Suits (program_of self.now.program.now) (Input.view self.now.input) }
        requires sound { IsHeldIn (world Input.view self.now) (pushed (take_on at offset left) (held memory.old)) }
        requires so { AreOf (world Input.view self.now) failures.old }
        requires from { IsAtPlace (reading_of (Input.view self.now.input)) from }
        ensures leads { IfOk result (Undoes (world Input.view self.now) (take_on at offset left) spot.old (held memory.old) spot.new (held memory.new)) }
        ensures sound { OnOk result (IsHeldIn (world Input.view self.now) (held memory.new)) }
        ensures rest { IfOk result (λ going. going ≡ false → (held memory.new).stack ≡ (held memory.old).stack) }
        ensures counted { OnOk result (Passes (Input.view self.now.input) 1 counts.old.more counts.new.more) }
        ensures over { IfOk result (λ going. (from ≡ offset → counts.new.more ≤ counts.old.more) ⊎ UndoesOver (world Input.view self.now) (take_on at offset left) spot.old (held memory.old) spot.new (held memory.new) going) }
        ensures so { AreOf (world Input.view self.now) failures.new }
    {
        let exit = self.exit_ahead(at, offset, left, spot.forward, memory, failures);
        if !exit.may_go {
            counts.pass(from, exit.offset);
            let last = Spot {
                at,
                offset: exit.offset,
                forward: spot.forward,
            };
            self.learn_back(self.instruction(at - 1), &last, memory, failures);
            return Ok(false);
        }
        let going = self.take_on(at, from, exit.offset, exit.left, counts, memory, spot)?;
        if going {
            self.record_exit(memory, spot)?;
        }
        Ok(going)
    }

    /// How far a greedy one-character loop goes before its exits are known to fail; `None` where those from the near one on are.
    fn far_exit(
        &self,
        at: usize,
        near: usize,
        left: usize,
        forward: bool,
        memory: &Memory,
        failures: &Failures,
    ) -> Option<usize>
        requires suits { Suits (program_of self.now.program.now) (Input.view self.now.input) }
        requires sound { IsHeldIn (world Input.view self.now) (held memory.now) }
        requires so { AreOf (world Input.view self.now) failures.now }
        requires body { IsBody (program_of self.now.program.now) (Input.view self.now.input) at near }
        ensures leads { GivesUpTo (world Input.view self.now) forward at near left result (held memory.now) }
        ensures place { IfSome result (IsAtPlace (reading_of (Input.view self.now.input))) }
    {
        let body = self.instruction(at - 1);
        let mut far = near;
        let mut rest = left;
        let exit = Spot {
            at,
            offset: near,
            forward,
        };
        if failures.are_exits_known(&exit, memory.loops()) {
            return None;
        }
        'places: while rest > 0 {
            let Some(next) = self.once(body, forward, &memory.groups, far) else {
                return Some(far);
            };
            let further = Spot {
                at,
                offset: next,
                forward,
            };
            if failures.are_exits_known(&further, memory.loops()) {
                return Some(far);
            }
            far = next;
            rest -= 1;
        }
        Some(far)
    }

    /// What `repeat` does, where it is remembered which exits fail.
    pub(crate) fn repeat_known(
        &self,
        least: usize,
        most: usize,
        greedy: bool,
        memory: &mut Memory,
        failures: &mut Failures,
        counts: &mut Counts,
        spot: &mut Spot,
    ) -> Result<bool, AllocError>
        requires suits { Suits (program_of self.now.program.now) (Input.view self.now.input) }
        requires sound { IsHeldIn (world Input.view self.now) (held memory.old) }
        requires so { AreOf (world Input.view self.now) failures.old }
        requires order { least ≤ most }
        requires body { IsBody (program_of self.now.program.now) (Input.view self.now.input) (spot.old.at + 2) spot.old.offset }
        ensures leads { IfOk result (Does (world Input.view self.now) (single_loop least most greedy) spot.old (held memory.old) spot.new (held memory.new)) }
        ensures sound { OnOk result (IsHeldIn (world Input.view self.now) (held memory.new)) }
        ensures counted { OnOk result (Passes (Input.view self.now.input) 1 counts.old.more counts.new.more) }
        ensures so { AreOf (world Input.view self.now) failures.new }
    {
        let insn = self.instruction(spot.at + 1);
        let groups = &memory.groups;
        let from = spot.offset;
        let ahead = spot.forward;
        let Some(near) = after_times(self.program, &self.input, insn, least, ahead, groups, from)
        else {
            counts.pass(0, least.min(self.text_len()));
            return Ok(false);
        };
        let left = most - least;
        let at = spot.at + 2;
        if !greedy {
            let going = self.take_on_known(at, from, near, left, memory, failures, counts, spot)?;
            return Ok(going);
        }
        let Some(far) = self.far_exit(at, near, left, spot.forward, memory, failures) else {
            return Ok(false);
        };
        counts.pass(spot.offset, far);
        let going = self.give_back_known(at, near, far, memory, failures, spot)?;
        Ok(going)
    }
}
