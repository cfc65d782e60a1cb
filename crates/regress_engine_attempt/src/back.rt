//! Going back to a state that is still to be tried.
ghost use Rattle.std.specs.Prelude.{◌≡◌, ◌⊎◌, ◌≤◌, ◌<◌, ℕ, true, false, List, [], ◌∷◌, length, map, is_some, IfOk, IfSome, OnOk};
ghost use Rattle.regress_engine_insn.specs.InsnViews.{instruction};
ghost use Rattle.regress_engine_insn.specs.Instructions.{byte_seq};
ghost use Rattle.regress_engine_code.specs.Standing.{program_of};
ghost use Rattle.regress_engine_input.specs.Views.{direction_of, input_of, reading_of};
ghost use Rattle.regress_engine_runs.specs.Meets.{IsAtPlace};
ghost use Rattle.regress_engine_runs.specs.Runs.{gap};
ghost use Rattle.regress_engine_runs.specs.UndoStack.{give_back, take_on};
ghost use Rattle.regress_engine_search.specs.Ready.{IsBody, IsReady};
ghost use Rattle.regress_engine_search.specs.StateViews.{marks_of};
ghost use Rattle.regress_engine_singles.specs.Taking.{IsFirstAlone};
ghost use Rattle.regress_engine_undo.specs.Held.{held, undo_of, pushed};
ghost use Rattle.regress_engine_search.specs.Search.{Suits};
ghost use Rattle.regress_engine_undo.specs.Dead.{GivesFrom, TakesFrom};
ghost use Rattle.regress_engine_attempt.specs.Attempts.{Remembers, world};
ghost use Rattle.regress_engine_trying.specs.Passing.{found_at, GoesBackMore, Passes, TakesOver, UndoesMore, UndoesOver};
ghost use Rattle.regress_engine_trying.specs.Remembering.{IsUnderWay};
ghost use Rattle.regress_engine_trying.specs.Trying.{advanced, GoesBack, IsHeldIn, IsPassed, Undoes};

use crate::attempt::Attempt;
use crate::counts::Counts;
use crate::remembered::Remembered;
use regress_engine_advance::{
    advance, any_in_line, as_far, ascii_bracket, beside, is_dead, other_ahead, taken_first,
};
use regress_engine_insn::Insn;
use regress_engine_search::ExecutorInput;
use regress_engine_singles::{first_alone, first_byte, taken_before};
use regress_engine_trying::{Exit, exhaust};
use regress_engine_undo::{Memory, Spot, Undo, is_ahead};
use regress_front_core::GroupData;
use std::alloc::AllocError;

impl<'a, Input: ExecutorInput> Attempt<'a, Input> {
    /// The first offset, from a far one back to a near one, from which a match may be reached from an address on, as far as the byte ahead
    /// tells; `None` where there is none.
    #[inline(always)]
    fn far_lead(&self, at: usize, near: usize, far: usize, forward: bool) -> Option<usize>
        requires suits { Suits (program_of self.now.program.now) (Input.view self.now.input) }
        requires place { IsAtPlace (reading_of (Input.view self.now.input)) far }
        ensures leads { GivesFrom (program_of self.now.program.now) (input_of (Input.view self.now.input)) forward at near far result }
        ensures nearer { IfSome result (λ way. gap (direction_of forward) near way ≤ gap (direction_of forward) near far) }
        ensures place { IfSome result (IsAtPlace (reading_of (Input.view self.now.input))) }
    {
        let mut back = far;
        'places: loop {
            if !is_dead(self.program, &self.input, at, forward, back) {
                return Some(back);
            }
            if !is_ahead(forward, near, back) {
                return None;
            }
            let Some((_, before)) = beside(&self.input, !forward, back) else {
                return None;
            };
            back = before;
        }
    }

    /// The same, where what is taken first at the address is known: it has to stand there too.
    fn far_way(
        &self,
        at: usize,
        near: usize,
        far: usize,
        forward: bool,
        groups: &[GroupData<usize>],
    ) -> Option<usize>
        requires suits { Suits (program_of self.now.program.now) (Input.view self.now.input) }
        requires groups { length groups.now ≡ self.now.program.now.groups }
        requires place { IsAtPlace (reading_of (Input.view self.now.input)) far }
        ensures leads { GivesFrom (program_of self.now.program.now) (input_of (Input.view self.now.input)) forward at near far result }
        ensures place { IfSome result (IsAtPlace (reading_of (Input.view self.now.input))) }
    {
        let Some(insn) = taken_first(self.program, at) else {
            return self.far_lead(at, near, far, forward);
        };
        let mut back = far;
        'places: loop {
            let way = self.far_lead(at, near, back, forward)?;
            if advance(self.program, &self.input, insn, forward, groups, way).is_some() {
                return Some(way);
            }
            if !is_ahead(forward, near, way) {
                return None;
            }
            let Some((_, before)) = beside(&self.input, !forward, way) else {
                return None;
            };
            back = before;
        }
    }

    /// Goes on at the far one of the offsets where it may continue, later at those before it; answers whether there is one.
    pub(crate) fn give_back(
        &self,
        at: usize,
        near: usize,
        far: usize,
        spare: &mut usize,
        memory: &mut Memory,
        spot: &mut Spot,
    ) -> Result<bool, AllocError>
        requires suits { Suits (program_of self.now.program.now) (Input.view self.now.input) }
        requires sound { IsHeldIn (world Input.view self.now) (pushed (give_back at near far) (held memory.old)) }
        ensures leads { IfOk result (Undoes (world Input.view self.now) (give_back at near far) spot.old (held memory.old) spot.new (held memory.new)) }
        ensures sound { OnOk result (IsHeldIn (world Input.view self.now) (held memory.new)) }
        ensures rest { IfOk result (λ going. going ≡ false → (held memory.new).stack ≡ (held memory.old).stack) }
    {
        let Some(way) = self.far_way(at, near, far, spot.forward, &memory.groups) else {
            *spare = spare.saturating_sub(far.abs_diff(near));
            return Ok(false);
        };
        *spare = spare.saturating_sub(far.abs_diff(way));
        spot.at = at;
        spot.offset = way;
        if !is_ahead(spot.forward, near, way) {
            return Ok(true);
        }
        let Some((_, next)) = beside(&self.input, !spot.forward, way) else {
            return Ok(true);
        };
        memory.push(Undo::GiveBack {
            at,
            near,
            far: next,
        })?;
        Ok(true)
    }

    /// Whether an instruction takes something beside an offset. Where it takes bytes, the first of them is looked at at once.
    #[inline(always)]
    fn stands(
        &self,
        insn: &Insn,
        first: Option<u8>,
        forward: bool,
        groups: &[GroupData<usize>],
        offset: usize,
    ) -> bool
        requires suits { Suits (program_of self.now.program.now) (Input.view self.now.input) }
        requires ready { IsReady (program_of self.now.program.now) (Input.view self.now.input) (instruction insn.now) (map marks_of groups.now) offset }
        requires first { IfSome first (λ b. (rest : List ℕ) × (instruction insn.now ≡ byte_seq (b ∷ rest))) }
        ensures { result ≡ is_some (advanced (world Input.view self.now) (instruction insn.now) forward (map marks_of groups.now) offset) }
    {
        if forward {
            if let Some(byte) = first {
                if other_ahead(&self.input, offset, byte) {
                    return false;
                }
            }
        }
        advance(self.program, &self.input, insn, forward, groups, offset).is_some()
    }

    /// What `advance` answers. What is often repeated is done at once.
    #[inline(always)]
    pub(crate) fn once(
        &self,
        insn: &Insn,
        forward: bool,
        groups: &[GroupData<usize>],
        offset: usize,
    ) -> Option<usize>
        requires suits { Suits (program_of self.now.program.now) (Input.view self.now.input) }
        requires ready { IsReady (program_of self.now.program.now) (Input.view self.now.input) (instruction insn.now) (map marks_of groups.now) offset }
        ensures { result ≡ advanced (world Input.view self.now) (instruction insn.now) forward (map marks_of groups.now) offset }
    {
        match insn {
            Insn::AsciiBracket(bitmap) => ascii_bracket(&self.input, forward, offset, bitmap),
            Insn::MatchAnyExceptLineTerminator => any_in_line(&self.input, forward, offset),
            _ => advance(self.program, &self.input, insn, forward, groups, offset),
        }
    }

    /// The offset up to which the body of a lazy loop surely takes one byte after another ahead of one, at most so many, and what is
    /// taken first behind the loop takes none of them: no match goes on from a place before it. The offset itself where it is not told.
    #[inline(always)]
    fn passed_before(
        &self,
        insn: &Insn,
        first: Option<u8>,
        body: &Insn,
        left: usize,
        forward: bool,
        offset: usize,
    ) -> usize
        requires place { IsAtPlace (reading_of (Input.view self.now.input)) offset }
        requires first { IfSome first (IsFirstAlone (instruction insn.now)) }
        ensures { IsPassed (world Input.view self.now) (instruction insn.now) (instruction body.now) forward left offset result }
    {
        match first {
            Some(byte) if forward => taken_before(&self.input, body, byte, left, offset),
            _ => offset,
        }
    }

    /// The first offset, from one on behind each iteration of the instruction before an address, at most so many, where what is taken
    /// first at the address stands, and how many may follow; the last one where it stands at none.
    fn near_way(
        &self,
        at: usize,
        offset: usize,
        left: usize,
        forward: bool,
        groups: &[GroupData<usize>],
    ) -> Exit
        requires suits { Suits (program_of self.now.program.now) (Input.view self.now.input) }
        requires groups { length groups.now ≡ self.now.program.now.groups }
        requires body { IsBody (program_of self.now.program.now) (Input.view self.now.input) at offset }
        ensures leads { TakesFrom (program_of self.now.program.now) (input_of (Input.view self.now.input)) forward at offset left (found_at result) }
        ensures over { (result.offset ≡ offset) ⊎ TakesOver (program_of self.now.program.now) (input_of (Input.view self.now.input)) forward at offset left (found_at result) }
        ensures body { IsBody (program_of self.now.program.now) (Input.view self.now.input) at result.offset }
    {
        let Some(insn) = taken_first(self.program, at) else {
            return Exit {
                offset,
                left,
                may_go: true,
            };
        };
        let first = first_byte(insn);
        let body = self.instruction(at - 1);
        let stop = first_alone(insn);
        let mut near = self.passed_before(insn, stop, body, left, forward, offset);
        let mut rest = left - (near - offset);
        'places: loop {
            if self.stands(insn, first, forward, groups, near) {
                return Exit {
                    offset: near,
                    left: rest,
                    may_go: true,
                };
            }
            if rest == 0 {
                return Exit {
                    offset: near,
                    left: rest,
                    may_go: false,
                };
            }
            let Some(next) = self.once(body, forward, groups, near) else {
                return Exit {
                    offset: near,
                    left: rest,
                    may_go: false,
                };
            };
            near = next;
            rest -= 1;
        }
    }

    /// Counts the places that a lazy one-character loop has passed over to its end: of one loop in 64, for all of them.
    #[inline(never)]
    fn count_over(
        &self,
        at: usize,
        offset: usize,
        left: usize,
        spare: &mut usize,
        memory: &Memory,
        forward: bool,
    )
        requires suits { Suits (program_of self.now.program.now) (Input.view self.now.input) }
        requires sound { IsHeldIn (world Input.view self.now) (held memory.now) }
        requires body { IsBody (program_of self.now.program.now) (Input.view self.now.input) at offset }
    {
        if offset % 64 != 0 {
            return;
        }
        let far = as_far(
            self.program,
            &self.input,
            self.instruction(at - 1),
            left,
            forward,
            &memory.groups,
            offset,
        );
        *spare = spare.saturating_sub(far.abs_diff(offset).saturating_mul(64));
    }

    /// Goes on at the near one of the offsets where it may continue, later at those behind it; answers whether there is one.
    pub(crate) fn take_on(
        &self,
        at: usize,
        from: usize,
        offset: usize,
        left: usize,
        counts: &mut Counts,
        memory: &mut Memory,
        spot: &mut Spot,
    ) -> Result<bool, AllocError>
        requires suits { Suits (program_of self.now.program.now) (Input.view self.now.input) }
        requires sound { IsHeldIn (world Input.view self.now) (pushed (take_on at offset left) (held memory.old)) }
        requires from { IsAtPlace (reading_of (Input.view self.now.input)) from }
        ensures leads { IfOk result (Undoes (world Input.view self.now) (take_on at offset left) spot.old (held memory.old) spot.new (held memory.new)) }
        ensures sound { OnOk result (IsHeldIn (world Input.view self.now) (held memory.new)) }
        ensures rest { IfOk result (λ going. going ≡ false → (held memory.new).stack ≡ (held memory.old).stack) }
        ensures counted { OnOk result (Passes (Input.view self.now.input) 1 counts.old.more counts.new.more) }
        ensures over { IfOk result (λ going. (from ≡ offset → counts.new.more ≤ counts.old.more) ⊎ UndoesOver (world Input.view self.now) (take_on at offset left) spot.old (held memory.old) spot.new (held memory.new) going) }
    {
        let way = self.near_way(at, offset, left, spot.forward, &memory.groups);
        counts.pass(from, way.offset);
        if !way.may_go {
            self.count_over(at, offset, left, &mut counts.spare, memory, spot.forward);
            return Ok(false);
        }
        counts.spare = counts.spare.saturating_sub(way.offset.abs_diff(offset));
        spot.at = at;
        spot.offset = way.offset;
        if way.left == 0 {
            return Ok(true);
        }
        let insn = self.instruction(at - 1);
        let Some(next) = self.once(insn, spot.forward, &memory.groups, way.offset) else {
            return Ok(true);
        };
        memory.push(Undo::TakeOn {
            at,
            offset: next,
            left: way.left - 1,
        })?;
        Ok(true)
    }

    /// Undoes a record, and answers whether there is a state to be tried.
    #[inline(always)]
    fn undo(
        &self,
        undo: Undo,
        counts: &mut Counts,
        memory: &mut Memory,
        spot: &mut Spot,
    ) -> Result<bool, AllocError>
        requires suits { Suits (program_of self.now.program.now) (Input.view self.now.input) }
        requires sound { IsHeldIn (world Input.view self.now) (pushed (undo_of undo) (held memory.old)) }
        ensures leads { IfOk result (Undoes (world Input.view self.now) (undo_of undo) spot.old (held memory.old) spot.new (held memory.new)) }
        ensures sound { OnOk result (IsHeldIn (world Input.view self.now) (held memory.new)) }
        ensures counted { IfOk result (λ going. UndoesMore (world Input.view self.now) (undo_of undo) spot.old (held memory.old) spot.new (held memory.new) going counts.old.more counts.new.more) }
        ensures rest { IfOk result (λ going. going ≡ false → (held memory.new).stack ≡ (held memory.old).stack) }
    {
        match undo {
            Undo::OldLoop { id, data } => {
                memory.restore_loop(id, data);
                Ok(false)
            }
            Undo::OldGroup { group, data } => {
                memory.restore_group(group, data);
                Ok(false)
            }
            Undo::Resume { at, offset } => {
                spot.at = at;
                spot.offset = offset;
                Ok(true)
            }
            Undo::Iterate { id, begin, offset } => {
                spot.offset = offset;
                let count = memory.loop_data(id).iters;
                memory.iterate(id, count, begin, spot)?;
                Ok(true)
            }
            Undo::GiveBack { at, near, far } => {
                let going = self.give_back(at, near, far, &mut counts.spare, memory, spot)?;
                Ok(going)
            }
            Undo::TakeOn { at, offset, left } => {
                let going = self.take_on(at, offset, offset, left, counts, memory, spot)?;
                Ok(going)
            }
            Undo::Submatch(frame) => Ok(exhaust(&frame, spot)),
            Undo::Tried { .. } => Ok(false),
        }
    }

    /// Undoes a record, and answers whether there is a state to be tried. Where failures are kept, those of exits of loops are learned.
    #[inline(always)]
    fn undo_one(
        &self,
        undo: Undo,
        memory: &mut Memory,
        remembered: &mut Remembered,
        spot: &mut Spot,
    ) -> Result<bool, AllocError>
        requires suits { Suits (program_of self.now.program.now) (Input.view self.now.input) }
        requires sound { IsHeldIn (world Input.view self.now) (pushed (undo_of undo) (held memory.old)) }
        requires so { Remembers (world Input.view self.now) remembered.old }
        ensures leads { IfOk result (Undoes (world Input.view self.now) (undo_of undo) spot.old (held memory.old) spot.new (held memory.new)) }
        ensures sound { OnOk result (IsHeldIn (world Input.view self.now) (held memory.new)) }
        ensures counted { IfOk result (λ going. UndoesMore (world Input.view self.now) (undo_of undo) spot.old (held memory.old) spot.new (held memory.new) going remembered.old.counts.more remembered.new.counts.more) }
        ensures rest { IfOk result (λ going. going ≡ false → (held memory.new).stack ≡ (held memory.old).stack) }
        ensures so { Remembers (world Input.view self.now) remembered.new }
    {
        match self.undo_loop(&undo, memory, remembered, spot)? {
            Some(going) => Ok(going),
            None => {
                let going = self.undo(undo, &mut remembered.counts, memory, spot)?;
                Ok(going)
            }
        }
    }

    /// Undoes records until there is a state to be tried, and answers whether there is one. What they show to fail is remembered.
    #[inline(always)]
    pub(crate) fn back(
        &self,
        memory: &mut Memory,
        remembered: &mut Remembered,
        spot: &mut Spot,
    ) -> Result<bool, AllocError>
        requires suits { Suits (program_of self.now.program.now) (Input.view self.now.input) }
        requires sound { IsHeldIn (world Input.view self.now) (held memory.old) }
        requires tried { IsUnderWay (world Input.view self.now) false spot.old (held memory.old) }
        requires so { Remembers (world Input.view self.now) remembered.old }
        ensures leads { IfOk result (GoesBack (world Input.view self.now) spot.old (held memory.old) spot.new (held memory.new)) }
        ensures sound { OnOk result (IsHeldIn (world Input.view self.now) (held memory.new)) }
        ensures counted { IfOk result (λ going. GoesBackMore (world Input.view self.now) spot.old (held memory.old) spot.new (held memory.new) going remembered.old.counts.more remembered.new.counts.more) }
        ensures exhausted { IfOk result (λ going. going ≡ false → (held memory.new).stack ≡ []) }
        ensures so { Remembers (world Input.view self.now) remembered.new }
    {
        self.keep_failures(remembered);
        while let Some(undo) = memory.pop() {
            remembered.counts.spare = remembered.counts.spare.saturating_sub(4);
            self.learn(&undo, memory, remembered, spot);
            if self.undo_one(undo, memory, remembered, spot)? {
                return Ok(true);
            }
        }
        let passed = spot.offset.abs_diff(self.start);
        remembered.counts.spare = remembered.counts.spare.saturating_sub(passed);
        Ok(false)
    }
}
