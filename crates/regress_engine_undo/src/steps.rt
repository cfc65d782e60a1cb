//! Steps that change what an executor holds: ways out, groups, repetitions, lookarounds and atomic groups.
ghost use Rattle.std.specs.Prelude.{◌≡◌, ◌==◌, ◌&&◌, nat_lt, ◌+◌, ◌^◌, ◌<◌, true, length, IfOk, OnOk};
ghost use Rattle.regress_engine_insn.specs.InsnViews.{fields};
ghost use Rattle.regress_engine_input.specs.Views.{direction_of};
ghost use Rattle.regress_engine_runs.specs.States.{begun, ended};
ghost use Rattle.regress_engine_runs.specs.Runs.{choices};
ghost use Rattle.regress_engine_runs.specs.UndoStack.{frame};
ghost use Rattle.regress_engine_search.specs.StateViews.{marks_of};
ghost use Rattle.regress_engine_undo.specs.Held.{held, pushed, loop_written};
ghost use Rattle.regress_engine_search.specs.Submatches.{submatch_of, reads_forward};
ghost use Rattle.regress_engine_search.specs.declared.submatch.Submatch.TheVariants.{Lookaround, Atomic};
ghost use Rattle.regress_engine_undo.specs.Tasks.{ways_again, ways_in, with_marks, two_ways, GoesTo, RepeatsIf, RepeatsPast, StaysSound};

use crate::memory::Memory;
use crate::undo::{Frame, Spot, Undo};
use regress_engine_insn::LoopFields;
use regress_engine_search::Submatch;
use regress_front_core::{CaptureGroupID, GroupData, LoopData};
use std::alloc::AllocError;

/// The marks of a group with its start at an offset, or its end.
#[inline]
fn marked(is_start: bool, offset: usize, marks: GroupData<usize>) -> GroupData<usize>
    ensures { marks_of result ≡ begun (direction_of is_start) offset (marks_of marks) }
{
    if is_start {
        GroupData {
            start: Some(offset),
            ..marks
        }
    } else {
        GroupData {
            end: Some(offset),
            ..marks
        }
    }
}

/// The marks of a group that begins at a spot, from those that it had.
///
/// ```rust
/// let marks = begun(&spot, memory.group_data(0));
/// ```
#[inline]
pub fn begun(spot: &Spot, marks: GroupData<usize>) -> GroupData<usize>
    ensures { marks_of result ≡ begun (direction_of spot.now.forward) spot.now.offset (marks_of marks) }
{
    marked(spot.forward, spot.offset, marks)
}

/// The marks of a group that ends at a spot, from those that it had.
///
/// ```rust
/// let marks = ended(&spot, memory.group_data(0));
/// ```
#[inline]
pub fn ended(spot: &Spot, marks: GroupData<usize>) -> GroupData<usize>
    ensures { marks_of result ≡ ended (direction_of spot.now.forward) spot.now.offset (marks_of marks) }
{
    marked(!spot.forward, spot.offset, marks)
}

/// Whether an iteration past the least number ends at the offset where it began.
#[inline]
fn is_idle(repetition: &LoopFields, entered: LoopData<usize>, offset: usize) -> bool
    ensures { result ≡ (nat_lt repetition.now.min_iters entered.iters && (entered.entry == offset)) }
{
    repetition.min_iters < entered.iters && entered.entry == offset
}

impl Memory {
    /// Goes on at the next address, and later at another. It errs where memory is refused.
    ///
    /// ```rust
    /// memory.fork(7, &mut spot)?;
    /// ```
    #[inline]
    pub fn fork(&mut self, target: usize, spot: &mut Spot) -> Result<(), AllocError>
        requires { spot.old.at + 1 < 2 ^ 64 }
        ensures leads { OnOk result (GoesTo (two_ways target) spot.old (held self.old) true spot.new (held self.new)) }
        ensures sound { OnOk result (StaysSound (held self.old) (held self.new)) }
    {
        self.push(Undo::Resume {
            at: target,
            offset: spot.offset,
        })?;
        spot.at += 1;
        Ok(())
    }

    /// Writes a group's marks, and goes on at the next address. Asks that the group is there. It errs where memory is refused.
    ///
    /// ```rust
    /// memory.mark(0, GroupData::new(), &mut spot)?;
    /// ```
    #[inline(always)]
    pub fn mark(
        &mut self,
        group: usize,
        marks: GroupData<usize>,
        spot: &mut Spot,
    ) -> Result<(), AllocError>
        requires room { spot.old.at + 1 < 2 ^ 64 }
        requires there { group < length (held self.old).groups }
        ensures leads { OnOk result (GoesTo (with_marks group (marks_of marks)) spot.old (held self.old) true spot.new (held self.new)) }
        ensures sound { OnOk result (StaysSound (held self.old) (held self.new)) }
    {
        self.write_group(group, marks)?;
        spot.at += 1;
        Ok(())
    }

    /// Begins one more iteration of the repetition that begins at an address, where so many have begun. Asks that the loop is
    /// there. It errs where memory is refused.
    ///
    /// ```rust
    /// memory.iterate(0, memory.loop_data(0).iters, 3, &mut spot)?;
    /// ```
    #[inline]
    pub fn iterate(
        &mut self,
        id: usize,
        count: usize,
        begin: usize,
        spot: &mut Spot,
    ) -> Result<(), AllocError>
        requires there { id < length (held self.old).loops }
        requires count { count + 1 < 2 ^ 64 }
        requires begin { begin + 1 < 2 ^ 64 }
        ensures written { OnOk result (held self.new ≡ loop_written id (count + 1, spot.old.offset) (held self.old)) }
        ensures spot { OnOk result (spot.new ≡ record spot.old { at = begin + 1 }) }
    {
        self.write_loop(
            id,
            LoopData {
                iters: count + 1,
                entry: spot.offset,
            },
        )?;
        spot.at = begin + 1;
        Ok(())
    }

    /// Begins one more iteration of a repetition, or leaves it, as it may; where it may do both, the other one later. It
    /// answers whether it may do either.
    fn choose(
        &mut self,
        repetition: &LoopFields,
        begin: usize,
        spot: &mut Spot,
    ) -> Result<bool, AllocError>
        requires there { repetition.now.loop_id < length (held self.old).loops }
        requires begin { begin + 1 < 2 ^ 64 }
        ensures leads { IfOk result (λ going. GoesTo (choices (fields repetition.now) begin) spot.old (held self.old) going spot.new (held self.new)) }
        ensures sound { OnOk result (StaysSound (held self.old) (held self.new)) }
    {
        let id = repetition.loop_id as usize;
        let exit = repetition.exit as usize;
        let count = self.loop_data(id).iters;
        let out = repetition.min_iters <= count;
        if count >= repetition.max_iters {
            if out {
                spot.at = exit;
                return Ok(true);
            }
            return Ok(false);
        }
        if !out {
            self.iterate(id, count, begin, spot)?;
            return Ok(true);
        }
        if repetition.greedy {
            self.push(Undo::Resume {
                at: exit,
                offset: spot.offset,
            })?;
            self.iterate(id, count, begin, spot)?;
            return Ok(true);
        }
        self.push(Undo::Iterate {
            id,
            begin,
            offset: spot.offset,
        })?;
        spot.at = exit;
        Ok(true)
    }

    /// Begins one more iteration of a repetition that leads nowhere behind it, and answers whether it may.
    fn stay(
        &mut self,
        repetition: &LoopFields,
        begin: usize,
        spot: &mut Spot,
    ) -> Result<bool, AllocError>
        requires there { repetition.now.loop_id < length (held self.old).loops }
        requires begin { begin + 1 < 2 ^ 64 }
        ensures leads { IfOk result (λ going. RepeatsPast (fields repetition.now) begin spot.old (held self.old) going spot.new (held self.new)) }
        ensures sound { OnOk result (StaysSound (held self.old) (held self.new)) }
    {
        let id = repetition.loop_id as usize;
        let count = self.loop_data(id).iters;
        if count >= repetition.max_iters {
            return Ok(false);
        }
        self.iterate(id, count, begin, spot)?;
        Ok(true)
    }

    /// Goes on with a repetition; `dead` tells that no match can be reached from behind it.
    #[inline(always)]
    fn go_on(
        &mut self,
        repetition: &LoopFields,
        begin: usize,
        dead: bool,
        spot: &mut Spot,
    ) -> Result<bool, AllocError>
        requires there { repetition.now.loop_id < length (held self.old).loops }
        requires begin { begin + 1 < 2 ^ 64 }
        ensures leads { IfOk result (λ going. RepeatsIf dead (fields repetition.now) (λ f. choices f begin) spot.old (held self.old) going spot.new (held self.new)) }
        ensures sound { OnOk result (StaysSound (held self.old) (held self.new)) }
    {
        if dead {
            self.stay(repetition, begin, spot)
        } else {
            self.choose(repetition, begin, spot)
        }
    }

    /// Enters a repetition, of which `done` iterations are taken as done, and answers whether it continues; `dead` tells that no match
    /// can be reached from behind it. Asks that the loop is there. It errs where memory is refused.
    ///
    /// ```rust
    /// let going = memory.enter(&repetition, 0, false, &mut spot)?;
    /// ```
    #[inline(always)]
    pub fn enter(
        &mut self,
        repetition: &LoopFields,
        done: usize,
        dead: bool,
        spot: &mut Spot,
    ) -> Result<bool, AllocError>
        requires there { repetition.now.loop_id < length (held self.old).loops }
        requires room { spot.old.at + 1 < 2 ^ 64 }
        ensures leads { IfOk result (λ going. RepeatsIf dead (fields repetition.now) (ways_in done) spot.old (held self.old) going spot.new (held self.new)) }
        ensures sound { OnOk result (StaysSound (held self.old) (held self.new)) }
    {
        self.write_loop(
            repetition.loop_id as usize,
            LoopData {
                iters: done,
                entry: spot.offset,
            },
        )?;
        let begin = spot.at;
        self.go_on(repetition, begin, dead, spot)
    }

    /// Ends an iteration of the repetition that begins at an address, and answers whether it continues; `dead` tells that
    /// no match can be reached from behind it. Asks that the loop is there. It errs where memory is refused.
    ///
    /// ```rust
    /// let going = memory.again(&repetition, 3, false, &mut spot)?;
    /// ```
    #[inline]
    pub fn again(
        &mut self,
        repetition: &LoopFields,
        begin: usize,
        dead: bool,
        spot: &mut Spot,
    ) -> Result<bool, AllocError>
        requires there { repetition.now.loop_id < length (held self.old).loops }
        requires begin { begin + 1 < 2 ^ 64 }
        ensures leads { IfOk result (λ going. RepeatsIf dead (fields repetition.now) (ways_again begin) spot.old (held self.old) going spot.new (held self.new)) }
        ensures sound { OnOk result (StaysSound (held self.old) (held self.new)) }
    {
        let entered = self.loop_data(repetition.loop_id as usize);
        if is_idle(repetition, entered, spot.offset) {
            return Ok(false);
        }
        self.go_on(repetition, begin, dead, spot)
    }

    /// Begins to try the contents of a lookaround or an atomic group that stands at the spot. It errs where memory is refused.
    /// It is apart so that no step makes room for it.
    ///
    /// ```rust
    /// memory.begin_submatch(Submatch::Atomic, 0, 1, 9, &mut spot)?;
    /// ```
    #[inline(never)]
    pub fn begin_submatch(
        &mut self,
        kind: Submatch,
        first: CaptureGroupID,
        last: CaptureGroupID,
        continuation: usize,
        spot: &mut Spot,
    ) -> Result<(), AllocError>
        requires { spot.old.at + 1 < 2 ^ 64 }
        ensures pushed { OnOk result (held self.new ≡ pushed (frame (record {
          kind = submatch_of kind;
          first = first;
          last = last;
          continuation = continuation;
          at = spot.old.at;
          offset = spot.old.offset;
          outside = direction_of spot.old.forward;
        })) (held self.old)) }
        ensures spot { OnOk result (spot.new ≡ record spot.old { at = spot.old.at + 1; forward = reads_forward (submatch_of kind) spot.old.forward }) }
    {
        self.push(Undo::Submatch(Frame {
            kind,
            first,
            last,
            continuation,
            spot: *spot,
        }))?;
        spot.at += 1;
        spot.forward = kind.reads_forward(spot.forward);
        Ok(())
    }

    /// Begins to try the contents of a lookaround that stands at the spot, as `begin_submatch` does.
    ///
    /// ```rust
    /// memory.begin_around(false, true, 0, 1, 9, &mut spot)?;
    /// ```
    #[inline(never)]
    pub fn begin_around(
        &mut self,
        negated: bool,
        backward: bool,
        first: CaptureGroupID,
        last: CaptureGroupID,
        continuation: usize,
        spot: &mut Spot,
    ) -> Result<(), AllocError>
        requires { spot.old.at + 1 < 2 ^ 64 }
        ensures pushed { OnOk result (held self.new ≡ pushed (frame (record {
          kind = submatch_of (Lookaround negated backward);
          first = first;
          last = last;
          continuation = continuation;
          at = spot.old.at;
          offset = spot.old.offset;
          outside = direction_of spot.old.forward;
        })) (held self.old)) }
        ensures spot { OnOk result (spot.new ≡ record spot.old {
          at = spot.old.at + 1;
          forward = reads_forward (submatch_of (Lookaround negated backward)) spot.old.forward;
        }) }
    {
        let kind = Submatch::Lookaround { negated, backward };
        self.begin_submatch(kind, first, last, continuation, spot)
    }

    /// Begins to try the contents of an atomic group that stands at the spot, as `begin_submatch` does.
    ///
    /// ```rust
    /// memory.begin_atomic(0, 1, 9, &mut spot)?;
    /// ```
    #[inline(never)]
    pub fn begin_atomic(
        &mut self,
        first: CaptureGroupID,
        last: CaptureGroupID,
        continuation: usize,
        spot: &mut Spot,
    ) -> Result<(), AllocError>
        requires { spot.old.at + 1 < 2 ^ 64 }
        ensures pushed { OnOk result (held self.new ≡ pushed (frame (record {
          kind = submatch_of Atomic;
          first = first;
          last = last;
          continuation = continuation;
          at = spot.old.at;
          offset = spot.old.offset;
          outside = direction_of spot.old.forward;
        })) (held self.old)) }
        ensures spot { OnOk result (spot.new ≡ record spot.old { at = spot.old.at + 1; forward = reads_forward (submatch_of Atomic) spot.old.forward }) }
    {
        self.begin_submatch(Submatch::Atomic, first, last, continuation, spot)
    }
}
