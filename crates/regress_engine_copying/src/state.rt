//! The states of a run.
ghost use Rattle.std.specs.Prelude.{◌≡◌, ◌+◌, ◌^◌, ◌<◌, ◌≤◌, ℕ, length, get_or, slice_set, replicate, IfOk};
ghost use Rattle.regress_engine_insn.specs.InsnViews.{fields};
ghost use Rattle.regress_engine_input.specs.Views.{direction_of};
ghost use Rattle.regress_engine_runs.specs.States.{unset, onward, begun, mixed};
ghost use Rattle.regress_engine_runs.specs.Runs.{count_of, one_more, is_idle};
ghost use Rattle.regress_engine_search.specs.StateViews.{loop_of, marks_of};
ghost use Rattle.regress_engine_copying.specs.StateOf.{state_of};

use regress_engine_insn::LoopFields;
use regress_front_core::{CaptureGroupID, GroupData, LoopData};
use std::alloc::{AllocError, Global};

/// Everything that a program knows while it runs.
#[derive(Debug, Drop)]
pub(crate) struct State {
    /// The address of the next instruction.
    pub(crate) at: usize,
    /// The offset in the text.
    pub(crate) offset: usize,
    /// How far each loop has come.
    pub(crate) loops: Vec<LoopData<usize>>,
    /// What each group has taken.
    pub(crate) groups: Vec<GroupData<usize>>,
}

/// The marks of a group that starts at an offset, or else ends there.
fn marked(old: GroupData<usize>, starts: bool, offset: usize) -> GroupData<usize>
    ensures { marks_of result ≡ begun (direction_of starts) offset (marks_of old) }
{
    if starts {
        GroupData {
            start: Some(offset),
            end: old.end,
        }
    } else {
        GroupData {
            start: old.start,
            end: Some(offset),
        }
    }
}

impl State {
    /// At the first instruction and an offset, with so many loops and groups, of which nothing is known.
    pub(crate) fn first(
        alloc: Global,
        loops: usize,
        groups: usize,
        offset: usize,
    ) -> Result<State, AllocError>
        ensures { IfOk result (λ s. state_of s ≡ record { at = 0; offset = offset; loops = replicate loops (0, 0); groups = replicate groups unset }) }
    {
        let mut state = State {
            at: 0,
            offset,
            loops: Vec::new(alloc),
            groups: Vec::new(alloc),
        };
        state.loops.resize(loops, LoopData::new(0))?;
        state.groups.resize(groups, GroupData::new())?;
        Ok(state)
    }

    /// The same state at another address, with loops and groups of its own.
    pub(crate) fn copy_at(&self, at: usize) -> Result<State, AllocError>
        ensures { IfOk result (λ s. state_of s ≡ record (state_of self.now) { at = at }) }
    {
        Ok(State {
            at,
            offset: self.offset,
            loops: self.loops.clone()?,
            groups: self.groups.clone()?,
        })
    }

    /// The data of a loop.
    pub(crate) fn loop_data(&self, id: usize) -> LoopData<usize>
        requires { id < length (state_of self.now).loops }
        ensures { loop_of result ≡ get_or (state_of self.now).loops id (0, 0) }
    {
        self.loops[id]
    }

    /// The marks of a group.
    fn group_data(&self, group: usize) -> GroupData<usize>
        requires { group < length (state_of self.now).groups }
        ensures { marks_of result ≡ get_or (state_of self.now).groups group unset }
    {
        self.groups[group]
    }

    /// Writes a loop's data.
    fn set_loop(&mut self, id: usize, value: LoopData<usize>)
        requires { id < length (state_of self.old).loops }
        ensures { state_of self.new ≡ record (state_of self.old) { loops = slice_set (state_of self.old).loops id (loop_of value) } }
    {
        self.loops[id] = value;
    }

    /// Writes a group's marks.
    fn set_group(&mut self, group: usize, value: GroupData<usize>)
        requires { group < length (state_of self.old).groups }
        ensures { state_of self.new ≡ record (state_of self.old) { groups = slice_set (state_of self.old).groups group (marks_of value) } }
    {
        self.groups[group] = value;
    }

    /// Marks where a group starts, or else where it ends, and goes one instruction further.
    pub(crate) fn mark(&mut self, group: usize, starts: bool)
        requires room { self.old.at + 1 < 2 ^ 64 }
        requires there { group < length (state_of self.old).groups }
        ensures { state_of self.new ≡ onward (record (state_of self.old) { groups = slice_set (state_of self.old).groups group (begun (direction_of starts) self.old.offset (get_or (state_of self.old).groups group unset)) }) }
    {
        let old = self.group_data(group);
        let marks = marked(old, starts, self.offset);
        self.at += 1;
        self.set_group(group, marks);
    }

    /// Forgets what a group has taken, and goes one instruction further.
    pub(crate) fn reset(&mut self, group: usize)
        requires room { self.old.at + 1 < 2 ^ 64 }
        requires there { group < length (state_of self.old).groups }
        ensures { state_of self.new ≡ onward (record (state_of self.old) { groups = slice_set (state_of self.old).groups group unset }) }
    {
        self.at += 1;
        self.set_group(group, GroupData::new());
    }

    /// Enters a loop, of which so many iterations are taken as done.
    pub(crate) fn enter(&mut self, id: usize, done: usize)
        requires { id < length (state_of self.old).loops }
        ensures { state_of self.new ≡ record (state_of self.old) { loops = slice_set (state_of self.old).loops id (done, self.old.offset) } }
    {
        self.set_loop(
            id,
            LoopData {
                iters: done,
                entry: self.offset,
            },
        );
    }

    /// Begins one more iteration of a loop, of which so many have begun, and whose repetition begins at an address.
    pub(crate) fn iterate(&mut self, id: usize, count: usize, begin: usize)
        requires there { id < length (state_of self.old).loops }
        requires counted { count ≡ count_of id (state_of self.old) }
        requires room { count + 1 < 2 ^ 64 }
        requires begin { begin + 1 < 2 ^ 64 }
        ensures { state_of self.new ≡ one_more id begin (state_of self.old) }
    {
        self.at = begin + 1;
        self.set_loop(
            id,
            LoopData {
                iters: count + 1,
                entry: self.offset,
            },
        );
    }

    /// Whether an iteration past the least number ends where it began.
    pub(crate) fn is_idle(&self, repetition: &LoopFields) -> bool
        requires { repetition.now.loop_id < length (state_of self.now).loops }
        ensures { result ≡ is_idle (fields repetition.now) (state_of self.now) }
    {
        let entered = self.loops[repetition.loop_id as usize];
        repetition.min_iters < entered.iters && entered.entry == self.offset
    }

    /// Takes the groups from the first up to before the last from another state.
    pub(crate) fn take_groups(&mut self, first: CaptureGroupID, last: CaptureGroupID, other: &State)
        requires there { (k : ℕ) → first ≤ k → k < last → k < length (state_of self.old).groups }
        requires count { length (state_of other.now).groups ≡ length (state_of self.old).groups }
        ensures count { length (state_of self.new).groups ≡ length (state_of self.old).groups }
        ensures taken { state_of self.new ≡ record (state_of self.old) { groups = mixed 0 first last (state_of other.now).groups (state_of self.old).groups } }
    {
        for group in first..last {
            let marks = other.group_data(group as usize);
            self.set_group(group as usize, marks);
        }
    }
}
