//! What an executor holds: loops, groups, and the records by which both are undone.
ghost use Rattle.std.specs.Prelude.{◌≡◌, ◌<◌, ℕ, [], None, length, map, get_or, replicate, slice_set, slice_range, MatchOption, OnOk};
ghost use Rattle.regress_engine_runs.specs.States.{unset};
ghost use Rattle.regress_engine_runs.specs.UndoStack.{old_group, old_loop};
ghost use Rattle.regress_engine_search.specs.StateViews.{loop_of, marks_of};
ghost use Rattle.regress_engine_undo.specs.Held.{held, undo_of, pushed, loop_recorded, group_recorded, loop_written, group_written};

use crate::undo::Undo;
use regress_front_core::{GroupData, LoopData};
use std::alloc::{AllocError, Global};

/// The loops and groups of a state, and the records of what to undo, the last one on top.
#[derive(Debug, Drop)]
pub struct Memory {
    pub(crate) stack: Vec<Undo>,
    pub(crate) loops: Vec<LoopData<usize>>,
    /// The groups, in the order of their numbers.
    pub groups: Vec<GroupData<usize>>,
}

/// Makes a list one of so many values, all the same. It errs where memory is refused.
#[inline(never)]
fn renew<T: Copy>(list: &mut Vec<T>, count: usize, value: T) -> Result<(), AllocError>
    ensures { OnOk result (list.new.items ≡ replicate count value) }
{
    list.clear();
    list.resize(count, value)
}

/// The same where the list mostly has so many values already, which are then written in place.
#[inline(always)]
fn rewrite<T: Copy>(list: &mut Vec<T>, count: usize, value: T) -> Result<(), AllocError>
    ensures { OnOk result (list.new.items ≡ replicate count value) }
{
    if list.len() != count {
        return renew(list, count, value);
    }
    let mut done = 0;
    while done < count {
        list[done] = value;
        done += 1;
    }
    Ok(())
}

impl Memory {
    /// It holds nothing yet.
    ///
    /// ```rust
    /// let mut memory = Memory::new(alloc);
    /// ```
    pub fn new(alloc: Global) -> Memory
        ensures { held result ≡ record { stack = []; loops = []; groups = [] } }
    {
        Memory {
            stack: Vec::new(alloc),
            loops: Vec::new(alloc),
            groups: Vec::new(alloc),
        }
    }

    /// Begins anew, with so many loops and groups, of which nothing is known, and no record. It errs where memory is refused.
    ///
    /// ```rust
    /// memory.begin(1, 2)?;
    /// ```
    pub fn begin(&mut self, loops: usize, groups: usize) -> Result<(), AllocError>
        ensures { OnOk result (held self.new ≡ record { stack = []; loops = replicate loops (0, 0); groups = replicate groups unset }) }
    {
        self.stack.clear();
        rewrite(&mut self.loops, loops, LoopData::new(0))?;
        rewrite(&mut self.groups, groups, GroupData::new())?;
        Ok(())
    }

    /// Puts a record on the stack. It errs where memory is refused.
    ///
    /// ```rust
    /// memory.push(Undo::Resume { at: 3, offset: 0 })?;
    /// ```
    #[inline(always)]
    pub fn push(&mut self, undo: Undo) -> Result<(), AllocError>
        ensures { OnOk result (held self.new ≡ pushed (undo_of undo) (held self.old)) }
    {
        self.stack.push(undo)?;
        Ok(())
    }

    /// Puts a record of a loop's data on the stack. It is apart so that no step makes room for it.
    #[inline(never)]
    fn push_loop(&mut self, id: usize) -> Result<(), AllocError>
        requires { id < length (held self.old).loops }
        ensures { OnOk result (held self.new ≡ pushed (old_loop id (get_or (held self.old).loops id (0, 0))) (held self.old)) }
    {
        let data = self.loop_data(id);
        self.push(Undo::OldLoop { id, data })
    }

    /// Records a loop's data, where there is anything to go back to.
    #[inline(always)]
    fn record_loop(&mut self, id: usize) -> Result<(), AllocError>
        requires { id < length (held self.old).loops }
        ensures { OnOk result (held self.new ≡ loop_recorded id (held self.old)) }
    {
        if self.stack.as_slice().is_empty() {
            return Ok(());
        }
        self.push_loop(id)
    }

    /// Puts a record of a group's marks on the stack. It is apart so that no step makes room for it.
    #[inline(never)]
    fn push_group(&mut self, group: usize) -> Result<(), AllocError>
        requires { group < length (held self.old).groups }
        ensures { OnOk result (held self.new ≡ pushed (old_group group (get_or (held self.old).groups group unset)) (held self.old)) }
    {
        let data = self.group_data(group);
        self.push(Undo::OldGroup { group, data })
    }

    /// Records a group's marks, where there is anything to go back to.
    #[inline(always)]
    fn record_group(&mut self, group: usize) -> Result<(), AllocError>
        requires { group < length (held self.old).groups }
        ensures { OnOk result (held self.new ≡ group_recorded group (held self.old)) }
    {
        if self.stack.as_slice().is_empty() {
            return Ok(());
        }
        self.push_group(group)
    }

    /// Takes the last record from the stack; `None` where it is empty.
    ///
    /// ```rust
    /// while let Some(undo) = memory.pop() {}
    /// ```
    #[inline]
    pub fn pop(&mut self) -> Option<Undo>
        ensures { MatchOption result ((held self.new ≡ held self.old) × ((held self.old).stack ≡ [])) (λ undo. held self.old ≡ pushed (undo_of undo) (held self.new)) }
    {
        self.stack.pop()
    }

    /// The data of a loop. Asks that it is there.
    ///
    /// ```rust
    /// let count = memory.loop_data(0).iters;
    /// ```
    #[inline]
    pub fn loop_data(&self, id: usize) -> LoopData<usize>
        requires { id < length (held self.now).loops }
        ensures { loop_of result ≡ get_or (held self.now).loops id (0, 0) }
    {
        self.loops[id]
    }

    /// The loops' data, in the order of their numbers.
    ///
    /// ```rust
    /// let count = memory.loops()[0].iters;
    /// ```
    #[inline]
    pub fn loops(&self) -> &[LoopData<usize>]
        ensures { map loop_of result.now ≡ (held self.now).loops }
    {
        &self.loops
    }

    /// The marks of a group. Asks that it is there.
    ///
    /// ```rust
    /// let start = memory.group_data(0).start;
    /// ```
    #[inline]
    pub fn group_data(&self, group: usize) -> GroupData<usize>
        requires { group < length (held self.now).groups }
        ensures { marks_of result ≡ get_or (held self.now).groups group unset }
    {
        self.groups[group]
    }

    /// Writes a loop's data, with no record. Asks that it is there.
    ///
    /// ```rust
    /// memory.restore_loop(0, LoopData::new(5));
    /// ```
    #[inline]
    pub fn restore_loop(&mut self, id: usize, value: LoopData<usize>)
        requires { id < length (held self.old).loops }
        ensures { held self.new ≡ record (held self.old) { loops = slice_set (held self.old).loops id (loop_of value) } }
    {
        self.loops[id] = value;
    }

    /// Writes a group's marks, with no record. Asks that it is there.
    ///
    /// ```rust
    /// memory.restore_group(0, GroupData::new());
    /// ```
    #[inline]
    pub fn restore_group(&mut self, group: usize, value: GroupData<usize>)
        requires { group < length (held self.old).groups }
        ensures { held self.new ≡ record (held self.old) { groups = slice_set (held self.old).groups group (marks_of value) } }
    {
        self.groups[group] = value;
    }

    /// Writes a loop's data, and records the old ones, where there is anything to go back to.
    #[inline(always)]
    pub(crate) fn write_loop(&mut self, id: usize, value: LoopData<usize>) -> Result<(), AllocError>
        requires { id < length (held self.old).loops }
        ensures { OnOk result (held self.new ≡ loop_written id (loop_of value) (held self.old)) }
    {
        self.record_loop(id)?;
        self.restore_loop(id, value);
        Ok(())
    }

    /// Writes a group's marks, and records the old ones, where there is anything to go back to.
    #[inline(always)]
    pub(crate) fn write_group(
        &mut self,
        group: usize,
        value: GroupData<usize>,
    ) -> Result<(), AllocError>
        requires { group < length (held self.old).groups }
        ensures { OnOk result (held self.new ≡ group_written group (marks_of value) (held self.old)) }
    {
        self.record_group(group)?;
        self.restore_group(group, value);
        Ok(())
    }
}
