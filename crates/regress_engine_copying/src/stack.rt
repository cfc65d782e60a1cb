//! What waits to be tried.
ghost use Rattle.std.specs.Prelude.{◌≡◌, ◌+◌, ◌^◌, ◌<◌, ◌∷◌, [], None, true, map, option_map, option_to_list, reverse, IfOk, MatchOption, OnOk};
ghost use Rattle.regress_meaning.specs.Inputs.{Input};
ghost use Rattle.regress_engine_insn.specs.Instructions.{Program};
ghost use Rattle.regress_engine_runs.specs.States.{onward};
ghost use Rattle.regress_engine_search.specs.Submatches.{submatch_of, reads_forward};
ghost use Rattle.regress_engine_search.specs.Tasks.{Leads};
ghost use Rattle.regress_engine_copying.specs.StateOf.{state_of};
ghost use Rattle.regress_engine_copying.specs.Held.{held, entry_of, frame_of, tried, submatched, pushed, put};
ghost use Rattle.regress_engine_copying.specs.Tasks.{task_of};
ghost use Rattle.regress_engine_copying.specs.Sound.{StaysSound};

use crate::state::State;
use regress_engine_search::Submatch;
use regress_front_core::CaptureGroupID;
use std::alloc::{AllocError, Global};

/// A lookaround or an atomic group whose contents are tried.
#[derive(Debug, Clone, Copy)]
pub(crate) struct Frame {
    /// Which it is.
    pub(crate) kind: Submatch,
    /// The first group inside.
    pub(crate) first: CaptureGroupID,
    /// The first group behind.
    pub(crate) last: CaptureGroupID,
    /// Where it goes on.
    pub(crate) continuation: usize,
    /// Whether the text is read forward outside of it.
    pub(crate) forward: bool,
}

/// What waits on a stack.
#[derive(Debug, Drop)]
pub(crate) enum Pending {
    /// A state to be tried.
    Tried(State),
    /// A lookaround or an atomic group, and the state at it: there is no other way through its contents.
    Submatch(Frame, State),
}

/// The states that are still to be tried, the next one on top, and whether they are read forward, up to the topmost lookaround or
/// atomic group.
#[derive(Debug, Drop)]
pub(crate) struct Stack {
    pending: Vec<Pending>,
    pub(crate) forward: bool,
}

impl Stack {
    /// Nothing waits yet.
    pub(crate) fn new(alloc: Global) -> Stack {
        Stack {
            pending: Vec::new(alloc),
            forward: true,
        }
    }

    /// Begins anew with one state, which is read forward.
    pub(crate) fn begin(&mut self, state: State) -> Result<(), AllocError>
        ensures { OnOk result (held self.new ≡ record { forward = true; entries = tried (state_of state) ∷ [] }) }
    {
        self.pending.clear();
        self.forward = true;
        self.push(state)
    }

    /// Puts a state on top.
    pub(crate) fn push(&mut self, state: State) -> Result<(), AllocError>
        ensures { OnOk result (held self.new ≡ put (state_of state ∷ []) (held self.old)) }
    {
        self.pending.push(Pending::Tried(state))?;
        Ok(())
    }

    /// Puts copies of a state on top that stand at an address and each of some offsets, the last of them topmost.
    pub(crate) fn push_each(
        &mut self,
        state: &State,
        at: usize,
        offsets: &[usize],
    ) -> Result<(), AllocError>
        ensures { OnOk result (held self.new ≡ put (map (λ o. record (state_of state.now) { at = at; offset = o }) (reverse offsets.now)) (held self.old)) }
    {
        for offset in offsets {
            let mut copy = state.copy_at(at)?;
            copy.offset = *offset;
            self.push(copy)?;
        }
        Ok(())
    }

    /// Begins to try the contents of a lookaround or an atomic group, at which a state is.
    pub(crate) fn begin_submatch(&mut self, frame: Frame, state: State) -> Result<(), AllocError>
        requires { state.at + 1 < 2 ^ 64 }
        ensures { OnOk result (held self.new ≡ record { forward = reads_forward (submatch_of frame.kind) frame.forward; entries = tried (onward (state_of state)) ∷ submatched (frame_of frame (state_of state)) (state_of state) ∷ (held self.old).entries }) }
    {
        let inside = state.copy_at(state.at + 1)?;
        self.pending.push(Pending::Submatch(frame, state))?;
        self.forward = frame.kind.reads_forward(frame.forward);
        self.push(inside)
    }

    /// Takes the topmost off.
    pub(crate) fn pop(&mut self) -> Option<Pending>
        ensures { MatchOption result ((held self.new ≡ held self.old) × ((held self.old).entries ≡ [])) (λ pending. held self.old ≡ pushed (entry_of pending) (held self.new)) }
    {
        self.pending.pop()
    }

    /// The state that is to be tried where something is taken off: itself, or behind a lookaround whose contents have no match,
    /// where it is negated.
    fn resume(&mut self, pending: Pending) -> Option<State>
        ensures leads { (program : Program) → (input : Input) → Leads program input 0 (task_of [] (pushed (entry_of pending) (held self.old))) (task_of (option_to_list (option_map state_of result)) (held self.new)) }
        ensures rest { (held self.new).entries ≡ (held self.old).entries }
        ensures sound { StaysSound (pushed (entry_of pending) (held self.old)) (option_map state_of result) (held self.new) }
    {
        match pending {
            Pending::Tried(state) => Some(state),
            Pending::Submatch(frame, mut state) => {
                self.forward = frame.forward;
                if !frame.kind.is_negated() {
                    return None;
                }
                state.at = frame.continuation;
                Some(state)
            }
        }
    }

    /// Takes the state off that is to be tried next; `None` where nothing is left.
    pub(crate) fn next(&mut self) -> Option<State>
        ensures leads { (program : Program) → (input : Input) → Leads program input 0 (task_of [] (held self.old)) (task_of (option_to_list (option_map state_of result)) (held self.new)) }
        ensures exhausted { result ≡ None → (held self.new).entries ≡ [] }
        ensures sound { StaysSound (held self.old) (option_map state_of result) (held self.new) }
    {
        while let Some(pending) = self.pop() {
            if let Some(state) = self.resume(pending) {
                return Some(state);
            }
        }
        None
    }
}
