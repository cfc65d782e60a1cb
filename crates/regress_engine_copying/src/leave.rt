//! How a goal is left: that of a lookaround or an atomic group, or that of the whole program.
ghost use Rattle.std.specs.Prelude.{◌≡◌, [], option_map, IfOk, IfSome};
ghost use Rattle.regress_engine_insn.specs.Instructions.{Program};
ghost use Rattle.regress_engine_search.specs.Tasks.{HasGroups};
ghost use Rattle.regress_engine_copying.specs.StateOf.{state_of};
ghost use Rattle.regress_engine_copying.specs.Held.{held, frame_of};
ghost use Rattle.regress_engine_copying.specs.Sound.{IsWhole, AreSound};
ghost use Rattle.regress_engine_copying.specs.Stepping.{Leaves, Unwinds, submatch_at};

use crate::stack::{Frame, Pending, Stack};
use crate::state::State;
use std::alloc::AllocError;

impl Stack {
    /// Takes off what waits down to the innermost lookaround or atomic group whose contents are tried, or all where there is none.
    fn unwind(&mut self) -> Option<(Frame, State)>
        ensures outside { Unwinds (held self.old) (option_map submatch_at result) (held self.new) }
        ensures sound { (program : Program) → AreSound program (held self.old).entries → AreSound program (held self.new).entries × IfSome (option_map submatch_at result) (λ x. HasGroups program x.0 × IsWhole program x.1) }
    {
        while let Some(pending) = self.pop() {
            match pending {
                Pending::Tried(state) => drop(state),
                Pending::Submatch(frame, state) => return Some((frame, state)),
            }
        }
        None
    }

    /// Leaves a goal at which a state is: that of a lookaround or an atomic group, behind which the run then continues, or fails; or
    /// that of the whole program, and answers the state.
    pub(crate) fn leave(&mut self, found: State) -> Result<Option<State>, AllocError>
        requires { (program : Program) × AreSound program (held self.old).entries × IsWhole program (state_of found) }
        ensures leaves { IfOk result (λ left. Leaves (state_of found) (held self.old) (option_map state_of left) (held self.new)) }
        ensures sound { IfOk result (λ left. (program : Program) → AreSound program (held self.old).entries → IsWhole program (state_of found) → AreSound program (held self.new).entries) }
    {
        let Some((frame, mut state)) = self.unwind() else {
            return Ok(Some(found));
        };
        self.forward = frame.forward;
        if frame.kind.is_negated() {
            return Ok(None);
        }
        state.take_groups(frame.first, frame.last, &found);
        state.at = frame.continuation;
        state.offset = frame.kind.end_offset(state.offset, found.offset);
        self.push(state)?;
        Ok(None)
    }
}
