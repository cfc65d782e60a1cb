//! The stack by which the evaluator goes through repetitions.
ghost use Rattle.std.specs.Prelude.{◌≡◌, ◌++◌, OnOk};
ghost use Rattle.regress_evaluator.specs.Repeating.{expansions, tasks_of};

use crate::state::State;
use std::alloc::AllocError;

/// A part of what a repetition leads to.
#[derive(Debug, Drop)]
pub(crate) enum Task {
    /// At most `left` more iterations go on from a state, of which `need` have to come.
    Expand {
        state: State,
        left: usize,
        need: usize,
    },
    /// A state is an outcome.
    Emit(State),
}

/// Puts more iterations from each state on a stack, the first state on top.
pub(crate) fn push_expansions(
    tasks: &mut Vec<Task>,
    mut next: Vec<State>,
    left: usize,
    need: usize,
) -> Result<(), AllocError>
    ensures { OnOk result (tasks.new.items ≡ tasks.old.items ++ expansions next.items left need) }
{
    while let Some(state) = next.pop() {
        tasks.push(Task::Expand { state, left, need })?;
    }
    Ok(())
}

/// Puts what follows a state on a stack, the most preferred on top.
///
/// `next` is what one iteration leads to from the state. After it at most `left` more come, and `need` counts it.
pub(crate) fn push_tasks(
    tasks: &mut Vec<Task>,
    greedy: bool,
    state: State,
    mut next: Vec<State>,
    left: usize,
    need: usize,
) -> Result<(), AllocError>
    ensures { OnOk result (tasks.new.items ≡ tasks.old.items ++ tasks_of greedy state next.items left need) }
{
    if need > 0 {
        return push_expansions(tasks, next, left, need - 1);
    }
    let place = state.place;
    next.retain(|found| found.place != place);
    if greedy {
        tasks.push(Task::Emit(state))?;
        return push_expansions(tasks, next, left, 0);
    }
    push_expansions(tasks, next, left, 0)?;
    tasks.push(Task::Emit(state))?;
    Ok(())
}
