//! Iterations that are one character of a class each.
ghost use Rattle.std.specs.Prelude.{◌≡◌, ◌+◌, ◌-◌, ◌^◌, ◌<◌, true, get_or, length, IfSome, OnOk};
ghost use Rattle.regress_engine_insn.specs.Instructions.{Instruction, Stands, alt};
ghost use Rattle.regress_engine_code.specs.Standing.{program_of};
ghost use Rattle.regress_engine_input.specs.Views.{reading_of};
ghost use Rattle.regress_engine_runs.specs.Meets.{IsAtPlace};
ghost use Rattle.regress_engine_search.specs.Search.{Suits};
ghost use Rattle.regress_engine_analysis.specs.Planned.{is_class};
ghost use Rattle.regress_engine_undo.specs.Held.{held};
ghost use Rattle.regress_engine_attempt.specs.Attempts.{world};
ghost use Rattle.regress_engine_trying.specs.Passing.{Passes};
ghost use Rattle.regress_engine_trying.specs.Trying.{BeginsMore, IsHeldIn, Steps};
ghost use Rattle.regress_engine_attempt.specs.Turns.{IsTurnAt, LeadsOut};

use crate::attempt::Attempt;
use crate::counts::Counts;
use regress_engine_advance::is_dead;
use regress_engine_insn::{Insn, LoopFields};
use regress_engine_search::ExecutorInput;
use regress_engine_singles::{Taken, taken_ahead, turn_at};
use regress_engine_undo::{Memory, Spot};
use std::alloc::AllocError;

/// Iterations of a repetition that are one character of a class each, as long as that takes one.
#[derive(Debug, Clone, Copy)]
struct Turn<'p> {
    /// The class.
    class: &'p Insn,
    /// The repetition.
    repetition: &'p LoopFields,
    /// Where it begins.
    begin: usize,
    /// Where an iteration of it ends.
    again: usize,
}

/// How many more iterations of a repetition there may be, of which so many have begun.
#[inline]
fn left(repetition: &LoopFields, count: usize) -> usize
    ensures left { result ≡ repetition.now.max_iters - count }
    ensures room { repetition.now.max_iters < 2 ^ 64 }
{
    repetition.max_iters.saturating_sub(count)
}

/// Writes that more iterations have begun, of a repetition of which so many had, the last one at an offset.
#[inline]
fn begin_more(
    turn: &Turn<'_>,
    count: usize,
    taken: &Taken,
    memory: &mut Memory,
    spot: &mut Spot,
) -> Result<(), AllocError>
    requires there { turn.now.repetition.now.loop_id < length (held memory.old).loops }
    requires count { count + taken.now.before < 2 ^ 64 }
    requires begin { turn.now.begin + 1 < 2 ^ 64 }
    ensures written { OnOk result (BeginsMore turn.now.repetition.now.loop_id count taken.now (held memory.old) (held memory.new)) }
    ensures forward { OnOk result (spot.new.forward ≡ spot.old.forward) }
{
    if taken.before == 0 {
        return Ok(());
    }
    spot.offset = taken.last;
    let id = turn.repetition.loop_id as usize;
    memory.iterate(id, count + taken.before - 1, turn.begin, spot)?;
    Ok(())
}

impl<'a, Input: ExecutorInput> Attempt<'a, Input> {
    /// Whether iterations begin at an address that are one character of a class each, as is known of the program.
    #[inline]
    pub(crate) fn is_turn_at(&self, at: usize) -> bool
        ensures { result ≡ true → (i : Instruction) × Stands (program_of self.now.program.now) (at + 1) i × (is_class i ≡ true) }
    {
        turn_at(self.program, at).is_some()
    }

    /// The iterations that begin at an address with two ways, of which the first is a class alone and, where it takes one, the only one.
    fn turn(&self, at: usize, second: usize) -> Option<Turn<'_>>
        requires suits { Suits (program_of self.now.program.now) (Input.view self.now.input) }
        requires stands { Stands (program_of self.now.program.now) at (alt second) }
        requires room { at + 1 < 2 ^ 64 }
        ensures { IfSome result (λ t. IsTurnAt (world Input.view self.now) at second t) }
    {
        let found = turn_at(self.program, at)?;
        let begin = found.begin as usize;
        let Insn::EnterLoop(repetition) = self.instruction(begin) else {
            return None;
        };
        Some(Turn {
            class: self.instruction(at + 1),
            repetition,
            begin,
            again: found.again as usize,
        })
    }

    /// Where it continues behind all iterations that the class takes: where the last one ends, or behind the repetition if all else fails.
    fn way_on(&self, turn: &Turn<'_>, second: usize, count: usize, offset: usize) -> usize
        requires { Suits (program_of self.now.program.now) (Input.view self.now.input) }
        ensures { LeadsOut (world Input.view self.now) turn.now second count offset result }
    {
        if count < turn.repetition.min_iters {
            return turn.again;
        }
        if is_dead(self.program, &self.input, second, true, offset) {
            return turn.repetition.exit as usize;
        }
        turn.again
    }

    /// Does all iterations of one character each, where so many have begun, and goes on behind them; by the other way where there are none.
    fn turn_on(
        &self,
        turn: &Turn<'_>,
        second: usize,
        count: usize,
        counts: &mut Counts,
        memory: &mut Memory,
        spot: &mut Spot,
    ) -> Result<(), AllocError>
        requires suits { Suits (program_of self.now.program.now) (Input.view self.now.input) }
        requires sound { IsHeldIn (world Input.view self.now) (held memory.old) }
        requires stands { Stands (program_of self.now.program.now) spot.old.at (alt second) }
        requires turn { IsTurnAt (world Input.view self.now) spot.old.at second turn.now }
        requires entered { get_or (held memory.old).loops turn.now.repetition.now.loop_id (0, 0) ≡ (count, spot.old.offset) }
        requires room { spot.old.at + 1 < 2 ^ 64 }
        requires forward { spot.old.forward ≡ true }
        requires place { IsAtPlace (reading_of (Input.view self.now.input)) spot.old.offset }
        ensures leads { OnOk result (Steps (world Input.view self.now) spot.old (held memory.old) spot.new (held memory.new) (Some true)) }
        ensures counted { OnOk result (Passes (Input.view self.now.input) 1 counts.old.more counts.new.more) }
        ensures sound { OnOk result (IsHeldIn (world Input.view self.now) (held memory.new)) }
    {
        let more = left(turn.repetition, count);
        let Some(taken) = taken_ahead(self.program, &self.input, turn.class, more, spot.offset)
        else {
            spot.at = second;
            return Ok(());
        };
        counts.pass(spot.offset, taken.past);
        let begun = count + taken.before;
        begin_more(turn, count, &taken, memory, spot)?;
        spot.offset = taken.past;
        if taken.before >= more {
            spot.at = turn.again;
            return Ok(());
        }
        spot.at = self.way_on(turn, second, begun, taken.past);
        Ok(())
    }

    /// Does an alternative with which iterations begin that are one character of a class each. It is apart so that no step makes room for it.
    #[inline(never)]
    pub(crate) fn choose(
        &self,
        second: usize,
        counts: &mut Counts,
        memory: &mut Memory,
        spot: &mut Spot,
    ) -> Result<(), AllocError>
        requires suits { Suits (program_of self.now.program.now) (Input.view self.now.input) }
        requires sound { IsHeldIn (world Input.view self.now) (held memory.old) }
        requires stands { Stands (program_of self.now.program.now) spot.old.at (alt second) }
        requires room { spot.old.at + 1 < 2 ^ 64 }
        requires place { IsAtPlace (reading_of (Input.view self.now.input)) spot.old.offset }
        ensures leads { OnOk result (Steps (world Input.view self.now) spot.old (held memory.old) spot.new (held memory.new) (Some true)) }
        ensures counted { OnOk result (Passes (Input.view self.now.input) 1 counts.old.more counts.new.more) }
        ensures sound { OnOk result (IsHeldIn (world Input.view self.now) (held memory.new)) }
    {
        if spot.forward {
            if let Some(turn) = self.turn(spot.at, second) {
                let entered = memory.loop_data(turn.repetition.loop_id as usize);
                if entered.entry == spot.offset {
                    return self.turn_on(&turn, second, entered.iters, counts, memory, spot);
                }
            }
        }
        if is_dead(self.program, &self.input, second, spot.forward, spot.offset) {
            spot.at += 1;
            return Ok(());
        }
        memory.fork(second, spot)?;
        Ok(())
    }
}
