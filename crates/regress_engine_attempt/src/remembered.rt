//! What is remembered of failures, so that a state that surely fails is dropped.
ghost use Rattle.std.specs.Prelude.{◌≡◌, false, true, length, nat_lt, IfOk, IfSome, OnOk};
ghost use Rattle.regress_engine_code.specs.Standing.{program_of};
ghost use Rattle.regress_engine_input.specs.Views.{direction_of};
ghost use Rattle.regress_engine_memory.specs.Needs.{need};
ghost use Rattle.regress_engine_memory.specs.TableViews.{needs_of};
ghost use Rattle.regress_engine_runs.specs.Runs.{room};
ghost use Rattle.regress_engine_search.specs.Search.{Suits};
ghost use Rattle.regress_engine_undo.specs.Held.{held, undo_of, pushed};
ghost use Rattle.regress_engine_attempt.specs.Attempts.{Remembers, has_begun, world};
ghost use Rattle.regress_engine_trying.specs.Passing.{MayUndoMore, Passes, PassesIf};
ghost use Rattle.regress_engine_trying.specs.Remembering.{AreOf, Begins, Drops, IsUnderWay, MayUndo};
ghost use Rattle.regress_engine_trying.specs.Trying.{IsHeldIn, Steps, World};

use crate::attempt::Attempt;
use crate::counts::Counts;
use regress_engine_advance::units_ahead;
use regress_engine_insn::Insn;
use regress_engine_memory::{Failures, FlowTable};
use regress_engine_search::ExecutorInput;
use regress_engine_undo::{Memory, Spot, Undo};
use regress_front_core::GroupData;
use std::alloc::{AllocError, Global};

/// What a search remembers of failures takes at most so many bytes: 64 MB. What would take more is not remembered.
pub const MOST_REMEMBERED: usize = 1 << 26;

/// The same in blocks of 32 bytes.
const MOST_BLOCKS: usize = MOST_REMEMBERED / 32;

/// What is remembered of failures in one text, of one program.
#[derive(Debug, Drop)]
pub struct Remembered {
    alloc: Global,
    /// What is counted while runs go on.
    pub(crate) counts: Counts,
    /// Whether that has been begun.
    is_begun: bool,
    /// What is known to fail, where it is kept.
    failures: Option<Box<Failures>>,
}

impl Remembered {
    /// Nothing is remembered. Failures are kept once more was undone and passed over than normal searches do in a text of so many units.
    ///
    /// ```rust
    /// let mut remembered = Remembered::new(alloc, 1000);
    /// ```
    pub fn new(alloc: Global, length: usize) -> Remembered
        ensures { (w : World) → Remembers w result }
    {
        Remembered {
            alloc,
            counts: Counts {
                spare: length.saturating_add(64).saturating_mul(64),
                more: 0,
            },
            is_begun: false,
            failures: None,
        }
    }

    /// Whether more was undone and passed over than normal searches do, so that failures are kept, if there is memory for them.
    ///
    /// ```rust
    /// let is_kept = remembered.has_begun();
    /// ```
    #[inline]
    pub fn has_begun(&self) -> bool
        ensures { result ≡ has_begun self.now }
    {
        self.is_begun
    }
}

impl<'a, Input: ExecutorInput> Attempt<'a, Input> {
    /// Whether the instruction at an address chooses between ways.
    #[inline]
    fn is_choice(&self, at: usize) -> bool {
        matches!(
            self.program.insns().get(at),
            Some(
                Insn::Alt { .. }
                    | Insn::EnterLoop(_)
                    | Insn::LoopAgain { .. }
                    | Insn::Loop1CharBody { .. }
            )
        )
    }

    /// Whether the state at a spot is known to fail. If not, it is recorded that it is tried, where two ways may lead on.
    #[inline]
    fn is_known(
        &self,
        memory: &mut Memory,
        failures: &Failures,
        spot: &Spot,
    ) -> Result<bool, AllocError>
        requires sound { IsHeldIn (world Input.view self.now) (held memory.old) }
        requires so { AreOf (world Input.view self.now) failures.now }
        ensures leads { IfOk result (Drops (world Input.view self.now) spot.now (held memory.old) (held memory.new)) }
        ensures sound { OnOk result (IsHeldIn (world Input.view self.now) (held memory.new)) }
        ensures loops { OnOk result ((held memory.new).loops ≡ (held memory.old).loops) }
        ensures groups { OnOk result ((held memory.new).groups ≡ (held memory.old).groups) }
    {
        if !self.is_choice(spot.at) {
            return Ok(false);
        }
        if failures.is_known_here(spot, memory.loops()) {
            return Ok(true);
        }
        memory.push(Undo::Tried {
            at: spot.at,
            offset: spot.offset,
        })?;
        Ok(false)
    }

    /// Whether fewer units of the text are left at a spot than a run from there takes.
    #[inline]
    fn is_short(&self, failures: &Failures, spot: &Spot) -> bool
        ensures { result ≡ nat_lt (room (length (Input.view self.now.input).units) (direction_of spot.now.forward) spot.now.offset)
            (need (needs_of failures.now.table) spot.now.at) }
    {
        units_ahead(&self.input, spot.forward, spot.offset) < failures.need(spot.at)
    }

    /// Whether the state at a spot fails, for want of text or as is known. If not, it may be recorded that it is tried.
    #[inline(never)]
    fn surely_fails(
        &self,
        memory: &mut Memory,
        failures: &Failures,
        spot: &Spot,
    ) -> Result<bool, AllocError>
        requires suits { Suits (program_of self.now.program.now) (Input.view self.now.input) }
        requires sound { IsHeldIn (world Input.view self.now) (held memory.old) }
        requires tried { IsUnderWay (world Input.view self.now) true spot.now (held memory.old) }
        requires so { AreOf (world Input.view self.now) failures.now }
        ensures leads { IfOk result (Drops (world Input.view self.now) spot.now (held memory.old) (held memory.new)) }
        ensures sound { OnOk result (IsHeldIn (world Input.view self.now) (held memory.new)) }
        ensures loops { OnOk result ((held memory.new).loops ≡ (held memory.old).loops) }
        ensures groups { OnOk result ((held memory.new).groups ≡ (held memory.old).groups) }
    {
        if self.is_short(failures, spot) {
            return Ok(true);
        }
        self.is_known(memory, failures, spot)
    }

    /// Begins the instruction at a spot where failures are kept: drops the state there if it surely fails, or does a
    /// one-character loop that may take the whole text and whose exits may fail. It answers whether it continues, or `None` where the instruction is still to be done.
    #[inline(never)]
    fn begin_known(
        &self,
        memory: &mut Memory,
        failures: &mut Failures,
        counts: &mut Counts,
        spot: &mut Spot,
    ) -> Result<Option<bool>, AllocError>
        requires suits { Suits (program_of self.now.program.now) (Input.view self.now.input) }
        requires sound { IsHeldIn (world Input.view self.now) (held memory.old) }
        requires tried { IsUnderWay (world Input.view self.now) true spot.old (held memory.old) }
        requires so { AreOf (world Input.view self.now) failures.old }
        ensures leads { IfOk result (Begins (world Input.view self.now) spot.old (held memory.old) spot.new (held memory.new)) }
        ensures sound { OnOk result (IsHeldIn (world Input.view self.now) (held memory.new)) }
        ensures counted { IfOk result (λ begun. PassesIf (Input.view self.now.input) begun counts.old.more counts.new.more) }
        ensures so { AreOf (world Input.view self.now) failures.new }
    {
        if self.surely_fails(memory, failures, spot)? {
            return Ok(Some(false));
        }
        let Insn::Loop1CharBody {
            min_iters,
            max_iters,
            greedy,
        } = self.instruction(spot.at)
        else {
            return Ok(None);
        };
        // (behind a loop that ends contents nothing fails)
        if *max_iters < self.text_len() || self.is_goal(spot.at.saturating_add(2)) {
            return Ok(None);
        }
        let going = self.repeat_known(
            *min_iters, *max_iters, *greedy, memory, failures, counts, spot,
        )?;
        Ok(Some(going))
    }

    /// Begins the instruction at a spot, if failures are kept.
    #[inline(always)]
    fn begin(
        &self,
        memory: &mut Memory,
        remembered: &mut Remembered,
        spot: &mut Spot,
    ) -> Result<Option<bool>, AllocError>
        requires suits { Suits (program_of self.now.program.now) (Input.view self.now.input) }
        requires sound { IsHeldIn (world Input.view self.now) (held memory.old) }
        requires tried { IsUnderWay (world Input.view self.now) true spot.old (held memory.old) }
        requires so { Remembers (world Input.view self.now) remembered.old }
        ensures leads { IfOk result (Begins (world Input.view self.now) spot.old (held memory.old) spot.new (held memory.new)) }
        ensures sound { OnOk result (IsHeldIn (world Input.view self.now) (held memory.new)) }
        ensures counted { IfOk result (λ begun. PassesIf (Input.view self.now.input) begun remembered.old.counts.more remembered.new.counts.more) }
        ensures so { Remembers (world Input.view self.now) remembered.new }
    {
        match &mut remembered.failures {
            Some(failures) => self.begin_known(memory, failures, &mut remembered.counts, spot),
            None => Ok(None),
        }
    }

    /// Does the instruction at a spot, as `step` does; or drops the state there, where that is known to fail.
    #[inline(always)]
    pub(crate) fn try_step(
        &self,
        memory: &mut Memory,
        answer: &mut Vec<GroupData<usize>>,
        remembered: &mut Remembered,
        spot: &mut Spot,
    ) -> Result<Option<bool>, AllocError>
        requires suits { Suits (program_of self.now.program.now) (Input.view self.now.input) }
        requires sound { IsHeldIn (world Input.view self.now) (held memory.old) }
        requires tried { IsUnderWay (world Input.view self.now) true spot.old (held memory.old) }
        requires so { Remembers (world Input.view self.now) remembered.old }
        ensures leads { IfOk result (Steps (world Input.view self.now) spot.old (held memory.old) spot.new (held memory.new)) }
        ensures sound { IfOk result (λ left. IfSome left (λ going. IsHeldIn (world Input.view self.now) (held memory.new))) }
        ensures counted { OnOk result (Passes (Input.view self.now.input) 1 remembered.old.counts.more remembered.new.counts.more) }
        ensures so { Remembers (world Input.view self.now) remembered.new }
    {
        match self.begin(memory, remembered, spot)? {
            Some(going) => Ok(Some(going)),
            None => {
                let left = self.step(memory, answer, &mut remembered.counts, spot)?;
                Ok(left)
            }
        }
    }

    /// What is known to fail at first: nothing. `None` where the program's table does not pass its test, or memory is refused.
    #[cold]
    fn nothing_known(&self, alloc: Global) -> Option<Box<Failures>>
        ensures { IfSome result (λ failures. AreOf (world Input.view self.now) failures.value) }
    {
        let loops = self.program.loops() as usize;
        let Ok(Some(table)) = FlowTable::of(alloc, self.program.insns(), loops) else {
            return None;
        };
        match Box::new(alloc, Failures::new(alloc, table, MOST_BLOCKS)) {
            Ok(failures) => Some(failures),
            Err(_) => None,
        }
    }

    /// Keeps failures from now on, if that much was undone and passed over that no normal search does.
    #[inline]
    pub(crate) fn keep_failures(&self, remembered: &mut Remembered)
        requires { Remembers (world Input.view self.now) remembered.old }
        ensures so { Remembers (world Input.view self.now) remembered.new }
        ensures kept { remembered.new.counts ≡ remembered.old.counts }
    {
        if remembered.counts.spare > 0 || remembered.is_begun {
            return;
        }
        remembered.is_begun = true;
        remembered.failures = self.nothing_known(remembered.alloc);
    }

    /// Learns what a record shows that is about to be undone: where it is that of a state that was tried, no run from there has an answer.
    pub(crate) fn learn(
        &self,
        undo: &Undo,
        memory: &Memory,
        remembered: &mut Remembered,
        spot: &Spot,
    )
        requires suits { Suits (program_of self.now.program.now) (Input.view self.now.input) }
        requires sound { IsHeldIn (world Input.view self.now) (pushed (undo_of undo.now) (held memory.now)) }
        requires tried { IsUnderWay (world Input.view self.now) false spot.now (pushed (undo_of undo.now) (held memory.now)) }
        requires so { Remembers (world Input.view self.now) remembered.old }
        ensures so { Remembers (world Input.view self.now) remembered.new }
        ensures kept { remembered.new.counts ≡ remembered.old.counts }
    {
        let Some(failures) = &mut remembered.failures else {
            return;
        };
        let Undo::Tried { at, offset } = undo else {
            return;
        };
        let last = self.text_len();
        let there = Spot {
            at: *at,
            offset: *offset,
            forward: spot.forward,
        };
        failures.learn(&there, memory.loops(), last);
    }

    /// Undoes a record of a one-character loop where failures are kept, as `undo` does. `None` of another record, which stays to be undone.
    #[inline(never)]
    fn undo_known(
        &self,
        undo: &Undo,
        memory: &mut Memory,
        failures: &mut Failures,
        counts: &mut Counts,
        spot: &mut Spot,
    ) -> Result<Option<bool>, AllocError>
        requires suits { Suits (program_of self.now.program.now) (Input.view self.now.input) }
        requires sound { IsHeldIn (world Input.view self.now) (pushed (undo_of undo.now) (held memory.old)) }
        requires so { AreOf (world Input.view self.now) failures.old }
        ensures leads { IfOk result (MayUndo (world Input.view self.now) (undo_of undo.now) spot.old (held memory.old) spot.new (held memory.new)) }
        ensures sound { IfOk result (λ done. IfSome done (λ going. IsHeldIn (world Input.view self.now) (held memory.new))) }
        ensures counted { IfOk result (λ done. MayUndoMore (world Input.view self.now) (undo_of undo.now) spot.old (held memory.old) spot.new (held memory.new) counts.old.more counts.new.more done) }
        ensures so { AreOf (world Input.view self.now) failures.new }
    {
        match undo {
            Undo::GiveBack { at, near, far } => {
                let going = self.give_back_known(*at, *near, *far, memory, failures, spot)?;
                Ok(Some(going))
            }
            Undo::TakeOn { at, offset, left } => {
                let going = self.take_on_known(
                    *at, *offset, *offset, *left, memory, failures, counts, spot,
                )?;
                Ok(Some(going))
            }
            _ => Ok(None),
        }
    }

    /// Undoes a record of a one-character loop, if failures are kept.
    #[inline(always)]
    pub(crate) fn undo_loop(
        &self,
        undo: &Undo,
        memory: &mut Memory,
        remembered: &mut Remembered,
        spot: &mut Spot,
    ) -> Result<Option<bool>, AllocError>
        requires suits { Suits (program_of self.now.program.now) (Input.view self.now.input) }
        requires sound { IsHeldIn (world Input.view self.now) (pushed (undo_of undo.now) (held memory.old)) }
        requires so { Remembers (world Input.view self.now) remembered.old }
        ensures leads { IfOk result (MayUndo (world Input.view self.now) (undo_of undo.now) spot.old (held memory.old) spot.new (held memory.new)) }
        ensures sound { IfOk result (λ done. IfSome done (λ going. IsHeldIn (world Input.view self.now) (held memory.new))) }
        ensures counted { IfOk result (λ done. MayUndoMore (world Input.view self.now) (undo_of undo.now) spot.old (held memory.old) spot.new (held memory.new) remembered.old.counts.more remembered.new.counts.more done) }
        ensures so { Remembers (world Input.view self.now) remembered.new }
    {
        match &mut remembered.failures {
            Some(failures) => self.undo_known(undo, memory, failures, &mut remembered.counts, spot),
            None => Ok(None),
        }
    }
}
